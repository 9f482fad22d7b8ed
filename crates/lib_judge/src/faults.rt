//! The fault of a RAM.
ghost use Rattle.std.specs.Prelude.{◌≡◌, ◌||◌, ◌≤◌, ◌<◌, ◌+◌, ◌++◌, ◌∷◌, [], IfOk, OnOk, length, map, false};
ghost use Rattle.std.specs.List.{flat_map};
ghost use Rattle.lib_judge.specs.Faults.{all_options, any_bad, any_costly, any_high, any_large, any_many, any_missing, any_twice, any_wide, fault, fault_of, first_of, is_large, is_wide, judge_of, judges_of, last_from, limit_fault, limit_of, many_names, named_twice, ram_fault, rows_to_judge};
ghost use Rattle.lib_judge.specs.Names.{names_of_all, names_repeat};

use crate::judge::{Sizes, is_bad, is_missing, is_twice, sizes_of};
use crate::names::{Names, distinct};
use crate::raw::{RawPort, RawRam};
use crate::sketch::sketch_of;
use crate::variants::{capped_count, has_name, rows};
use lib_core::{Choice, Duplicate, List, Memory, Name, is_cell_name};
use lib_tree::LibCode;
use std::alloc::Global;

/// What is wrong with a variant of a RAM, and which limits it passes.
#[derive(Clone, Copy, Debug, PartialEq, Eq)]
pub struct Judged {
    pub twice: bool,
    pub missing: bool,
    pub bad_widths: bool,
    /// More than 8 widths.
    pub many_widths: bool,
    /// More than 20 address bits.
    pub high_abits: bool,
    /// A width of more than 1,024 bits.
    pub wide: bool,
    /// A cost above 1,048,576.
    pub costly: bool,
    /// More than 4,194,304 bits.
    pub large: bool,
}

/// A fault of a RAM, and one more than the limit that it passes.
#[derive(Clone, Copy, Debug, PartialEq, Eq)]
pub struct RamFault {
    pub code: LibCode,
    pub seen: u64,
}

#[tactic(auto, unfolding(crate::specs::Faults::last_from))]
fn last_from(first: u32, widths: &[u32]) -> u32
    ensures { result ≡ last_from first widths.now }
{
    let mut last = first;
    let mut rest = widths;
    while let [width, tail @ ..] = rest {
        last = *width;
        rest = tail;
    }
    last
}

/// Whether the words of the last width have more bits together than are taken.
fn is_large(sizes: &Sizes) -> bool
    ensures { result ≡ is_large sizes.now }
{
    if sizes.abits > 20 {
        return false;
    }
    let widths = sizes.widths.as_slice();
    let levels = widths.len().saturating_sub(1);
    let address_bits = (sizes.abits as usize).saturating_sub(levels);
    (4194304u32 >> address_bits as u32) < last_from(0, widths)
}

fn is_wide(widths: &[u32]) -> bool
    ensures { result ≡ is_wide widths.now }
{
    widths.iter().any(|width| *width > 1024)
}

fn judge_of(alloc: Global, known: &Names, ram: &RawRam, row: &[Choice]) -> Result<Judged, Memory>
    requires { known.now ≡ names_of_all ram.now.ports }
    ensures { IfOk result (λ judged. judged ≡ judge_of ram.now row.now) }
{
    let sketch = sketch_of(alloc, ram, row)?;
    let sizes = sizes_of(alloc, sketch.items.as_slice())?;
    Ok(Judged {
        twice: is_twice(known, ram.ports.as_slice(), &sketch),
        missing: is_missing(known, ram.ports.as_slice(), &sketch),
        bad_widths: is_bad(&sizes, &sketch),
        many_widths: sizes.widths.as_slice().len() > 8,
        high_abits: sizes.abits > 20,
        wide: is_wide(sizes.widths.as_slice()),
        costly: sizes.cost > 1048576,
        large: is_large(&sizes),
    })
}

fn judges_of(
    alloc: Global,
    known: &Names,
    ram: &RawRam,
    rows: &[List<Choice>],
) -> Result<Vec<Judged>, Memory>
    requires { known.now ≡ names_of_all ram.now.ports }
    ensures { IfOk result (λ judges. judges.items ≡ judges_of ram.now rows.now) }
{
    let mut judges = Vec::new(alloc);
    let mut rest = rows;
    while let [row, tail @ ..] = rest {
        judges.push(judge_of(alloc, known, ram, row.as_slice())?)?;
        rest = tail;
    }
    Ok(judges)
}

fn any_twice(judges: &[Judged]) -> bool
    ensures { result ≡ any_twice judges.now }
{
    judges.iter().any(|judged| judged.twice)
}

fn any_missing(judges: &[Judged]) -> bool
    ensures { result ≡ any_missing judges.now }
{
    judges.iter().any(|judged| judged.missing)
}

fn any_bad(judges: &[Judged]) -> bool
    ensures { result ≡ any_bad judges.now }
{
    judges.iter().any(|judged| judged.bad_widths)
}

fn any_many(judges: &[Judged]) -> bool
    ensures { result ≡ any_many judges.now }
{
    judges.iter().any(|judged| judged.many_widths)
}

fn any_high(judges: &[Judged]) -> bool
    ensures { result ≡ any_high judges.now }
{
    judges.iter().any(|judged| judged.high_abits)
}

fn any_wide(judges: &[Judged]) -> bool
    ensures { result ≡ any_wide judges.now }
{
    judges.iter().any(|judged| judged.wide)
}

fn any_costly(judges: &[Judged]) -> bool
    ensures { result ≡ any_costly judges.now }
{
    judges.iter().any(|judged| judged.costly)
}

fn any_large(judges: &[Judged]) -> bool
    ensures { result ≡ any_large judges.now }
{
    judges.iter().any(|judged| judged.large)
}

/// Whether a group has more than 8 names.
fn many_names(ports: &[RawPort]) -> bool
    ensures { result ≡ many_names ports.now }
{
    ports.iter().any(|port| port.names.as_slice().len() > 8)
}

fn add_names(alloc: Global, names: &mut Vec<Name>, more: &[Name]) -> Result<(), Memory>
    ensures { OnOk result (names.new.items ≡ names.old.items ++ more.now) }
{
    for name in more {
        names.push(name.copy(alloc)?)?;
    }
    Ok(())
}

/// The names of all ports.
fn names_of_all(alloc: Global, ports: &[RawPort]) -> Result<Vec<Name>, Memory>
    ensures { IfOk result (λ names. names.items ≡ names_of_all ports.now) }
{
    let mut names = Vec::new(alloc);
    let mut rest = ports;
    while let [port, tail @ ..] = rest {
        add_names(alloc, &mut names, port.names.as_slice())?;
        rest = tail;
    }
    Ok(names)
}

fn add_options(
    alloc: Global,
    options: &mut Vec<List<Choice>>,
    more: &[List<Choice>],
) -> Result<(), Memory>
    ensures { OnOk result (options.new.items ≡ options.old.items ++ more.now) }
{
    for option in more {
        options.push(option.duplicate(alloc)?)?;
    }
    Ok(())
}

/// The options of the ports behind those that are there.
fn port_options(
    alloc: Global,
    mut options: Vec<List<Choice>>,
    ports: &[RawPort],
) -> Result<Vec<List<Choice>>, Memory>
    ensures { IfOk result (λ all. all.items ≡ options.items ++ flat_map (λ port. port.options) ports.now) }
{
    let mut rest = ports;
    while let [port, tail @ ..] = rest {
        add_options(alloc, &mut options, port.options.as_slice())?;
        rest = tail;
    }
    Ok(options)
}

/// The options of the RAM, then those of its ports.
pub fn all_options(alloc: Global, ram: &RawRam) -> Result<Vec<List<Choice>>, Memory>
    ensures { IfOk result (λ options. options.items ≡ all_options ram.now) }
{
    let mut options = Vec::new(alloc);
    add_options(alloc, &mut options, ram.options.as_slice())?;
    port_options(alloc, options, ram.ports.as_slice())
}

/// The rows of choices in which a RAM is judged: all, or none where they are too many.
fn rows_to_judge(alloc: Global, options: &[List<Choice>]) -> Result<Vec<List<Choice>>, Memory>
    ensures { IfOk result (λ found. found.items ≡ rows_to_judge options.now) }
{
    if capped_count(options) > 256 {
        return Ok(Vec::new(alloc));
    }
    rows(alloc, options)
}

/// One more than the first limit that is passed.
fn limit_of(earlier: usize, variants: usize, ports: &[RawPort], judges: &[Judged]) -> Option<u64>
    ensures { result ≡ limit_of earlier variants ports.now judges.now }
{
    if earlier >= 64 {
        Some(65)
    } else if variants > 256 {
        Some(257)
    } else if ports.len() > 4 {
        Some(5)
    } else if many_names(ports) || any_many(judges) {
        Some(9)
    } else if any_high(judges) {
        Some(21)
    } else if any_wide(judges) {
        Some(1025)
    } else if any_costly(judges) {
        Some(1048577)
    } else if any_large(judges) {
        Some(4194305)
    } else {
        None
    }
}

fn fault(code: LibCode) -> Option<RamFault>
    ensures { result ≡ fault code }
{
    Some(RamFault { code, seen: 0 })
}

/// Whether a name is one that it may not be.
fn named_twice(earlier: &[Name], ram: &RawRam) -> bool
    requires { names_repeat (names_of_all ram.now.ports) ≡ false }
    ensures { result ≡ named_twice earlier.now ram.now (names_of_all ram.now.ports) }
{
    let of_cell = is_cell_name(ram.name.as_slice());
    let of_ram = has_name(earlier, &ram.name);
    either(of_cell, of_ram)
}

fn either(a: bool, b: bool) -> bool
    ensures { result ≡ (a || b) }
{
    a || b
}

fn limit_fault(limit: Option<u64>) -> Option<RamFault>
    ensures { result ≡ limit_fault limit }
{
    match limit {
        Some(seen) => Some(RamFault {
            code: LibCode::Limit,
            seen,
        }),
        None => None,
    }
}

/// The first of the faults that there are.
fn first_of(twice: bool, missing: bool, bad_widths: bool, limit: Option<u64>) -> Option<RamFault>
    ensures { result ≡ first_of twice missing bad_widths limit }
{
    if twice {
        fault(LibCode::Twice)
    } else if missing {
        fault(LibCode::Missing)
    } else if bad_widths {
        fault(LibCode::BadWidths)
    } else {
        limit_fault(limit)
    }
}

/// The first fault of a RAM behind others with these names, by what is wrong with its variants.
fn fault_of(earlier: &[Name], ram: &RawRam, variants: usize, judges: &[Judged]) -> Option<RamFault>
    requires { names_repeat (names_of_all ram.now.ports) ≡ false }
    ensures { result ≡ fault_of earlier.now ram.now variants judges.now }
{
    let twice = named_twice(earlier, ram) || any_twice(judges);
    let missing = ram.ports.as_slice().is_empty() || any_missing(judges);
    let limit = limit_of(earlier.len(), variants, ram.ports.as_slice(), judges);
    first_of(twice, missing, any_bad(judges), limit)
}

/// The first fault of a RAM behind others with these names, none of whose own names stands twice.
fn fault_behind(
    alloc: Global,
    earlier: &[Name],
    known: &Names,
    ram: &RawRam,
) -> Result<Option<RamFault>, Memory>
    requires known { known.now ≡ names_of_all ram.now.ports }
    requires once { names_repeat (names_of_all ram.now.ports) ≡ false }
    ensures { IfOk result (λ fault. fault ≡ ram_fault earlier.now ram.now) }
{
    let options = all_options(alloc, ram)?;
    let variants = capped_count(options.as_slice());
    let rows = rows_to_judge(alloc, options.as_slice())?;
    let judges = judges_of(alloc, known, ram, rows.as_slice())?;
    Ok(fault_of(earlier, ram, variants, judges.as_slice()))
}

/// The first fault of a RAM behind others with these names.
pub fn ram_fault(alloc: Global, earlier: &[Name], ram: &RawRam) -> Result<Option<RamFault>, Memory>
    ensures { IfOk result (λ fault. fault ≡ ram_fault earlier.now ram.now) }
{
    let names = names_of_all(alloc, ram.ports.as_slice())?;
    match distinct(alloc, names.as_slice())? {
        Some(known) => fault_behind(alloc, earlier, &known, ram),
        None => Ok(fault(LibCode::Twice)),
    }
}
