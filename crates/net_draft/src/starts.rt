//! The attribute `\init` of wires: what nets are at the start.
ghost use Rattle.std.specs.Prelude.{◌≡◌, IfOk, replicate, slice_set};
ghost use Rattle.lib_core.specs.declared.library.Tri.TheVariants.{Any};
ghost use Rattle.std.specs.List.{list_any};
ghost use Rattle.net_core.specs.Shape.{is_defined};
ghost use Rattle.net_draft.specs.Starts as spec;

use cell_consts::attr_bits;
use lib_core::{Memory, Tri};
use net_core::{Attr, Bit, Carried, Pin, Reg, Wire};
use std::alloc::Global;

/// What wires say of the start of a net.
#[derive(Clone, Copy)]
pub enum Start {
    /// This value.
    Is(Tri),
    /// What they said before.
    Kept,
}

fn put_start(starts: &mut Vec<Start>, net: u32, start: Start)
    ensures { starts.new.items ≡ slice_set starts.old.items net start }
{
    let at = net as usize;
    if at < starts.len() {
        starts[at] = start;
    }
}

/// Notes the values of nets.
#[tactic(auto, unfolding(crate::specs::Starts::put_values))]
fn put_values(starts: &mut Vec<Start>, nets: &[u32], values: &[Tri])
    ensures { starts.new.items ≡ spec.put_values starts.old.items nets.now values.now }
{
    let mut left = values;
    let mut rest = nets;
    while let [net, tail @ ..] = rest {
        let [value, more @ ..] = left else {
            return;
        };
        put_start(starts, *net, Start::Is(*value));
        left = more;
        rest = tail;
    }
}

#[tactic(auto, unfolding(crate::specs::Starts::put_regs))]
fn put_regs(starts: &mut Vec<Start>, regs: &[Reg])
    ensures { starts.new.items ≡ spec.put_regs starts.old.items regs.now }
{
    let mut rest = regs;
    while let [reg, tail @ ..] = rest {
        put_values(starts, reg.q.as_slice(), reg.init.as_slice());
        rest = tail;
    }
}

fn put_bit(starts: &mut Vec<Start>, bit: Bit)
    ensures { starts.new.items ≡ spec.put_bit starts.old.items bit }
{
    if let Bit::Net(net) = bit {
        put_start(starts, net, Start::Kept);
    }
}

#[tactic(auto, unfolding(crate::specs::Starts::put_bits))]
fn put_bits(starts: &mut Vec<Start>, bits: &[Bit])
    ensures { starts.new.items ≡ spec.put_bits starts.old.items bits.now }
{
    let mut rest = bits;
    while let [bit, tail @ ..] = rest {
        put_bit(starts, *bit);
        rest = tail;
    }
}

fn put_pin(starts: &mut Vec<Start>, pin: &Pin)
    ensures { starts.new.items ≡ spec.put_pin starts.old.items pin.now }
{
    if pin.drives {
        put_bits(starts, pin.bits.as_slice());
    }
}

#[tactic(auto, unfolding(crate::specs::Starts::put_pins))]
fn put_pins(starts: &mut Vec<Start>, pins: &[Pin])
    ensures { starts.new.items ≡ spec.put_pins starts.old.items pins.now }
{
    let mut rest = pins;
    while let [pin, tail @ ..] = rest {
        put_pin(starts, pin);
        rest = tail;
    }
}

#[tactic(auto, unfolding(crate::specs::Starts::put_cells))]
fn put_cells(starts: &mut Vec<Start>, cells: &[Carried])
    ensures { starts.new.items ≡ spec.put_cells starts.old.items cells.now }
{
    let mut rest = cells;
    while let [cell, tail @ ..] = rest {
        put_pins(starts, cell.pins.as_slice());
        rest = tail;
    }
}

/// For each net the start of the register that drives it. Of the outputs of carried cells wires keep
/// what they said, and other nets have no start.
pub fn starts_of(
    alloc: Global,
    nets: u32,
    regs: &[Reg],
    cells: &[Carried],
) -> Result<Vec<Start>, Memory>
    ensures { IfOk result (λ starts. starts.items ≡ spec.starts_of nets regs.now cells.now) }
{
    let mut starts = Vec::from_elem(alloc, Start::Is(Tri::Any), nets as usize)?;
    put_regs(&mut starts, regs);
    put_cells(&mut starts, cells);
    Ok(starts)
}

/// Whether it is the attribute `\init`.
pub fn is_init(attr: &Attr) -> bool
    ensures { result ≡ spec.is_init attr.now }
{
    attr.name.as_slice() == b"\\init".as_slice()
}

fn is_defined(start: Tri) -> bool
    ensures { result ≡ is_defined start }
{
    match start {
        Tri::Any => false,
        Tri::Zero | Tri::One => true,
    }
}

/// The first of two that is 0 or 1.
fn or_else(first: Tri, other: Tri) -> Tri
    ensures { result ≡ spec.or_else first other }
{
    match first {
        Tri::Zero => Tri::Zero,
        Tri::One => Tri::One,
        Tri::Any => other,
    }
}

/// What is said, filled up by bits where nothing is said yet.
#[tactic(auto, unfolding(crate::specs::Starts::put_after))]
fn put_after(alloc: Global, said: &[Tri], bits: &[Tri]) -> Result<Vec<Tri>, Memory>
    ensures { IfOk result (λ list. list.items ≡ spec.put_after said.now bits.now) }
{
    let mut list = Vec::with_capacity(alloc, said.len())?;
    let mut left = bits;
    let mut rest = said;
    while let [first, tail @ ..] = rest {
        let [bit, more @ ..] = left else {
            list.extend_from_slice(rest)?;
            return Ok(list);
        };
        list.push(or_else(*first, *bit))?;
        left = more;
        rest = tail;
    }
    Ok(list)
}

fn with_attr(alloc: Global, said: Vec<Tri>, attr: &Attr) -> Result<Vec<Tri>, Memory>
    ensures { IfOk result (λ list. list.items ≡ spec.with_attr said.items attr.now) }
{
    if !is_init(attr) {
        return Ok(said);
    }
    let bits = attr_bits(alloc, attr)?;
    put_after(alloc, said.as_slice(), bits.as_slice())
}

/// What the first attribute `\init` that defines a bit says of each of so many bits.
#[tactic(auto, unfolding(crate::specs::Starts::said_by))]
fn said_by(alloc: Global, width: usize, attrs: &[Attr]) -> Result<Vec<Tri>, Memory>
    ensures { IfOk result (λ list. list.items ≡ spec.said_by (replicate width Any) attrs.now) }
{
    let mut said = Vec::from_elem(alloc, Tri::Any, width)?;
    let mut rest = attrs;
    while let [attr, tail @ ..] = rest {
        said = with_attr(alloc, said, attr)?;
        rest = tail;
    }
    Ok(said)
}

/// What a wire says of a bit of which it said something before. A constant has no start.
fn start_at(starts: &[Start], bit: Bit, said: Tri) -> Tri
    ensures { result ≡ spec.start_at starts.now bit said }
{
    match bit {
        Bit::Zero | Bit::One => Tri::Any,
        Bit::Net(net) => match starts.get(net as usize) {
            Some(start) => said_or(*start, said),
            None => Tri::Any,
        },
    }
}

fn said_or(start: Start, said: Tri) -> Tri
    ensures { result ≡ spec.said_or start said }
{
    match start {
        Start::Is(value) => value,
        Start::Kept => said,
    }
}

/// What a wire says of its bits.
#[tactic(auto, unfolding(crate::specs::Starts::starts_at))]
fn starts_at(
    alloc: Global,
    starts: &[Start],
    bits: &[Bit],
    said: &[Tri],
) -> Result<Vec<Tri>, Memory>
    ensures { IfOk result (λ list. list.items ≡ spec.starts_at starts.now bits.now said.now) }
{
    let mut values = Vec::with_capacity(alloc, bits.len())?;
    let mut left = said;
    let mut rest = bits;
    while let [bit, tail @ ..] = rest {
        let [before, more @ ..] = left else {
            return Ok(values);
        };
        values.push(start_at(starts, *bit, *before))?;
        left = more;
        rest = tail;
    }
    Ok(values)
}

/// What a wire says of its bits.
pub fn wire_starts(alloc: Global, starts: &[Start], wire: &Wire) -> Result<Vec<Tri>, Memory>
    ensures { IfOk result (λ list. list.items ≡ spec.wire_starts starts.now wire.now) }
{
    let bits = wire.bits.as_slice();
    let said = said_by(alloc, bits.len(), wire.attrs.as_slice())?;
    starts_at(alloc, starts, bits, said.as_slice())
}

/// What the added wire says of its nets.
#[tactic(auto, unfolding(crate::specs::Starts::net_starts))]
pub fn net_starts(alloc: Global, starts: &[Start], nets: &[u32]) -> Result<Vec<Tri>, Memory>
    ensures { IfOk result (λ list. list.items ≡ spec.net_starts starts.now nets.now) }
{
    let mut values = Vec::with_capacity(alloc, nets.len())?;
    let mut rest = nets;
    while let [net, tail @ ..] = rest {
        values.push(start_at(starts, Bit::Net(*net), Tri::Any))?;
        rest = tail;
    }
    Ok(values)
}

/// Whether a value is 0 or 1.
pub fn any_defined(values: &[Tri]) -> bool
    ensures { result ≡ list_any is_defined values.now }
{
    values.iter().any(|value| is_defined(*value))
}
