//! The numbers of nets.
ghost use Rattle.std.specs.Prelude.{◌≡◌, ℕ, ◌<◌, ◌≤◌, ◌+◌, ◌^◌, length, List as Seq, map, true, IfOk, Some};
ghost use Rattle.std.specs.List.{list_all, list_any};
ghost use Rattle.net_wires.specs.Finds.{Finds};
ghost use Rattle.net_wires.specs.Nets.{bit_of, Resolves, ring_breaches};
ghost use Rattle.net_wires.specs.Numbers.{EndsWithin, find, IsBit, Numbered, Table, with_end};
ghost use Rattle.net_wires.specs.Ties.{AllInside, Follows, is_end};
ghost use Rattle.net_wires.specs.declared.link.Link.{Link as Links};
ghost use Rattle.net_wires.specs.declared.link.Link.TheVariants.{End};

use crate::breach::{BuildCode, Stop, broken};
use crate::following::Followed;
use crate::link::Link;
use crate::source::Source;
use lib_core::{List, Memory};
use net_core::Bit;
use std::alloc::Global;

/// The bits of all places, and how many nets there are.
#[derive(Debug, Drop)]
pub struct Nets {
    pub bits: List<Bit>,
    pub count: u32,
}

/// The number of the net with the end `at`, a new one where it has none.
fn number_of(table: &mut Vec<Option<u32>>, count: &mut u32, at: u32) -> u32
    requires within { at < length table.old.items }
    requires room { count.old < 4294967295 }
    ensures joined { (seen : Seq ℕ) → Table table.old.items seen → count.old ≡ length seen → Table table.new.items (with_end seen (End at)) × (count.new ≡ length (with_end seen (End at))) × (find (with_end seen (End at)) at ≡ Some result) }
    ensures few { count.new ≤ count.old + 1 }
    ensures long { length table.new.items ≡ length table.old.items }
{
    let known = table[at as usize];
    match known {
        Some(number) => number,
        None => {
            let number = *count;
            table[at as usize] = Some(number);
            *count = number + 1;
            number
        }
    }
}

/// The bit at an end.
fn bit_at(table: &mut Vec<Option<u32>>, count: &mut u32, link: Link) -> Bit
    requires end { is_end link ≡ true }
    requires within { (at : ℕ) → link ≡ End at → at < length table.old.items }
    requires room { count.old < 4294967295 }
    ensures joined { (seen : Seq ℕ) → Table table.old.items seen → count.old ≡ length seen → Table table.new.items (with_end seen link) × (count.new ≡ length (with_end seen link)) × IsBit (with_end seen link) link result }
    ensures few { count.new ≤ count.old + 1 }
    ensures long { length table.new.items ≡ length table.old.items }
{
    match link {
        Link::Zero => Bit::Zero,
        Link::To(_) => Bit::Zero,
        Link::One => Bit::One,
        Link::End(at) => Bit::Net(number_of(table, count, at)),
    }
}

/// A bit for each end, and the number of nets.
fn numbered(alloc: Global, ends: &[Link]) -> Result<(Vec<Bit>, u32), Memory>
    requires short { length ends.now < 2 ^ 31 }
    requires all { list_all is_end ends.now ≡ true }
    requires within { EndsWithin ends.now }
    ensures { IfOk result (λ r. Numbered ends.now r.0.items r.1) }
{
    let mut table = Vec::from_elem(alloc, None, ends.len())?;
    let mut bits = Vec::with_capacity(alloc, ends.len())?;
    let mut count = 0u32;
    for link in ends {
        bits.push(bit_at(&mut table, &mut count, *link))?;
    }
    Ok((bits, count))
}

fn has_ring(rings: &[bool]) -> bool
    ensures { result ≡ list_any (λ on. on) rings.now }
{
    rings.iter().any(|on| *on)
}

/// The bits of all places, or a stop where connects make a ring.
pub fn resolve(alloc: Global, followed: &Followed) -> Result<Nets, Stop>
    requires room { length followed.now.ends < 2 ^ 31 }
    requires follows { (t : Seq Links) × Follows t followed.now }
    ensures { (t : Seq Links) → Follows t followed.now → Finds result (ring_breaches followed.now.rings) (λ nets. Resolves t nets.bits nets.count) }
{
    if has_ring(followed.rings.as_slice()) {
        return Err(broken(BuildCode::CombLoop));
    }
    let (bits, count) = numbered(alloc, followed.ends.as_slice())?;
    Ok(Nets {
        bits: List::from_vec(bits),
        count,
    })
}

/// The bit that stands in a signal.
pub fn bit_of(bits: &[Bit], source: Source) -> Bit
    ensures { result ≡ bit_of bits.now source }
{
    match source {
        Source::Zero => Bit::Zero,
        Source::One => Bit::One,
        Source::Loose => Bit::Zero,
        Source::At(at) => match bits.get(at as usize) {
            Some(bit) => *bit,
            None => Bit::Zero,
        },
    }
}

/// The bits of a signal, as nets.
pub fn bits_of(alloc: Global, bits: &[Bit], sources: &[Source]) -> Result<List<Bit>, Memory>
    ensures { IfOk result (λ found. found ≡ map (bit_of bits.now) sources.now) }
{
    let mut found = Vec::with_capacity(alloc, sources.len())?;
    for source in sources {
        found.push(bit_of(bits, *source))?;
    }
    Ok(List::from_vec(found))
}
