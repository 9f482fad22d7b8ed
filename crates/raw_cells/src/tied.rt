//! What connects alone tell of the places of a module.
ghost use Rattle.std.specs.Prelude.{◌≡◌, ◌<◌, ◌^◌, map, slice_set, false, true, IfOk};
ghost use Rattle.net_wires.specs.declared.clock.ClockRoot.TheVariants.{Root};
ghost use Rattle.net_wires.specs.Links.{PairsWithin};
ghost use Rattle.raw_cells.specs.Tied as spec;

use lib_core::{List, Memory};
use net_core::Bit;
use net_wires::{ClockRoot, Link, Pair, follow, tied_digits};
use std::alloc::Global;

/// What connects alone tell of the places of a module.
#[derive(Debug, Drop)]
pub struct Tied {
    /// The place that stands for all bits that pins leave out.
    pub left_out: u32,
    /// The place that stands for all digits without a value at pins.
    pub digit: u32,
    /// The bits of the places of wires, and of these two. What is no constant is a net of any number.
    pub places: List<Bit>,
    /// The clocks of these places. What is no digit of a constant leads to a net of any number.
    pub roots: List<ClockRoot>,
}

fn mark(marks: &mut Vec<bool>, place: u32)
    ensures { marks.new.items ≡ slice_set marks.old.items place true }
{
    let at = place as usize;
    if at < marks.len() {
        marks[at] = true;
    }
}

fn mark_all(marks: &mut Vec<bool>, places: &[u32])
    ensures { marks.new.items ≡ spec.marked marks.old.items places.now }
{
    let mut rest = places;
    while let [place, tail @ ..] = rest {
        mark(marks, *place);
        rest = tail;
    }
}

/// The places that a connect drives by a digit without a value.
fn digits_of(alloc: Global, count: u32, pairs: &[Pair]) -> Result<Vec<bool>, Memory>
    ensures { IfOk result (λ digits. digits.items ≡ spec.digits_of count pairs.now) }
{
    let mut marks = Vec::from_elem(alloc, false, count as usize)?;
    let places = tied_digits(alloc, pairs)?;
    mark_all(&mut marks, places.as_slice());
    Ok(marks)
}

fn end_bit(link: Link) -> Bit
    ensures { result ≡ spec.end_bit link }
{
    match link {
        Link::Zero => Bit::Zero,
        Link::One => Bit::One,
        Link::End(_) => Bit::Net(0),
        Link::To(_) => Bit::Net(0),
    }
}

fn is_digit(digits: &[bool], place: u32) -> bool
    ensures { result ≡ spec.is_digit digits.now place }
{
    match digits.get(place as usize) {
        Some(digit) => *digit,
        None => false,
    }
}

fn some_root(count: u32) -> ClockRoot
    ensures { result ≡ Root count false }
{
    ClockRoot::Root {
        place: count,
        flipped: false,
    }
}

fn end_root(count: u32, digits: &[bool], link: Link) -> ClockRoot
    ensures { result ≡ spec.end_root count digits.now link }
{
    match link {
        Link::Zero => ClockRoot::Never,
        Link::One => ClockRoot::Never,
        Link::End(end) => {
            if is_digit(digits, end) {
                ClockRoot::Never
            } else {
                some_root(count)
            }
        }
        Link::To(_) => some_root(count),
    }
}

fn end_bits(alloc: Global, ends: &[Link]) -> Result<Vec<Bit>, Memory>
    ensures { IfOk result (λ bits. bits.items ≡ map spec.end_bit ends.now) }
{
    let mut bits = Vec::with_capacity(alloc, ends.len())?;
    for link in ends {
        bits.push(end_bit(*link))?;
    }
    Ok(bits)
}

fn end_roots(
    alloc: Global,
    count: u32,
    digits: &[bool],
    ends: &[Link],
) -> Result<Vec<ClockRoot>, Memory>
    ensures { IfOk result (λ roots. roots.items ≡ map (spec.end_root count digits.now) ends.now) }
{
    let mut roots = Vec::with_capacity(alloc, ends.len())?;
    for link in ends {
        roots.push(end_root(count, digits, *link))?;
    }
    Ok(roots)
}

/// What the connects of these pairs tell of `count` places of wires, and of the two behind them.
pub fn tied_of(alloc: Global, count: u32, pairs: &[Pair]) -> Result<Tied, Memory>
    requires room { count < 2 ^ 31 }
    requires within { PairsWithin count pairs.now }
    ensures { IfOk result (λ tied. tied ≡ spec.tied_of count pairs.now) }
{
    let followed = follow(alloc, count, pairs)?;
    let digits = digits_of(alloc, count, pairs)?;
    let mut places = end_bits(alloc, followed.ends.as_slice())?;
    places.push(Bit::Net(0))?;
    places.push(Bit::Net(0))?;
    let mut roots = end_roots(alloc, count, digits.as_slice(), followed.ends.as_slice())?;
    roots.push(some_root(count))?;
    roots.push(ClockRoot::Never)?;
    Ok(Tied {
        left_out: count,
        digit: count + 1,
        places: List::from_vec(places),
        roots: List::from_vec(roots),
    })
}
