//! Bits as signals of a document.
ghost use Rattle.std.specs.Prelude.{◌≡◌, ◌-◌, ◌++◌, [], map, slice_get, Some, None, IfOk, OnOk};
ghost use Rattle.net_draft.specs.Signals as spec;

use crate::counts::count_of;
use crate::homes::Home;
use lib_core::{List, Memory, Name};
use net_core::Bit;
use rtlil_text::{Digit, DocConst, Part};
use std::alloc::Global;

/// A wire as signals name it.
#[derive(Drop)]
pub struct Face {
    pub name: Name,
    pub width: u32,
}

/// The wires of a document, and the bits of them at which nets are at home.
#[derive(Drop)]
pub struct Sheet {
    pub faces: List<Face>,
    pub homes: List<Option<Home>>,
}

/// What stands at a bit of a signal.
#[derive(Clone, Copy)]
pub enum Spot {
    Digit(Digit),
    At(Home),
}

/// What is written for a bit: a constant, or the home of a net. A net without a home is open.
fn spot_of(homes: &[Option<Home>], bit: Bit) -> Spot
    ensures { result ≡ spec.spot_of homes.now bit }
{
    match bit {
        Bit::Zero => Spot::Digit(Digit::Zero),
        Bit::One => Spot::Digit(Digit::One),
        Bit::Net(net) => match homes.get(net as usize) {
            Some(home) => home_spot(*home),
            None => Spot::Digit(Digit::X),
        },
    }
}

fn home_spot(home: Option<Home>) -> Spot
    ensures { result ≡ spec.spot_at (Some home) }
{
    match home {
        Some(home) => Spot::At(home),
        None => Spot::Digit(Digit::X),
    }
}

/// What is written for bits, the most significant first.
fn spots_of(alloc: Global, homes: &[Option<Home>], bits: &[Bit]) -> Result<Vec<Spot>, Memory>
    ensures { IfOk result (λ spots. spots.items ≡ spec.spots_of homes.now bits.now) }
{
    Ok(
        bits.iter()
            .rev()
            .map(|bit| spot_of(homes, *bit))
            .collect(alloc)?,
    )
}

/// Whether the second is the next lower bit of the same wire.
fn is_below(high: Home, low: Home) -> bool
    ensures { result ≡ spec.is_below high low }
{
    high.wire == low.wire && u64::from(high.bit) == u64::from(low.bit) + 1
}

/// Whether two neighbours stand in one part.
fn is_next(high: Spot, low: Spot) -> bool
    ensures { result ≡ spec.is_next high low }
{
    match high {
        Spot::Digit(_) => match low {
            Spot::Digit(_) => true,
            Spot::At(_) => false,
        },
        Spot::At(above) => match low {
            Spot::Digit(_) => false,
            Spot::At(below) => is_below(above, below),
        },
    }
}

fn leads_on(high: Spot, behind: &[Spot]) -> bool
    ensures { result ≡ spec.leads_on high behind.now }
{
    match behind {
        [] => true,
        [low, ..] => is_next(high, *low),
    }
}

/// Whether neighbours all stand in one part.
#[tactic(auto, unfolding(crate::specs::Signals::is_one_run))]
fn is_one_run(spots: &[Spot]) -> bool
    ensures { result ≡ spec.is_one_run spots.now }
{
    let mut rest = spots;
    while let [high, tail @ ..] = rest {
        if !leads_on(*high, tail) {
            return false;
        }
        rest = tail;
    }
    true
}

/// Whether a run goes on with a further spot.
fn goes_on(before: Option<Spot>, spot: Spot) -> bool
    ensures { result ≡ spec.goes_on before spot }
{
    match before {
        None => true,
        Some(before) => is_next(before, spot),
    }
}

/// Whether these are all bits of a wire.
fn is_whole(face: &Face, high: u32, low: u32) -> bool
    ensures { result ≡ spec.is_whole face.now high low }
{
    low == 0 && u64::from(face.width) == u64::from(high) + 1
}

/// The bits of a wire from low to high.
pub fn slice_parts(alloc: Global, face: &Face, high: u32, low: u32) -> Result<Vec<Part>, Memory>
    ensures { IfOk result (λ parts. parts.items ≡ spec.slice_parts face.now high low) }
{
    let mut parts = Vec::new(alloc);
    parts.push(Part::Wire(face.name.copy(alloc)?))?;
    if !is_whole(face, high, low) {
        parts.push(Part::Slice { high, low })?;
    }
    Ok(parts)
}

fn digit_of(spot: Spot) -> Digit
    ensures { result ≡ spec.digit_of spot }
{
    match spot {
        Spot::Digit(digit) => digit,
        Spot::At(_) => Digit::X,
    }
}

fn each_digit(alloc: Global, run: &[Spot]) -> Result<Vec<Digit>, Memory>
    ensures { IfOk result (λ digits. digits.items ≡ map (λ s. spec.digit_of s) run.now) }
{
    Ok(run.iter().map(|spot| digit_of(*spot)).collect(alloc)?)
}

/// A constant of these digits.
fn digits_of(alloc: Global, run: &[Spot]) -> Result<Vec<Part>, Memory>
    ensures { IfOk result (λ parts. parts.items ≡ spec.digits_of run.now) }
{
    let digits = each_digit(alloc, run)?;
    let mut parts = Vec::new(alloc);
    parts.push(Part::Fixed(DocConst::Digits(List::from_vec(digits))))?;
    Ok(parts)
}

/// The place so far below another. A place below 0 counts as want of memory.
fn below(place: u32, count: usize) -> Result<u32, Memory>
    ensures { IfOk result (λ low. low ≡ place - count) }
{
    let count = count_of(count)?;
    match place.checked_sub(count) {
        Some(low) => Ok(low),
        None => Err(Memory),
    }
}

/// The bits of a wire from a home downwards, with so many behind it.
fn home_parts(alloc: Global, faces: &[Face], top: Home, behind: usize) -> Result<Vec<Part>, Memory>
    ensures { IfOk result (λ parts. parts.items ≡ spec.wire_parts (slice_get faces.now top.wire) top.bit (top.bit - behind)) }
{
    let low = below(top.bit, behind)?;
    match faces.get(top.wire as usize) {
        Some(face) => slice_parts(alloc, face, top.bit, low),
        None => Err(Memory),
    }
}

/// Neighbours that stand in one part. No bits are a constant without digits.
#[tactic(auto, unfolding(crate::specs::Signals::run_parts))]
fn run_parts(alloc: Global, faces: &[Face], run: &[Spot]) -> Result<Vec<Part>, Memory>
    ensures { IfOk result (λ parts. parts.items ≡ spec.run_parts faces.now run.now) }
{
    match run {
        [] => digits_of(alloc, run),
        [top, behind @ ..] => match *top {
            Spot::Digit(_) => digits_of(alloc, run),
            Spot::At(top) => home_parts(alloc, faces, top, behind.len()),
        },
    }
}

/// Puts what is written for spots at the end, run by run.
#[tactic(auto, unfolding(crate::specs::Signals::runs_parts))]
fn push_runs(
    alloc: Global,
    parts: &mut Vec<Part>,
    faces: &[Face],
    spots: &[Spot],
) -> Result<(), Memory>
    ensures { OnOk result (parts.new.items ≡ parts.old.items ++ spec.runs_parts faces.now [] None spots.now) }
{
    let mut run: Vec<Spot> = Vec::new(alloc);
    let mut before: Option<Spot> = None;
    let mut rest = spots;
    while let [spot, tail @ ..] = rest {
        if !goes_on(before, *spot) {
            push_run(alloc, parts, faces, run.as_slice())?;
            run = Vec::new(alloc);
        }
        run.push(*spot)?;
        before = Some(*spot);
        rest = tail;
    }
    push_run(alloc, parts, faces, run.as_slice())?;
    Ok(())
}

fn push_run(
    alloc: Global,
    parts: &mut Vec<Part>,
    faces: &[Face],
    run: &[Spot],
) -> Result<(), Memory>
    ensures { OnOk result (parts.new.items ≡ parts.old.items ++ spec.run_parts faces.now run.now) }
{
    let mut here = run_parts(alloc, faces, run)?;
    parts.append(&mut here)?;
    Ok(())
}

/// Several runs, in braces.
fn group_parts(alloc: Global, faces: &[Face], spots: &[Spot]) -> Result<Vec<Part>, Memory>
    ensures { IfOk result (λ parts. parts.items ≡ (spec.begin ++ spec.runs_parts faces.now [] None spots.now) ++ spec.end) }
{
    let mut parts = Vec::new(alloc);
    parts.push(Part::Begin)?;
    push_runs(alloc, &mut parts, faces, spots)?;
    parts.push(Part::End)?;
    Ok(parts)
}

/// What is written for spots: one run alone stands without braces.
fn spots_parts(alloc: Global, faces: &[Face], spots: &[Spot]) -> Result<Vec<Part>, Memory>
    ensures { IfOk result (λ parts. parts.items ≡ spec.spots_parts faces.now spots.now) }
{
    if is_one_run(spots) {
        run_parts(alloc, faces, spots)
    } else {
        group_parts(alloc, faces, spots)
    }
}

/// The signal of these bits, which stand low bit first.
#[tactic(auto, unfolding(crate::specs::Signals::signal))]
pub fn signal(alloc: Global, sheet: &Sheet, bits: &[Bit]) -> Result<List<Part>, Memory>
    ensures { IfOk result (λ parts. parts ≡ spec.signal sheet.now bits.now) }
{
    let spots = spots_of(alloc, sheet.homes.as_slice(), bits)?;
    let parts = spots_parts(alloc, sheet.faces.as_slice(), spots.as_slice())?;
    Ok(List::from_vec(parts))
}
