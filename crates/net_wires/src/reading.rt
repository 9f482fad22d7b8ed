//! The bits of a signal, read part by part.
ghost use Rattle.std.specs.Prelude.{◌≡◌, ◌≤◌, ℕ, ◌+◌, ◌++◌, List as Seq, [], length, reverse, drop, IfOk};
ghost use Rattle.net_wires.specs.Finds.{Finds};
ghost use Rattle.net_wires.specs.Parts.{bits_in, closed, opened, part_breaches, put, signal_bits, signal_breaches, sliced, start, step};
ghost use Rattle.net_wires.specs.Pieces.{piece_bits, state_of};
ghost use Rattle.net_wires.specs.Signals.{const_bits, cut, cut_breaches, run_bits, span_bits, span_breaches};
ghost use Rattle.net_wires.specs.Spans.{look, There};

use crate::breach::{BuildCode, Stop, broken};
use crate::constant::push_constant;
use crate::names::Names;
use crate::piece::{Piece, Reading, Run};
use crate::source::Source;
use lib_core::{List, Memory, Name};
use rtlil_text::{DocConst, Part};
use std::alloc::Global;

fn nothing(alloc: Global) -> Piece
    ensures { piece_bits result ≡ [] }
{
    Piece::Held {
        bits: Vec::new(alloc),
        skip: 0,
    }
}

fn begin(alloc: Global) -> Reading
    ensures { state_of result ≡ start }
{
    Reading {
        outer: Vec::new(alloc),
        before: Vec::new(alloc),
        last: nothing(alloc),
    }
}

/// Puts bits that stand side by side behind the others, the highest first.
fn push_run(bits: &mut Vec<Source>, run: Run) -> Result<(), Memory>
    ensures { IfOk result (λ _. bits.new.items ≡ bits.old.items ++ reverse (run_bits run.base run.width)) }
{
    let mut left = run.width;
    while left > 0 {
        left -= 1;
        bits.push(Source::At(run.base + left))?;
    }
    Ok(())
}

/// Puts the bits of a piece behind the others, the most significant first.
fn absorb(before: &mut Vec<Source>, last: &Piece) -> Result<(), Memory>
    ensures { IfOk result (λ _. reverse before.new.items ≡ piece_bits last.now ++ reverse before.old.items) }
{
    match last {
        Piece::Run(run) => push_run(before, *run),
        Piece::Held { bits, skip } => {
            if *skip < bits.len() {
                before.extend_from_slice(&bits[*skip..])?;
            }
            Ok(())
        }
    }
}

fn put(reading: Reading, piece: Piece) -> Result<Reading, Memory>
    ensures { IfOk result (λ next. state_of next ≡ put (state_of reading) (piece_bits piece)) }
{
    let Reading {
        outer,
        mut before,
        last,
    } = reading;
    absorb(&mut before, &last)?;
    Ok(Reading {
        outer,
        before,
        last: piece,
    })
}

fn opened(alloc: Global, reading: Reading) -> Result<Reading, Memory>
    ensures { IfOk result (λ next. state_of next ≡ opened (state_of reading)) }
{
    let Reading {
        mut outer,
        mut before,
        last,
    } = reading;
    absorb(&mut before, &last)?;
    outer.push(List::from_vec(before))?;
    Ok(Reading {
        outer,
        before: Vec::new(alloc),
        last: nothing(alloc),
    })
}

fn closed(reading: Reading) -> Result<Reading, Memory>
    ensures { IfOk result (λ next. state_of next ≡ closed (state_of reading).outer (state_of reading)) }
{
    let Reading {
        mut outer,
        mut before,
        last,
    } = reading;
    match outer.pop() {
        None => Ok(Reading {
            outer,
            before,
            last,
        }),
        Some(around) => {
            absorb(&mut before, &last)?;
            Ok(Reading {
                outer,
                before: around.into_vec(),
                last: Piece::Held {
                    bits: before,
                    skip: 0,
                },
            })
        }
    }
}

fn cut_run(run: Run, high: u32, low: u32) -> Result<Run, Stop>
    ensures { Finds result (cut_breaches high (length (run_bits run.base run.width))) (λ next. run_bits next.base next.width ≡ cut high low (run_bits run.base run.width)) }
{
    if high >= run.width {
        return Err(broken(BuildCode::Range));
    }
    let end = high + 1;
    let begin = low.min(end);
    Ok(Run {
        base: run.base + begin,
        width: end - begin,
    })
}

fn cut_held(bits: Vec<Source>, skip: usize, high: u32, low: u32) -> Result<Piece, Stop>
    ensures { Finds result (cut_breaches high (length (reverse (drop skip bits.items)))) (λ next. piece_bits next ≡ cut high low (reverse (drop skip bits.items))) }
{
    let mut bits = bits;
    let length = bits.len();
    let end = high as usize + 1;
    if end > length.saturating_sub(skip) {
        return Err(broken(BuildCode::Range));
    }
    let begin = (low as usize).min(end);
    bits.truncate(length - begin);
    Ok(Piece::Held {
        bits,
        skip: length - end,
    })
}

/// The bits from `low` to `high` of a piece. None of them is moved.
fn cut(piece: Piece, high: u32, low: u32) -> Result<Piece, Stop>
    ensures { Finds result (cut_breaches high (length (piece_bits piece))) (λ next. piece_bits next ≡ cut high low (piece_bits piece)) }
{
    match piece {
        Piece::Run(run) => Ok(Piece::Run(cut_run(run, high, low)?)),
        Piece::Held { bits, skip } => cut_held(bits, skip, high, low),
    }
}

fn sliced(reading: Reading, high: u32, low: u32) -> Result<Reading, Stop>
    ensures { Finds result (cut_breaches high (length (state_of reading).last)) (λ next. state_of next ≡ sliced high low (state_of reading)) }
{
    let Reading {
        outer,
        before,
        last,
    } = reading;
    let last = cut(last, high, low)?;
    Ok(Reading {
        outer,
        before,
        last,
    })
}

fn constant(alloc: Global, constant: &DocConst) -> Result<Piece, Memory>
    ensures { IfOk result (λ piece. piece_bits piece ≡ const_bits constant.now) }
{
    let mut bits = Vec::new(alloc);
    push_constant(&mut bits, constant)?;
    Ok(Piece::Held { bits, skip: 0 })
}

fn wire(names: &Names, name: &Name) -> Result<Piece, Stop>
    requires near { There 4294967295 names.now }
    ensures { Finds result (span_breaches (look names.now name.now)) (λ piece. piece_bits piece ≡ span_bits (look names.now name.now)) }
{
    match names.find(name.as_slice()) {
        None => Err(broken(BuildCode::NoWire)),
        Some(span) => Ok(Piece::Run(Run {
            base: span.base,
            width: span.width,
        })),
    }
}

fn step(alloc: Global, names: &Names, reading: Reading, part: &Part) -> Result<Reading, Stop>
    requires near { There 4294967295 names.now }
    ensures { Finds result (part_breaches names.now (state_of reading) part.now) (λ next. state_of next ≡ step names.now (state_of reading) part.now) }
{
    match part {
        Part::Fixed(value) => Ok(put(reading, constant(alloc, value)?)?),
        Part::Wire(name) => {
            let piece = wire(names, name)?;
            Ok(put(reading, piece)?)
        }
        Part::Slice { high, low } => sliced(reading, *high, *low),
        Part::Begin => Ok(opened(alloc, reading)?),
        Part::End => Ok(closed(reading)?),
    }
}

/// The bits that were read, low bit first.
fn finish(reading: Reading) -> Result<Vec<Source>, Memory>
    ensures { IfOk result (λ bits. bits.items ≡ bits_in (state_of reading)) }
{
    let Reading {
        outer: _,
        mut before,
        last,
    } = reading;
    absorb(&mut before, &last)?;
    before.reverse();
    Ok(before)
}

/// The bits of a signal, low bit first. It stops at the first part that names no wire (`NoWire`), or a bit outside what
/// it cuts (`Range`).
pub fn signal(alloc: Global, names: &Names, parts: &[Part]) -> Result<Vec<Source>, Stop>
    requires near { There 4294967295 names.now }
    ensures { Finds result (signal_breaches names.now parts.now) (λ bits. bits.items ≡ signal_bits names.now parts.now) }
{
    let mut reading = begin(alloc);
    let mut rest = parts;
    while let [part, tail @ ..] = rest {
        reading = step(alloc, names, reading, part)?;
        rest = tail;
    }
    Ok(finish(reading)?)
}
