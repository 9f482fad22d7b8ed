//! From traces to their text. Each call but the last appends to a text; without memory the text may
//! have gained a part.
ghost use Rattle.std.specs.Prelude.{◌≡◌, ◌++◌, ◌∷◌, ◌<◌, ◌^◌, ◌+◌, ◌≤◌, [], ℕ, length, take, drop, decimal, IfOk, OnOk};
ghost use Rattle.net_core.specs.Ports.{outputs_of};
ghost use Rattle.trace_text.specs.Trace as spec;

use crate::rows::{Row, rows_of};
use itoa::Buffer;
use lib_core::{List, Memory};
use net_core::Module;
use std::alloc::Global;

fn push_bytes(text: &mut Vec<u8>, bytes: &[u8]) -> Result<(), Memory>
    ensures { OnOk result (text.new.items ≡ text.old.items ++ bytes.now) }
{
    text.extend_from_slice(bytes)?;
    Ok(())
}

fn push_decimal(text: &mut Vec<u8>, number: usize) -> Result<(), Memory>
    ensures { OnOk result (text.new.items ≡ text.old.items ++ decimal number) }
{
    let mut buffer = Buffer::new();
    push_bytes(text, buffer.format(number).as_bytes())
}

fn push_digit(text: &mut Vec<u8>, bit: bool) -> Result<(), Memory>
    ensures { OnOk result (text.new.items ≡ text.old.items ++ spec.digit bit ∷ []) }
{
    text.push(if bit { b'1' } else { b'0' })?;
    Ok(())
}

/// Digits, the most significant first.
fn push_digits(text: &mut Vec<u8>, bits: &[bool]) -> Result<(), Memory>
    ensures { OnOk result (text.new.items ≡ text.old.items ++ spec.digits bits.now) }
{
    for place in (0..bits.len()).rev() {
        push_digit(text, bits[place])?;
    }
    Ok(())
}

/// The number of an event and what is printed of it.
#[tactic(auto, unfolding(crate::specs::Trace::row_head))]
fn push_head(text: &mut Vec<u8>, event: usize, row: &Row) -> Result<(), Memory>
    ensures { OnOk result (text.new.items ≡ text.old.items ++ spec.row_head event row.now) }
{
    push_decimal(text, event)?;
    push_bytes(text, b" ")?;
    push_bytes(text, row.label.as_slice())?;
    push_bytes(text, b" ")
}

/// A constant, and the end of its line.
#[tactic(auto, unfolding(crate::specs::Trace::constant_text))]
fn push_constant(text: &mut Vec<u8>, width: usize, bits: &[bool]) -> Result<(), Memory>
    ensures { OnOk result (text.new.items ≡ text.old.items ++ spec.constant_text width bits.now) }
{
    push_decimal(text, width)?;
    push_bytes(text, b"'")?;
    push_digits(text, bits)?;
    push_bytes(text, b"\n")
}

#[tactic(auto, unfolding(crate::specs::Trace::row_text))]
fn push_row(text: &mut Vec<u8>, event: usize, row: &Row, bits: &[bool]) -> Result<(), Memory>
    ensures { OnOk result (text.new.items ≡ text.old.items ++ spec.row_text event row.now bits.now) }
{
    push_head(text, event, row)?;
    push_constant(text, row.width, bits)
}

/// The first bits, as many as are wanted, and the others.
fn cut(width: usize, bits: &[bool]) -> (&[bool], &[bool])
    ensures front { result.0.now ≡ take width bits.now }
    ensures rest { result.1.now ≡ drop width bits.now }
{
    if width < bits.len() {
        bits.split_at(width)
    } else {
        (bits, &[])
    }
}

#[tactic(auto, unfolding(crate::specs::Trace::event_text))]
fn push_event(text: &mut Vec<u8>, event: usize, rows: &[Row], bits: &[bool]) -> Result<(), Memory>
    ensures { OnOk result (text.new.items ≡ text.old.items ++ spec.event_text event rows.now bits.now) }
{
    let mut left = bits;
    let mut rest = rows;
    while let [row, tail @ ..] = rest {
        let (now, later) = cut(row.width, left);
        push_row(text, event, row, now)?;
        left = later;
        rest = tail;
    }
    Ok(())
}

#[tactic(auto, unfolding(crate::specs::Trace::events_text))]
fn push_events(text: &mut Vec<u8>, rows: &[Row], run: &[List<bool>]) -> Result<(), Memory>
    ensures { OnOk result (text.new.items ≡ text.old.items ++ spec.events_text rows.now 0 run.now) }
{
    let mut event = 0;
    let mut rest = run;
    while let [bits, tail @ ..] = rest {
        push_event(text, event, rows, bits.as_slice())?;
        event += 1;
        rest = tail;
    }
    Ok(())
}

#[tactic(auto, unfolding(crate::specs::Trace::seed_text))]
fn push_seed(text: &mut Vec<u8>, seed: usize) -> Result<(), Memory>
    ensures { OnOk result (text.new.items ≡ text.old.items ++ spec.seed_text seed) }
{
    push_bytes(text, b"seed ")?;
    push_decimal(text, seed)?;
    push_bytes(text, b"\n")
}

#[tactic(auto, unfolding(crate::specs::Trace::runs_text))]
fn push_runs(text: &mut Vec<u8>, rows: &[Row], runs: &[List<List<bool>>]) -> Result<(), Memory>
    ensures { OnOk result (text.new.items ≡ text.old.items ++ spec.runs_text rows.now 0 runs.now) }
{
    let mut seed = 0;
    let mut rest = runs;
    while let [run, tail @ ..] = rest {
        push_seed(text, seed)?;
        push_events(text, rows, run.as_slice())?;
        seed += 1;
        rest = tail;
    }
    Ok(())
}

/// The text of traces: for each run, of seeds from 0 on, for each event the bits of the outputs. The
/// one error is want of memory.
#[tactic(auto, unfolding(crate::specs::Trace::trace_text))]
pub fn print_trace(
    alloc: Global,
    module: &Module,
    traces: &List<List<List<bool>>>,
) -> Result<Vec<u8>, Memory>
    ensures { IfOk result (λ text. text.items ≡ spec.trace_text «module».now traces.now) }
{
    let rows = rows_of(alloc, module)?;
    let mut text = Vec::new(alloc);
    push_runs(&mut text, rows.as_slice(), traces.as_slice())?;
    Ok(text)
}
