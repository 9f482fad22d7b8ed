//! What a line says.
ghost use Rattle.std.specs.Prelude.{◌≡◌, ◌+◌, map, slice_get};
ghost use Rattle.stim_text.specs.Inputs as inputs;
ghost use Rattle.stim_text.specs.Stimulus as says;

use crate::fault::{StimCode, Stop};
use crate::names::Span;
use crate::numbers::{number_below, value_in};
use crate::roots::Roots;
use crate::split::spoken;
use crate::tables::Tables;
use lib_core::List;
use net_core::{Bit, Edge};
use std::alloc::Global;

/// What a line says.
#[derive(Drop)]
pub enum Says {
    Nothing,
    /// Bits of inputs from a place on have new values.
    Set { start: usize, bits: List<bool> },
    /// An event ends, with this edge.
    Event(Option<Edge>),
}

/// New values of an input.
#[tactic(auto, unfolding(crate::specs::Stimulus::set_at))]
fn set_at(alloc: Global, span: Option<Span>, word: &[u8]) -> Result<Says, Stop>
    ensures { says.Gives result (says.set_at span word.now) }
{
    let Some(span) = span else {
        return Err(Stop::Refused(StimCode::Line));
    };
    let bits = value_in(alloc, span.width, word)?;
    Ok(Says::Set {
        start: span.start,
        bits,
    })
}

/// An edge of a bit.
#[tactic(auto, unfolding(crate::specs::Stimulus::edge_of))]
fn edge_of(roots: &Roots, rising: bool, bit: Option<Bit>) -> Result<Says, Stop>
    ensures { says.Gives result (says.edge_of roots.now rising bit) }
{
    match bit {
        Some(Bit::Net(net)) => {
            if roots.has(net) {
                Ok(Says::Event(Some(Edge { net, rising })))
            } else {
                Err(Stop::Refused(StimCode::Clock))
            }
        }
        Some(Bit::Zero) | Some(Bit::One) | None => Err(Stop::Refused(StimCode::Line)),
    }
}

/// The bit at an index of an input that begins at a place.
fn bit_at(bits: &[Bit], start: usize, index: usize) -> Option<Bit>
    ensures { result ≡ slice_get bits.now (start + index) }
{
    let place = start.checked_add(index)?;
    bits.get(place).copied()
}

/// An edge of the bit of an input at an index.
#[tactic(auto, unfolding(crate::specs::Stimulus::edge_at))]
fn edge_at(tables: &Tables, rising: bool, span: Option<Span>, word: &[u8]) -> Result<Says, Stop>
    ensures { says.Gives result (says.edge_at tables.now rising span word.now) }
{
    let Some(span) = span else {
        return Err(Stop::Refused(StimCode::Line));
    };
    let Some(index) = number_below(span.width, word) else {
        return Err(Stop::Refused(StimCode::Line));
    };
    edge_of(
        &tables.roots,
        rising,
        bit_at(tables.bits.as_slice(), span.start, index),
    )
}

/// Behind `set`: a wire and a constant.
#[tactic(auto, unfolding(crate::specs::Stimulus::set_words))]
fn set_words(alloc: Global, tables: &Tables, words: &[&[u8]]) -> Result<Says, Stop>
    ensures { says.Gives result (says.set_words tables.now (map (λ w. w.now) words.now)) }
{
    match words {
        [wire, value] => set_at(alloc, tables.wires.find(wire), value),
        _ => Err(Stop::Refused(StimCode::Line)),
    }
}

/// Behind `pin`: a cell, a pin and a constant.
#[tactic(auto, unfolding(crate::specs::Stimulus::pin_words))]
fn pin_words(alloc: Global, tables: &Tables, words: &[&[u8]]) -> Result<Says, Stop>
    ensures { says.Gives result (says.pin_words tables.now (map (λ w. w.now) words.now)) }
{
    match words {
        [cell, pin, value] => set_at(alloc, tables.pins.find(cell, pin), value),
        _ => Err(Stop::Refused(StimCode::Line)),
    }
}

/// Behind `go`: nothing.
#[tactic(auto, unfolding(crate::specs::Stimulus::go_words))]
fn go_words(words: &[&[u8]]) -> Result<Says, Stop>
    ensures { says.Gives result (says.go_words (map (λ w. w.now) words.now)) }
{
    match words {
        [] => Ok(Says::Event(None)),
        _ => Err(Stop::Refused(StimCode::Line)),
    }
}

/// Behind `rise` or `fall`: a wire, or a cell and a pin, and an index.
#[tactic(auto, unfolding(crate::specs::Stimulus::edge_words))]
fn edge_words(tables: &Tables, rising: bool, words: &[&[u8]]) -> Result<Says, Stop>
    ensures { says.Gives result (says.edge_words tables.now rising (map (λ w. w.now) words.now)) }
{
    match words {
        [wire, index] => edge_at(tables, rising, tables.wires.find(wire), index),
        [cell, pin, index] => edge_at(tables, rising, tables.pins.find(cell, pin), index),
        _ => Err(Stop::Refused(StimCode::Line)),
    }
}

/// A line by its first word.
#[tactic(auto, unfolding(crate::specs::Stimulus::command))]
fn command(alloc: Global, tables: &Tables, first: &[u8], words: &[&[u8]]) -> Result<Says, Stop>
    ensures { says.Gives result (says.command tables.now first.now (map (λ w. w.now) words.now)) }
{
    if first == b"set".as_slice() {
        set_words(alloc, tables, words)
    } else if first == b"pin".as_slice() {
        pin_words(alloc, tables, words)
    } else if first == b"go".as_slice() {
        go_words(words)
    } else if first == b"rise".as_slice() {
        edge_words(tables, true, words)
    } else if first == b"fall".as_slice() {
        edge_words(tables, false, words)
    } else {
        Err(Stop::Refused(StimCode::Line))
    }
}

fn words_say(alloc: Global, tables: &Tables, words: &[&[u8]]) -> Result<Says, Stop>
    ensures { says.Gives result (says.words_say tables.now (map (λ w. w.now) words.now)) }
{
    match words {
        [] => Ok(Says::Nothing),
        [first, rest @ ..] => command(alloc, tables, first, rest),
    }
}

/// What a line says.
#[tactic(auto, unfolding(crate::specs::Stimulus::line_says))]
pub fn line_says(alloc: Global, tables: &Tables, line: &[u8]) -> Result<Says, Stop>
    ensures { says.Gives result (says.line_says tables.now line.now) }
{
    let words = spoken(alloc, line)?;
    words_say(alloc, tables, words.as_slice())
}
