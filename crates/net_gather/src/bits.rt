//! Open bits take places.
ghost use Rattle.std.specs.Prelude.{◌≡◌, ◌≤◌, ◌+◌, IfOk, replicate};
ghost use Rattle.net_wires.specs.declared.source.Source.TheVariants.{Loose};
ghost use Rattle.net_wires.specs.Settled.{settled};
ghost use Rattle.net_gather.specs.OpenPins as opens;

use crate::open_pin::{OpenPin, PinBits};
use lib_core::{List, Memory};
use net_wires::{Source, loose_count, settled};
use raw_cells::RawPin;
use std::alloc::Global;

/// So many places from `from` on.
#[tactic(auto, using(crate::proofs::Placing::place_turn, crate::proofs::Placing::place_done))]
fn places(alloc: Global, from: u32, count: u32) -> Result<List<Source>, Memory>
    requires room { from + count ≤ 4294967295 }
    ensures { IfOk result (λ bits. bits ≡ settled from (replicate count Loose)) }
{
    let mut bits = Vec::with_capacity(alloc, count as usize)?;
    let mut next = from;
    let mut left = count;
    while left > 0 {
        bits.push(Source::At(next))?;
        next += 1;
        left -= 1;
    }
    Ok(List::from_vec(bits))
}

/// How many bits of a pin are open.
pub(crate) fn bits_open(bits: &PinBits) -> u64
    ensures { result ≡ opens.bits_open bits.now }
{
    match bits {
        PinBits::Given(sources) => loose_count(sources.as_slice()) as u64,
        PinBits::LeftOut(width) => *width,
    }
}

/// How many bits a pin has.
pub(crate) fn bits_size(bits: &PinBits) -> u64
    ensures { result ≡ opens.bits_size bits.now }
{
    match bits {
        PinBits::Given(sources) => sources.as_slice().len() as u64,
        PinBits::LeftOut(width) => *width,
    }
}

/// Whether the file gives the bits of a pin.
pub(crate) fn is_given(bits: &PinBits) -> bool
    ensures { result ≡ opens.is_given bits.now }
{
    match bits {
        PinBits::Given(_) => true,
        PinBits::LeftOut(_) => false,
    }
}

fn placed_bits(alloc: Global, from: u32, bits: &PinBits) -> Result<List<Source>, Memory>
    requires room { from + opens.bits_open bits.now ≤ 4294967295 }
    ensures { IfOk result (λ list. list ≡ settled from (opens.bits_of bits.now)) }
{
    match bits {
        PinBits::Given(sources) => Ok(List::from_vec(settled(alloc, sources.as_slice(), from)?)),
        PinBits::LeftOut(width) => places(alloc, from, *width as u32),
    }
}

fn raw_pin(alloc: Global, from: u32, pin: &OpenPin) -> Result<RawPin, Memory>
    requires room { from + opens.bits_open pin.now.bits ≤ 4294967295 }
    ensures { IfOk result (λ raw. raw ≡ opens.raw_pin from pin.now) }
{
    Ok(RawPin {
        name: pin.name.copy(alloc)?,
        given: is_given(&pin.bits),
        drives: pin.drives,
        clock: pin.clock,
        bits: placed_bits(alloc, from, &pin.bits)?,
    })
}

/// The pins, with places from `from` on for their open bits.
pub(crate) fn raw_pins(alloc: Global, from: u32, pins: &[OpenPin]) -> Result<List<RawPin>, Memory>
    requires room { from + opens.open_count pins.now ≤ 4294967295 }
    ensures { IfOk result (λ raws. raws ≡ opens.raw_pins from pins.now) }
{
    let mut raws = Vec::with_capacity(alloc, pins.len())?;
    let mut next = from;
    let mut rest = pins;
    while let [pin, tail @ ..] = rest {
        raws.push(raw_pin(alloc, next, pin)?)?;
        next += bits_open(&pin.bits) as u32;
        rest = tail;
    }
    Ok(List::from_vec(raws))
}
