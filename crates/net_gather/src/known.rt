//! The pins of a cell before open bits have places of their own.
ghost use Rattle.std.specs.Prelude.{◌≡◌, IfOk, map, replicate};
ghost use Rattle.net_wires.specs.declared.source.Source.TheVariants.{At};
ghost use Rattle.net_gather.specs.OpenPins as opens;

use crate::bits::is_given;
use crate::open_pin::{OpenPin, PinBits};
use lib_core::{List, Memory};
use net_wires::Source;
use raw_cells::{RawPin, Tied};
use std::alloc::Global;

fn known_source(tied: &Tied, source: Source) -> Source
    ensures { result ≡ opens.known_source tied.now source }
{
    match source {
        Source::Zero => Source::Zero,
        Source::One => Source::One,
        Source::Loose => Source::At(tied.digit),
        Source::At(place) => Source::At(place),
    }
}

fn known_sources(alloc: Global, tied: &Tied, sources: &[Source]) -> Result<List<Source>, Memory>
    ensures { IfOk result (λ known. known ≡ map (opens.known_source tied.now) sources.now) }
{
    let mut known = Vec::with_capacity(alloc, sources.len())?;
    for source in sources {
        known.push(known_source(tied, *source))?;
    }
    Ok(List::from_vec(known))
}

fn left_out(alloc: Global, tied: &Tied, width: u64) -> Result<List<Source>, Memory>
    ensures { IfOk result (λ known. known ≡ replicate width (At tied.now.left_out)) }
{
    let place = Source::At(tied.left_out);
    Ok(List::from_vec(Vec::from_elem(alloc, place, width as usize)?))
}

fn known_bits(alloc: Global, tied: &Tied, bits: &PinBits) -> Result<List<Source>, Memory>
    ensures { IfOk result (λ known. known ≡ opens.known_bits tied.now bits.now) }
{
    match bits {
        PinBits::Given(sources) => known_sources(alloc, tied, sources.as_slice()),
        PinBits::LeftOut(width) => left_out(alloc, tied, *width),
    }
}

fn known_pin(alloc: Global, tied: &Tied, pin: &OpenPin) -> Result<RawPin, Memory>
    ensures { IfOk result (λ known. known ≡ opens.known_pin tied.now pin.now) }
{
    Ok(RawPin {
        name: pin.name.copy(alloc)?,
        given: is_given(&pin.bits),
        drives: pin.drives,
        clock: pin.clock,
        bits: known_bits(alloc, tied, &pin.bits)?,
    })
}

/// The pins, with one place for all bits that are left out and one for all digits without a value.
pub(crate) fn known_pins(
    alloc: Global,
    tied: &Tied,
    pins: &[OpenPin],
) -> Result<List<RawPin>, Memory>
    ensures { IfOk result (λ known. known ≡ opens.known_pins tied.now pins.now) }
{
    let mut known = Vec::with_capacity(alloc, pins.len())?;
    for pin in pins {
        known.push(known_pin(alloc, tied, pin)?)?;
    }
    Ok(List::from_vec(known))
}
