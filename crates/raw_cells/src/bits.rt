//! The bits at the pins of a cell.
ghost use Rattle.std.specs.Prelude.{◌≡◌, IfOk};
ghost use Rattle.std.specs.Option.{option_copied};
ghost use Rattle.net_core.specs.Ports.{nets_of};
ghost use Rattle.raw_cells.specs.Bits as spec;

use crate::raw::RawPin;
use lib_core::{List, Memory};
use net_core::Bit;
use net_core::ports::push_nets;
use net_wires::{Source, bits_of};
use std::alloc::Global;

fn pin_named<'a>(pins: &'a [RawPin], name: &[u8]) -> Option<&'a RawPin>
    ensures { option_copied result ≡ spec.pin_named pins.now name.now }
{
    pins.iter().find(|pin| pin.name.as_slice() == name)
}

/// What stands at the pin of a name; nothing where the cell has no such pin.
pub fn sources_at<'a>(pins: &'a [RawPin], name: &[u8]) -> &'a [Source]
    ensures { result.now ≡ spec.sources_at pins.now name.now }
{
    match pin_named(pins, name) {
        Some(pin) => pin.bits.as_slice(),
        None => &[],
    }
}

/// The bits at the pin of a name.
pub fn bits_at(
    alloc: Global,
    places: &[Bit],
    pins: &[RawPin],
    name: &[u8],
) -> Result<List<Bit>, Memory>
    ensures { IfOk result (λ bits. bits ≡ spec.bits_at places.now pins.now name.now) }
{
    bits_of(alloc, places, sources_at(pins, name))
}

/// The bit at a pin of one bit; 0 where the cell has no such pin. It takes no memory.
pub fn bit_at(places: &[Bit], pins: &[RawPin], name: &[u8]) -> Bit
    ensures { result ≡ spec.bit_at places.now pins.now name.now }
{
    match sources_at(pins, name) {
        [] => Bit::Zero,
        [first, ..] => net_wires::bit_of(places, *first),
    }
}

/// The nets at the pin of a name.
pub fn nets_at(
    alloc: Global,
    places: &[Bit],
    pins: &[RawPin],
    name: &[u8],
) -> Result<List<u32>, Memory>
    ensures { IfOk result (λ nets. nets ≡ nets_of (spec.bits_at places.now pins.now name.now)) }
{
    let bits = bits_at(alloc, places, pins, name)?;
    let mut nets = Vec::new(alloc);
    push_nets(&mut nets, bits.as_slice())?;
    Ok(List::from_vec(nets))
}
