//! What a clock pin is.
ghost use Rattle.std.specs.Prelude.{◌≡◌};
ghost use Rattle.raw_cells.specs.Clocks as spec;

use crate::bits::sources_at;
use crate::raw::RawPin;
use net_core::{Bit, Clock};
use net_wires::{ClockRoot, Source, clock_of};

/// The bit of a place; 0 past the end. It takes no memory.
pub fn place_bit(places: &[Bit], place: u32) -> Bit
    ensures { result ≡ spec.place_bit places.now place }
{
    match places.get(place as usize) {
        Some(bit) => *bit,
        None => Bit::Zero,
    }
}

fn root_clock(bit: Bit, rising: bool) -> Clock
    ensures { result ≡ spec.root_clock bit rising }
{
    match bit {
        Bit::Zero => Clock::Never,
        Bit::One => Clock::Never,
        Bit::Net(net) => Clock::Root { net, rising },
    }
}

fn clock_by(places: &[Bit], rising: bool, root: ClockRoot) -> Clock
    ensures { result ≡ spec.clock_by places.now rising root }
{
    match root {
        ClockRoot::Never => Clock::Never,
        ClockRoot::Unknown => Clock::Never,
        ClockRoot::Root { place, flipped } => {
            root_clock(place_bit(places, place), rising != flipped)
        }
    }
}

fn first_root(roots: &[ClockRoot], sources: &[Source]) -> ClockRoot
    ensures { result ≡ spec.first_root roots.now sources.now }
{
    match sources {
        [] => ClockRoot::Unknown,
        [first, ..] => clock_of(roots, *first),
    }
}

/// The clock at a pin. It takes no memory.
pub fn clock_at(
    places: &[Bit],
    roots: &[ClockRoot],
    pins: &[RawPin],
    name: &[u8],
    rising: bool,
) -> Clock
    ensures { result ≡ spec.clock_at places.now roots.now pins.now name.now rising }
{
    clock_by(places, rising, first_root(roots, sources_at(pins, name)))
}
