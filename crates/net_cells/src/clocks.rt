//! Clock pins of memory cells.
ghost use Rattle.std.specs.Prelude.{◌≡◌, map, IfOk};
ghost use Rattle.net_cells.specs.Clocks as spec;

use lib_core::Memory;
use net_core::Bit;
use net_wires::{ClockRoot, Source, bit_of, clock_of};
use raw_cells::clocks::place_bit;
use std::alloc::Global;

fn is_flipped(root: ClockRoot) -> bool
    ensures { result ≡ spec.is_flipped root }
{
    match root {
        ClockRoot::Never => false,
        ClockRoot::Unknown => false,
        ClockRoot::Root { place: _, flipped } => flipped,
    }
}

fn flip(roots: &[ClockRoot], source: Source) -> bool
    ensures { result ≡ spec.flip roots.now source }
{
    is_flipped(clock_of(roots, source))
}

/// Whether the clock of each bit comes through an odd number of inverters.
pub(crate) fn flips(
    alloc: Global,
    roots: &[ClockRoot],
    sources: &[Source],
) -> Result<Vec<bool>, Memory>
    ensures { IfOk result (λ flips. flips.items ≡ spec.flips roots.now sources.now) }
{
    Ok(
        sources
            .iter()
            .map(|source| flip(roots, *source))
            .collect(alloc)?,
    )
}

fn bit_by(places: &[Bit], source: Source, root: ClockRoot) -> Bit
    ensures { result ≡ spec.bit_by places.now source root }
{
    match root {
        ClockRoot::Never => Bit::Zero,
        ClockRoot::Unknown => bit_of(places, source),
        ClockRoot::Root { place, flipped: _ } => place_bit(places, place),
    }
}

/// The bit of a clock pin of a memory cell: the net of its root.
pub(crate) fn clock_bit(places: &[Bit], roots: &[ClockRoot], source: Source) -> Bit
    ensures { result ≡ spec.clock_bit places.now roots.now source }
{
    bit_by(places, source, clock_of(roots, source))
}
