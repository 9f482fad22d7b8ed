//! Digits that are neither 0 nor 1.
ghost use Rattle.std.specs.Prelude.{◌≡◌, ◌++◌, IfOk, OnOk};
ghost use Rattle.std.specs.List.{flat_map};
ghost use Rattle.net_gather.specs.Laws.{places_from};
ghost use Rattle.net_checks.specs.ClockPins as spec;

use lib_core::Memory;
use net_gather::Gathered;
use net_wires::{Source, tied_digits};
use raw_cells::{RawCell, RawPin};
use std::alloc::Global;

/// Puts the places among bits behind others that do not come before `from`.
fn push_from(places: &mut Vec<u32>, from: u32, bits: &[Source]) -> Result<(), Memory>
    ensures { OnOk result (places.new.items ≡ places.old.items ++ places_from from bits.now) }
{
    let mut rest = bits;
    while let [bit, tail @ ..] = rest {
        if let Source::At(place) = *bit {
            if place >= from {
                places.push(place)?;
            }
        }
        rest = tail;
    }
    Ok(())
}

fn push_pin(places: &mut Vec<u32>, wires: u32, pin: &RawPin) -> Result<(), Memory>
    ensures { OnOk result (places.new.items ≡ places.old.items ++ spec.pin_digits wires pin.now) }
{
    if pin.given && !pin.drives {
        push_from(places, wires, pin.bits.as_slice())?;
    }
    Ok(())
}

fn push_cell(places: &mut Vec<u32>, wires: u32, cell: &RawCell) -> Result<(), Memory>
    ensures { OnOk result (places.new.items ≡ places.old.items ++ spec.cell_digits wires cell.now) }
{
    let pins = cell.pins.as_slice();
    for pin in pins {
        push_pin(places, wires, pin)?;
    }
    Ok(())
}

/// The places that a digit that is neither 0 nor 1 drives.
pub(crate) fn digits(alloc: Global, gathered: &Gathered) -> Result<Vec<u32>, Memory>
    ensures { IfOk result (λ places. places.items ≡ spec.digits gathered.now) }
{
    let mut places = tied_digits(alloc, gathered.pairs.as_slice())?;
    let cells = gathered.cells.as_slice();
    for cell in cells {
        push_cell(&mut places, gathered.wire_places, cell)?;
    }
    Ok(places)
}
