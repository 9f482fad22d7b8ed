//! Where clocks come from.
ghost use Rattle.std.specs.Prelude.{◌≡◌, ◌≤◌, ◌++◌, IfOk, OnOk};
ghost use Rattle.net_wires.specs.Spans.{wire_bits};
ghost use Rattle.net_checks.specs.ClockPins as spec;

use crate::marking::{Port, port_bits};
use crate::sources::push_driven;
use lib_core::Memory;
use net_wires::Source;
use raw_cells::{CellShape, RawCell};
use rtlil_text::Item;
use std::alloc::Global;

fn push_roots(bits: &mut Vec<Source>, cell: &RawCell) -> Result<(), Memory>
    ensures { OnOk result (bits.new.items ≡ bits.old.items ++ spec.cell_roots cell.now) }
{
    if let CellShape::Carried(_) = &cell.shape {
        push_driven(bits, cell)?;
    }
    Ok(())
}

/// The bits of inputs, and those that cells drive that are kept as they are.
fn root_bits(alloc: Global, items: &[Item], cells: &[RawCell]) -> Result<Vec<Source>, Memory>
    requires { wire_bits items.now ≤ 4294967295 }
    ensures { IfOk result (λ bits. bits.items ≡ spec.root_bits items.now cells.now) }
{
    let mut bits = port_bits(alloc, Port::Input, items)?;
    for cell in cells {
        push_roots(&mut bits, cell)?;
    }
    Ok(bits)
}

/// The places among bits.
fn places_in(alloc: Global, bits: &[Source]) -> Result<Vec<u32>, Memory>
    ensures { IfOk result (λ places. places.items ≡ spec.places_in bits.now) }
{
    let mut places = Vec::new(alloc);
    let mut rest = bits;
    while let [bit, tail @ ..] = rest {
        if let Source::At(place) = *bit {
            places.push(place)?;
        }
        rest = tail;
    }
    Ok(places)
}

/// The places that clocks may come from.
pub(crate) fn root_places(
    alloc: Global,
    items: &[Item],
    cells: &[RawCell],
) -> Result<Vec<u32>, Memory>
    requires { wire_bits items.now ≤ 4294967295 }
    ensures { IfOk result (λ places. places.items ≡ spec.places_in (spec.root_bits items.now cells.now)) }
{
    let bits = root_bits(alloc, items, cells)?;
    places_in(alloc, bits.as_slice())
}
