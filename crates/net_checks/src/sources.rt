//! Bits that stand at pins.
ghost use Rattle.std.specs.Prelude.{◌≡◌, ◌++◌, OnOk};
ghost use Rattle.std.specs.List.{flat_map};
ghost use Rattle.net_checks.specs.Driven as spec;

use lib_core::Memory;
use net_wires::Source;
use raw_cells::{RawCell, RawPin};

/// Puts bits behind others.
pub(crate) fn push_all(bits: &mut Vec<Source>, more: &[Source]) -> Result<(), Memory>
    ensures { OnOk result (bits.new.items ≡ bits.old.items ++ more.now) }
{
    for bit in more {
        bits.push(*bit)?;
    }
    Ok(())
}

fn push_pin(bits: &mut Vec<Source>, pin: &RawPin) -> Result<(), Memory>
    ensures { OnOk result (bits.new.items ≡ bits.old.items ++ spec.pin_drives pin.now) }
{
    if pin.drives {
        push_all(bits, pin.bits.as_slice())?;
    }
    Ok(())
}

/// Puts the bits that a cell drives behind others.
pub(crate) fn push_driven(bits: &mut Vec<Source>, cell: &RawCell) -> Result<(), Memory>
    ensures { OnOk result (bits.new.items ≡ bits.old.items ++ spec.cell_drives cell.now) }
{
    let pins = cell.pins.as_slice();
    for pin in pins {
        push_pin(bits, pin)?;
    }
    Ok(())
}
