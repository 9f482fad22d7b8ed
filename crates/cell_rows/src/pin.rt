//! The pins of a cell.
ghost use Rattle.std.specs.Prelude.{◌≡◌, ◌++◌, ◌∷◌, [], false, OnOk};
ghost use Rattle.cell_rows.specs.Pins as table;

use lib_core::{Memory, Name};
use std::alloc::Global;

/// A pin that the table gives to a cell.
#[derive(Debug, PartialEq, Eq, Drop)]
pub struct PinRow {
    pub name: Name,
    /// How many bits it has.
    pub width: u64,
    /// Whether the cell drives it.
    pub drives: bool,
    /// Whether it is a clock.
    pub clock: bool,
}

/// Puts a pin at the end.
pub fn push_pin(
    alloc: Global,
    pins: &mut Vec<PinRow>,
    name: &[u8],
    width: u64,
    drives: bool,
) -> Result<(), Memory>
    ensures { OnOk result (pins.new.items ≡ pins.old.items ++ record { name = name.now; width = width; drives = drives; clock = false } ∷ []) }
{
    pins.push(PinRow {
        name: Name::from_vec(Vec::from_slice(alloc, name)?),
        width,
        drives,
        clock: false,
    })?;
    Ok(())
}

/// Puts a clock at the end.
pub fn push_clock(alloc: Global, pins: &mut Vec<PinRow>, name: &[u8]) -> Result<(), Memory>
    ensures { OnOk result (pins.new.items ≡ pins.old.items ++ table.clock name.now ∷ []) }
{
    pins.push(PinRow {
        name: Name::from_vec(Vec::from_slice(alloc, name)?),
        width: 1,
        drives: false,
        clock: true,
    })?;
    Ok(())
}

/// Puts a pin of one bit at the end, if the cell has it.
pub(crate) fn push_pin_if(
    alloc: Global,
    pins: &mut Vec<PinRow>,
    has: bool,
    name: &[u8],
) -> Result<(), Memory>
    ensures { OnOk result (pins.new.items ≡ pins.old.items ++ table.pin_if has name.now) }
{
    if has {
        push_pin(alloc, pins, name, 1, false)?;
    }
    Ok(())
}
