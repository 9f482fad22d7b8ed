//! The pins of a cell in their order, before their open bits have places.
ghost use Rattle.std.specs.Prelude.{◌≡◌, IfOk, length};
ghost use Rattle.std.specs.Option.{option_copied};
ghost use Rattle.net_gather.specs.OpenPins as opens;

use crate::file_pin::FilePin;
use cell_rows::PinRow;
use lib_core::{List, Memory, Name};
use net_wires::Source;
use std::alloc::Global;

/// The bits of a pin.
#[derive(Drop)]
pub enum PinBits {
    /// Those that the file gives, low bit first.
    Given(List<Source>),
    /// So many, that the file leaves out.
    LeftOut(u64),
}

/// A pin of a cell.
#[derive(Drop)]
pub struct OpenPin {
    pub name: Name,
    pub drives: bool,
    pub clock: bool,
    pub bits: PinBits,
}

fn in_file<'a>(pins: &'a [FilePin], name: &[u8]) -> Option<&'a FilePin>
    ensures { option_copied result ≡ opens.in_file pins.now name.now }
{
    pins.iter().find(|pin| pin.name.as_slice() == name)
}

fn copied(alloc: Global, bits: &List<Source>) -> Result<List<Source>, Memory>
    ensures { IfOk result (λ list. list ≡ bits.now) }
{
    Ok(List::from_vec(Vec::from_slice(alloc, bits.as_slice())?))
}

fn found_bits(alloc: Global, pins: &[FilePin], name: &[u8], width: u64) -> Result<PinBits, Memory>
    ensures { IfOk result (λ bits. bits ≡ opens.found_bits (opens.in_file pins.now name.now) width) }
{
    match in_file(pins, name) {
        None => Ok(PinBits::LeftOut(width)),
        Some(pin) => Ok(PinBits::Given(copied(alloc, &pin.bits)?)),
    }
}

fn table_pin(alloc: Global, pins: &[FilePin], row: &PinRow) -> Result<OpenPin, Memory>
    ensures { IfOk result (λ pin. pin ≡ opens.table_pin pins.now row.now) }
{
    Ok(OpenPin {
        name: row.name.copy(alloc)?,
        drives: row.drives,
        clock: row.clock,
        bits: found_bits(alloc, pins, row.name.as_slice(), row.width)?,
    })
}

/// The pins of a table, with the bits that the file gives them.
pub(crate) fn table_pins(
    alloc: Global,
    pins: &[FilePin],
    table: &[PinRow],
) -> Result<List<OpenPin>, Memory>
    ensures { IfOk result (λ list. list ≡ opens.table_pins pins.now table.now) }
{
    let mut list = Vec::with_capacity(alloc, table.len())?;
    for row in table {
        list.push(table_pin(alloc, pins, row)?)?;
    }
    Ok(List::from_vec(list))
}

/// A pin of a cell that is kept as it is.
pub(crate) fn kept_pin(alloc: Global, drives: bool, pin: &FilePin) -> Result<OpenPin, Memory>
    ensures { IfOk result (λ kept. kept ≡ opens.kept_pin drives pin.now) }
{
    Ok(OpenPin {
        name: pin.name.copy(alloc)?,
        drives,
        clock: false,
        bits: PinBits::Given(copied(alloc, &pin.bits)?),
    })
}
