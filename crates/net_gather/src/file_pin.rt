//! The pins of a cell as the file gives them.
ghost use Rattle.std.specs.Prelude.{◌≡◌, ◌++◌, length};
ghost use Rattle.std.specs.Option.{option_copied};
ghost use Rattle.net_wires.specs.Finds.{Finds};
ghost use Rattle.net_wires.specs.Parts.{signal_bits};
ghost use Rattle.net_wires.specs.Spans.{There};
ghost use Rattle.net_gather.specs.FilePins as file;

use cell_rows::PinRow;
use lib_core::{List, Name};
use net_wires::{BuildCode, Names, Source, Stop, broken, signal};
use rtlil_text::{CellLine, Part};
use std::alloc::Global;

/// A pin of a cell as the file gives it.
#[derive(Drop)]
pub struct FilePin {
    pub name: Name,
    /// The bits, low bit first.
    pub bits: List<Source>,
}

fn in_table<'a>(table: &'a [PinRow], name: &[u8]) -> Option<&'a PinRow>
    ensures { option_copied result ≡ file.in_table table.now name.now }
{
    table.iter().find(|row| row.name.as_slice() == name)
}

/// Stops where a pin has another width than the table (`WidthDiffers`). Pins that the table lacks
/// may have any.
fn fits_table(table: &[PinRow], name: &[u8], width: usize) -> Result<(), Stop>
    ensures { Finds result (file.row_breaches (file.in_table table.now name.now) width) (λ _. Unit {0}) }
{
    match in_table(table, name) {
        None => Ok(()),
        Some(row) => {
            if width as u64 != row.width {
                return Err(broken(BuildCode::WidthDiffers));
            }
            Ok(())
        }
    }
}

/// The bits of a pin.
fn pin_bits(
    alloc: Global,
    names: &Names,
    table: &[PinRow],
    name: &Name,
    value: &[Part],
) -> Result<List<Source>, Stop>
    requires near { There 4294967295 names.now }
    ensures { Finds result (file.pin_breaches names.now table.now name.now value.now) (λ bits. bits ≡ signal_bits names.now value.now) }
{
    let bits = signal(alloc, names, value)?;
    fits_table(table, name.as_slice(), bits.len())?;
    Ok(List::from_vec(bits))
}

/// Puts the pin of a line behind the others, if the line is one.
fn push_line(
    alloc: Global,
    names: &Names,
    table: &[PinRow],
    pins: &mut Vec<FilePin>,
    line: &CellLine,
) -> Result<(), Stop>
    requires near { There 4294967295 names.now }
    ensures { Finds result (file.line_breaches names.now table.now line.now) (λ _. pins.new.items ≡ pins.old.items ++ file.line_pins names.now line.now) }
{
    if let CellLine::Pin { name, value } = line {
        let bits = pin_bits(alloc, names, table, name, value.as_slice())?;
        pins.push(FilePin {
            name: name.copy(alloc)?,
            bits,
        })?;
    }
    Ok(())
}

/// The pins among the lines of a cell, in file order. It stops at the first that names no wire
/// (`NoWire`) or a bit outside of one (`Range`), or has another width than the table
/// (`WidthDiffers`).
pub(crate) fn file_pins(
    alloc: Global,
    names: &Names,
    table: &[PinRow],
    lines: &[CellLine],
) -> Result<List<FilePin>, Stop>
    requires near { There 4294967295 names.now }
    ensures { Finds result (file.file_breaches names.now table.now lines.now) (λ pins. pins ≡ file.file_pins names.now lines.now) }
{
    let mut pins = Vec::new(alloc);
    let mut rest = lines;
    while let [line, tail @ ..] = rest {
        push_line(alloc, names, table, &mut pins, line)?;
        rest = tail;
    }
    Ok(List::from_vec(pins))
}
