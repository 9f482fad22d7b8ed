//! The pins of the memory cells.
ghost use Rattle.std.specs.Prelude.{◌≡◌, ◌*◌, ◌++◌, ◌∷◌, [], IfOk, OnOk};
ghost use Rattle.mem_rows.specs.Pins as table;

use crate::row::MemRow;
use crate::separate::{InitRow, PortRow};
use crate::whole::WholeRow;
use cell_rows::PinRow;
use cell_rows::pin::push_pin;
use lib_core::{List, Memory, Name};
use std::alloc::Global;

fn product(count: u32, bits: u32) -> u64
    ensures { result ≡ count * bits }
{
    u64::from(count) * u64::from(bits)
}

/// Puts the clocks of so many ports at the end.
fn push_clocks(alloc: Global, pins: &mut Vec<PinRow>, name: &[u8], width: u64) -> Result<(), Memory>
    ensures { OnOk result (pins.new.items ≡ pins.old.items ++ table.clocks name.now width ∷ []) }
{
    pins.push(PinRow {
        name: Name::from_vec(Vec::from_slice(alloc, name)?),
        width,
        drives: false,
        clock: true,
    })?;
    Ok(())
}

#[tactic(auto, unfolding(crate::specs::Pins::read_clocks))]
fn push_read_clocks(alloc: Global, pins: &mut Vec<PinRow>, row: &WholeRow) -> Result<(), Memory>
    ensures { OnOk result (pins.new.items ≡ pins.old.items ++ table.read_clocks row.now) }
{
    push_clocks(alloc, pins, b"\\RD_CLK", u64::from(row.reads))?;
    push_pin(alloc, pins, b"\\RD_EN", u64::from(row.reads), false)?;
    Ok(())
}

#[tactic(auto, unfolding(crate::specs::Pins::read_resets))]
fn push_read_resets(alloc: Global, pins: &mut Vec<PinRow>, row: &WholeRow) -> Result<(), Memory>
    ensures { OnOk result (pins.new.items ≡ pins.old.items ++ table.read_resets row.now) }
{
    push_pin(alloc, pins, b"\\RD_ARST", u64::from(row.reads), false)?;
    push_pin(alloc, pins, b"\\RD_SRST", u64::from(row.reads), false)?;
    Ok(())
}

fn push_controls(alloc: Global, pins: &mut Vec<PinRow>, row: &WholeRow) -> Result<(), Memory>
    ensures { OnOk result (pins.new.items ≡ pins.old.items ++ table.read_controls row.now) }
{
    push_read_clocks(alloc, pins, row)?;
    push_read_resets(alloc, pins, row)?;
    Ok(())
}

#[tactic(auto, unfolding(crate::specs::Pins::read_words))]
fn push_words(alloc: Global, pins: &mut Vec<PinRow>, row: &WholeRow) -> Result<(), Memory>
    ensures { OnOk result (pins.new.items ≡ pins.old.items ++ table.read_words row.now) }
{
    push_pin(
        alloc,
        pins,
        b"\\RD_ADDR",
        product(row.reads, row.abits),
        false,
    )?;
    push_pin(
        alloc,
        pins,
        b"\\RD_DATA",
        product(row.reads, row.width),
        true,
    )?;
    Ok(())
}

fn push_reads(alloc: Global, pins: &mut Vec<PinRow>, row: &WholeRow) -> Result<(), Memory>
    ensures { OnOk result (pins.new.items ≡ pins.old.items ++ table.ports_that_read row.now) }
{
    push_controls(alloc, pins, row)?;
    push_words(alloc, pins, row)?;
    Ok(())
}

fn push_reading(alloc: Global, pins: &mut Vec<PinRow>, row: &WholeRow) -> Result<(), Memory>
    ensures { OnOk result (pins.new.items ≡ pins.old.items ++ table.reading_pins row.now) }
{
    if row.reads != 0 {
        push_reads(alloc, pins, row)?;
    }
    Ok(())
}

#[tactic(auto, unfolding(crate::specs::Pins::ports_that_write))]
fn push_writes(alloc: Global, pins: &mut Vec<PinRow>, row: &WholeRow) -> Result<(), Memory>
    ensures { OnOk result (pins.new.items ≡ pins.old.items ++ table.ports_that_write row.now) }
{
    push_clocks(alloc, pins, b"\\WR_CLK", u64::from(row.writes))?;
    push_pin(
        alloc,
        pins,
        b"\\WR_EN",
        product(row.writes, row.width),
        false,
    )?;
    push_pin(
        alloc,
        pins,
        b"\\WR_ADDR",
        product(row.writes, row.abits),
        false,
    )?;
    push_pin(
        alloc,
        pins,
        b"\\WR_DATA",
        product(row.writes, row.width),
        false,
    )?;
    Ok(())
}

fn push_writing(alloc: Global, pins: &mut Vec<PinRow>, row: &WholeRow) -> Result<(), Memory>
    ensures { OnOk result (pins.new.items ≡ pins.old.items ++ table.writing_pins row.now) }
{
    if row.writes != 0 {
        push_writes(alloc, pins, row)?;
    }
    Ok(())
}

#[tactic(auto, unfolding(crate::specs::Pins::old_read_pins))]
fn push_old_read(alloc: Global, pins: &mut Vec<PinRow>, row: &PortRow) -> Result<(), Memory>
    ensures { OnOk result (pins.new.items ≡ pins.old.items ++ table.old_read_pins row.now) }
{
    push_clocks(alloc, pins, b"\\CLK", 1)?;
    push_pin(alloc, pins, b"\\EN", 1, false)?;
    push_pin(alloc, pins, b"\\ADDR", u64::from(row.abits), false)?;
    push_pin(alloc, pins, b"\\DATA", u64::from(row.width), true)
}

#[tactic(auto, unfolding(crate::specs::Pins::read_pins))]
fn push_read(alloc: Global, pins: &mut Vec<PinRow>, row: &PortRow) -> Result<(), Memory>
    ensures { OnOk result (pins.new.items ≡ pins.old.items ++ table.read_pins row.now) }
{
    push_old_read(alloc, pins, row)?;
    push_pin(alloc, pins, b"\\ARST", 1, false)?;
    push_pin(alloc, pins, b"\\SRST", 1, false)
}

#[tactic(auto, unfolding(crate::specs::Pins::write_pins))]
fn push_write(alloc: Global, pins: &mut Vec<PinRow>, row: &PortRow) -> Result<(), Memory>
    ensures { OnOk result (pins.new.items ≡ pins.old.items ++ table.write_pins row.now) }
{
    push_clocks(alloc, pins, b"\\CLK", 1)?;
    push_pin(alloc, pins, b"\\EN", u64::from(row.width), false)?;
    push_pin(alloc, pins, b"\\ADDR", u64::from(row.abits), false)?;
    push_pin(alloc, pins, b"\\DATA", u64::from(row.width), false)
}

#[tactic(auto, unfolding(crate::specs::Pins::init_pins))]
fn push_init(alloc: Global, pins: &mut Vec<PinRow>, row: &InitRow) -> Result<(), Memory>
    ensures { OnOk result (pins.new.items ≡ pins.old.items ++ table.init_pins row.now) }
{
    push_pin(alloc, pins, b"\\ADDR", u64::from(row.abits), false)?;
    push_pin(alloc, pins, b"\\DATA", product(row.words, row.width), false)?;
    push_pin(alloc, pins, b"\\EN", u64::from(row.width), false)
}

/// The pins of a memory cell in the order of its table. A side of a whole memory that has no ports
/// has no pins.
pub fn mem_pins(alloc: Global, row: &MemRow) -> Result<List<PinRow>, Memory>
    ensures { IfOk result (λ pins. pins ≡ table.mem_pins row.now) }
{
    let mut pins = Vec::new(alloc);
    match row {
        MemRow::Whole(whole) => {
            push_reading(alloc, &mut pins, whole)?;
            push_writing(alloc, &mut pins, whole)?;
        }
        MemRow::Read(port) => push_read(alloc, &mut pins, port)?,
        MemRow::OldRead(port) => push_old_read(alloc, &mut pins, port)?,
        MemRow::Write(port) => push_write(alloc, &mut pins, port)?,
        MemRow::Init(init) => push_init(alloc, &mut pins, init)?,
    }
    Ok(List::from_vec(pins))
}
