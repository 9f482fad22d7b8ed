//! The bits of clock pins that are looked at.
ghost use Rattle.std.specs.Prelude.{◌≡◌, ◌++◌, slice_get, IfOk, OnOk};
ghost use Rattle.net_gather.specs.PortClocks.{is_one_bit};
ghost use Rattle.net_checks.specs.ClockPins as spec;

use crate::sources::push_all;
use lib_core::{List, Memory, Tri};
use mem_rows::{MemRow, bits};
use net_core::Attr;
use net_wires::Source;
use raw_cells::{CellShape, Kept, RawCell, RawPin};
use std::alloc::Global;

/// Whether the bit at a place is there and 1.
fn is_one(bits: &[Tri], place: usize) -> bool
    ensures { result ≡ is_one_bit (slice_get bits.now place) }
{
    match bits.get(place) {
        Some(bit) => *bit == Tri::One,
        None => false,
    }
}

/// Whether a port number is the first of a port, which has a clock.
fn begins_clocked(continues: &[Tri], clocked: &[Tri], place: usize) -> bool
    ensures { result ≡ spec.begins_clocked continues.now clocked.now place }
{
    !is_one(continues, place) && is_one(clocked, place)
}

/// Puts the clocks of ports behind others.
fn push_ports(
    found: &mut Vec<Source>,
    continues: &[Tri],
    clocked: &[Tri],
    bits: &[Source],
) -> Result<(), Memory>
    ensures { OnOk result (found.new.items ≡ found.old.items ++ spec.ports_clocks continues.now clocked.now 0 bits.now) }
{
    let mut place = 0usize;
    let mut rest = bits;
    while let [bit, tail @ ..] = rest {
        if begins_clocked(continues, clocked, place) {
            found.push(*bit)?;
        }
        place += 1;
        rest = tail;
    }
    Ok(())
}

/// Puts the clocks of the ports that read behind others.
#[tactic(auto, unfolding(crate::specs::ClockPins::read_clocks))]
fn push_reads(
    alloc: Global,
    found: &mut Vec<Source>,
    params: &List<Attr>,
    sources: &[Source],
) -> Result<(), Memory>
    ensures { OnOk result (found.new.items ≡ found.old.items ++ spec.read_clocks params.now sources.now) }
{
    let continues = bits(alloc, params.as_slice(), b"\\RD_WIDE_CONTINUATION")?;
    let clocked = bits(alloc, params.as_slice(), b"\\RD_CLK_ENABLE")?;
    push_ports(found, continues.as_slice(), clocked.as_slice(), sources)
}

/// Puts the clocks of the ports that write behind others.
#[tactic(auto, unfolding(crate::specs::ClockPins::write_clocks))]
fn push_writes(
    alloc: Global,
    found: &mut Vec<Source>,
    params: &List<Attr>,
    sources: &[Source],
) -> Result<(), Memory>
    ensures { OnOk result (found.new.items ≡ found.old.items ++ spec.write_clocks params.now sources.now) }
{
    let continues = bits(alloc, params.as_slice(), b"\\WR_WIDE_CONTINUATION")?;
    let clocked = bits(alloc, params.as_slice(), b"\\WR_CLK_ENABLE")?;
    push_ports(found, continues.as_slice(), clocked.as_slice(), sources)
}

fn push_whole(
    alloc: Global,
    found: &mut Vec<Source>,
    params: &List<Attr>,
    pin: &RawPin,
) -> Result<(), Memory>
    ensures { OnOk result (found.new.items ≡ found.old.items ++ spec.whole_clocks params.now pin.now) }
{
    if pin.name.as_slice() == b"\\RD_CLK".as_slice() {
        push_reads(alloc, found, params, pin.bits.as_slice())
    } else {
        push_writes(alloc, found, params, pin.bits.as_slice())
    }
}

fn push_port(found: &mut Vec<Source>, clocked: bool, pin: &RawPin) -> Result<(), Memory>
    ensures { OnOk result (found.new.items ≡ found.old.items ++ spec.port_clocks clocked pin.now.bits) }
{
    if clocked {
        push_all(found, pin.bits.as_slice())?;
    }
    Ok(())
}

fn push_memory(
    alloc: Global,
    found: &mut Vec<Source>,
    kept: &Kept,
    row: &MemRow,
    pin: &RawPin,
) -> Result<(), Memory>
    ensures { OnOk result (found.new.items ≡ found.old.items ++ spec.memory_clocks kept.now row.now pin.now) }
{
    match row {
        MemRow::Whole(_) => push_whole(alloc, found, &kept.params, pin),
        MemRow::Read(port) => push_port(found, port.clocked, pin),
        MemRow::OldRead(port) => push_port(found, port.clocked, pin),
        MemRow::Write(port) => push_port(found, port.clocked, pin),
        MemRow::Init(_) => Ok(()),
    }
}

fn push_shape(
    alloc: Global,
    found: &mut Vec<Source>,
    shape: &CellShape,
    pin: &RawPin,
) -> Result<(), Memory>
    ensures { OnOk result (found.new.items ≡ found.old.items ++ spec.shape_clocks shape.now pin.now) }
{
    match shape {
        CellShape::Comb(_) => Ok(()),
        CellShape::Reg(_) => push_all(found, pin.bits.as_slice()),
        CellShape::Carried(_) => Ok(()),
        CellShape::Memory { kept, row } => push_memory(alloc, found, kept, row, pin),
        CellShape::Ram(_) => push_all(found, pin.bits.as_slice()),
    }
}

fn push_pin(
    alloc: Global,
    found: &mut Vec<Source>,
    shape: &CellShape,
    pin: &RawPin,
) -> Result<(), Memory>
    ensures { OnOk result (found.new.items ≡ found.old.items ++ spec.pin_clocks shape.now pin.now) }
{
    if pin.clock {
        push_shape(alloc, found, shape, pin)?;
    }
    Ok(())
}

/// The bits of the clock pins of a cell that are looked at.
pub(crate) fn cell_clocks(alloc: Global, cell: &RawCell) -> Result<Vec<Source>, Memory>
    ensures { IfOk result (λ found. found.items ≡ spec.cell_clocks cell.now) }
{
    let mut found = Vec::new(alloc);
    let pins = cell.pins.as_slice();
    for pin in pins {
        push_pin(alloc, &mut found, &cell.shape, pin)?;
    }
    Ok(found)
}
