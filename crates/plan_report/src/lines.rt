//! The lines of a report. Each call appends to a text; without memory the text may have gained a part.
ghost use Rattle.std.specs.Prelude.{◌≡◌, ◌++◌, OnOk};
ghost use Rattle.plan_report.specs.Lines as spec;

use crate::texts::{push_bytes, push_end, push_field, push_named};
use geom_core::{RamChoice, Shape};
use lib_core::Memory;

#[tactic(auto, unfolding(crate::specs::Lines::memory_line))]
pub fn push_memory_line(text: &mut Vec<u8>, owner: &[u8], name: &[u8]) -> Result<(), Memory>
    ensures { OnOk result (text.new.items ≡ text.old.items ++ spec.memory_line owner.now name.now) }
{
    push_named(text, b"memory ", owner)?;
    push_named(text, b" ", name)?;
    push_end(text)
}

pub fn push_registers_line(text: &mut Vec<u8>) -> Result<(), Memory>
    ensures { OnOk result (text.new.items ≡ text.old.items ++ spec.registers_line) }
{
    push_bytes(text, b"registers\n")
}

#[tactic(auto, unfolding(crate::specs::Lines::spot_part))]
fn push_spot(text: &mut Vec<u8>, choice: &RamChoice) -> Result<(), Memory>
    ensures { OnOk result (text.new.items ≡ text.old.items ++ spec.spot_part choice.now) }
{
    push_field(text, b" variant ", u128::from(choice.variant))?;
    push_field(text, b" fold ", u128::from(choice.fold))?;
    push_field(text, b" level ", u128::from(choice.level))
}

#[tactic(auto, unfolding(crate::specs::Lines::shape_part))]
fn push_shape(text: &mut Vec<u8>, shape: Shape) -> Result<(), Memory>
    ensures { OnOk result (text.new.items ≡ text.old.items ++ spec.shape_part shape) }
{
    push_field(text, b" copies ", u128::from(shape.copies))?;
    push_field(text, b" rows ", u128::from(shape.rows))?;
    push_field(text, b" columns ", u128::from(shape.columns))
}

/// The line of a memory in RAM cells.
#[tactic(auto, unfolding(crate::specs::Lines::ram_line))]
pub fn push_ram_line(
    text: &mut Vec<u8>,
    name: &[u8],
    choice: &RamChoice,
    shape: Shape,
) -> Result<(), Memory>
    ensures { OnOk result (text.new.items ≡ text.old.items ++ spec.ram_line name.now choice.now shape) }
{
    push_named(text, b"ram ", name)?;
    push_spot(text, choice)?;
    push_shape(text, shape)?;
    push_end(text)
}

#[tactic(auto, unfolding(crate::specs::Lines::write_line))]
pub fn push_write_line(text: &mut Vec<u8>, number: usize, slot: &[u8]) -> Result<(), Memory>
    ensures { OnOk result (text.new.items ≡ text.old.items ++ spec.write_line number slot.now) }
{
    push_field(text, b"write ", number as u128)?;
    push_named(text, b" ", slot)?;
    push_end(text)
}

/// The line of a read at a port of its own.
#[tactic(auto, unfolding(crate::specs::Lines::read_line))]
pub fn push_read_line(
    text: &mut Vec<u8>,
    number: usize,
    slot: &[u8],
    copy: usize,
) -> Result<(), Memory>
    ensures { OnOk result (text.new.items ≡ text.old.items ++ spec.read_line number slot.now copy) }
{
    push_field(text, b"read ", number as u128)?;
    push_named(text, b" ", slot)?;
    push_field(text, b" copy ", copy as u128)?;
    push_end(text)
}

/// The line of a read at the port of a write.
#[tactic(auto, unfolding(crate::specs::Lines::ride_line))]
pub fn push_ride_line(
    text: &mut Vec<u8>,
    number: usize,
    write: u32,
    copy: usize,
) -> Result<(), Memory>
    ensures { OnOk result (text.new.items ≡ text.old.items ++ spec.ride_line number write copy) }
{
    push_field(text, b"read ", number as u128)?;
    push_field(text, b" ride ", u128::from(write))?;
    push_field(text, b" copy ", copy as u128)?;
    push_end(text)
}

#[tactic(auto, unfolding(crate::specs::Lines::points_line))]
pub fn push_points_line(text: &mut Vec<u8>, points: u64) -> Result<(), Memory>
    ensures { OnOk result (text.new.items ≡ text.old.items ++ spec.points_line points) }
{
    push_field(text, b"points ", u128::from(points))?;
    push_end(text)
}

#[tactic(auto, unfolding(crate::specs::Lines::total_line))]
pub fn push_total_line(text: &mut Vec<u8>, points: u128) -> Result<(), Memory>
    ensures { OnOk result (text.new.items ≡ text.old.items ++ spec.total_line points) }
{
    push_field(text, b"total ", points)?;
    push_end(text)
}
