//! The cells of one memory by what they are to it.
ghost use Rattle.std.specs.Prelude.{◌≡◌, IfOk};
ghost use Rattle.net_collect.specs.Sides as spec;

use crate::grouping::Piece;
use cell_consts::number_at;
use lib_core::{List, Memory};
use mem_rows::{InitRow, MemRow, PortRow};
use net_core::MemPart;
use std::alloc::Global;

/// A cell that reads a memory.
#[derive(Debug, Drop)]
pub struct ReadCell {
    pub clocked: bool,
    pub row: PortRow,
    pub part: MemPart,
}

/// A cell that writes a memory.
#[derive(Debug, Drop)]
pub struct WriteCell {
    /// Its number among the writes of the memory.
    pub id: u32,
    pub row: PortRow,
    pub part: MemPart,
}

/// A cell that says contents of a memory.
#[derive(Debug, Drop)]
pub struct InitCell {
    pub row: InitRow,
    pub part: MemPart,
}

/// The cells of a memory.
#[derive(Debug, Drop)]
pub struct Sides {
    pub reads: List<ReadCell>,
    pub writes: List<WriteCell>,
    pub inits: List<InitCell>,
}

fn with_read(mut sides: Sides, cell: ReadCell) -> Result<Sides, Memory>
    ensures { IfOk result (λ next. next ≡ spec.with_read sides cell) }
{
    sides.reads.push(cell)?;
    Ok(sides)
}

fn with_write(mut sides: Sides, row: PortRow, part: MemPart) -> Result<Sides, Memory>
    ensures { IfOk result (λ next. next ≡ spec.with_write sides (spec.write_cell row part)) }
{
    let id = number_at(part.params.as_slice(), b"\\PORTID").unwrap_or(0);
    sides.writes.push(WriteCell { id, row, part })?;
    Ok(sides)
}

fn with_init(mut sides: Sides, cell: InitCell) -> Result<Sides, Memory>
    ensures { IfOk result (λ next. next ≡ spec.with_init sides cell) }
{
    sides.inits.push(cell)?;
    Ok(sides)
}

fn with_row(sides: Sides, row: MemRow, part: MemPart) -> Result<Sides, Memory>
    ensures { IfOk result (λ next. next ≡ spec.with_row sides row part) }
{
    match row {
        MemRow::Whole(_) => Ok(sides),
        MemRow::Read(row) => {
            let clocked = row.clocked;
            with_read(sides, ReadCell { clocked, row, part })
        }
        MemRow::OldRead(row) => {
            let clocked = false;
            with_read(sides, ReadCell { clocked, row, part })
        }
        MemRow::Write(row) => with_write(sides, row, part),
        MemRow::Init(row) => with_init(sides, InitCell { row, part }),
    }
}

fn with_piece(sides: Sides, piece: Piece) -> Result<Sides, Memory>
    ensures { IfOk result (λ next. next ≡ spec.with_row sides piece.row piece.part) }
{
    let Piece { row, part } = piece;
    with_row(sides, row, part)
}

/// The cells of a memory by what they are to it, in file order.
#[tactic(auto, unfolding(crate::specs::Sides::sides_from))]
pub fn sides_of(alloc: Global, pieces: List<Piece>) -> Result<Sides, Memory>
    ensures { IfOk result (λ sides. sides ≡ spec.sides_of pieces) }
{
    let mut sides = Sides {
        reads: List::from_vec(Vec::new(alloc)),
        writes: List::from_vec(Vec::new(alloc)),
        inits: List::from_vec(Vec::new(alloc)),
    };
    for piece in pieces.into_vec() {
        sides = with_piece(sides, piece)?;
    }
    Ok(sides)
}

/// Writes by rising numbers; of equal ones the earlier cell comes first.
pub fn by_id(writes: List<WriteCell>) -> Result<Vec<WriteCell>, Memory>
    ensures { IfOk result (λ sorted. sorted.items ≡ spec.by_id writes) }
{
    let mut writes = writes.into_vec();
    writes.sort_by_key(|write| write.id)?;
    Ok(writes)
}
