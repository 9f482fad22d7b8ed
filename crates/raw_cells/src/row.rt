//! What a cell is by its type and its parameters.
ghost use Rattle.std.specs.Prelude.{◌≡◌, IfOk};
ghost use Rattle.raw_cells.specs.Rows as rows;

use crate::ram::{found_ram, ram_pins};
use crate::raw::RamUse;
use cell_rows::{
    CellKind, CombRow, MemKind, PinRow, RegRow, comb_pins, comb_row, is_carried_row, reg_pins,
    reg_row,
};
use lib_core::{Library, List, Memory};
use mem_rows::{MemRow, is_known, mem_pins, mem_row};
use net_core::Attr;
use std::alloc::Global;

/// What the parameters of a cell say, by its kind.
#[derive(Debug, PartialEq, Eq, Drop)]
pub enum CellRow {
    Comb(CombRow),
    Reg(RegRow),
    Memory(MemRow),
    Ram(RamUse),
    /// A cell of a RAM that suits no variant of it, or has a width that the variant lacks.
    StrangeRam,
    /// A cell that is kept as it is by its type, or an instance.
    Kept,
}

/// What is found of a cell's row.
#[derive(Debug, PartialEq, Eq, Drop)]
pub enum Found {
    /// The type is not known.
    Unknown,
    /// A parameter is missing, or no number where one is wanted.
    Missing,
    Row(CellRow),
}

fn found_comb(row: Option<CombRow>) -> Found
    ensures { result ≡ rows.found_comb row }
{
    match row {
        Some(row) => Found::Row(CellRow::Comb(row)),
        None => Found::Missing,
    }
}

fn found_reg(row: Option<RegRow>) -> Found
    ensures { result ≡ rows.found_reg row }
{
    match row {
        Some(row) => Found::Row(CellRow::Reg(row)),
        None => Found::Missing,
    }
}

fn found_mem(row: Option<MemRow>) -> Found
    ensures { result ≡ rows.found_mem row }
{
    match row {
        Some(row) => Found::Row(CellRow::Memory(row)),
        None => Found::Missing,
    }
}

fn found_memory(alloc: Global, kind: MemKind, params: &[Attr]) -> Result<Found, Memory>
    ensures { IfOk result (λ found. found ≡ rows.found_memory kind params.now) }
{
    if is_known(kind, params) {
        Ok(found_mem(mem_row(alloc, kind, params)?))
    } else {
        Ok(Found::Unknown)
    }
}

/// The row of a cell of this kind.
pub fn found_row(
    alloc: Global,
    library: &Library,
    kind: CellKind,
    params: &[Attr],
) -> Result<Found, Memory>
    ensures { IfOk result (λ found. found ≡ rows.found_row library.now kind params.now) }
{
    match kind {
        CellKind::Comb(kind) => Ok(found_comb(comb_row(kind, params))),
        CellKind::Reg(kind) => Ok(found_reg(reg_row(alloc, kind, params)?)),
        CellKind::Memory(kind) => found_memory(alloc, kind, params),
        CellKind::Ram(place) => found_ram(alloc, library, place, params),
        CellKind::Carried => Ok(Found::Row(CellRow::Kept)),
        CellKind::Instance(_) => Ok(Found::Row(CellRow::Kept)),
        CellKind::Unknown => Ok(Found::Unknown),
    }
}

/// The pins that the table of a cell has, in its order.
pub fn table_of(alloc: Global, library: &Library, row: &CellRow) -> Result<List<PinRow>, Memory>
    ensures { IfOk result (λ table. table ≡ rows.table_of library.now row.now) }
{
    match row {
        CellRow::Comb(row) => comb_pins(alloc, row),
        CellRow::Reg(row) => reg_pins(alloc, row),
        CellRow::Memory(row) => mem_pins(alloc, row),
        CellRow::Ram(cell) => ram_pins(alloc, library, cell),
        CellRow::StrangeRam => Ok(List::from_vec(Vec::new(alloc))),
        CellRow::Kept => Ok(List::from_vec(Vec::new(alloc))),
    }
}

/// Whether a cell is kept as it is. It takes no memory.
pub fn is_kept(row: &CellRow) -> bool
    ensures { result ≡ rows.is_kept row.now }
{
    match row {
        CellRow::Comb(row) => is_carried_row(row),
        CellRow::Reg(_) => false,
        CellRow::Memory(_) => false,
        CellRow::Ram(_) => false,
        CellRow::StrangeRam => true,
        CellRow::Kept => true,
    }
}
