//! One cell of a module.
ghost use Rattle.std.specs.Prelude.{◌≡◌, ◌≤◌, ◌+◌, IfOk, Some};
ghost use Rattle.net_wires.specs.Finds.{Finds};
ghost use Rattle.net_wires.specs.Spans.{There};
ghost use Rattle.net_gather.specs.Cells as cells;
ghost use Rattle.net_gather.specs.Faces.{faces_drive};
ghost use Rattle.net_gather.specs.OpenPins as opens;
ghost use Rattle.raw_cells.specs.Rows as rows;
ghost use Rattle.raw_cells.specs.Shaped.{shape_breaches};
ghost use Rattle.doc_params.specs.Docs.{params_of};

use crate::around::Around;
use crate::bits::raw_pins;
use crate::clocks::have_clocks;
use crate::counts::{Counts, count_cell};
use crate::faces::Faces;
use crate::file_pin::{FilePin, file_pins};
use crate::known::known_pins;
use crate::open_pin::{OpenPin, kept_pin, table_pins};
use cell_rows::{CellKind, CombRow, PinRow, is_carried_row, kind_of};
use doc_params::{attrs_of, params_of};
use lib_core::{List, Memory, Name};
use net_core::Attr;
use net_wires::{BuildCode, Stop, broken};
use raw_cells::{
    CellRow, CellShape, Found, Kept, RawCell, found_row, has_shape, is_kept, suits_ram, table_of,
};
use rtlil_text::DocCell;
use std::alloc::Global;

/// A cell, and what is counted behind it.
#[derive(Drop)]
pub(crate) struct Gain {
    pub cell: RawCell,
    pub counts: Counts,
}

fn kind_in(around: &Around, kind: &Name) -> CellKind
    ensures { result ≡ cells.kind_in (cells.context_of around.now) kind.now }
{
    kind_of(kind, around.rams, &around.faces.modules)
}

fn kept_of(alloc: Global, cell: &DocCell, params: List<Attr>) -> Result<Kept, Memory>
    ensures { IfOk result (λ kept. kept ≡ cells.kept_of cell.now params) }
{
    Ok(Kept {
        kind: cell.kind.copy(alloc)?,
        attrs: attrs_of(alloc, cell.attrs.as_slice())?,
        params,
    })
}

fn comb_shape(
    alloc: Global,
    cell: &DocCell,
    params: List<Attr>,
    row: CombRow,
) -> Result<CellShape, Memory>
    ensures { IfOk result (λ shape. shape ≡ cells.comb_shape cell.now params row) }
{
    if is_carried_row(&row) {
        Ok(CellShape::Carried(kept_of(alloc, cell, params)?))
    } else {
        Ok(CellShape::Comb(row))
    }
}

fn shape_of(
    alloc: Global,
    cell: &DocCell,
    params: List<Attr>,
    row: CellRow,
) -> Result<CellShape, Memory>
    ensures { IfOk result (λ shape. shape ≡ cells.shape_of cell.now params row) }
{
    match row {
        CellRow::Comb(row) => comb_shape(alloc, cell, params, row),
        CellRow::Reg(row) => Ok(CellShape::Reg(row)),
        CellRow::Memory(row) => Ok(CellShape::Memory {
            kept: kept_of(alloc, cell, params)?,
            row,
        }),
        CellRow::Ram(ram) => Ok(CellShape::Ram(ram)),
        CellRow::StrangeRam => Ok(CellShape::Carried(kept_of(alloc, cell, params)?)),
        CellRow::Kept => Ok(CellShape::Carried(kept_of(alloc, cell, params)?)),
    }
}

/// The pins of a kept cell, in file order.
fn kept_pins(
    alloc: Global,
    faces: &Faces,
    kind: &Name,
    pins: &[FilePin],
) -> Result<List<OpenPin>, Memory>
    ensures { IfOk result (λ list. list ≡ opens.kept_pins (λ p. faces_drive faces.now kind.now p) pins.now) }
{
    let mut list = Vec::with_capacity(alloc, pins.len())?;
    for pin in pins {
        list.push(kept_pin(alloc, faces.drives(kind, &pin.name), pin)?)?;
    }
    Ok(List::from_vec(list))
}

/// The pins of a cell in their order.
fn open_pins(
    alloc: Global,
    around: &Around,
    kind: &Name,
    row: &CellRow,
    table: &[PinRow],
    pins: &[FilePin],
) -> Result<List<OpenPin>, Memory>
    requires table { table.now ≡ rows.table_of around.now.library.now row.now }
    ensures { IfOk result (λ list. list ≡ cells.open_pins around.now.library.now (λ p. (cells.context_of around.now).drives kind.now p) row.now pins.now) }
{
    if is_kept(row) {
        kept_pins(alloc, around.faces, kind, pins)
    } else {
        table_pins(alloc, pins, table)
    }
}

/// Stops where a RAM cell does not have the shape of its variant (`BadRam`).
fn suits_shape(
    alloc: Global,
    around: &Around,
    name: &Name,
    row: &CellRow,
    pins: &[OpenPin],
) -> Result<(), Stop>
    ensures { Finds result (shape_breaches around.now.library.now around.now.tied.now name.now row.now (opens.known_pins around.now.tied.now pins.now)) (λ _. Unit {0}) }
{
    match row {
        CellRow::Ram(cell) => {
            let known = known_pins(alloc, around.tied, pins)?;
            has_shape(
                alloc,
                around.library,
                around.tied,
                name,
                cell,
                known.as_slice(),
            )
        }
        CellRow::Comb(_) => Ok(()),
        CellRow::Reg(_) => Ok(()),
        CellRow::Memory(_) => Ok(()),
        CellRow::StrangeRam => Ok(()),
        CellRow::Kept => Ok(()),
    }
}

/// The pins of a cell in their order. It stops where a RAM cell does not have the shape of its
/// variant.
fn shaped_pins(
    alloc: Global,
    around: &Around,
    cell: &DocCell,
    row: &CellRow,
    table: &[PinRow],
    pins: &[FilePin],
) -> Result<List<OpenPin>, Stop>
    requires table { table.now ≡ rows.table_of around.now.library.now row.now }
    ensures { Finds result (cells.open_faults (cells.context_of around.now) cell.now row.now pins.now) (λ list. list ≡ cells.open_pins around.now.library.now (λ p. (cells.context_of around.now).drives cell.now.kind p) row.now pins.now) }
{
    let pins = open_pins(alloc, around, &cell.kind, row, table, pins)?;
    suits_shape(alloc, around, &cell.name, row, pins.as_slice())?;
    Ok(pins)
}

/// The pins of a cell with this row, in their order. It stops at the first pin that is wrong, and
/// then where a write port has no clock, or where a RAM cell suits no RAM or lacks the shape of its
/// variant.
#[tactic(auto, unfolding(crate::specs::Cells::pin_faults, crate::specs::Cells::row_pins))]
fn row_pins(
    alloc: Global,
    around: &Around,
    cell: &DocCell,
    params: &[Attr],
    row: &CellRow,
) -> Result<List<OpenPin>, Stop>
    requires near { There 4294967295 around.now.names }
    ensures { Finds result (cells.pin_faults (cells.context_of around.now) cell.now params.now row.now) (λ pins. pins ≡ cells.row_pins (cells.context_of around.now) cell.now row.now) }
{
    let table = table_of(alloc, around.library, row)?;
    let table = table.as_slice();
    let file = file_pins(alloc, &around.names, table, cell.lines.as_slice())?;
    have_clocks(alloc, row, params)?;
    suits_ram(around.library, row, cell.lines.as_slice())?;
    Ok(shaped_pins(alloc, around, cell, row, table, file.as_slice())?)
}

/// A cell, whose open bits have places from `from` on.
fn raw_cell(
    alloc: Global,
    cell: &DocCell,
    from: u32,
    params: List<Attr>,
    row: CellRow,
    pins: &[OpenPin],
) -> Result<RawCell, Memory>
    requires room { from + opens.open_count pins.now ≤ 4294967295 }
    ensures { IfOk result (λ raw. raw ≡ cells.raw_cell cell.now from params row pins.now) }
{
    Ok(RawCell {
        name: cell.name.copy(alloc)?,
        shape: shape_of(alloc, cell, params, row)?,
        pins: raw_pins(alloc, from, pins)?,
    })
}

/// The cell with this row, and what is counted behind it.
#[tactic(auto, unfolding(crate::specs::Cells::row_gain, crate::specs::Cells::row_faults))]
fn gather_row(
    alloc: Global,
    around: &Around,
    counts: Counts,
    cell: &DocCell,
    params: List<Attr>,
    row: CellRow,
) -> Result<Gain, Stop>
    requires near { There 4294967295 around.now.names }
    ensures { Finds result (cells.row_faults (cells.context_of around.now) counts cell.now params row) (λ gain. gain ≡ cells.row_gain (cells.context_of around.now) counts cell.now params row) }
{
    let from = counts.places;
    let pins = row_pins(alloc, around, cell, params.as_slice(), &row)?;
    let counts = count_cell(&around.memories, counts, &row, pins.as_slice())?;
    let cell = raw_cell(alloc, cell, from, params, row, pins.as_slice())?;
    Ok(Gain { cell, counts })
}

/// A cell, and what is counted behind it. It stops at what the cell breaks first.
pub(crate) fn gather_cell(
    alloc: Global,
    around: &Around,
    counts: Counts,
    cell: &DocCell,
) -> Result<Gain, Stop>
    requires near { There 4294967295 around.now.names }
    ensures { Finds result (cells.cell_breaches (cells.context_of around.now) counts cell.now) (λ gain. Some gain ≡ cells.cell_gain (cells.context_of around.now) counts cell.now) }
{
    let params = params_of(alloc, cell.lines.as_slice())?;
    let kind = kind_in(around, &cell.kind);
    match found_row(alloc, around.library, kind, params.as_slice())? {
        Found::Unknown => Err(broken(BuildCode::UnknownCell)),
        Found::Missing => Err(broken(BuildCode::MissingParam)),
        Found::Row(row) => gather_row(alloc, around, counts, cell, params, row),
    }
}
