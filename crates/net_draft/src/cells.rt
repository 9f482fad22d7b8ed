//! Cells of all kinds in one form, and as the cells of a document.
ghost use Rattle.std.specs.Prelude.{◌≡◌, ◌++◌, map, IfOk, OnOk};
ghost use Rattle.rtlil_text.specs.declared.doc.CellLine.TheVariants as line;
ghost use Rattle.doc_params.specs.Docs.{doc_param};
ghost use Rattle.net_draft.specs.Cells as spec;
ghost use Rattle.net_draft.specs.Rams.{inverses_of};
ghost use Rattle.net_draft.specs.Rows as rows;

use crate::logic::comb_cell;
use crate::memories::mem_cell;
use crate::naming::Taken;
use crate::rams::{inverses_of, ram_cell};
use crate::registers::reg_cell;
use crate::signals::{Sheet, signal};
use crate::wires::doc_attrs;
use doc_params::doc_param;
use lib_core::{Library, List, Memory};
use net_core::{Attr, Carried, Comb, Mem, Module, Pin, RamCell, Reg};
use rtlil_text::{CellLine, DocCell, Item};
use std::alloc::Global;

fn push_combs(alloc: Global, cells: &mut Vec<Carried>, combs: &[Comb]) -> Result<(), Memory>
    ensures { OnOk result (cells.new.items ≡ cells.old.items ++ map (λ c. rows.comb_cell c) combs.now) }
{
    let mut rest = combs;
    while let [comb, tail @ ..] = rest {
        cells.push(comb_cell(alloc, comb)?)?;
        rest = tail;
    }
    Ok(())
}

fn push_regs(alloc: Global, cells: &mut Vec<Carried>, regs: &[Reg]) -> Result<(), Memory>
    ensures { OnOk result (cells.new.items ≡ cells.old.items ++ map (λ r. rows.reg_cell r) regs.now) }
{
    let mut rest = regs;
    while let [reg, tail @ ..] = rest {
        cells.push(reg_cell(alloc, reg)?)?;
        rest = tail;
    }
    Ok(())
}

/// Puts the cells of memories at the end, each under a name that is not taken.
#[tactic(auto, using(crate::proofs::Adding::mems_begin, crate::proofs::Adding::mems_next, crate::proofs::Adding::mems_end, crate::proofs::Fitting::first_fits, crate::proofs::Fitting::others_fit))]
fn push_mems(
    alloc: Global,
    cells: &mut Vec<Carried>,
    taken: &mut Taken,
    mems: &[Mem],
) -> Result<(), Memory>
    requires { spec.AllFit mems.now }
    ensures { OnOk result (spec.AddsMemCells taken.old mems.now cells.old.items cells.new.items taken.new) }
{
    let mut rest = mems;
    while let [mem, tail @ ..] = rest {
        cells.push(mem_cell(alloc, taken, mem)?)?;
        rest = tail;
    }
    Ok(())
}

/// Puts the cells of RAMs at the end.
#[tactic(auto, using(crate::proofs::Adding::rams_begin, crate::proofs::Adding::rams_next, crate::proofs::Adding::rams_end))]
fn push_rams(
    alloc: Global,
    cells: &mut Vec<Carried>,
    lib: &Library,
    inverses: &[Option<u32>],
    rams: &[RamCell],
) -> Result<(), Memory>
    ensures { OnOk result (spec.AddsRamCells lib.now inverses.now rams.now cells.old.items cells.new.items) }
{
    let mut rest = rams;
    while let [ram, tail @ ..] = rest {
        cells.push(ram_cell(alloc, lib, inverses, ram)?)?;
        rest = tail;
    }
    Ok(())
}

/// Puts the cells of the RAMs of a module at the end.
fn push_ram_cells(
    alloc: Global,
    cells: &mut Vec<Carried>,
    lib: &Library,
    module: &Module,
) -> Result<(), Memory>
    ensures { OnOk result (spec.AddsRamCells lib.now (inverses_of «module».now.nets «module».now.combs) «module».now.rams cells.old.items cells.new.items) }
{
    let inverses = inverses_of(alloc, module.nets, module.combs.as_slice())?;
    push_rams(
        alloc,
        cells,
        lib,
        inverses.as_slice(),
        module.rams.as_slice(),
    )?;
    Ok(())
}

/// The cells of a module but for those that it carries, each by its type, its parameters and its
/// pins: logic cells, registers, memories and RAM cells.
pub fn cells_of(
    alloc: Global,
    module: &Module,
    lib: &Library,
    taken: &mut Taken,
) -> Result<Vec<Carried>, Memory>
    requires { spec.AllFit «module».now.mems }
    ensures { IfOk result (λ cells. spec.AreCells lib.now taken.old «module».now cells.items taken.new) }
{
    let mut cells = Vec::new(alloc);
    push_combs(alloc, &mut cells, module.combs.as_slice())?;
    push_regs(alloc, &mut cells, module.regs.as_slice())?;
    push_mems(alloc, &mut cells, taken, module.mems.as_slice())?;
    push_ram_cells(alloc, &mut cells, lib, module)?;
    Ok(cells)
}

fn push_params(alloc: Global, lines: &mut Vec<CellLine>, params: &[Attr]) -> Result<(), Memory>
    ensures { OnOk result (lines.new.items ≡ lines.old.items ++ map (λ a. line.Param (doc_param a)) params.now) }
{
    let mut rest = params;
    while let [param, tail @ ..] = rest {
        lines.push(CellLine::Param(doc_param(alloc, param)?))?;
        rest = tail;
    }
    Ok(())
}

fn pin_line(alloc: Global, sheet: &Sheet, pin: &Pin) -> Result<CellLine, Memory>
    ensures { IfOk result (λ written. written ≡ spec.pin_line sheet.now pin.now) }
{
    let name = pin.name.copy(alloc)?;
    let value = signal(alloc, sheet, pin.bits.as_slice())?;
    Ok(CellLine::Pin { name, value })
}

fn push_pins(
    alloc: Global,
    lines: &mut Vec<CellLine>,
    sheet: &Sheet,
    pins: &[Pin],
) -> Result<(), Memory>
    ensures { OnOk result (lines.new.items ≡ lines.old.items ++ map (λ p. spec.pin_line sheet.now p) pins.now) }
{
    let mut rest = pins;
    while let [pin, tail @ ..] = rest {
        lines.push(pin_line(alloc, sheet, pin)?)?;
        rest = tail;
    }
    Ok(())
}

/// The lines of a cell: its parameters, and then its pins.
#[tactic(auto, unfolding(crate::specs::Cells::cell_lines))]
fn cell_lines(alloc: Global, sheet: &Sheet, cell: &Carried) -> Result<List<CellLine>, Memory>
    ensures { IfOk result (λ lines. lines ≡ spec.cell_lines sheet.now cell.now) }
{
    let mut lines = Vec::new(alloc);
    push_params(alloc, &mut lines, cell.params.as_slice())?;
    push_pins(alloc, &mut lines, sheet, cell.pins.as_slice())?;
    Ok(List::from_vec(lines))
}

#[tactic(auto, unfolding(crate::specs::Cells::doc_cell))]
fn doc_cell(alloc: Global, sheet: &Sheet, cell: &Carried) -> Result<DocCell, Memory>
    ensures { IfOk result (λ written. written ≡ spec.doc_cell sheet.now cell.now) }
{
    Ok(DocCell {
        attrs: doc_attrs(alloc, cell.attrs.as_slice())?,
        kind: cell.kind.copy(alloc)?,
        name: cell.name.copy(alloc)?,
        lines: cell_lines(alloc, sheet, cell)?,
    })
}

/// Puts cells at the end.
pub fn push_cells(
    alloc: Global,
    items: &mut Vec<Item>,
    sheet: &Sheet,
    cells: &[Carried],
) -> Result<(), Memory>
    ensures { OnOk result (items.new.items ≡ items.old.items ++ spec.cell_items sheet.now cells.now) }
{
    let mut rest = cells;
    while let [cell, tail @ ..] = rest {
        items.push(Item::Cell(doc_cell(alloc, sheet, cell)?))?;
        rest = tail;
    }
    Ok(())
}
