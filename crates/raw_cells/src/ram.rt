//! The cells of RAMs.
ghost use Rattle.std.specs.Prelude.{◌≡◌, ◌++◌, IfOk, OnOk, drop, length, slice_get};
ghost use Rattle.std.specs.List.{list_all};
ghost use Rattle.std.specs.Option.{option_copied};
ghost use Rattle.net_wires.specs.Finds.{Finds};
ghost use Rattle.ram_rows.specs.Options.{chosen_by};
ghost use Rattle.ram_rows.specs.RamPins as slot_table;
ghost use Rattle.raw_cells.specs.Rows as rows;

use crate::raw::RamUse;
use crate::row::{CellRow, Found};
use cell_rows::PinRow;
use lib_core::{Group, Library, List, Memory, Name, Variant};
use net_core::Attr;
use net_wires::{BuildCode, Stop, broken};
use ram_rows::{
    Chosen, RamRow, SlotRow, chosen_by, has_strange_level, knows_param, knows_pin, row_at,
    slot_pins,
};
use rtlil_text::CellLine;
use std::alloc::Global;

fn strange_or(strange: bool, cell: RamUse) -> CellRow
    ensures { result ≡ rows.strange_or strange cell }
{
    if strange {
        CellRow::StrangeRam
    } else {
        CellRow::Ram(cell)
    }
}

fn found_slots(ram: u32, place: usize, variant: &Variant, row: Option<RamRow>) -> Found
    ensures { result ≡ rows.found_slots ram place variant.now row }
{
    match row {
        None => Found::Missing,
        Some(row) => {
            let strange = has_strange_level(variant, &row);
            Found::Row(strange_or(
                strange,
                RamUse {
                    ram,
                    variant: place,
                    row,
                },
            ))
        }
    }
}

fn found_variant(
    alloc: Global,
    ram: u32,
    place: usize,
    params: &[Attr],
    variants: &[Variant],
) -> Result<Found, Memory>
    ensures { IfOk result (λ found. found ≡ rows.found_variant ram place params.now (slice_get variants.now place)) }
{
    match variants.get(place) {
        None => Ok(Found::Row(CellRow::StrangeRam)),
        Some(variant) => {
            let row = row_at(alloc, variant, params)?;
            Ok(found_slots(ram, place, variant, row))
        }
    }
}

fn found_chosen(
    alloc: Global,
    ram: u32,
    params: &[Attr],
    variants: &[Variant],
) -> Result<Found, Memory>
    ensures { IfOk result (λ found. found ≡ rows.found_chosen ram params.now variants.now (chosen_by params.now variants.now)) }
{
    match chosen_by(params, variants) {
        Chosen::Missing => Ok(Found::Missing),
        Chosen::Nothing => Ok(Found::Row(CellRow::StrangeRam)),
        Chosen::Variant(place) => found_variant(alloc, ram, place, params, variants),
    }
}

/// The row of a cell of the RAM at this place of the library.
pub(crate) fn found_ram(
    alloc: Global,
    library: &Library,
    ram: u32,
    params: &[Attr],
) -> Result<Found, Memory>
    ensures { IfOk result (λ found. found ≡ rows.found_ram ram params.now (slice_get library.now.rams ram)) }
{
    match library.rams.as_slice().get(ram as usize) {
        None => Ok(Found::Unknown),
        Some(kind) => found_chosen(alloc, ram, params, kind.variants.as_slice()),
    }
}

/// Puts the pins of the ports of a group behind the others.
fn push_names(
    alloc: Global,
    pins: &mut Vec<PinRow>,
    variant: &Variant,
    group: &Group,
    slots: &[SlotRow],
) -> Result<(), Memory>
    ensures { OnOk result (pins.new.items ≡ pins.old.items ++ rows.names_pins variant.now group.now group.now.names slots.now) }
{
    let mut names = group.names.as_slice();
    let mut slots = slots;
    while let [name, name_tail @ ..] = names {
        let [slot, slot_tail @ ..] = slots else {
            return Ok(());
        };
        push_slot(alloc, pins, variant, group, slot.level, name)?;
        names = name_tail;
        slots = slot_tail;
    }
    Ok(())
}

fn push_slot(
    alloc: Global,
    pins: &mut Vec<PinRow>,
    variant: &Variant,
    group: &Group,
    level: usize,
    name: &Name,
) -> Result<(), Memory>
    ensures { OnOk result (pins.new.items ≡ pins.old.items ++ slot_table.slot_pins variant.now group.now level name.now) }
{
    let mut more = slot_pins(alloc, variant, group, level, name)?.into_vec();
    pins.append(&mut more)?;
    Ok(())
}

/// The slots behind those of a group.
pub(crate) fn behind<'a>(slots: &'a [SlotRow], group: &Group) -> &'a [SlotRow]
    ensures { result.now ≡ drop (length group.now.names) slots.now }
{
    let count = group.names.as_slice().len();
    &slots[count.min(slots.len())..]
}

fn groups_pins(alloc: Global, variant: &Variant, slots: &[SlotRow]) -> Result<List<PinRow>, Memory>
    ensures { IfOk result (λ pins. pins ≡ rows.groups_pins variant.now variant.now.groups slots.now) }
{
    let mut pins = Vec::new(alloc);
    let mut left = slots;
    let mut rest = variant.groups.as_slice();
    while let [group, tail @ ..] = rest {
        push_names(alloc, &mut pins, variant, group, left)?;
        left = behind(left, group);
        rest = tail;
    }
    Ok(List::from_vec(pins))
}

/// The variant that a RAM cell is of.
pub fn variant_of<'a>(library: &'a Library, cell: &RamUse) -> Option<&'a Variant>
    ensures { option_copied result ≡ rows.variant_of library.now cell.now }
{
    let kind = library.rams.as_slice().get(cell.ram as usize)?;
    kind.variants.as_slice().get(cell.variant)
}

/// The pins of a RAM cell in their order.
pub(crate) fn ram_pins(
    alloc: Global,
    library: &Library,
    cell: &RamUse,
) -> Result<List<PinRow>, Memory>
    ensures { IfOk result (λ pins. pins ≡ rows.variant_pins (rows.variant_of library.now cell.now) cell.now.row.slots) }
{
    match variant_of(library, cell) {
        None => Ok(List::from_vec(Vec::new(alloc))),
        Some(variant) => groups_pins(alloc, variant, cell.row.slots.as_slice()),
    }
}

fn line_known(variant: &Variant, line: &CellLine) -> bool
    ensures { result ≡ rows.line_known variant.now line.now }
{
    match line {
        CellLine::Param(param) => knows_param(variant, param.name.as_slice()),
        CellLine::Pin { name, .. } => knows_pin(variant, name.as_slice()),
    }
}

fn all_known(variant: &Variant, lines: &[CellLine]) -> bool
    ensures { result ≡ list_all (rows.line_known variant.now) lines.now }
{
    lines.iter().all(|line| line_known(variant, line))
}

fn lines_known(library: &Library, cell: &RamUse, lines: &[CellLine]) -> bool
    ensures { result ≡ rows.lines_known (rows.variant_of library.now cell.now) lines.now }
{
    match variant_of(library, cell) {
        None => false,
        Some(variant) => all_known(variant, lines),
    }
}

/// Stops where a RAM cell suits no variant of its RAM, or has a parameter or a pin that the variant
/// lacks (`BadRam`).
pub fn suits_ram(library: &Library, row: &CellRow, lines: &[CellLine]) -> Result<(), Stop>
    ensures { Finds result (rows.ram_breaches library.now row.now lines.now) (λ _. Unit {0}) }
{
    match row {
        CellRow::Ram(cell) => {
            if !lines_known(library, cell, lines) {
                return Err(broken(BuildCode::BadRam));
            }
            Ok(())
        }
        CellRow::StrangeRam => Err(broken(BuildCode::BadRam)),
        CellRow::Comb(_) => Ok(()),
        CellRow::Reg(_) => Ok(()),
        CellRow::Memory(_) => Ok(()),
        CellRow::Kept => Ok(()),
    }
}
