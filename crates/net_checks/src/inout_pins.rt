//! Bits of inouts, and where they may not stand.
ghost use Rattle.std.specs.Prelude.{◌≡◌, ◌≤◌, ◌++◌, IfOk, OnOk};
ghost use Rattle.std.specs.List.{flat_map, list_any};
ghost use Rattle.rtlil_text.specs.Grammar.{AreDistinct, wire_name};
ghost use Rattle.net_wires.specs.Connects.{connect_pairs};
ghost use Rattle.net_wires.specs.Spans.{There, wire_bits};
ghost use Rattle.net_checks.specs.Checks as checks;
ghost use Rattle.net_checks.specs.Finds.{FindsFirst};
ghost use Rattle.net_checks.specs.Inouts as spec;
ghost use Rattle.net_checks.specs.Marks.{is_source_marked};
ghost use Rattle.net_wires.specs.declared.source.Source.{Source as Sources};

use crate::fault::{ModuleHalt, broken};
use crate::inouts::Inouts;
use crate::marking::{Port, is_source_marked, mark_sources, port_bits, unmarked};
use crate::naming::connect_name;
use crate::sources::push_all;
use lib_core::{Memory, Name};
use net_gather::Gathered;
use net_wires::{BuildCode, Names, Pair, Source, connect, names_of};
use raw_cells::{CellShape, RawCell, RawPin};
use rtlil_text::{Item, Part};
use std::alloc::Global;

fn push_pin(
    bits: &mut Vec<Source>,
    inouts: &Inouts,
    kind: &Name,
    pin: &RawPin,
) -> Result<(), Memory>
    ensures { OnOk result (bits.new.items ≡ bits.old.items ++ spec.pin_inouts inouts.now kind.now pin.now) }
{
    if inouts.has(kind, &pin.name) {
        push_all(bits, pin.bits.as_slice())?;
    }
    Ok(())
}

fn push_pins(
    bits: &mut Vec<Source>,
    inouts: &Inouts,
    kind: &Name,
    pins: &[RawPin],
) -> Result<(), Memory>
    ensures { OnOk result (bits.new.items ≡ bits.old.items ++ flat_map (spec.pin_inouts inouts.now kind.now) pins.now) }
{
    for pin in pins {
        push_pin(bits, inouts, kind, pin)?;
    }
    Ok(())
}

fn push_cell(bits: &mut Vec<Source>, inouts: &Inouts, cell: &RawCell) -> Result<(), Memory>
    ensures { OnOk result (bits.new.items ≡ bits.old.items ++ spec.cell_inouts inouts.now cell.now) }
{
    if let CellShape::Carried(kept) = &cell.shape {
        push_pins(bits, inouts, &kept.kind, cell.pins.as_slice())?;
    }
    Ok(())
}

/// The bits of inout wires, and those of inout pins of instances.
fn inout_bits(
    alloc: Global,
    inouts: &Inouts,
    items: &[Item],
    cells: &[RawCell],
) -> Result<Vec<Source>, Memory>
    requires { wire_bits items.now ≤ 4294967295 }
    ensures { IfOk result (λ bits. bits.items ≡ spec.inout_bits inouts.now items.now cells.now) }
{
    let mut bits = port_bits(alloc, Port::Inout, items)?;
    for cell in cells {
        push_cell(&mut bits, inouts, cell)?;
    }
    Ok(bits)
}

/// Marks the places of inouts.
fn inout_marks(
    alloc: Global,
    inouts: &Inouts,
    items: &[Item],
    gathered: &Gathered,
) -> Result<Vec<bool>, Memory>
    requires sound { checks.IsSound items.now gathered.now }
    ensures { IfOk result (λ marks. (s : Sources) → is_source_marked marks.items s ≡ spec.is_among (spec.inout_bits inouts.now items.now gathered.now.cells) s) }
{
    let bits = inout_bits(alloc, inouts, items, gathered.cells.as_slice())?;
    let mut marks = unmarked(alloc, gathered.places as usize)?;
    mark_sources(&mut marks, bits.as_slice());
    Ok(marks)
}

fn touches_pin(marks: &[bool], pin: &RawPin) -> bool
    ensures { result ≡ spec.touches_pin (is_source_marked marks.now) pin.now }
{
    pin.bits
        .as_slice()
        .iter()
        .any(|source| is_source_marked(marks, *source))
}

fn touches_pins(marks: &[bool], pins: &[RawPin]) -> bool
    ensures { result ≡ list_any (spec.touches_pin (is_source_marked marks.now)) pins.now }
{
    pins.iter().any(|pin| touches_pin(marks, pin))
}

fn is_kept(shape: &CellShape) -> bool
    ensures { result ≡ spec.is_kept shape.now }
{
    matches!(shape, CellShape::Carried(_))
}

fn touches_cell(marks: &[bool], cell: &RawCell) -> bool
    ensures { result ≡ spec.touches_cell (is_source_marked marks.now) cell.now }
{
    if is_kept(&cell.shape) {
        return false;
    }
    touches_pins(marks, cell.pins.as_slice())
}

/// Stops where a marked bit stands in a cell that is not kept as it is.
fn check_cell(alloc: Global, marks: &[bool], cell: &RawCell) -> Result<(), ModuleHalt>
    ensures { FindsFirst result (spec.cell_fault (is_source_marked marks.now) cell.now) (λ _. Unit {0}) }
{
    if touches_cell(marks, cell) {
        let name = cell.name.copy(alloc)?;
        return Err(broken(BuildCode::Inout, name));
    }
    Ok(())
}

fn touches_pair(marks: &[bool], pair: &Pair) -> bool
    ensures { result ≡ spec.touches_pair (is_source_marked marks.now) pair.now }
{
    is_source_marked(marks, pair.left) || is_source_marked(marks, pair.right)
}

fn touches_pairs(marks: &[bool], pairs: &[Pair]) -> bool
    ensures { result ≡ list_any (spec.touches_pair (is_source_marked marks.now)) pairs.now }
{
    pairs.iter().any(|pair| touches_pair(marks, pair))
}

/// The bits of a connect. It was gathered, so nothing is wrong with it, and only memory can be short.
fn pairs_of(
    alloc: Global,
    names: &Names,
    left: &[Part],
    right: &[Part],
) -> Result<Vec<Pair>, Memory>
    requires near { There 4294967295 names.now }
    ensures { IfOk result (λ pairs. pairs.items ≡ connect_pairs names.now left.now right.now) }
{
    let mut pairs = Vec::new(alloc);
    match connect(alloc, names, left, right, &mut pairs) {
        Ok(()) => Ok(pairs),
        Err(_) => Err(Memory),
    }
}

/// Stops where a marked bit stands in a connect.
fn check_connect(
    alloc: Global,
    names: &Names,
    marks: &[bool],
    left: &[Part],
    right: &[Part],
) -> Result<(), ModuleHalt>
    requires near { There 4294967295 names.now }
    ensures { FindsFirst result (spec.connect_fault (is_source_marked marks.now) names.now left.now right.now) (λ _. Unit {0}) }
{
    let pairs = pairs_of(alloc, names, left, right)?;
    if touches_pairs(marks, pairs.as_slice()) {
        let name = connect_name(alloc, left, right)?;
        return Err(broken(BuildCode::Inout, name));
    }
    Ok(())
}

/// Stops where a marked bit stands in the first of these cells, unless that is kept as it is.
fn check_first(alloc: Global, marks: &[bool], cells: &[RawCell]) -> Result<(), ModuleHalt>
    ensures { FindsFirst result (spec.first_fault (is_source_marked marks.now) cells.now) (λ _. Unit {0}) }
{
    match cells {
        [] => Ok(()),
        [cell, ..] => check_cell(alloc, marks, cell),
    }
}

/// Stops where an item has a marked bit; its cell is the first of these.
fn check_item(
    alloc: Global,
    names: &Names,
    marks: &[bool],
    cells: &[RawCell],
    item: &Item,
) -> Result<(), ModuleHalt>
    requires near { There 4294967295 names.now }
    ensures { FindsFirst result (spec.item_fault (is_source_marked marks.now) names.now cells.now item.now) (λ _. Unit {0}) }
{
    match item {
        Item::Param(_) => Ok(()),
        Item::Wire(_) => Ok(()),
        Item::Mem(_) => Ok(()),
        Item::Cell(_) => check_first(alloc, marks, cells),
        Item::Connect { left, right } => {
            check_connect(alloc, names, marks, left.as_slice(), right.as_slice())
        }
    }
}

/// The cells of the items behind.
fn cells_behind<'a>(cells: &'a [RawCell], item: &Item) -> &'a [RawCell]
    ensures { result.now ≡ spec.cells_behind cells.now item.now }
{
    match item {
        Item::Cell(_) => match cells {
            [] => cells,
            [_, tail @ ..] => tail,
        },
        Item::Param(_) => cells,
        Item::Wire(_) => cells,
        Item::Mem(_) => cells,
        Item::Connect { .. } => cells,
    }
}

/// Stops at the first item that has a marked bit.
fn check_items(
    alloc: Global,
    names: &Names,
    marks: &[bool],
    cells: &[RawCell],
    items: &[Item],
) -> Result<(), ModuleHalt>
    requires near { There 4294967295 names.now }
    ensures { FindsFirst result (spec.inout_faults (is_source_marked marks.now) names.now cells.now items.now) (λ _. Unit {0}) }
{
    let mut cells = cells;
    let mut rest = items;
    while let [item, tail @ ..] = rest {
        check_item(alloc, names, marks, cells, item)?;
        cells = cells_behind(cells, item);
        rest = tail;
    }
    Ok(())
}

/// Stops where a bit of an inout stands in a connect, or in a cell that is not kept as it is
/// (`Inout`).
pub(crate) fn check_inouts(
    alloc: Global,
    inouts: &Inouts,
    items: &[Item],
    gathered: &Gathered,
) -> Result<(), ModuleHalt>
    requires new { AreDistinct (flat_map wire_name items.now) }
    requires sound { checks.IsSound items.now gathered.now }
    ensures { FindsFirst result (checks.module_inouts inouts.now items.now gathered.now) (λ _. Unit {0}) }
{
    let marks = inout_marks(alloc, inouts, items, gathered)?;
    let names = names_of(alloc, items)?;
    check_items(
        alloc,
        &names,
        marks.as_slice(),
        gathered.cells.as_slice(),
        items,
    )
}
