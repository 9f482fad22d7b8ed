//! What each cell of a module becomes.
ghost use Rattle.std.specs.Prelude.{◌≡◌, IfOk};
ghost use Rattle.raw_cells.specs.Rows.{variant_of};
ghost use Rattle.net_module.specs.Assembly as assembly;
ghost use Rattle.net_module.specs.Made as spec;

use lib_core::{Library, List, Memory, Name, Tri};
use net_cells::{carried_of, comb_of, part_of, reg_of};
use net_core::{Bit, Carried, Comb, MemPart, RamCell, Reg};
use net_wires::ClockRoot;
use raw_cells::ram_cell::narrow;
use raw_cells::{CellShape, RamUse, RawCell, RawPin, ram_of, variant_of};
use std::alloc::Global;

/// What stands around the cells of a module.
#[derive(Drop)]
pub struct Around<'a> {
    pub library: &'a Library,
    /// The bit of each place.
    pub places: &'a [Bit],
    /// The clock root of each place.
    pub roots: &'a [ClockRoot],
    /// The value at the start of each net.
    pub starts: &'a [Tri],
}

/// A cell of a module, for the list of its kind.
#[derive(Debug, PartialEq, Eq, Drop)]
pub enum Made {
    Comb(Comb),
    Reg(Reg),
    Ram(RamCell),
    Carried(Carried),
    Part(MemPart),
}

/// A cell without ports.
fn bare(alloc: Global, name: &Name, cell: &RamUse) -> Result<RamCell, Memory>
    ensures { IfOk result (λ ram. ram ≡ assembly.bare name.now cell.now) }
{
    Ok(RamCell {
        name: name.copy(alloc)?,
        ram: cell.ram,
        variant: narrow(cell.variant),
        slots: List::from_vec(Vec::new(alloc)),
        init: List::from_vec(Vec::new(alloc)),
    })
}

fn ram_under(
    alloc: Global,
    around: &Around<'_>,
    name: &Name,
    cell: &RamUse,
    pins: &[RawPin],
) -> Result<RamCell, Memory>
    ensures { IfOk result (λ ram. ram ≡ assembly.ram_under (spec.wiring around.now).library (spec.wiring around.now).places (spec.wiring around.now).roots name.now cell.now (variant_of (spec.wiring around.now).library cell.now) pins.now) }
{
    match variant_of(around.library, cell) {
        None => bare(alloc, name, cell),
        Some(variant) => ram_of(
            alloc,
            around.places,
            around.roots,
            name,
            cell,
            variant,
            pins,
        ),
    }
}

fn shaped(
    alloc: Global,
    around: &Around<'_>,
    name: &Name,
    pins: &[RawPin],
    shape: &CellShape,
) -> Result<Made, Memory>
    ensures { IfOk result (λ made. made ≡ spec.shaped (spec.wiring around.now) name.now pins.now shape.now) }
{
    let Around {
        library: _,
        places,
        roots,
        starts,
    } = around;
    match shape {
        CellShape::Comb(row) => Ok(Made::Comb(comb_of(alloc, places, name, row, pins)?)),
        CellShape::Reg(row) => Ok(Made::Reg(reg_of(
            alloc, places, roots, starts, name, row, pins,
        )?)),
        CellShape::Carried(kept) => Ok(Made::Carried(carried_of(alloc, places, name, kept, pins)?)),
        CellShape::Memory { kept, row } => Ok(Made::Part(part_of(
            alloc, places, roots, name, kept, row, pins,
        )?)),
        CellShape::Ram(used) => Ok(Made::Ram(ram_under(alloc, around, name, used, pins)?)),
    }
}

/// What a cell becomes.
pub fn made_of(alloc: Global, around: &Around<'_>, cell: &RawCell) -> Result<Made, Memory>
    ensures { IfOk result (λ made. made ≡ spec.made_of (spec.wiring around.now) cell.now) }
{
    shaped(alloc, around, &cell.name, cell.pins.as_slice(), &cell.shape)
}
