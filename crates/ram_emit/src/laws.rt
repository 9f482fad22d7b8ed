//! Laws about the cell of a plain choice, each the contract of a function that does nothing.
ghost use Rattle.ram_emit.specs.Laws.{PlainCellShows, PlainCellFits};
ghost use Rattle.ram_emit.specs.Placing.{PlacedSimulates, PlacedRefines, PlacedIsOrdered, PlacedIsValid};

use net_core::laws::simulation_refines;

/// What the cell of a plain choice allows, the memory allows.
pub fn plain_cell_shows()
    ensures { PlainCellShows }
{}

/// The cell of a plain choice is one that any module may have.
pub fn plain_cell_fits()
    ensures { PlainCellFits }
{}

/// The module with the cell of a plain choice in a memory's place does only what the module may, over
/// the same nets.
pub fn placed_simulates()
    ensures { PlacedSimulates }
{}

/// The module with the cell of a plain choice in a memory's place refines the module.
pub fn placed_refines()
    ensures { PlacedRefines }
{
    simulation_refines();
}

/// The module with the cell of a plain choice in a memory's place has a combinational order where the
/// module has one.
pub fn placed_is_ordered()
    ensures { PlacedIsOrdered }
{}

/// The module with the cell of a plain choice in a memory's place is valid where the module is.
pub fn placed_is_valid()
    ensures { PlacedIsValid }
{}
