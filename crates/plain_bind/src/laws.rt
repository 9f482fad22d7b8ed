//! Laws about bound designs, each the contract of a function that does nothing.
ghost use Rattle.plain_bind.specs.Laws.{BoundRefines, BoundKeeps};
ghost use Rattle.plain_bind.specs.Names.{MarksAreFewest};

use net_core::laws::{simulates_itself, simulation_refines, simulations_compose};
use ram_emit::laws::placed_simulates;

/// The bound design does only what the design may do.
pub fn bound_refines()
    ensures { BoundRefines }
{
    placed_simulates();
    simulates_itself();
    simulations_compose();
    simulation_refines();
}

/// In the bound design no memory is left, each has one RAM cell in its place, and all else stays.
pub fn bound_keeps()
    ensures { BoundKeeps }
{}

/// No name of a module begins with the mark of its new cells, and with fewer underscores one does.
pub fn marks_are_fewest()
    ensures { MarksAreFewest }
{}
