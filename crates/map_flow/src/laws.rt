//! What follows for the texts of a design with plans: the contract of a function that does nothing.
ghost use Rattle.map_flow.specs.Laws.{TextsAreMapped};

use net_core::laws::refinements_compose;
use net_live::laws::sound_design_is_live;
use net_same::laws::{same_designs_live, same_designs_refine};
use plain_bind::laws::{bound_keeps, bound_refines};
use plain_plan::laws::planned_are_plain;

/// The texts of a design with plans are those of the mapped design: what they mean refines the design and
/// has runs, and no memory is left.
pub fn texts_are_mapped()
    ensures { TextsAreMapped }
{
    planned_are_plain();
    bound_refines();
    bound_keeps();
    same_designs_refine();
    same_designs_live();
    sound_design_is_live();
    refinements_compose();
}
