//! The design that is mapped, and the plans of its memories.
ghost use Rattle.std.specs.Prelude.{◌≡◌, IfOk, IfErr};
ghost use Rattle.fit_rules.specs.Limits.{LibraryLimits};
ghost use Rattle.rtlil_text.specs.Reads.{Writable};
ghost use Rattle.net_live.specs.Sound.{IsSoundDesign};
ghost use Rattle.net_whole.specs.Whole.{MeansWhole};
ghost use Rattle.map_flow.specs.Maps as spec;

use crate::refusal::{MapRefusal, refusal_of};
use fit_rules::plans::Plan;
use lib_core::{Library, List};
use net_core::Design;
use net_live::design_is_sound;
use net_whole::whole_design;
use plain_plan::laws::planned_are_plain;
use plain_plan::{Planned, plans_of, room_fault};
use rtlil_text::Doc;
use std::alloc::Global;

/// The design that a document means, with its memories whole.
fn whole_of(alloc: Global, doc: &Doc, library: &Library) -> Result<Design, MapRefusal>
    requires { Writable doc.now }
    ensures whole { IfOk result (MeansWhole library.now doc.now) }
    ensures refused { IfErr result (spec.IsRefused doc.now library.now) }
{
    match whole_design(alloc, doc, library) {
        Ok(design) => Ok(design),
        Err(fault) => Err(refusal_of(fault)),
    }
}

/// The design that a document means, with its memories whole. That it can run is tested; where it
/// could not, the answer would be want of memory.
pub(crate) fn design_of(alloc: Global, doc: &Doc, library: &Library) -> Result<Design, MapRefusal>
    requires { Writable doc.now }
    ensures whole { IfOk result (MeansWhole library.now doc.now) }
    ensures sound { IfOk result (IsSoundDesign library.now) }
    ensures refused { IfErr result (spec.IsRefused doc.now library.now) }
{
    let design = whole_of(alloc, doc, library)?;
    if !design_is_sound(alloc, library, &design)? {
        return Err(MapRefusal::Memory);
    }
    Ok(design)
}

/// A plan for each memory of the design, with room for all.
pub(crate) fn plans_for(
    alloc: Global,
    design: &Design,
    library: &Library,
) -> Result<List<Plan>, MapRefusal>
    requires limits { LibraryLimits library.now }
    requires sound { IsSoundDesign library.now design.now }
    ensures plans { IfOk result (λ plans. spec.HasPlans library.now design.now plans) }
    ensures refused { IfErr result (spec.HasNoPlans library.now design.now) }
{
    planned_are_plain();
    let plans = match plans_of(alloc, design, library)? {
        Planned::Plans(plans) => plans,
        Planned::NoFit { module, memory } => return Err(MapRefusal::NoFit { module, memory }),
    };
    match room_fault(design, library, plans.as_slice()) {
        None => Ok(plans),
        Some(seen) => match u64::try_from(seen) {
            Ok(seen) => Err(MapRefusal::Room { seen }),
            Err(_) => Err(MapRefusal::Memory),
        },
    }
}
