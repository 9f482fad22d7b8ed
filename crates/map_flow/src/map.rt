//! From a document and a library to the texts.
ghost use Rattle.std.specs.Prelude.{◌≡◌, true, IfOk, IfErr};
ghost use Rattle.fit_rules.specs.Limits.{LibraryLimits};
ghost use Rattle.rtlil_text.specs.Reads.{Writable};
ghost use Rattle.net_live.specs.Sound.{IsSoundDesign};
ghost use Rattle.map_flow.specs.Maps as spec;

use crate::laws::texts_are_mapped;
use crate::planning::{design_of, plans_for};
use crate::refusal::MapRefusal;
use crate::shapes::have_shapes;
use crate::writing::text_of;
use fit_rules::laws::valid_is_within;
use fit_rules::library_within;
use fit_rules::plans::Plan;
use lib_core::{Library, List, Memory};
use net_core::Design;
use net_live::design_is_sound;
use plain_bind::bind_plain;
use plain_plan::laws::planned_are_plain;
use plan_report::print_report;
use rtlil_text::Doc;
use std::alloc::Global;

/// The texts of a mapped design.
#[derive(Debug, Drop)]
pub struct Made {
    /// The design that was mapped.
    pub inferred: Vec<u8>,
    /// The design with RAM cells in the places of its memories.
    pub netlist: Vec<u8>,
    /// The plans and their points.
    pub report: Vec<u8>,
}

/// The design with the RAM cells of plans in the places of its memories. That it can run and its
/// RAM cells have their shapes is tested; where it were not so, the answer would be want of memory.
fn bound_of(
    alloc: Global,
    library: &Library,
    design: Design,
    plans: &List<Plan>,
) -> Result<Design, Memory>
    requires limits { LibraryLimits library.now }
    requires sound { IsSoundDesign library.now design }
    requires plans { spec.HasPlans library.now design plans.now }
    ensures bound { IfOk result (λ new. new ≡ spec.bound library.now design plans.now) }
    ensures sound { IfOk result (IsSoundDesign library.now) }
    ensures shapes { IfOk result (λ new. spec.have_shapes library.now new ≡ true) }
{
    planned_are_plain();
    let bound = bind_plain(alloc, library, design, plans.as_slice())?;
    if !have_shapes(library, &bound) || !design_is_sound(alloc, library, &bound)? {
        return Err(Memory);
    }
    Ok(bound)
}

/// The texts of a design and its plans.
fn texts_of(
    alloc: Global,
    library: &Library,
    design: Design,
    plans: &List<Plan>,
) -> Result<Made, Memory>
    requires limits { LibraryLimits library.now }
    requires sound { IsSoundDesign library.now design }
    requires plans { spec.HasPlans library.now design plans.now }
    ensures { IfOk result (spec.AreTexts library.now design plans.now) }
{
    planned_are_plain();
    valid_is_within();
    let inferred = text_of(alloc, &design, library)?;
    let report = print_report(alloc, &design, plans.as_slice(), library)?;
    let bound = bound_of(alloc, library, design, plans)?;
    let netlist = text_of(alloc, &bound, library)?;
    Ok(Made {
        inferred,
        netlist,
        report,
    })
}

/// Maps the design that a document means onto a library: each memory gets the first plain candidate
/// of least points, and its RAM cell stands in the memory's place. The answer is the texts of the
/// design, of the netlist and of the report. The document is one that some text reads as.
pub fn map_design(alloc: Global, doc: &Doc, library: &Library) -> Result<Made, MapRefusal>
    requires { Writable doc.now }
    ensures mapped { IfOk result (spec.IsMapped doc.now library.now) }
    ensures refused { IfErr result (spec.IsRefused doc.now library.now) }
{
    texts_are_mapped();
    if !library_within(library) {
        return Err(MapRefusal::Memory);
    }
    let design = design_of(alloc, doc, library)?;
    let plans = plans_for(alloc, &design, library)?;
    match texts_of(alloc, library, design, &plans) {
        Ok(made) => Ok(made),
        Err(_) => Err(MapRefusal::Memory),
    }
}
