//! The report on the plans of a design's memories.
ghost use Rattle.std.specs.Prelude.{◌≡◌, ◌++◌, drop, IfOk, OnOk};
ghost use Rattle.geom_core.specs.declared.candidates.Candidate.TheVariants as candidate;
ghost use Rattle.fit_rules.specs.Limits.{LibraryLimits};
ghost use Rattle.plan_report.specs.Report as spec;

use crate::lines::{
    push_memory_line, push_points_line, push_ram_line, push_registers_line, push_total_line,
};
use crate::ports::push_port_lines;
use crate::total::total_points;
use fit_rules::Plan;
use fit_rules::fitting::{ram_at, spot_of, variant_at};
use fit_rules::shapes::shape_at;
use geom_core::{Candidate, RamChoice};
use lib_core::{Library, Memory};
use net_core::{Design, Mem, Module};
use std::alloc::Global;

/// The report: for each memory, modules in order, what it became, at which ports its writes and reads
/// stand, and its points; last the sum of all points. Plans belong to the memories in order.
pub fn print_report(
    alloc: Global,
    design: &Design,
    plans: &[Plan],
    lib: &Library,
) -> Result<Vec<u8>, Memory>
    requires limits { LibraryLimits lib.now }
    requires fit { spec.PlansFit lib.now (spec.mems_of design.now.modules) plans.now }
    ensures { IfOk result (λ text. text.items ≡ spec.report lib.now design.now plans.now) }
{
    let modules = design.modules.as_slice();
    let mut text = Vec::new(alloc);
    push_modules(&mut text, lib, modules, plans)?;
    push_total_line(&mut text, total_points(modules, plans))?;
    Ok(text)
}

/// The memories of modules.
#[tactic(auto, using(crate::proofs::Fitting::front_fits, crate::proofs::Fitting::rest_fits))]
fn push_modules(
    text: &mut Vec<u8>,
    lib: &Library,
    modules: &[Module],
    plans: &[Plan],
) -> Result<(), Memory>
    requires limits { LibraryLimits lib.now }
    requires fit { spec.PlansFit lib.now (spec.mems_of modules.now) plans.now }
    ensures { OnOk result (text.new.items ≡ text.old.items ++ spec.modules_text lib.now modules.now plans.now) }
{
    let mut rest = modules;
    let mut left = plans;
    while let [module, tail @ ..] = rest {
        let mems = module.mems.as_slice();
        push_mems(text, lib, module.name.as_slice(), mems, left)?;
        left = past(left, mems.len());
        rest = tail;
    }
    Ok(())
}

/// The plans after so many.
fn past(plans: &[Plan], count: usize) -> &[Plan]
    ensures { result.now ≡ drop count plans.now }
{
    &plans[count.min(plans.len())..]
}

/// The memories of a module.
fn push_mems(
    text: &mut Vec<u8>,
    lib: &Library,
    owner: &[u8],
    mems: &[Mem],
    plans: &[Plan],
) -> Result<(), Memory>
    requires limits { LibraryLimits lib.now }
    requires fit { spec.PlansFit lib.now mems.now plans.now }
    ensures { OnOk result (text.new.items ≡ text.old.items ++ spec.mems_text lib.now owner.now mems.now plans.now) }
{
    let mut rest = mems;
    let mut left = plans;
    while let [mem, tail @ ..] = rest {
        let [plan, behind @ ..] = left else {
            return Ok(());
        };
        push_plan(text, lib, owner, mem, plan)?;
        rest = tail;
        left = behind;
    }
    Ok(())
}

/// A memory and its plan.
#[tactic(auto, unfolding(crate::specs::Report::plan_text))]
fn push_plan(
    text: &mut Vec<u8>,
    lib: &Library,
    owner: &[u8],
    mem: &Mem,
    plan: &Plan,
) -> Result<(), Memory>
    requires limits { LibraryLimits lib.now }
    requires fit { spec.IsFitting lib.now mem.now plan.now.candidate }
    ensures { OnOk result (text.new.items ≡ text.old.items ++ spec.plan_text lib.now owner.now mem.now plan.now) }
{
    push_memory_line(text, owner, mem.name.as_slice())?;
    push_candidate(text, lib, mem, &plan.candidate)?;
    push_points_line(text, plan.points)
}

/// What a memory became.
fn push_candidate(
    text: &mut Vec<u8>,
    lib: &Library,
    mem: &Mem,
    candidate: &Candidate,
) -> Result<(), Memory>
    requires limits { LibraryLimits lib.now }
    requires fit { spec.IsFitting lib.now mem.now candidate.now }
    ensures { OnOk result (text.new.items ≡ text.old.items ++ spec.candidate_text lib.now mem.now candidate.now) }
{
    match candidate {
        Candidate::Registers => push_registers_line(text),
        Candidate::Ram(choice) => push_choice(text, lib, mem, choice),
    }
}

/// The RAM cells that a memory became.
#[tactic(auto, using(crate::proofs::Fitting::variant_limits, crate::proofs::Fitting::spot_met, crate::proofs::Fitting::places_met))]
fn push_choice(
    text: &mut Vec<u8>,
    lib: &Library,
    mem: &Mem,
    choice: &RamChoice,
) -> Result<(), Memory>
    requires limits { LibraryLimits lib.now }
    requires fit { spec.IsFitting lib.now mem.now (candidate.Ram choice.now) }
    ensures { OnOk result (text.new.items ≡ text.old.items ++ spec.candidate_text lib.now mem.now (candidate.Ram choice.now)) }
{
    match variant_at(lib, choice.ram, choice.variant) {
        None => Ok(()),
        Some(variant) => {
            let writes = choice.writes.as_slice();
            let reads = choice.reads.as_slice();
            let shape = shape_at(mem, variant, spot_of(choice), writes, reads);
            push_ram_line(text, name_of(lib, choice.ram), choice, shape)?;
            push_port_lines(text, choice, variant)
        }
    }
}

/// The name of a RAM of the library.
fn name_of(lib: &Library, ram: u32) -> &[u8]
    ensures { result.now ≡ spec.name_of lib.now ram }
{
    match ram_at(lib, ram) {
        None => b"",
        Some(ram) => ram.name.as_slice(),
    }
}
