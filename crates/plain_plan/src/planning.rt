//! The plans of all memories of a design.
ghost use Rattle.std.specs.Prelude.{◌≡◌, ◌++◌, IfOk};
ghost use Rattle.net_core.specs.Style.{style_of_mem};
ghost use Rattle.net_core.specs.Valid.{Each, MemFits};
ghost use Rattle.fit_rules.specs.Limits.{LibraryLimits};
ghost use Rattle.plain_plan.specs.Planned as spec;

use crate::choosing::least_plain;
use fit_rules::Plan;
use lib_core::{Library, List, Memory, Name};
use net_core::{Design, Mem, MemJob, Module, style_of};
use std::alloc::Global;

/// What the memories of a design become.
#[derive(Debug, Drop)]
pub enum Planned {
    /// A plan for each memory, modules in order, memories in order.
    Plans(List<Plan>),
    /// The first memory that has none.
    NoFit {
        /// The module of the memory.
        module: Name,
        memory: Name,
    },
}

/// The plan of a memory, where it has one.
#[tactic(auto, using(crate::proofs::Gathered::limits_met))]
fn plan_of(alloc: Global, lib: &Library, mem: &Mem) -> Result<Option<Plan>, Memory>
    requires library { LibraryLimits lib.now }
    requires memory { MemFits mem.now }
    ensures { IfOk result (λ plan. plan ≡ spec.plan_of lib.now mem.now) }
{
    let job = MemJob {
        mem: mem.copy(alloc)?,
        quiet: List::from_vec(Vec::new(alloc)),
    };
    let style = style_of(alloc, mem)?;
    least_plain(alloc, &job, lib, &style)
}

/// That a memory has no plan.
fn unfit(alloc: Global, module: &Module, mem: &Mem) -> Result<Planned, Memory>
    ensures { IfOk result (λ planned. planned ≡ spec.no_fit «module».now mem.now) }
{
    Ok(Planned::NoFit {
        module: module.name.copy(alloc)?,
        memory: mem.name.copy(alloc)?,
    })
}

/// The plans with those of a module's memories behind them, or the first of these that has none.
#[tactic(auto, using(crate::proofs::Gathered::all_in, crate::proofs::Gathered::unfit_in))]
fn plans_in(
    alloc: Global,
    module: &Module,
    lib: &Library,
    plans: List<Plan>,
) -> Result<Planned, Memory>
    requires library { LibraryLimits lib.now }
    requires memories { Each «module».now.mems MemFits }
    ensures { IfOk result (λ planned. planned ≡ spec.planned_from lib.now plans (spec.owned_in «module».now)) }
{
    let mut plans = plans;
    let mut rest = module.mems.as_slice();
    while let [mem, tail @ ..] = rest {
        match plan_of(alloc, lib, mem)? {
            None => return unfit(alloc, module, mem),
            Some(plan) => plans.push(plan)?,
        }
        rest = tail;
    }
    Ok(Planned::Plans(plans))
}

/// A plan for each memory of the design, in order, each by what the memory's attributes ask for: the
/// first of least points among the candidates that are plain and fit; or the first memory that has
/// none, where there is one.
#[tactic(auto, using(crate::proofs::Gathered::all_by, crate::proofs::Gathered::unfit_by))]
pub fn plans_of(alloc: Global, design: &Design, lib: &Library) -> Result<Planned, Memory>
    requires { spec.CanPlan lib.now design.now.modules }
    ensures { IfOk result (λ planned. planned ≡ spec.planned lib.now design.now) }
{
    let mut plans = List::from_vec(Vec::new(alloc));
    let mut rest = design.modules.as_slice();
    while let [module, tail @ ..] = rest {
        match plans_in(alloc, module, lib, plans)? {
            Planned::Plans(more) => plans = more,
            Planned::NoFit { module, memory } => return Ok(Planned::NoFit { module, memory }),
        }
        rest = tail;
    }
    Ok(Planned::Plans(plans))
}
