//! The report on one memory, by the search over all candidates.
ghost use Rattle.std.specs.Prelude.{◌≡◌, ◌∷◌, [], IfOk};
ghost use Rattle.fit_rules.specs.Limits.{LibraryLimits};
ghost use Rattle.plan_report.specs.Report.{mems_of};

use fit_rules::fitting::fits;
use fit_rules::mem_within;
use lib_core::{Library, List, Memory, Name};
use net_core::{Design, Mem, MemJob, Module, Style, style_of};
use plan_report::print_report;
use plan_search::least;
use std::alloc::Global;

/// A design of one module with this memory alone.
fn alone(alloc: Global, owner: &Name, mem: Mem) -> Result<Design, Memory>
    ensures { IfOk result (λ design. mems_of design.modules ≡ mem ∷ []) }
{
    let mut mems = List::from_vec(Vec::new(alloc));
    mems.push(mem)?;
    let module = Module {
        name: owner.copy(alloc)?,
        attrs: List::from_vec(Vec::new(alloc)),
        nets: 0,
        wires: List::from_vec(Vec::new(alloc)),
        declared: List::from_vec(Vec::new(alloc)),
        parts: List::from_vec(Vec::new(alloc)),
        mems,
        combs: List::from_vec(Vec::new(alloc)),
        regs: List::from_vec(Vec::new(alloc)),
        rams: List::from_vec(Vec::new(alloc)),
        carried: List::from_vec(Vec::new(alloc)),
    };
    let mut modules = List::from_vec(Vec::new(alloc));
    modules.push(module)?;
    Ok(Design { modules })
}

/// The report on a memory alone: its plan is the first of least points among all candidates that fit
/// by its style. None where it has none.
#[tactic(auto, using(crate::proofs::Alone::alone_fits))]
pub fn report_on(
    alloc: Global,
    library: &Library,
    owner: &Name,
    mem: &Mem,
) -> Result<Option<Vec<u8>>, Memory>
    requires limits { LibraryLimits library.now }
{
    if !mem_within(mem) {
        return Ok(None);
    }
    let job = MemJob {
        mem: mem.copy(alloc)?,
        quiet: List::from_vec(Vec::new(alloc)),
    };
    let style = style_of(alloc, mem)?;
    let Some(plan) = least(alloc, &job, library, &style)? else {
        return Ok(None);
    };
    if !fits(&job, library, &Style::Auto, &plan.candidate) {
        return Ok(None);
    }
    let design = alone(alloc, owner, mem.copy(alloc)?)?;
    let text = print_report(alloc, &design, &[plan], library)?;
    Ok(Some(text))
}
