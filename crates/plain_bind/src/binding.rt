//! The cells in the places of the memories.
ghost use Rattle.std.specs.Prelude.{◌≡◌, ◌≤◌, IfOk};
ghost use Rattle.net_core.specs.Valid.{Each, MemFits};
ghost use Rattle.fit_rules.specs.Limits.{LibraryLimits};
ghost use Rattle.ram_emit.specs.Plain.{IsPlainCandidate};
ghost use Rattle.plain_plan.specs.Planned.{ArePlain, job_of};
ghost use Rattle.plain_bind.specs.Bound as spec;

use crate::naming::{cell_name, front_of};
use fit_rules::Plan;
use geom_core::Candidate;
use lib_core::{Library, List, Memory, Name};
use net_core::{Design, Mem, Module, RamCell};
use ram_emit::{PlainCell, plain_cell};
use std::alloc::Global;

/// The nets that a module has at most.
const MOST_NETS: u32 = 67_108_864;

/// The RAM cells of a module, and how many nets it has.
#[derive(Debug, Drop)]
pub struct Made {
    pub nets: u32,
    pub rams: List<RamCell>,
}

/// The cells with that of one more memory behind them. It takes no cell behind the most nets of a
/// module.
#[tactic(auto, using(crate::proofs::Cells::memory_within))]
fn bind_mem(
    alloc: Global,
    lib: &Library,
    front: &Name,
    made: Made,
    mem: &Mem,
    candidate: &Candidate,
) -> Result<Made, Memory>
    requires library { LibraryLimits lib.now }
    requires memory { MemFits mem.now }
    requires plain { IsPlainCandidate lib.now (job_of mem.now) candidate.now }
    ensures { IfOk result (λ new. new ≡ spec.made_with lib.now front.now made mem.now candidate.now) }
{
    let Candidate::Ram(choice) = candidate else {
        unreachable!()
    };
    let Made { nets, mut rams } = made;
    if nets > MOST_NETS {
        return Err(Memory);
    }
    let name = cell_name(alloc, front, mem)?;
    let PlainCell { cell, nets: more } = plain_cell(alloc, lib, mem, choice, name, nets)?;
    rams.push(cell)?;
    Ok(Made {
        nets: nets + more,
        rams,
    })
}

/// The cells with those of memories behind them.
#[tactic(auto, using(crate::proofs::Bounding::all_made, crate::proofs::Bounding::run_out))]
fn bind_mems(
    alloc: Global,
    lib: &Library,
    front: &Name,
    made: Made,
    mems: &[Mem],
    plans: &[Plan],
) -> Result<Made, Memory>
    requires library { LibraryLimits lib.now }
    requires memories { Each mems.now MemFits }
    requires plain { ArePlain lib.now mems.now plans.now }
    ensures { IfOk result (λ new. new ≡ spec.made_by lib.now front.now made mems.now plans.now) }
{
    let mut made = made;
    let mut mems = mems;
    let mut plans = plans;
    while let [mem, others @ ..] = mems {
        let [plan, tail @ ..] = plans else {
            return Ok(made);
        };
        made = bind_mem(alloc, lib, front, made, mem, &plan.candidate)?;
        mems = others;
        plans = tail;
    }
    Ok(made)
}

/// The module with a cell in the place of each memory.
fn bind_module(
    alloc: Global,
    lib: &Library,
    module: Module,
    plans: &[Plan],
) -> Result<Module, Memory>
    requires library { LibraryLimits lib.now }
    requires memories { Each «module».mems MemFits }
    requires plain { ArePlain lib.now «module».mems plans.now }
    ensures { IfOk result (λ new. new ≡ spec.bound_module lib.now «module» plans.now) }
{
    let front = front_of(alloc, &module)?;
    let Module {
        name,
        attrs,
        nets,
        wires,
        declared,
        parts,
        mems,
        combs,
        regs,
        rams,
        carried,
    } = module;
    let made = Made { nets, rams };
    let Made { nets, rams } = bind_mems(alloc, lib, &front, made, mems.as_slice(), plans)?;
    Ok(Module {
        name,
        attrs,
        nets,
        wires,
        declared,
        parts,
        mems: List::from_vec(Vec::new(alloc)),
        combs,
        regs,
        rams,
        carried,
    })
}

/// The design with a RAM cell in the place of each memory, by the plans of the memories, modules in
/// order. Each cell's name is `$ram`, then the fewest underscores with which no name of the module as
/// given begins, then `.0.0.0`, then the memory's name. Where a cell would begin behind the most nets
/// of a module the answer is `Memory`.
#[tactic(auto, using(crate::proofs::Bounding::first_plain, crate::proofs::Bounding::enough_plans, crate::proofs::Bounding::all_bound))]
pub fn bind_plain(
    alloc: Global,
    lib: &Library,
    design: Design,
    plans: &[Plan],
) -> Result<Design, Memory>
    requires { spec.CanBind lib.now «design» plans.now }
    ensures { IfOk result (λ new. new ≡ spec.bound lib.now «design» plans.now) }
{
    let Design { modules } = design;
    let mut bound = Vec::new(alloc);
    let mut rest = plans;
    for module in modules.into_vec() {
        let count = module.mems.as_slice().len();
        bound.push(bind_module(alloc, lib, module, rest)?)?;
        rest = rest.split_at(count).1;
    }
    Ok(Design {
        modules: List::from_vec(bound),
    })
}
