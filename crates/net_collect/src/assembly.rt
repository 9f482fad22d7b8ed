//! Modules with their memories whole.
ghost use Rattle.std.specs.Prelude.{◌≡◌, ◌++◌, ◌∷◌, [], map, IfOk, IfErr, OnOk};
ghost use Rattle.net_collect.specs.Collected as spec;
ghost use Rattle.net_collect.specs.Faults.{IsMemoryIn};
ghost use Rattle.net_collect.specs.Gathered.{gathered};

use crate::fault::{DesignFault, no_memory, no_memory_in};
use crate::gathered::gathered;
use crate::grouping::{Bucket, Groups, groups_by};
use crate::naming::{Taken, kept_behind, taken_by};
use lib_core::{List, Memory, Name};
use mem_collect::CollectFault;
use net_core::{Design, Mem, Module};
use part_faults::{check_parts, memories_of};
use std::alloc::Global;

/// The memories of declared ones and their cells.
fn gathered_mems(alloc: Global, buckets: List<Bucket>) -> Result<List<Mem>, Memory>
    ensures { IfOk result (λ mems. mems ≡ map gathered buckets) }
{
    let mut mems = Vec::new(alloc);
    for bucket in buckets.into_vec() {
        mems.push(gathered(alloc, bucket)?)?;
    }
    Ok(List::from_vec(mems))
}

/// Two lists of memories, one behind the other.
fn joined(mems: List<Mem>, more: List<Mem>) -> Result<List<Mem>, Memory>
    ensures { IfOk result (λ all. all ≡ mems ++ more) }
{
    let mut all = mems;
    for mem in more.into_vec() {
        all.push(mem)?;
    }
    Ok(all)
}

/// The memories of these groups, in order.
fn mems_in(alloc: Global, groups: Groups) -> Result<List<Mem>, Memory>
    ensures { IfOk result (λ mems. mems ≡ spec.mems_in groups) }
{
    let Groups { buckets, wholes } = groups;
    joined(gathered_mems(alloc, buckets)?, wholes)
}

/// The memories that are there, and behind them those of these groups.
fn mems_by(
    alloc: Global,
    taken: Taken,
    there: List<Mem>,
    groups: Groups,
) -> Result<List<Mem>, Memory>
    ensures { IfOk result (λ mems. mems ≡ spec.mems_by taken there groups) }
{
    let mems = mems_in(alloc, groups)?;
    kept_behind(alloc, there, taken, mems)
}

/// The module with its memories whole.
#[tactic(auto, unfolding(crate::specs::Collected::collected), using(crate::proofs::Merging::groups_placed))]
fn collected(alloc: Global, module: Module) -> Result<Module, Memory>
    ensures { IfOk result (λ next. next ≡ spec.collected «module») }
{
    let places = memories_of(alloc, &module)?;
    let taken = taken_by(alloc, module.mems.as_slice())?;
    let Module {
        name,
        attrs,
        nets,
        wires,
        declared,
        parts,
        mems,
        combs,
        regs,
        rams,
        carried,
    } = module;
    let groups = groups_by(alloc, &places, declared, parts)?;
    let mems = mems_by(alloc, taken, mems, groups)?;
    Ok(Module {
        name,
        attrs,
        nets,
        wires,
        declared: List::from_vec(Vec::new(alloc)),
        parts: List::from_vec(Vec::new(alloc)),
        mems,
        combs,
        regs,
        rams,
        carried,
    })
}

/// The module with its memories whole: each declared memory with its ports and its contents, then the
/// memory of each cell that holds a whole one, under names of their own; memories that nothing reads
/// are dropped. Where memory cells break rules the first rule and its cell are answered. Two things
/// that a builder refuses count as want of memory: a cell that holds a whole memory outside the limits
/// of memories, and contents at an address of more than 32 bits.
pub fn collect(alloc: Global, module: Module) -> Result<Module, CollectFault>
    ensures { spec.Collects «module» result }
{
    if let Err(fault) = check_parts(alloc, &module) {
        return Err(fault);
    }
    match collected(alloc, module) {
        Ok(module) => Ok(module),
        Err(_) => Err(no_memory(alloc)),
    }
}

/// The module of a name with its memories whole.
fn collect_named(alloc: Global, name: Name, module: Module) -> Result<Module, DesignFault>
    requires { name ≡ «module».name }
    ensures { spec.CollectsIn «module» result }
{
    match collect(alloc, module) {
        Ok(module) => Ok(module),
        Err(fault) => Err(DesignFault {
            module: name,
            fault,
        }),
    }
}

fn collect_in(alloc: Global, module: Module) -> Result<Module, DesignFault>
    ensures { spec.CollectsIn «module» result }
{
    match module.name.copy(alloc) {
        Ok(name) => collect_named(alloc, name, module),
        Err(_) => Err(no_memory_in(alloc)),
    }
}

/// Puts a module behind others.
fn put(alloc: Global, modules: &mut Vec<Module>, module: Module) -> Result<(), DesignFault>
    ensures pushed { OnOk result (modules.new.items ≡ modules.old.items ++ «module» ∷ []) }
    ensures wanting { IfErr result IsMemoryIn }
{
    match modules.push(module) {
        Ok(()) => Ok(()),
        Err(_) => Err(no_memory_in(alloc)),
    }
}

fn collect_modules(alloc: Global, modules: List<Module>) -> Result<List<Module>, DesignFault>
    ensures { spec.CollectsModules modules result }
{
    let mut whole = Vec::new(alloc);
    for module in modules.into_vec() {
        let module = match collect_in(alloc, module) {
            Ok(module) => module,
            Err(fault) => return Err(fault),
        };
        if let Err(fault) = put(alloc, &mut whole, module) {
            return Err(fault);
        }
    }
    Ok(List::from_vec(whole))
}

/// The modules of a design with their memories whole, in their order, as [`collect`] says; else the
/// first fault of the first module that has one.
pub fn collect_design(alloc: Global, design: Design) -> Result<Design, DesignFault>
    ensures { spec.CollectsAll design result }
{
    let Design { modules } = design;
    match collect_modules(alloc, modules) {
        Ok(modules) => Ok(Design { modules }),
        Err(fault) => Err(fault),
    }
}
