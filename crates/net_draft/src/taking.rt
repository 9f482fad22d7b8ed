//! The names of a module's wires and cells.
ghost use Rattle.std.specs.Prelude.{◌≡◌, IfOk, OnOk};
ghost use Rattle.net_draft.specs.Taking as spec;

use crate::naming::Taken;
use lib_core::Memory;
use net_core::{Carried, Comb, Mem, Module, RamCell, Reg, Wire};
use std::alloc::Global;

#[tactic(auto, unfolding(crate::specs::Taking::with_wires))]
fn take_wires(alloc: Global, taken: &mut Taken, wires: &[Wire]) -> Result<(), Memory>
    ensures { OnOk result (taken.new ≡ spec.with_wires taken.old wires.now) }
{
    let mut rest = wires;
    while let [wire, tail @ ..] = rest {
        taken.add(alloc, &wire.name)?;
        rest = tail;
    }
    Ok(())
}

#[tactic(auto, unfolding(crate::specs::Taking::with_combs))]
fn take_combs(alloc: Global, taken: &mut Taken, combs: &[Comb]) -> Result<(), Memory>
    ensures { OnOk result (taken.new ≡ spec.with_combs taken.old combs.now) }
{
    let mut rest = combs;
    while let [comb, tail @ ..] = rest {
        taken.add(alloc, &comb.name)?;
        rest = tail;
    }
    Ok(())
}

#[tactic(auto, unfolding(crate::specs::Taking::with_regs))]
fn take_regs(alloc: Global, taken: &mut Taken, regs: &[Reg]) -> Result<(), Memory>
    ensures { OnOk result (taken.new ≡ spec.with_regs taken.old regs.now) }
{
    let mut rest = regs;
    while let [reg, tail @ ..] = rest {
        taken.add(alloc, &reg.name)?;
        rest = tail;
    }
    Ok(())
}

#[tactic(auto, unfolding(crate::specs::Taking::with_rams))]
fn take_rams(alloc: Global, taken: &mut Taken, rams: &[RamCell]) -> Result<(), Memory>
    ensures { OnOk result (taken.new ≡ spec.with_rams taken.old rams.now) }
{
    let mut rest = rams;
    while let [ram, tail @ ..] = rest {
        taken.add(alloc, &ram.name)?;
        rest = tail;
    }
    Ok(())
}

#[tactic(auto, unfolding(crate::specs::Taking::with_carried))]
fn take_carried(alloc: Global, taken: &mut Taken, cells: &[Carried]) -> Result<(), Memory>
    ensures { OnOk result (taken.new ≡ spec.with_carried taken.old cells.now) }
{
    let mut rest = cells;
    while let [cell, tail @ ..] = rest {
        taken.add(alloc, &cell.name)?;
        rest = tail;
    }
    Ok(())
}

/// Takes the names of memories.
#[tactic(auto, unfolding(crate::specs::Taking::with_mems))]
pub fn take_mems(alloc: Global, taken: &mut Taken, mems: &[Mem]) -> Result<(), Memory>
    ensures { OnOk result (taken.new ≡ spec.with_mems taken.old mems.now) }
{
    let mut rest = mems;
    while let [mem, tail @ ..] = rest {
        taken.add(alloc, &mem.name)?;
        rest = tail;
    }
    Ok(())
}

/// Takes the names of a module's wires, and of its cells but for those of memories.
fn take_names(alloc: Global, taken: &mut Taken, module: &Module) -> Result<(), Memory>
    ensures { OnOk result (taken.new ≡ spec.with_names taken.old «module».now) }
{
    take_wires(alloc, taken, module.wires.as_slice())?;
    take_combs(alloc, taken, module.combs.as_slice())?;
    take_regs(alloc, taken, module.regs.as_slice())?;
    take_rams(alloc, taken, module.rams.as_slice())?;
    take_carried(alloc, taken, module.carried.as_slice())?;
    Ok(())
}

/// The names of a module's wires, and of its cells but for those of memories.
pub fn taken_names(alloc: Global, module: &Module) -> Result<Taken, Memory>
    ensures { IfOk result (λ taken. taken ≡ spec.taken_names «module».now) }
{
    let mut taken = Taken::new(alloc);
    take_names(alloc, &mut taken, module)?;
    Ok(taken)
}
