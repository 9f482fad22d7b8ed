//! Whether each net has at most one driver.
ghost use Rattle.std.specs.Prelude.{◌≡◌, ◌↔◌, ◌++◌, true, IfOk, OnOk};
ghost use Rattle.std.specs.List.{flat_map};
ghost use Rattle.net_live.specs.Driving.{read_nets, slot_nets, node_nets, driven_nets, AreBelowApart};

use lib_core::Memory;
use net_core::{Comb, Mem, Module, RamCell, RdPort, Reg, SlotUse, inputs};
use std::alloc::Global;

/// Whether inputs and nodes drive nets of the module alone, and no net twice.
pub fn are_driven_once(alloc: Global, module: &Module) -> Result<bool, Memory>
    ensures { IfOk result (λ once. once ≡ true ↔ AreBelowApart «module».now.nets (driven_nets «module».now)) }
{
    let nets = driven_nets(alloc, module)?;
    are_below_apart(alloc, module.nets, nets.as_slice())
}

/// The nets that inputs and nodes drive.
fn driven_nets(alloc: Global, module: &Module) -> Result<Vec<u32>, Memory>
    ensures { IfOk result (λ nets. nets.items ≡ driven_nets «module».now) }
{
    let inputs = inputs(alloc, module)?;
    let mut nets = inputs.into_vec();
    push_node_nets(&mut nets, module)?;
    Ok(nets)
}

/// Puts the nets that nodes drive at the end.
fn push_node_nets(nets: &mut Vec<u32>, module: &Module) -> Result<(), Memory>
    ensures { OnOk result (nets.new.items ≡ nets.old.items ++ node_nets «module».now) }
{
    push_combs(nets, module.combs.as_slice())?;
    push_regs(nets, module.regs.as_slice())?;
    push_mems(nets, module.mems.as_slice())?;
    push_rams(nets, module.rams.as_slice())?;
    Ok(())
}

fn push_combs(nets: &mut Vec<u32>, combs: &[Comb]) -> Result<(), Memory>
    ensures { OnOk result (nets.new.items ≡ nets.old.items ++ flat_map (λ c. c.y) combs.now) }
{
    for comb in combs {
        nets.extend_from_slice(comb.y.as_slice())?;
    }
    Ok(())
}

fn push_regs(nets: &mut Vec<u32>, regs: &[Reg]) -> Result<(), Memory>
    ensures { OnOk result (nets.new.items ≡ nets.old.items ++ flat_map (λ r. r.q) regs.now) }
{
    for reg in regs {
        nets.extend_from_slice(reg.q.as_slice())?;
    }
    Ok(())
}

fn push_reads(nets: &mut Vec<u32>, reads: &[RdPort]) -> Result<(), Memory>
    ensures { OnOk result (nets.new.items ≡ nets.old.items ++ flat_map (λ r. r.out) reads.now) }
{
    for read in reads {
        nets.extend_from_slice(read.out.as_slice())?;
    }
    Ok(())
}

fn push_mems(nets: &mut Vec<u32>, mems: &[Mem]) -> Result<(), Memory>
    ensures { OnOk result (nets.new.items ≡ nets.old.items ++ flat_map read_nets mems.now) }
{
    for mem in mems {
        push_reads(nets, mem.reads.as_slice())?;
    }
    Ok(())
}

fn push_slots(nets: &mut Vec<u32>, slots: &[SlotUse]) -> Result<(), Memory>
    ensures { OnOk result (nets.new.items ≡ nets.old.items ++ flat_map (λ s. s.out) slots.now) }
{
    for slot in slots {
        nets.extend_from_slice(slot.out.as_slice())?;
    }
    Ok(())
}

fn push_rams(nets: &mut Vec<u32>, rams: &[RamCell]) -> Result<(), Memory>
    ensures { OnOk result (nets.new.items ≡ nets.old.items ++ flat_map slot_nets rams.now) }
{
    for ram in rams {
        push_slots(nets, ram.slots.as_slice())?;
    }
    Ok(())
}

/// Whether these numbers lie below a limit, and none stands twice.
fn are_below_apart(alloc: Global, limit: u32, nets: &[u32]) -> Result<bool, Memory>
    ensures { IfOk result (λ apart. apart ≡ true ↔ AreBelowApart limit nets.now) }
{
    let mut seen = vec![in alloc; false; limit as usize]?;
    for net in nets {
        let place = *net as usize;
        if place >= seen.len() || seen[place] {
            return Ok(false);
        }
        seen[place] = true;
    }
    Ok(true)
}
