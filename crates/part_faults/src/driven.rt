//! Marks on the nets that a module drives.
ghost use Rattle.std.specs.Prelude.{◌≡◌, IfOk, OnOk};
ghost use Rattle.part_faults.specs.Driven as spec;

use lib_core::Memory;
use net_core::{Bit, Comb, Mem, MemPart, Module, Pin, RamCell, RdPort, Reg, SlotUse, inputs};
use std::alloc::Global;

#[tactic(auto, unfolding(crate::specs::Driven::mark_net))]
fn mark_net(marks: &mut Vec<bool>, net: u32)
    ensures { marks.new.items ≡ spec.mark_net marks.old.items net }
{
    let place = net as usize;
    if place < marks.len() {
        marks[place] = true;
    }
}

#[tactic(auto, unfolding(crate::specs::Driven::mark_nets))]
fn mark_nets(marks: &mut Vec<bool>, nets: &[u32])
    ensures { marks.new.items ≡ spec.mark_nets marks.old.items nets.now }
{
    let mut rest = nets;
    while let [net, tail @ ..] = rest {
        mark_net(marks, *net);
        rest = tail;
    }
}

#[tactic(auto, unfolding(crate::specs::Driven::mark_bits))]
fn mark_bits(marks: &mut Vec<bool>, bits: &[Bit])
    ensures { marks.new.items ≡ spec.mark_bits marks.old.items bits.now }
{
    let mut rest = bits;
    while let [bit, tail @ ..] = rest {
        if let Bit::Net(net) = bit {
            mark_net(marks, *net);
        }
        rest = tail;
    }
}

#[tactic(auto, unfolding(crate::specs::Driven::mark_each))]
fn mark_combs(marks: &mut Vec<bool>, combs: &[Comb])
    ensures { marks.new.items ≡ spec.mark_each spec.mark_comb marks.old.items combs.now }
{
    let mut rest = combs;
    while let [comb, tail @ ..] = rest {
        mark_nets(marks, comb.y.as_slice());
        rest = tail;
    }
}

#[tactic(auto, unfolding(crate::specs::Driven::mark_each))]
fn mark_regs(marks: &mut Vec<bool>, regs: &[Reg])
    ensures { marks.new.items ≡ spec.mark_each spec.mark_reg marks.old.items regs.now }
{
    let mut rest = regs;
    while let [reg, tail @ ..] = rest {
        mark_nets(marks, reg.q.as_slice());
        rest = tail;
    }
}

#[tactic(auto, unfolding(crate::specs::Driven::mark_each))]
fn mark_reads(marks: &mut Vec<bool>, reads: &[RdPort])
    ensures { marks.new.items ≡ spec.mark_each spec.mark_read marks.old.items reads.now }
{
    let mut rest = reads;
    while let [read, tail @ ..] = rest {
        mark_nets(marks, read.out.as_slice());
        rest = tail;
    }
}

#[tactic(auto, unfolding(crate::specs::Driven::mark_each))]
fn mark_mems(marks: &mut Vec<bool>, mems: &[Mem])
    ensures { marks.new.items ≡ spec.mark_each spec.mark_mem marks.old.items mems.now }
{
    let mut rest = mems;
    while let [mem, tail @ ..] = rest {
        mark_reads(marks, mem.reads.as_slice());
        rest = tail;
    }
}

#[tactic(auto, unfolding(crate::specs::Driven::mark_each))]
fn mark_slots(marks: &mut Vec<bool>, slots: &[SlotUse])
    ensures { marks.new.items ≡ spec.mark_each spec.mark_slot marks.old.items slots.now }
{
    let mut rest = slots;
    while let [slot, tail @ ..] = rest {
        mark_nets(marks, slot.out.as_slice());
        rest = tail;
    }
}

#[tactic(auto, unfolding(crate::specs::Driven::mark_each))]
fn mark_rams(marks: &mut Vec<bool>, rams: &[RamCell])
    ensures { marks.new.items ≡ spec.mark_each spec.mark_ram marks.old.items rams.now }
{
    let mut rest = rams;
    while let [ram, tail @ ..] = rest {
        mark_slots(marks, ram.slots.as_slice());
        rest = tail;
    }
}

#[tactic(auto, unfolding(crate::specs::Driven::mark_each))]
fn mark_pins(marks: &mut Vec<bool>, pins: &[Pin])
    ensures { marks.new.items ≡ spec.mark_each spec.mark_pin marks.old.items pins.now }
{
    let mut rest = pins;
    while let [pin, tail @ ..] = rest {
        if pin.drives {
            mark_bits(marks, pin.bits.as_slice());
        }
        rest = tail;
    }
}

#[tactic(auto, unfolding(crate::specs::Driven::mark_each))]
fn mark_parts(marks: &mut Vec<bool>, parts: &[MemPart])
    ensures { marks.new.items ≡ spec.mark_each spec.mark_part marks.old.items parts.now }
{
    let mut rest = parts;
    while let [part, tail @ ..] = rest {
        mark_pins(marks, part.pins.as_slice());
        rest = tail;
    }
}

/// Marks the nets that cells drive.
fn mark_cells(marks: &mut Vec<bool>, module: &Module)
    ensures { marks.new.items ≡ spec.mark_cells marks.old.items «module».now }
{
    mark_combs(marks, module.combs.as_slice());
    mark_regs(marks, module.regs.as_slice());
    mark_mems(marks, module.mems.as_slice());
    mark_rams(marks, module.rams.as_slice());
    mark_parts(marks, module.parts.as_slice());
}

/// For each net of a module whether it is driven.
#[tactic(auto, using(crate::proofs::Marking::all_marked))]
pub(crate) fn driven_nets(alloc: Global, module: &Module) -> Result<Vec<bool>, Memory>
    ensures { IfOk result (λ marks. spec.TellsDriven «module».now marks.items) }
{
    let inputs = inputs(alloc, module)?;
    let mut marks = Vec::from_elem(alloc, false, module.nets as usize)?;
    mark_nets(&mut marks, inputs.as_slice());
    mark_cells(&mut marks, module);
    Ok(marks)
}
