//! Where the nodes of a module stand among its cells.
ghost use Rattle.std.specs.Prelude.{◌≡◌, ℕ, ◌+◌, ◌<◌, ◌≤◌, ◌^◌, ◌++◌, length, Some, slice_get, IfOk, OnOk};
ghost use Rattle.net_core.specs.declared.mems.Mem.{Mem};
ghost use Rattle.net_core.specs.declared.mems.RdPort.{RdPort};
ghost use Rattle.net_core.specs.declared.rams.RamCell.{RamCell};
ghost use Rattle.net_core.specs.declared.rams.SlotUse.{SlotUse};
ghost use Rattle.net_core.specs.Nodes.{Node};
ghost use Rattle.sim_settle.specs.declared.places.NodePlace.TheVariants as place;
ghost use Rattle.sim_settle.specs.Places.{node_at, HasNode, each_place, all_places, read_places, slot_places, places_of, AreFew};

use lib_core::Memory;
use net_core::{Mem, Module, RamCell};
use std::alloc::Global;

/// The place of a node: its kind, the number of the cell, and the number of the port in it.
#[derive(Clone, Copy, Debug, PartialEq, Eq)]
pub enum NodePlace {
    /// A logic cell.
    Comb(u32),
    /// A register.
    Reg(u32),
    /// A read port of a memory.
    Read { mem: u32, port: u32 },
    /// A slot of a RAM cell.
    Slot { cell: u32, slot: u32 },
}

/// The nets that the node at a place drives. It takes no memory.
pub fn nets_at(module: &Module, at: NodePlace) -> &[u32]
    requires { HasNode «module».now at }
    ensures { (p : Node) → node_at «module».now at ≡ Some p → result.now ≡ p.drives }
{
    match at {
        NodePlace::Comb(comb) => module.combs.as_slice()[comb as usize].y.as_slice(),
        NodePlace::Reg(reg) => module.regs.as_slice()[reg as usize].q.as_slice(),
        NodePlace::Read { mem, port } => read_nets(&module.mems.as_slice()[mem as usize], port),
        NodePlace::Slot { cell, slot } => slot_nets(&module.rams.as_slice()[cell as usize], slot),
    }
}

/// The nets of a read port.
fn read_nets(mem: &Mem, port: u32) -> &[u32]
    requires { port < length mem.now.reads }
    ensures { (r : RdPort) → slice_get mem.now.reads port ≡ Some r → result.now ≡ r.out }
{
    mem.reads.as_slice()[port as usize].out.as_slice()
}

/// The nets of a slot.
fn slot_nets(cell: &RamCell, slot: u32) -> &[u32]
    requires { slot < length cell.now.slots }
    ensures { (s : SlotUse) → slice_get cell.now.slots slot ≡ Some s → result.now ≡ s.out }
{
    cell.slots.as_slice()[slot as usize].out.as_slice()
}

/// Puts the places of so many logic cells at the end.
fn push_combs(places: &mut Vec<NodePlace>, count: usize) -> Result<(), Memory>
    requires { count ≤ 2 ^ 32 }
    ensures { OnOk result (places.new.items ≡ places.old.items ++ each_place place.Comb count) }
{
    for comb in 0..count {
        places.push(NodePlace::Comb(comb as u32))?;
    }
    Ok(())
}

/// Puts the places of so many registers at the end.
fn push_regs(places: &mut Vec<NodePlace>, count: usize) -> Result<(), Memory>
    requires { count ≤ 2 ^ 32 }
    ensures { OnOk result (places.new.items ≡ places.old.items ++ each_place place.Reg count) }
{
    for reg in 0..count {
        places.push(NodePlace::Reg(reg as u32))?;
    }
    Ok(())
}

/// Puts the places of so many read ports of a memory at the end.
fn push_reads(places: &mut Vec<NodePlace>, mem: u32, count: usize) -> Result<(), Memory>
    requires { count ≤ 2 ^ 32 }
    ensures { OnOk result (places.new.items ≡ places.old.items ++ each_place (place.Read mem) count) }
{
    for port in 0..count {
        places.push(NodePlace::Read {
            mem,
            port: port as u32,
        })?;
    }
    Ok(())
}

/// Puts the places of so many slots of a RAM cell at the end.
fn push_slots(places: &mut Vec<NodePlace>, cell: u32, count: usize) -> Result<(), Memory>
    requires { count ≤ 2 ^ 32 }
    ensures { OnOk result (places.new.items ≡ places.old.items ++ each_place (place.Slot cell) count) }
{
    for slot in 0..count {
        places.push(NodePlace::Slot {
            cell,
            slot: slot as u32,
        })?;
    }
    Ok(())
}

/// Puts the places of the read ports of memories at the end.
fn push_mems(places: &mut Vec<NodePlace>, mems: &[Mem]) -> Result<(), Memory>
    requires count { length mems.now < 2 ^ 32 }
    requires reads { (i : ℕ) (x : Mem) → slice_get mems.now i ≡ Some x → length x.reads ≤ 2 ^ 32 }
    ensures { OnOk result (places.new.items ≡ places.old.items ++ all_places read_places 0 mems.now) }
{
    for (index, mem) in mems.iter().enumerate() {
        push_reads(places, index as u32, mem.reads.as_slice().len())?;
    }
    Ok(())
}

/// Puts the places of the slots of RAM cells at the end.
fn push_rams(places: &mut Vec<NodePlace>, rams: &[RamCell]) -> Result<(), Memory>
    requires count { length rams.now < 2 ^ 32 }
    requires slots { (i : ℕ) (c : RamCell) → slice_get rams.now i ≡ Some c → length c.slots ≤ 2 ^ 32 }
    ensures { OnOk result (places.new.items ≡ places.old.items ++ all_places slot_places 0 rams.now) }
{
    for (index, cell) in rams.iter().enumerate() {
        push_slots(places, index as u32, cell.slots.as_slice().len())?;
    }
    Ok(())
}

/// The places of a module's nodes, by the numbers of the nodes.
pub(crate) fn places(alloc: Global, module: &Module) -> Result<Vec<NodePlace>, Memory>
    requires { AreFew «module».now }
    ensures { IfOk result (λ places. places.items ≡ places_of «module».now) }
{
    let mut places = Vec::new(alloc);
    push_combs(&mut places, module.combs.as_slice().len())?;
    push_regs(&mut places, module.regs.as_slice().len())?;
    push_mems(&mut places, module.mems.as_slice())?;
    push_rams(&mut places, module.rams.as_slice())?;
    Ok(places)
}
