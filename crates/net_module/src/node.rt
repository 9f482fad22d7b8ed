//! The nodes of cells: what they drive, and on what that depends within a moment.
ghost use Rattle.std.specs.Prelude.{◌≡◌, ◌++◌, ◌∷◌, [], map, IfOk, OnOk};
ghost use Rattle.net_core.specs.Nodes as nodes;
ghost use Rattle.net_loops.specs.Loops.{node_of};
ghost use Rattle.net_module.specs.NetNodes.{one_need};

use lib_core::{Duplicate, List, Memory};
use net_core::{Bit, Comb, RamCell, RdPort, SlotUse};
use net_loops::NetNode;
use std::alloc::Global;

/// The node of a logic cell.
pub(crate) fn comb_node(alloc: Global, comb: &Comb) -> Result<NetNode, Memory>
    ensures { IfOk result (λ node. node_of node ≡ nodes.comb_node comb.now) }
{
    let mut needs = Vec::from_slice(alloc, comb.a.as_slice())?;
    needs.extend_from_slice(comb.b.as_slice())?;
    needs.extend_from_slice(comb.s.as_slice())?;
    Ok(NetNode {
        drives: comb.y.duplicate(alloc)?,
        needs: List::from_vec(needs),
    })
}

/// A node that depends on one bit.
pub(crate) fn one_need(alloc: Global, drives: &List<u32>, bit: Bit) -> Result<NetNode, Memory>
    ensures { IfOk result (λ node. node_of node ≡ one_need drives.now bit) }
{
    Ok(NetNode {
        drives: drives.duplicate(alloc)?,
        needs: List::from_vec(Vec::from_slice(alloc, &[bit])?),
    })
}

/// A node that depends on an address.
fn address_need(alloc: Global, drives: &List<u32>, address: &List<Bit>) -> Result<NetNode, Memory>
    ensures { IfOk result (λ node. node_of node ≡ record { drives = drives.now; needs = address.now }) }
{
    Ok(NetNode {
        drives: drives.duplicate(alloc)?,
        needs: address.duplicate(alloc)?,
    })
}

fn slot_node(alloc: Global, slot: &SlotUse) -> Result<NetNode, Memory>
    ensures { IfOk result (λ node. node_of node ≡ nodes.slot_node slot.now) }
{
    if slot.reads_now {
        address_need(alloc, &slot.out, &slot.addr)
    } else {
        one_need(alloc, &slot.out, slot.arst)
    }
}

fn read_node(alloc: Global, read: &RdPort) -> Result<NetNode, Memory>
    ensures { IfOk result (λ node. node_of node ≡ nodes.read_node read.now) }
{
    match read.clock {
        None => address_need(alloc, &read.out, &read.addr),
        Some(_) => one_need(alloc, &read.out, read.arst),
    }
}

/// Puts the nodes of the ports of a RAM cell behind others.
pub(crate) fn push_slots(
    alloc: Global,
    list: &mut Vec<NetNode>,
    ram: &RamCell,
) -> Result<(), Memory>
    ensures { OnOk result (map node_of list.new.items ≡ map node_of list.old.items ++ nodes.ram_nodes ram.now) }
{
    let mut rest = ram.slots.as_slice();
    while let [slot, tail @ ..] = rest {
        list.push(slot_node(alloc, slot)?)?;
        rest = tail;
    }
    Ok(())
}

/// Puts the nodes of read ports behind others.
pub(crate) fn push_reads(
    alloc: Global,
    list: &mut Vec<NetNode>,
    reads: &[RdPort],
) -> Result<(), Memory>
    ensures { OnOk result (map node_of list.new.items ≡ map node_of list.old.items ++ map (λ r. nodes.read_node r) reads.now) }
{
    let mut rest = reads;
    while let [read, tail @ ..] = rest {
        list.push(read_node(alloc, read)?)?;
        rest = tail;
    }
    Ok(())
}
