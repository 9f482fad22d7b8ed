//! An order of the nodes of a module.
ghost use Rattle.std.specs.Prelude.{◌≡◌, ℕ, ◌+◌, ◌<◌, ◌^◌, ◌⊎◌, ◌↔◌, [], ◌∷◌, ◌++◌, length, map, slice_get, Some, IfOk, IfErr, OnOk};
ghost use Rattle.std.specs.List.{flat_map};
ghost use Rattle.net_core.specs.Nodes.{comb_node, reg_node, read_node, slot_node, nodes_of, NetsWithin, IsNodeOrder};
ghost use Rattle.net_core.specs.Ports.{nets_of};
ghost use Rattle.net_core.specs.Search.{Leads, IsClosed, IsOrder, IsRingFault};
ghost use Rattle.net_core.specs.Wiring.{node_nets, rows, AddsDriver, TellsDrivers, drivers_of, IsCycleFault};

use crate::bits::Bit;
use crate::cells::{Comb, Reg};
use crate::mems::{Mem, RdPort};
use crate::modules::Module;
use crate::nodes::NodeNets;
use crate::ports::push_nets;
use crate::rams::{RamCell, SlotUse};
use crate::search::{LoopFault, Mark, Search};
use lib_core::{Duplicate, List, Memory};
use std::alloc::Global;

/// Puts a node at the end, which drives these nets and depends on these bits.
fn push_node(
    alloc: Global,
    nodes: &mut Vec<NodeNets>,
    drives: &List<u32>,
    bits: &[Bit],
) -> Result<(), Memory>
    ensures { OnOk result (nodes.new.items ≡ nodes.old.items ++ (record { drives = drives.now; needs = nets_of bits.now }) ∷ []) }
{
    let mut needs = Vec::with_capacity(alloc, bits.len())?;
    push_nets(&mut needs, bits)?;
    nodes.push(NodeNets {
        drives: drives.duplicate(alloc)?,
        needs: List::from_vec(needs),
    })?;
    Ok(())
}

fn push_comb(alloc: Global, nodes: &mut Vec<NodeNets>, comb: &Comb) -> Result<(), Memory>
    ensures { OnOk result (nodes.new.items ≡ nodes.old.items ++ node_nets (comb_node comb.now) ∷ []) }
{
    let mut bits = Vec::from_slice(alloc, comb.a.as_slice())?;
    bits.extend_from_slice(comb.b.as_slice())?;
    bits.extend_from_slice(comb.s.as_slice())?;
    push_node(alloc, nodes, &comb.y, bits.as_slice())
}

fn push_combs(alloc: Global, nodes: &mut Vec<NodeNets>, combs: &[Comb]) -> Result<(), Memory>
    ensures { OnOk result (nodes.new.items ≡ nodes.old.items ++ map (λ c. node_nets (comb_node c)) combs.now) }
{
    for comb in combs {
        push_comb(alloc, nodes, comb)?;
    }
    Ok(())
}

fn push_regs(alloc: Global, nodes: &mut Vec<NodeNets>, regs: &[Reg]) -> Result<(), Memory>
    ensures { OnOk result (nodes.new.items ≡ nodes.old.items ++ map (λ r. node_nets (reg_node r)) regs.now) }
{
    for reg in regs {
        push_node(alloc, nodes, &reg.q, &[reg.arst])?;
    }
    Ok(())
}

fn push_read(alloc: Global, nodes: &mut Vec<NodeNets>, read: &RdPort) -> Result<(), Memory>
    ensures { OnOk result (nodes.new.items ≡ nodes.old.items ++ node_nets (read_node read.now) ∷ []) }
{
    match read.clock {
        None => push_node(alloc, nodes, &read.out, read.addr.as_slice()),
        Some(_) => push_node(alloc, nodes, &read.out, &[read.arst]),
    }
}

fn push_reads(alloc: Global, nodes: &mut Vec<NodeNets>, reads: &[RdPort]) -> Result<(), Memory>
    ensures { OnOk result (nodes.new.items ≡ nodes.old.items ++ map (λ r. node_nets (read_node r)) reads.now) }
{
    for read in reads {
        push_read(alloc, nodes, read)?;
    }
    Ok(())
}

fn push_mems(alloc: Global, nodes: &mut Vec<NodeNets>, mems: &[Mem]) -> Result<(), Memory>
    ensures { OnOk result (nodes.new.items ≡ nodes.old.items ++ flat_map (λ x. map (λ r. node_nets (read_node r)) x.reads) mems.now) }
{
    for mem in mems {
        push_reads(alloc, nodes, mem.reads.as_slice())?;
    }
    Ok(())
}

fn push_slot(alloc: Global, nodes: &mut Vec<NodeNets>, slot: &SlotUse) -> Result<(), Memory>
    ensures { OnOk result (nodes.new.items ≡ nodes.old.items ++ node_nets (slot_node slot.now) ∷ []) }
{
    if slot.reads_now {
        push_node(alloc, nodes, &slot.out, slot.addr.as_slice())
    } else {
        push_node(alloc, nodes, &slot.out, &[slot.arst])
    }
}

fn push_slots(alloc: Global, nodes: &mut Vec<NodeNets>, slots: &[SlotUse]) -> Result<(), Memory>
    ensures { OnOk result (nodes.new.items ≡ nodes.old.items ++ map (λ s. node_nets (slot_node s)) slots.now) }
{
    for slot in slots {
        push_slot(alloc, nodes, slot)?;
    }
    Ok(())
}

fn push_rams(alloc: Global, nodes: &mut Vec<NodeNets>, rams: &[RamCell]) -> Result<(), Memory>
    ensures { OnOk result (nodes.new.items ≡ nodes.old.items ++ flat_map (λ c. map (λ s. node_nets (slot_node s)) c.slots) rams.now) }
{
    for ram in rams {
        push_slots(alloc, nodes, ram.slots.as_slice())?;
    }
    Ok(())
}

/// The nets of each node.
fn node_nets(alloc: Global, module: &Module) -> Result<Vec<NodeNets>, Memory>
    ensures { IfOk result (λ nodes. nodes.items ≡ map node_nets (nodes_of «module».now)) }
{
    let mut nodes = Vec::new(alloc);
    push_combs(alloc, &mut nodes, module.combs.as_slice())?;
    push_regs(alloc, &mut nodes, module.regs.as_slice())?;
    push_mems(alloc, &mut nodes, module.mems.as_slice())?;
    push_rams(alloc, &mut nodes, module.rams.as_slice())?;
    Ok(nodes)
}

/// Puts a node among those that drive these nets.
fn add_driver(table: &mut Vec<Vec<u32>>, nets: &[u32], node: u32) -> Result<(), Memory>
    requires { (k n : ℕ) → slice_get nets.now k ≡ Some n → n < length table.old.items }
    ensures len { OnOk result (length table.new.items ≡ length table.old.items) }
    ensures leads { OnOk result (AddsDriver (rows table.old.items) (rows table.new.items) node (λ n. (k : ℕ) × (slice_get nets.now k ≡ Some n))) }
{
    for net in nets {
        table[*net as usize].push(node)?;
    }
    Ok(())
}

/// A table whose rows are empty.
fn empty_rows(alloc: Global, count: u32) -> Result<Vec<Vec<u32>>, Memory>
    ensures len { IfOk result (λ table. length table.items ≡ count) }
    ensures empty { IfOk result (λ table. (n j : ℕ) → ¬ (Leads (rows table.items) n j)) }
{
    let mut table = Vec::with_capacity(alloc, count as usize)?;
    for _ in 0..count {
        table.push(Vec::new(alloc))?;
    }
    Ok(table)
}

/// For each net the nodes that drive it.
fn drivers(alloc: Global, nets: u32, nodes: &[NodeNets]) -> Result<Vec<Vec<u32>>, Memory>
    requires within { (j k n : ℕ) (p : NodeNets) → slice_get nodes.now j ≡ Some p → slice_get p.drives k ≡ Some n → n < nets }
    requires few { length nodes.now < 2 ^ 32 }
    ensures len { IfOk result (λ table. length table.items ≡ nets) }
    ensures tells { IfOk result (λ table. TellsDrivers nodes.now (rows table.items)) }
{
    let mut table = empty_rows(alloc, nets)?;
    for (node, here) in nodes.iter().enumerate() {
        add_driver(&mut table, here.drives.as_slice(), node as u32)?;
    }
    Ok(table)
}

/// The nodes that drive these nets.
fn drivers_of(alloc: Global, table: &[Vec<u32>], nets: &[u32]) -> Result<List<u32>, Memory>
    requires { (k n : ℕ) → slice_get nets.now k ≡ Some n → n < length table.now }
    ensures { IfOk result (λ row. row ≡ drivers_of (rows table.now) nets.now) }
{
    let mut row = Vec::new(alloc);
    for net in nets {
        row.extend_from_slice(table[*net as usize].as_slice())?;
    }
    Ok(List::from_vec(row))
}

/// For each node those that it depends on.
fn graph(alloc: Global, table: &[Vec<u32>], nodes: &[NodeNets]) -> Result<Vec<List<u32>>, Memory>
    requires { (j k n : ℕ) (p : NodeNets) → slice_get nodes.now j ≡ Some p → slice_get p.needs k ≡ Some n → n < length table.now }
    ensures { IfOk result (λ graph. graph.items ≡ map (λ p. drivers_of (rows table.now) p.needs) nodes.now) }
{
    let mut graph = Vec::with_capacity(alloc, nodes.len())?;
    for node in nodes {
        graph.push(drivers_of(alloc, table, node.needs.as_slice())?)?;
    }
    Ok(graph)
}

/// The nodes of a graph in an order, each after all nodes that it leads to.
fn order_of(alloc: Global, graph: &[List<u32>]) -> Result<List<u32>, LoopFault>
    requires closed { IsClosed graph.now }
    requires few { length graph.now < 2 ^ 32 }
    ensures order { IfOk result (IsOrder graph.now) }
    ensures fault { IfErr result (IsRingFault graph.now) }
{
    let mut search = Search::new(alloc, graph)?;
    for start in 0..graph.len() {
        if let Mark::New = search.marks[start] {
            search.open(start as u32)?;
            search.finish(alloc, graph)?;
        }
    }
    let Search {
        marks: _,
        left: _,
        stack: _,
        order,
    } = search;
    Ok(List::from_vec(order))
}

/// The nodes of a module in an order: each stands once, after all nodes that it depends on. Nodes are
/// numbered: logic cells, registers, read ports in memory order, slots in cell order. A loop is
/// answered exactly where there is no such order.
pub fn comb_order(alloc: Global, module: &Module) -> Result<List<u32>, LoopFault>
    requires within { NetsWithin «module».now }
    requires few { length (nodes_of «module».now) < 2 ^ 32 }
    ensures order { IfOk result (IsNodeOrder (nodes_of «module».now)) }
    ensures fault { IfErr result (IsCycleFault (nodes_of «module».now)) }
{
    let nodes = node_nets(alloc, module)?;
    let table = drivers(alloc, module.nets, nodes.as_slice())?;
    let graph = graph(alloc, table.as_slice(), nodes.as_slice())?;
    order_of(alloc, graph.as_slice())
}
