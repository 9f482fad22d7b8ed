//! The first node on a loop.
ghost use Rattle.std.specs.Prelude.{ℕ, ◌<◌, ◌^◌, length, IfOk};
ghost use Rattle.net_loops.specs.Loops.{nodes_in, NetsBelow, IsOnLoop, IsLoopAnswer};

use crate::cells::module_of;
use crate::nodes::NetNode;
use crate::rings::first_ring;
use crate::rows::graph_of;
use lib_core::{List, Memory};
use net_core::{LoopFault, comb_order};
use std::alloc::Global;

/// A loop from the first node that lies on any. Some node does.
fn loop_of(alloc: Global, nets: u32, nodes: &[NetNode]) -> Result<Option<List<u32>>, Memory>
    requires within { NetsBelow nets (nodes_in nodes.now) }
    requires few { length nodes.now < 2 ^ 32 }
    requires looped { (i : ℕ) × IsOnLoop (nodes_in nodes.now) i }
    ensures { IfOk result (IsLoopAnswer (nodes_in nodes.now)) }
{
    let graph = graph_of(alloc, nets, nodes)?;
    first_ring(alloc, graph.as_slice())
}

/// Whether nodes have a combinational order: nothing where they have one, and else a loop that begins
/// with the first node that lies on any. Each node of it depends on the next, and the last on the first.
pub fn first_loop(alloc: Global, nets: u32, nodes: &[NetNode]) -> Result<Option<List<u32>>, Memory>
    requires within { NetsBelow nets (nodes_in nodes.now) }
    requires few { length nodes.now < 2 ^ 32 }
    ensures { IfOk result (IsLoopAnswer (nodes_in nodes.now)) }
{
    let module = module_of(alloc, nets, nodes)?;
    match comb_order(alloc, &module) {
        Ok(_) => Ok(None),
        Err(LoopFault::Loop { nodes: _ }) => loop_of(alloc, nets, nodes),
        Err(LoopFault::Memory) => Err(Memory),
    }
}
