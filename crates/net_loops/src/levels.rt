//! Levels of the nodes of a graph.
ghost use Rattle.std.specs.Prelude.{◌≡◌, ℕ, ◌<◌, ◌^◌, length, slice_get, Some, IfOk};
ghost use Rattle.net_core.specs.Search.{IsClosed};
ghost use Rattle.net_loops.specs.Graphs.{AreTurned, AreLevels};

use crate::rows::turned;
use crate::walk::Walk;
use lib_core::{List, Memory};
use std::alloc::Global;

/// The nodes, each where a walk through the graph is done with it.
fn finished(alloc: Global, graph: &[List<u32>]) -> Result<Vec<u32>, Memory>
    requires closed { IsClosed graph.now }
    requires few { length graph.now < 2 ^ 32 }
    ensures { IfOk result (λ order. (a i : ℕ) → slice_get order.items a ≡ Some i → i < length graph.now) }
{
    let mut walk = Walk::new(alloc, graph)?;
    for node in 0..graph.len() {
        walk.cover(graph, 0, node as u32)?;
    }
    let Walk {
        labels: _,
        left: _,
        stack: _,
        done,
    } = walk;
    Ok(done)
}

/// Levels of the nodes, by walks back from each of them, those first with which a walk forth was done last.
fn levels_by(alloc: Global, graph: &[List<u32>], turned: &[List<u32>]) -> Result<Vec<u32>, Memory>
    requires closed { IsClosed graph.now }
    requires closed_back { IsClosed turned.now }
    requires few { length graph.now < 2 ^ 32 }
    requires len { length turned.now ≡ length graph.now }
    requires turned { AreTurned graph.now turned.now }
    ensures { IfOk result (λ levels. AreLevels graph.now levels.items) }
{
    let mut order = finished(alloc, graph)?;
    let mut walk = Walk::new(alloc, turned)?;
    for level in 0..turned.len() {
        if let Some(node) = order.pop() {
            walk.cover(turned, level as u32, node)?;
        }
    }
    let Walk {
        labels,
        left: _,
        stack: _,
        done: _,
    } = walk;
    Ok(labels)
}

/// Levels of the nodes. Nodes have one level exactly where they lead to each other, which is what makes the
/// search for a ring fast, and is not a clause.
pub fn levels_of(alloc: Global, graph: &[List<u32>]) -> Result<Vec<u32>, Memory>
    requires closed { IsClosed graph.now }
    requires few { length graph.now < 2 ^ 32 }
    ensures { IfOk result (λ levels. AreLevels graph.now levels.items) }
{
    let turned = turned(alloc, graph.len() as u32, graph)?;
    levels_by(alloc, graph, turned.as_slice())
}
