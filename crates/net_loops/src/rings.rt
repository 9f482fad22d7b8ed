//! Rings of a graph.
ghost use Rattle.std.specs.Prelude.{◌≡◌, ℕ, ◌<◌, ◌^◌, length, slice_get, Some, IfOk, true, false};
ghost use Rattle.net_core.specs.Search.{IsClosed};
ghost use Rattle.net_loops.specs.Graphs.{IsRingAt, IsRingAnswer, AreLevels};

use crate::levels::levels_of;
use crate::walk::Walk;
use lib_core::{List, Memory};
use std::alloc::Global;

/// A ring that begins with a node, if it lies on one.
fn ring_at(alloc: Global, graph: &[List<u32>], node: u32) -> Result<Option<List<u32>>, Memory>
    requires closed { IsClosed graph.now }
    requires within { node < length graph.now }
    ensures { IfOk result (IsRingAt graph.now node) }
{
    let mut walk = Walk::new(alloc, graph)?;
    walk.enter(node, 0)?;
    if walk.run(graph, 0, node)? {
        let Walk {
            labels: _,
            left: _,
            stack,
            done: _,
        } = walk;
        return Ok(Some(List::from_vec(stack)));
    }
    Ok(None)
}

/// Whether one of these nodes has the level.
fn has_level(levels: &[u32], level: u32, nodes: &[u32]) -> bool
    requires { (k j : ℕ) → slice_get nodes.now k ≡ Some j → j < length levels.now }
    ensures none { result ≡ false → (k j : ℕ) → slice_get nodes.now k ≡ Some j → ¬ (slice_get levels.now j ≡ Some level) }
    ensures some { result ≡ true → (k : ℕ) × (j : ℕ) × (slice_get nodes.now k ≡ Some j) × (slice_get levels.now j ≡ Some level) }
{
    for node in nodes {
        if levels[*node as usize] == level {
            return true;
        }
    }
    false
}

/// A ring that begins with a node, if it lies on one. It does not where it leads to nodes of higher
/// levels alone, and in that case no search is needed.
fn ring_from(
    alloc: Global,
    graph: &[List<u32>],
    levels: &[u32],
    node: u32,
) -> Result<Option<List<u32>>, Memory>
    requires closed { IsClosed graph.now }
    requires within { node < length graph.now }
    requires levelled { AreLevels graph.now levels.now }
    ensures { IfOk result (IsRingAt graph.now node) }
{
    let place = node as usize;
    if !has_level(levels, levels[place], graph[place].as_slice()) {
        return Ok(None);
    }
    ring_at(alloc, graph, node)
}

/// A ring from the first node that lies on any.
pub fn first_ring(alloc: Global, graph: &[List<u32>]) -> Result<Option<List<u32>>, Memory>
    requires closed { IsClosed graph.now }
    requires few { length graph.now < 2 ^ 32 }
    ensures { IfOk result (IsRingAnswer graph.now) }
{
    let levels = levels_of(alloc, graph)?;
    for node in 0..graph.len() {
        match ring_from(alloc, graph, levels.as_slice(), node as u32)? {
            Some(ring) => return Ok(Some(ring)),
            None => {}
        }
    }
    Ok(None)
}
