//! A walk through a graph.
ghost use Rattle.std.specs.Prelude.{◌≡◌, ℕ, ◌+◌, ◌*◌, ◌^◌, ◌<◌, ◌≤◌, [], ◌∷◌, ◌++◌, length, map, sum, slice_get, slice_set, Some, IfOk, OnOk, true, false};

use lib_core::{List, Memory};
use std::alloc::Global;

/// The label of nodes to which no walk came. It is also no node's number.
const NEW: u32 = u32::MAX;

/// A walk from node to node. From each it goes on to nodes to which none came, as long as there are any.
#[derive(Drop)]
pub struct Walk {
    /// The label under which each node was come to.
    pub labels: Vec<u32>,
    /// How many entries of each node's row are still to be looked at.
    pub left: Vec<usize>,
    /// Where the walk goes on, each node after one that leads to it.
    pub stack: Vec<u32>,
    /// The nodes whose rows are looked through, each after those to which it went on.
    pub done: Vec<u32>,
}

impl Walk {
    ghost use Rattle.net_core.specs.Search.{IsClosed};
    ghost use Rattle.net_loops.specs.Walks.{CameTo, Walking, Met, BeginsAs, KeepsLabels, IsVisit, Resting};

    /// A walk that came to no node.
    #[tactic(auto, using(crate::proofs::Walking::begin, crate::proofs::Walking::all_new))]
    pub fn new(alloc: Global, graph: &[List<u32>]) -> Result<Walk, Memory>
        ensures walking { IfOk result (λ w. (goal now : ℕ) → now < 4294967295 → Walking graph.now goal 4294967295 now w.labels.items w.left.items w.stack.items w.done.items) }
        ensures labels { IfOk result (λ w. (i y : ℕ) → slice_get w.labels.items i ≡ Some y → y ≡ 4294967295) }
        ensures stack { IfOk result (λ w. w.stack.items ≡ []) }
    {
        Ok(Walk {
            labels: vec![in alloc; NEW; graph.len()]?,
            left: graph.iter().map(|row| row.as_slice().len()).collect(alloc)?,
            stack: Vec::new(alloc),
            done: Vec::new(alloc),
        })
    }

    /// Comes to a node.
    pub fn enter(&mut self, node: u32, label: u32) -> Result<(), Memory>
        requires { node < length self.old.labels.items }
        ensures labels { OnOk result (self.new.labels.items ≡ slice_set self.old.labels.items node label) }
        ensures left { self.new.left.items ≡ self.old.left.items }
        ensures stack { OnOk result (self.new.stack.items ≡ self.old.stack.items ++ node ∷ []) }
        ensures done { self.new.done.items ≡ self.old.done.items }
    {
        self.stack.push(node)?;
        self.labels[node as usize] = label;
        Ok(())
    }

    /// Comes to a node unless a walk came there before.
    fn visit(&mut self, label: u32, node: u32) -> Result<(), Memory>
        requires { node < length self.old.labels.items }
        ensures visit { OnOk result (IsVisit label node self.old.labels.items self.old.stack.items self.new.labels.items self.new.stack.items) }
        ensures left { self.new.left.items ≡ self.old.left.items }
        ensures done { self.new.done.items ≡ self.old.done.items }
    {
        if label < self.labels[node as usize] {
            self.enter(node, label)?;
        }
        Ok(())
    }

    /// Looks at what the node that was the topmost leads to next, and says whether it is the goal.
    fn step(
        &mut self,
        graph: &[List<u32>],
        label: u32,
        goal: u32,
        node: u32,
    ) -> Result<bool, Memory>
        requires closed { IsClosed graph.now }
        requires walking { Walking graph.now goal 4294967295 label self.old.labels.items self.old.left.items (self.old.stack.items ++ node ∷ []) self.old.done.items }
        ensures met { IfOk result (λ met. met ≡ true → Met graph.now goal self.new.stack.items) }
        ensures walking { IfOk result (λ met. met ≡ false → Walking graph.now goal 4294967295 label self.new.labels.items self.new.left.items self.new.stack.items self.new.done.items) }
        ensures kept { OnOk result (KeepsLabels label self.old.labels.items self.new.labels.items) }
        ensures begins { OnOk result (BeginsAs (self.old.stack.items ++ node ∷ []) self.new.stack.items) }
        ensures less { IfOk result (λ met. met ≡ false → 2 * sum self.new.left.items + length self.new.stack.items < 2 * sum self.old.left.items + length self.old.stack.items + 1) }
    {
        let place = node as usize;
        let left = self.left[place];
        if left == 0 {
            self.done.push(node)?;
            return Ok(false);
        }
        self.stack.push(node)?;
        self.left[place] = left - 1;
        let target = graph[place].as_slice()[left - 1];
        if target == goal {
            return Ok(true);
        }
        self.visit(label, target)?;
        Ok(false)
    }

    /// Goes on until it meets the goal or nowhere is left to go on, and says whether it met the goal.
    pub fn run(&mut self, graph: &[List<u32>], label: u32, goal: u32) -> Result<bool, Memory>
        requires closed { IsClosed graph.now }
        requires walking { Walking graph.now goal 4294967295 label self.old.labels.items self.old.left.items self.old.stack.items self.old.done.items }
        ensures met { IfOk result (λ met. met ≡ true → Met graph.now goal self.new.stack.items) }
        ensures walking { IfOk result (λ met. met ≡ false → Walking graph.now goal 4294967295 label self.new.labels.items self.new.left.items self.new.stack.items self.new.done.items) }
        ensures empty { IfOk result (λ met. met ≡ false → self.new.stack.items ≡ []) }
        ensures kept { OnOk result (KeepsLabels label self.old.labels.items self.new.labels.items) }
        ensures begins { OnOk result (BeginsAs self.old.stack.items self.new.stack.items) }
    {
        while let Some(node) = self.stack.pop() {
            if self.step(graph, label, goal, node)? {
                return Ok(true);
            }
        }
        Ok(false)
    }

    /// Comes to a node and to all nodes to which it leads, as far as no walk came there before.
    pub fn cover(&mut self, graph: &[List<u32>], label: u32, node: u32) -> Result<(), Memory>
        requires closed { IsClosed graph.now }
        requires few { length graph.now < 2 ^ 32 }
        requires within { node < length graph.now }
        requires resting { Resting graph.now 4294967295 label self.old.labels.items self.old.left.items self.old.stack.items self.old.done.items }
        ensures came { OnOk result (CameTo self.new.labels.items label node) }
        ensures resting { OnOk result (Resting graph.now 4294967295 label self.new.labels.items self.new.left.items self.new.stack.items self.new.done.items) }
    {
        if label < self.labels[node as usize] {
            self.enter(node, label)?;
            self.run(graph, label, NEW)?;
        }
        Ok(())
    }
}
