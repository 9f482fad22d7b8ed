//! A search from node to node.
ghost use Rattle.std.specs.Prelude.{◌≡◌, ℕ, ◌+◌, ◌*◌, ◌^◌, ◌<◌, ◌≤◌, [], ◌∷◌, ◌++◌, length, drop, sum, slice_get, slice_set, Some, IfOk, IfErr, OnOk, OnErr};

use lib_core::{List, Memory};
use std::alloc::{AllocFailed, Global};

/// Why there is no order.
#[derive(Debug, PartialEq, Eq, Drop)]
pub enum LoopFault {
    /// Nodes each of which depends on the next, and the last on the first.
    Loop { nodes: List<u32> },
    /// Memory could not be had.
    Memory,
}

impl From<Memory> for LoopFault {
    ghost use Rattle.net_core.specs.declared.search.LoopFault.TheVariants as fault;

    ghost from_gives = { λ memory given. given ≡ fault.Memory };

    fn from(_memory: Memory) -> LoopFault {
        LoopFault::Memory
    }
}

impl<T: Drop> From<AllocFailed<T>> for LoopFault {
    ghost use Rattle.net_core.specs.declared.search.LoopFault.TheVariants as fault;

    ghost from_gives = { λ failed given. given ≡ fault.Memory };

    fn from(_failed: AllocFailed<T>) -> LoopFault {
        LoopFault::Memory
    }
}

/// What became of a node.
#[derive(Clone, Copy, Debug, PartialEq, Eq)]
pub enum Mark {
    New,
    /// It stands on the stack.
    Opened,
    /// It stands in the order.
    Done,
}

/// A search from node to node, each of which is done once all nodes that it leads to are.
#[derive(Drop)]
pub struct Search {
    pub marks: Vec<Mark>,
    /// How many entries of each node's row are still to be looked at.
    pub left: Vec<usize>,
    /// Opened nodes, each of which leads to the next.
    pub stack: Vec<u32>,
    /// The nodes that are done, each after all nodes that it leads to.
    pub order: Vec<u32>,
}

impl Search {
    ghost use Rattle.net_core.specs.Search.{IsClosed, Searching, Going, NoneNew, IsRing, IsRingFault};

    /// No node has been looked at.
    pub fn new(alloc: Global, graph: &[List<u32>]) -> Result<Search, Memory>
        ensures searching { IfOk result (λ s. Searching graph.now s.marks.items s.left.items s.stack.items s.order.items) }
        ensures empty { IfOk result (λ s. s.stack.items ≡ []) }
    {
        Ok(Search {
            marks: vec![in alloc; Mark::New; graph.len()]?,
            left: graph.iter().map(|row| row.as_slice().len()).collect(alloc)?,
            stack: Vec::new(alloc),
            order: Vec::with_capacity(alloc, graph.len())?,
        })
    }

    /// Puts a node on the stack.
    pub fn open(&mut self, node: u32) -> Result<(), Memory>
        requires { node < length self.old.marks.items }
        ensures marks { OnOk result (self.new.marks.items ≡ slice_set self.old.marks.items node Mark.Opened) }
        ensures left { self.new.left.items ≡ self.old.left.items }
        ensures stack { OnOk result (self.new.stack.items ≡ self.old.stack.items ++ node ∷ []) }
        ensures order { self.new.order.items ≡ self.old.order.items }
    {
        self.stack.push(node)?;
        self.marks[node as usize] = Mark::Opened;
        Ok(())
    }

    /// Puts a node into the order.
    fn close(&mut self, node: u32) -> Result<(), Memory>
        requires { node < length self.old.marks.items }
        ensures marks { OnOk result (self.new.marks.items ≡ slice_set self.old.marks.items node Mark.Done) }
        ensures left { self.new.left.items ≡ self.old.left.items }
        ensures stack { self.new.stack.items ≡ self.old.stack.items }
        ensures order { OnOk result (self.new.order.items ≡ self.old.order.items ++ node ∷ []) }
    {
        self.order.push(node)?;
        self.marks[node as usize] = Mark::Done;
        Ok(())
    }

    /// The nodes on the stack from a node on.
    fn ring(&self, alloc: Global, node: u32) -> Result<List<u32>, Memory>
        ensures { IfOk result (λ nodes. (p : ℕ) → slice_get self.now.stack.items p ≡ Some node → (q : ℕ) × (slice_get self.now.stack.items q ≡ Some node) × (nodes ≡ drop q self.now.stack.items)) }
    {
        let place = place_of(self.stack.as_slice(), node);
        Ok(List::from_vec(Vec::from_slice(alloc, &self.stack.as_slice()[place..])?))
    }

    /// Goes to a node that the topmost one leads to.
    fn visit(&mut self, alloc: Global, graph: &[List<u32>], target: u32) -> Result<(), LoopFault>
        requires { Going graph.now self.old.marks.items self.old.left.items self.old.stack.items self.old.order.items target }
        ensures searching { OnOk result (Searching graph.now self.new.marks.items self.new.left.items self.new.stack.items self.new.order.items) }
        ensures none_new { OnOk result (NoneNew self.old.marks.items self.new.marks.items) }
        ensures left { self.new.left.items ≡ self.old.left.items }
        ensures stack { OnOk result (length self.new.stack.items ≤ length self.old.stack.items + 1) }
        ensures fault { IfErr result (IsRingFault graph.now) }
    {
        match self.marks[target as usize] {
            Mark::New => self.open(target)?,
            Mark::Opened => {
                let nodes = self.ring(alloc, target)?;
                return Err(LoopFault::Loop { nodes });
            }
            Mark::Done => {}
        }
        Ok(())
    }

    /// Looks at what the node that was the topmost leads to next, or closes it.
    fn step(&mut self, alloc: Global, graph: &[List<u32>], node: u32) -> Result<(), LoopFault>
        requires closed { IsClosed graph.now }
        requires searching { Searching graph.now self.old.marks.items self.old.left.items (self.old.stack.items ++ node ∷ []) self.old.order.items }
        ensures searching { OnOk result (Searching graph.now self.new.marks.items self.new.left.items self.new.stack.items self.new.order.items) }
        ensures none_new { OnOk result (NoneNew self.old.marks.items self.new.marks.items) }
        ensures less { OnOk result (2 * sum self.new.left.items + length self.new.stack.items < 2 * sum self.old.left.items + length self.old.stack.items + 1) }
        ensures fault { IfErr result (IsRingFault graph.now) }
    {
        let place = node as usize;
        let left = self.left[place];
        if left == 0 {
            self.close(node)?;
            return Ok(());
        }
        self.stack.push(node)?;
        self.left[place] = left - 1;
        let target = graph[place].as_slice()[left - 1];
        self.visit(alloc, graph, target)?;
        Ok(())
    }

    /// Goes on until no node is opened.
    pub fn finish(&mut self, alloc: Global, graph: &[List<u32>]) -> Result<(), LoopFault>
        requires closed { IsClosed graph.now }
        requires searching { Searching graph.now self.old.marks.items self.old.left.items self.old.stack.items self.old.order.items }
        ensures searching { OnOk result (Searching graph.now self.new.marks.items self.new.left.items self.new.stack.items self.new.order.items) }
        ensures none_new { OnOk result (NoneNew self.old.marks.items self.new.marks.items) }
        ensures empty { OnOk result (self.new.stack.items ≡ []) }
        ensures fault { IfErr result (IsRingFault graph.now) }
    {
        while let Some(node) = self.stack.pop() {
            self.step(alloc, graph, node)?;
        }
        Ok(())
    }
}

/// A place at which a node stands, if there is one.
fn place_of(nodes: &[u32], node: u32) -> usize
    ensures within { result ≤ length nodes.now }
    ensures found { (p : ℕ) → slice_get nodes.now p ≡ Some node → slice_get nodes.now result ≡ Some node }
{
    for (place, here) in nodes.iter().enumerate() {
        if *here == node {
            return place;
        }
    }
    nodes.len()
}
