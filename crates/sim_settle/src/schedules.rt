//! What is found once of a module before it is simulated.
ghost use Rattle.std.specs.Prelude.{◌≡◌, ℕ, ◌^◌, ◌<◌, ◌≤◌, ◌++◌, false, map, length, replicate, slice_get, Some, IfOk, OnOk};
ghost use Rattle.net_core.specs.Nodes.{Node, nodes_of, NetsWithin, IsNodeOrder};
ghost use Rattle.net_core.specs.Ports.{inputs_of};
ghost use Rattle.net_core.specs.Values.{bit_at};
ghost use Rattle.picked_run.specs.Settled.{IsFree};
ghost use Rattle.ram_step.specs.Moments.{valuation};
ghost use Rattle.sim_settle.specs.declared.places.NodePlace.{NodePlace};
ghost use Rattle.sim_settle.specs.Nets.{IsAmong, AreBelow, Fills};
ghost use Rattle.sim_settle.specs.Places.{node_at, HaveNodes, places_of, place_by, IsPlaceOrder, AreFew};
ghost use Rattle.sim_settle.specs.Marks.{IsUndriven, IsUnmarked, unmarked_one};
ghost use Rattle.sim_settle.specs.Schedules.{IsSchedule};

use crate::places::{NodePlace, nets_at, places};
use lib_core::{List, Memory};
use net_core::{Module, comb_order, inputs};
use std::alloc::Global;

/// What is found once of a module before it is simulated.
#[derive(Drop)]
pub struct Schedule {
    /// The nets of the inputs, in their order.
    pub inputs: List<u32>,
    /// The nets that nothing drives.
    pub free: List<u32>,
    /// The places of the nodes, each after those of all nodes that its own depends on.
    pub work: List<NodePlace>,
    /// As many as the nets of each node, or more.
    pub width: usize,
}

impl Schedule {
    /// What is found of a module that can run.
    pub fn new(alloc: Global, module: &Module) -> Result<Schedule, Memory>
        requires few { AreFew «module».now }
        requires few_nodes { length (nodes_of «module».now) < 2 ^ 32 }
        requires nets { NetsWithin «module».now }
        requires inputs { AreBelow «module».now.nets (inputs_of «module».now) }
        ensures { IfOk result (IsSchedule «module».now) }
    {
        let inputs = inputs(alloc, module)?;
        let work = work(alloc, module)?;
        let width = width(module, work.as_slice());
        let free = free_nets(alloc, module, inputs.as_slice(), work.as_slice())?;
        Ok(Schedule {
            inputs,
            free,
            work,
            width,
        })
    }
}

/// The places of a module's nodes in an order.
fn work(alloc: Global, module: &Module) -> Result<List<NodePlace>, Memory>
    requires few { AreFew «module».now }
    requires few_nodes { length (nodes_of «module».now) < 2 ^ 32 }
    requires nets { NetsWithin «module».now }
    ensures { IfOk result (IsPlaceOrder «module».now) }
{
    let order = order(alloc, module)?;
    let places = places(alloc, module)?;
    let work = taken(alloc, places.as_slice(), order.as_slice())?;
    Ok(work)
}

/// The numbers of a module's nodes in an order.
fn order(alloc: Global, module: &Module) -> Result<List<u32>, Memory>
    requires few_nodes { length (nodes_of «module».now) < 2 ^ 32 }
    requires nets { NetsWithin «module».now }
    ensures { IfOk result (IsNodeOrder (nodes_of «module».now)) }
{
    match comb_order(alloc, module) {
        Ok(order) => Ok(order),
        // A module that can run has no loop.
        Err(_) => Err(Memory),
    }
}

/// The places of nodes.
fn taken(alloc: Global, places: &[NodePlace], order: &[u32]) -> Result<List<NodePlace>, Memory>
    requires { AreBelow (length places.now) order.now }
    ensures { IfOk result (λ work. work ≡ map (place_by places.now) order.now) }
{
    let mut work = Vec::with_capacity(alloc, order.len())?;
    for node in order {
        work.push(place_by(places, *node))?;
    }
    Ok(List::from_vec(work))
}

/// The place of a node.
fn place_by(places: &[NodePlace], node: u32) -> NodePlace
    requires { node < length places.now }
    ensures { result ≡ place_by places.now node }
{
    places[node as usize]
}

/// The most nets that a node at one of these places drives.
fn width(module: &Module, work: &[NodePlace]) -> usize
    requires { HaveNodes «module».now work.now }
    ensures { (a : ℕ) (at : NodePlace) (p : Node) → slice_get work.now a ≡ Some at → node_at «module».now at ≡ Some p → length p.drives ≤ result }
{
    let mut width = 0;
    for at in work {
        width = wider(width, nets_at(module, *at));
    }
    width
}

/// The width, or the number of nets where that is greater.
fn wider(width: usize, nets: &[u32]) -> usize
    ensures width { width ≤ result }
    ensures nets { length nets.now ≤ result }
{
    width.max(nets.len())
}

/// The nets that are no inputs and that no node at one of these places drives.
fn free_nets(
    alloc: Global,
    module: &Module,
    inputs: &[u32],
    work: &[NodePlace],
) -> Result<List<u32>, Memory>
    requires nets { NetsWithin «module».now }
    requires inputs { AreBelow «module».now.nets inputs.now }
    requires all_inputs { inputs.now ≡ inputs_of «module».now }
    requires work { HaveNodes «module».now work.now }
    ensures all { IfOk result (λ nets. (n : ℕ) → n < «module».now.nets → IsFree «module».now n → IsAmong nets n) }
    ensures within { IfOk result (AreBelow «module».now.nets) }
{
    let mut driven = no_marks(alloc, module.nets as usize)?;
    mark_driven(driven.as_mut_slice(), module, inputs, work);
    let nets = unmarked(alloc, driven.as_slice())?;
    Ok(nets)
}

/// So many marks, none of which is set.
fn no_marks(alloc: Global, count: usize) -> Result<Vec<bool>, Memory>
    ensures { IfOk result (λ marks. marks.items ≡ replicate count false) }
{
    let marks = vec![in alloc; false; count]?;
    Ok(marks)
}

/// Marks the inputs, and the nets of the nodes at these places.
fn mark_driven(marks: &mut [bool], module: &Module, inputs: &[u32], work: &[NodePlace])
    requires nets { NetsWithin «module».now }
    requires marks { length marks.old ≡ «module».now.nets }
    requires inputs { AreBelow «module».now.nets inputs.now }
    requires all_inputs { inputs.now ≡ inputs_of «module».now }
    requires work { HaveNodes «module».now work.now }
    ensures { (n : ℕ) → IsFree «module».now n → bit_at marks.new n ≡ bit_at marks.old n }
{
    mark(marks, inputs);
    mark_work(marks, module, work);
}

/// Marks nets.
fn mark(marks: &mut [bool], nets: &[u32])
    requires { AreBelow (length marks.old) nets.now }
    ensures { (n : ℕ) → (IsAmong nets.now n → ⊥) → bit_at marks.new n ≡ bit_at marks.old n }
{
    for net in nets {
        marks[*net as usize] = true;
    }
}

/// Marks the nets of the nodes at these places.
fn mark_work(marks: &mut [bool], module: &Module, work: &[NodePlace])
    requires nets { NetsWithin «module».now }
    requires marks { length marks.old ≡ «module».now.nets }
    requires work { HaveNodes «module».now work.now }
    ensures { (n : ℕ) → IsUndriven «module».now n → bit_at marks.new n ≡ bit_at marks.old n }
{
    for at in work {
        mark(marks, nets_at(module, *at));
    }
}

/// The nets that are not marked.
fn unmarked(alloc: Global, marks: &[bool]) -> Result<List<u32>, Memory>
    requires { length marks.now < 2 ^ 32 }
    ensures { IfOk result (IsUnmarked marks.now (length marks.now)) }
{
    let mut nets = Vec::new(alloc);
    for (net, driven) in marks.iter().enumerate() {
        push_unmarked(&mut nets, net as u32, *driven)?;
    }
    Ok(List::from_vec(nets))
}

/// Puts a net at the end, where it is not driven.
fn push_unmarked(nets: &mut Vec<u32>, net: u32, driven: bool) -> Result<(), Memory>
    ensures { OnOk result (nets.new.items ≡ nets.old.items ++ unmarked_one net driven) }
{
    if !driven {
        nets.push(net)?;
    }
    Ok(())
}
