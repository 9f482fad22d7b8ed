//! The rows of the graph of nodes.
ghost use Rattle.std.specs.Prelude.{◌≡◌, ℕ, ◌<◌, ◌^◌, length, slice_get, Some, IfOk, OnOk};
ghost use Rattle.net_core.specs.Ports.{nets_of};
ghost use Rattle.net_core.specs.Search.{Leads};
ghost use Rattle.net_core.specs.Wiring.{AddsDriver, drivers_of};
ghost use Rattle.net_loops.specs.Graphs.{drives_in, row_of, rows_in, AreTurned, IsGraphOf};
ghost use Rattle.net_loops.specs.Loops.{nodes_in, NetsBelow};

use crate::nodes::NetNode;
use lib_core::{Duplicate, List, Memory};
use net_core::Bit;
use net_core::ports::push_nets;
use std::alloc::Global;

/// The nets that each node drives.
fn drives_in(alloc: Global, nodes: &[NetNode]) -> Result<Vec<List<u32>>, Memory>
    ensures { IfOk result (λ rows. rows.items ≡ drives_in nodes.now) }
{
    let mut rows = Vec::with_capacity(alloc, nodes.len())?;
    for node in nodes {
        rows.push(node.drives.duplicate(alloc)?)?;
    }
    Ok(rows)
}

/// Rows that are empty.
fn empty_rows(alloc: Global, count: u32) -> Result<Vec<List<u32>>, Memory>
    ensures len { IfOk result (λ rows. length rows.items ≡ count) }
    ensures empty { IfOk result (λ rows. (n j : ℕ) → ¬ (Leads rows.items n j)) }
{
    let mut rows = Vec::with_capacity(alloc, count as usize)?;
    for _ in 0..count {
        rows.push(List::from_vec(Vec::new(alloc)))?;
    }
    Ok(rows)
}

/// Puts a number into the rows at these places.
fn put_at(rows: &mut Vec<List<u32>>, places: &[u32], number: u32) -> Result<(), Memory>
    requires { (k n : ℕ) → slice_get places.now k ≡ Some n → n < length rows.old.items }
    ensures len { OnOk result (length rows.new.items ≡ length rows.old.items) }
    ensures leads { OnOk result (AddsDriver rows.old.items rows.new.items number (λ n. (k : ℕ) × (slice_get places.now k ≡ Some n))) }
{
    for place in places {
        rows[*place as usize].push(number)?;
    }
    Ok(())
}

/// For each number below `count` the places of the rows that have it.
pub fn turned(alloc: Global, count: u32, rows: &[List<u32>]) -> Result<Vec<List<u32>>, Memory>
    requires within { (i n : ℕ) → Leads rows.now i n → n < count }
    requires few { length rows.now < 2 ^ 32 }
    ensures len { IfOk result (λ turned. length turned.items ≡ count) }
    ensures turned { IfOk result (λ turned. AreTurned rows.now turned.items) }
{
    let mut turned = empty_rows(alloc, count)?;
    for (place, row) in rows.iter().enumerate() {
        put_at(&mut turned, row.as_slice(), place as u32)?;
    }
    Ok(turned)
}

/// The nodes that drive these nets.
fn drivers_of(alloc: Global, drivers: &[List<u32>], nets: &[u32]) -> Result<List<u32>, Memory>
    requires { (k n : ℕ) → slice_get nets.now k ≡ Some n → n < length drivers.now }
    ensures { IfOk result (λ row. row ≡ drivers_of drivers.now nets.now) }
{
    let mut row = Vec::new(alloc);
    for net in nets {
        row.extend_from_slice(drivers[*net as usize].as_slice())?;
    }
    Ok(List::from_vec(row))
}

/// The nodes on which one depends that needs these bits.
fn row_of(alloc: Global, drivers: &[List<u32>], bits: &[Bit]) -> Result<List<u32>, Memory>
    requires { (k n : ℕ) → slice_get (nets_of bits.now) k ≡ Some n → n < length drivers.now }
    ensures { IfOk result (λ row. row ≡ drivers_of drivers.now (nets_of bits.now)) }
{
    let mut nets = Vec::with_capacity(alloc, bits.len())?;
    push_nets(&mut nets, bits)?;
    drivers_of(alloc, drivers, nets.as_slice())
}

/// For each node those that it depends on.
fn rows_in(
    alloc: Global,
    drivers: &[List<u32>],
    nodes: &[NetNode],
) -> Result<Vec<List<u32>>, Memory>
    requires { (i k n : ℕ) (p : NetNode) → slice_get nodes.now i ≡ Some p → slice_get (nets_of p.needs) k ≡ Some n → n < length drivers.now }
    ensures { IfOk result (λ rows. rows.items ≡ rows_in drivers.now nodes.now) }
{
    let mut rows = Vec::with_capacity(alloc, nodes.len())?;
    for node in nodes {
        rows.push(row_of(alloc, drivers, node.needs.as_slice())?)?;
    }
    Ok(rows)
}

/// For each node those that it depends on, which are those that drive the nets which it needs.
pub fn graph_of(alloc: Global, nets: u32, nodes: &[NetNode]) -> Result<Vec<List<u32>>, Memory>
    requires within { NetsBelow nets (nodes_in nodes.now) }
    requires few { length nodes.now < 2 ^ 32 }
    ensures { IfOk result (λ graph. IsGraphOf (nodes_in nodes.now) graph.items) }
{
    let drives = drives_in(alloc, nodes)?;
    let drivers = turned(alloc, nets, drives.as_slice())?;
    rows_in(alloc, drivers.as_slice(), nodes)
}
