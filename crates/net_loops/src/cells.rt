//! A module of logic cells that stand for nodes.
ghost use Rattle.std.specs.Prelude.{◌≡◌, [], ◌∷◌, ◌++◌, map, IfOk};
ghost use Rattle.net_core.specs.Nodes.{comb_node, nodes_of};
ghost use Rattle.net_loops.specs.Loops.{node_of, nodes_in};

use crate::nodes::NetNode;
use lib_core::{Duplicate, List, Memory, Name};
use net_core::{Comb, CombKind, Module};
use std::alloc::Global;

fn none<T>(alloc: Global) -> List<T>
    ensures { result ≡ [] }
{
    List::from_vec(Vec::new(alloc))
}

/// A logic cell that drives and needs what the node does.
fn cell_of(alloc: Global, node: &NetNode) -> Result<Comb, Memory>
    ensures { IfOk result (λ c. comb_node c ≡ node_of node.now) }
{
    Ok(Comb {
        name: Name::from_vec(Vec::new(alloc)),
        kind: CombKind::Not,
        signed: false,
        a: node.needs.duplicate(alloc)?,
        b: none(alloc),
        s: none(alloc),
        y: node.drives.duplicate(alloc)?,
    })
}

/// A logic cell for each node.
fn cells_of(alloc: Global, nodes: &[NetNode]) -> Result<Vec<Comb>, Memory>
    ensures { IfOk result (λ cells. map comb_node cells.items ≡ nodes_in nodes.now) }
{
    let mut cells = Vec::with_capacity(alloc, nodes.len())?;
    for node in nodes {
        cells.push(cell_of(alloc, node)?)?;
    }
    Ok(cells)
}

/// A module whose nodes are these.
pub fn module_of(alloc: Global, nets: u32, nodes: &[NetNode]) -> Result<Module, Memory>
    ensures nets { IfOk result (λ m. m.nets ≡ nets) }
    ensures nodes { IfOk result (λ m. nodes_of m ≡ nodes_in nodes.now) }
{
    let combs = List::from_vec(cells_of(alloc, nodes)?);
    Ok(Module {
        name: Name::from_vec(Vec::new(alloc)),
        attrs: none(alloc),
        nets,
        wires: none(alloc),
        declared: none(alloc),
        parts: none(alloc),
        mems: none(alloc),
        combs,
        regs: none(alloc),
        rams: none(alloc),
        carried: none(alloc),
    })
}
