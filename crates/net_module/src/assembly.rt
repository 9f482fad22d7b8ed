//! The module that the items of a module in a document mean, and its nodes.
ghost use Rattle.std.specs.Prelude.{◌≡◌, ◌∷◌, [], ◌++◌, ◌-◌, ◌≤◌, ◌^◌, ◌<◌, map, length, replicate, IfOk, OnOk};
ghost use Rattle.std.specs.List.{flat_map};
ghost use Rattle.rtlil_text.specs.Grammar.{All};
ghost use Rattle.rtlil_text.specs.declared.doc.DocModule.{DocModule as DocModules};
ghost use Rattle.net_cells.specs.Wires.{AreStarts, declared as declared_in, wires_from};
ghost use Rattle.net_module.specs.Assembly.{module_of, rams_of};
ghost use Rattle.net_module.specs.Nodes as spec;
ghost use Rattle.net_module.specs.Made.{made_of, wiring};
ghost use Rattle.net_loops.specs.Loops.{node_of};
ghost use Rattle.net_module.specs.PartNodes as ports;

use crate::bodies::{Bodies, bodies_of};
use crate::made::{Around, Made, made_of};
use crate::node::{comb_node, one_need, push_slots};
use crate::part_nodes::{Memories, push_part};
use cell_rows::Places;
use doc_params::attrs_of;
use lib_core::{Library, List, Memory, Name, Tri};
use net_cells::{declared, starts_of, wires_from};
use net_core::{Attr, Mem, MemPart, Module, Wire};
use net_loops::NetNode;
use net_wires::{ClockRoot, Nets};
use raw_cells::{CellShape, RawCell};
use rtlil_text::{DocModule, Item};
use std::alloc::Global;

fn push_part_nodes(
    alloc: Global,
    nodes: &mut Vec<NetNode>,
    memories: &Memories,
    shape: &CellShape,
    part: &MemPart,
) -> Result<(), Memory>
    requires { spec.IsShapeWithin shape.now }
    ensures { OnOk result (map node_of nodes.new.items ≡ map node_of nodes.old.items ++ spec.shape_nodes (ports.memories memories.now) shape.now part.now) }
{
    if let CellShape::Memory { kept: _, row } = shape {
        push_part(alloc, nodes, memories, row, part)?;
    }
    Ok(())
}

/// Puts the nodes of a cell behind others.
fn push_nodes(
    alloc: Global,
    nodes: &mut Vec<NetNode>,
    memories: &Memories,
    shape: &CellShape,
    made: &Made,
) -> Result<(), Memory>
    requires { spec.IsShapeWithin shape.now }
    ensures { OnOk result (map node_of nodes.new.items ≡ map node_of nodes.old.items ++ spec.made_nodes (ports.memories memories.now) shape.now made.now) }
{
    match made {
        Made::Comb(comb) => nodes.push(comb_node(alloc, comb)?)?,
        Made::Reg(reg) => nodes.push(one_need(alloc, &reg.q, reg.arst)?)?,
        Made::Ram(ram) => push_slots(alloc, nodes, ram)?,
        Made::Carried(_) => (),
        Made::Part(part) => push_part_nodes(alloc, nodes, memories, shape, part)?,
    }
    Ok(())
}

/// The cells of a module, and their nodes.
#[derive(Drop)]
struct Making {
    cells: Vec<Made>,
    nodes: Vec<NetNode>,
    owners: Vec<u32>,
}

/// Each node behind those that have an owner belongs to this cell.
fn own(owners: &mut Vec<u32>, nodes: usize, cell: u32) -> Result<(), Memory>
    requires { length owners.old.items ≤ nodes }
    ensures { OnOk result (owners.new.items ≡ owners.old.items ++ replicate (nodes - length owners.old.items) cell) }
{
    owners.resize(nodes, cell)?;
    Ok(())
}

/// Puts what a cell becomes behind the others, and its nodes.
fn put_cell(
    alloc: Global,
    around: &Around<'_>,
    memories: &Memories,
    making: &mut Making,
    number: u32,
    cell: &RawCell,
) -> Result<(), Memory>
    requires within { spec.IsShapeWithin cell.now.shape }
    requires owned { length making.old.owners.items ≡ length making.old.nodes.items }
    ensures cells { OnOk result (making.new.cells.items ≡ making.old.cells.items ++ made_of (wiring around.now) cell.now ∷ []) }
    ensures nodes { OnOk result (map node_of making.new.nodes.items ≡ map node_of making.old.nodes.items ++ spec.cell_nodes (ports.memories memories.now) (wiring around.now) cell.now) }
    ensures owners { OnOk result (making.new.owners.items ≡ making.old.owners.items ++ replicate (length (spec.cell_nodes (ports.memories memories.now) (wiring around.now) cell.now)) number) }
    ensures owned { OnOk result (length making.new.owners.items ≡ length making.new.nodes.items) }
{
    let made = made_of(alloc, around, cell)?;
    push_nodes(alloc, &mut making.nodes, memories, &cell.shape, &made)?;
    own(&mut making.owners, making.nodes.len(), number)?;
    making.cells.push(made)?;
    Ok(())
}

fn make_cells(
    alloc: Global,
    around: &Around<'_>,
    memories: &Memories,
    cells: &[RawCell],
) -> Result<Making, Memory>
    requires few { length cells.now < 2 ^ 32 }
    requires within { spec.AreShapesWithin cells.now }
    ensures cells { IfOk result (λ making. making.cells.items ≡ spec.all_made (wiring around.now) cells.now) }
    ensures nodes { IfOk result (λ making. map node_of making.nodes.items ≡ spec.nodes_in (ports.memories memories.now) (wiring around.now) cells.now) }
    ensures owners { IfOk result (λ making. making.owners.items ≡ spec.owners_in (ports.memories memories.now) (wiring around.now) 0 cells.now) }
{
    let mut making = Making {
        cells: Vec::with_capacity(alloc, cells.len())?,
        nodes: Vec::new(alloc),
        owners: Vec::new(alloc),
    };
    let mut number = 0usize;
    let mut rest = cells;
    while let [cell, tail @ ..] = rest {
        put_cell(alloc, around, memories, &mut making, number as u32, cell)?;
        number += 1;
        rest = tail;
    }
    Ok(making)
}

fn names_of(alloc: Global, declared: &[Mem]) -> Result<Vec<Name>, Memory>
    ensures { IfOk result (λ names. names.items ≡ spec.names_of declared.now) }
{
    let mut names = Vec::with_capacity(alloc, declared.len())?;
    let mut rest = declared;
    while let [mem, tail @ ..] = rest {
        names.push(mem.name.copy(alloc)?)?;
        rest = tail;
    }
    Ok(names)
}

fn widths_of(alloc: Global, declared: &[Mem]) -> Result<Vec<u32>, Memory>
    ensures { IfOk result (λ widths. widths.items ≡ spec.widths_of declared.now) }
{
    let mut widths = Vec::with_capacity(alloc, declared.len())?;
    let mut rest = declared;
    while let [mem, tail @ ..] = rest {
        widths.push(mem.width)?;
        rest = tail;
    }
    Ok(widths)
}

fn memories_of(alloc: Global, declared: &[Mem]) -> Result<Memories, Memory>
    ensures { IfOk result (λ found. spec.AreMemories declared.now (ports.memories found)) }
{
    let names = names_of(alloc, declared)?;
    Ok(Memories {
        places: Places::new(alloc, names.as_slice())?,
        widths: widths_of(alloc, declared)?,
    })
}

/// The memories that these items declare.
#[tactic(auto, using(crate::proofs::Joined::memories_are))]
fn memories_in(alloc: Global, items: &[Item], declared: &[Mem]) -> Result<Memories, Memory>
    requires { declared.now ≡ declared_in items.now }
    ensures { IfOk result (λ found. ports.memories found ≡ spec.memories_in items.now) }
{
    let found = memories_of(alloc, declared)?;
    Ok(found)
}

/// What a module has besides its cells.
#[derive(Drop)]
struct Shell {
    name: Name,
    attrs: List<Attr>,
    wires: List<Wire>,
    declared: List<Mem>,
}

/// Puts a module together.
#[tactic(auto, unfolding(crate::specs::Nodes::joined))]
fn joined(nets: u32, shell: Shell, bodies: Bodies, alloc: Global) -> Module
    ensures { result ≡ spec.joined nets shell bodies }
{
    let Shell {
        name,
        attrs,
        wires,
        declared,
    } = shell;
    let Bodies {
        combs,
        regs,
        rams,
        carried,
        parts,
    } = bodies;
    Module {
        name,
        attrs,
        nets,
        wires,
        declared,
        parts: List::from_vec(parts),
        mems: List::from_vec(Vec::new(alloc)),
        combs: List::from_vec(combs),
        regs: List::from_vec(regs),
        rams: List::from_vec(rams),
        carried: List::from_vec(carried),
    }
}

/// A module with its nodes.
#[derive(Drop)]
pub struct Assembled {
    pub module: Module,
    /// The nodes of the cells, in file order of the cells.
    pub nodes: Vec<NetNode>,
    /// For each node the number of its cell in file order.
    pub owners: Vec<u32>,
}

fn shell_of(
    alloc: Global,
    doc: &DocModule,
    wires: List<Wire>,
    declared: List<Mem>,
) -> Result<Shell, Memory>
    ensures { IfOk result (λ shell. shell ≡ spec.shell_of doc.now wires declared) }
{
    Ok(Shell {
        name: doc.name.copy(alloc)?,
        attrs: attrs_of(alloc, doc.attrs.as_slice())?,
        wires,
        declared,
    })
}

/// The wires of a module, and the values at the start of its nets.
#[derive(Drop)]
struct Started {
    wires: List<Wire>,
    starts: List<Tri>,
}

fn begin(alloc: Global, nets: &Nets, items: &[Item]) -> Result<Started, Memory>
    ensures wires { IfOk result (λ begun. begun.wires ≡ wires_from nets.now.bits items.now) }
    ensures starts { IfOk result (λ begun. AreStarts nets.now.count (wires_from nets.now.bits items.now) begun.starts) }
{
    let wires = wires_from(alloc, nets.bits.as_slice(), items)?;
    let starts = starts_of(alloc, nets.count, wires.as_slice())?;
    Ok(Started { wires, starts })
}

/// The module of a shell and of cells, and its nodes.
fn put_together(
    alloc: Global,
    around: &Around<'_>,
    memories: &Memories,
    nets: u32,
    shell: Shell,
    cells: &[RawCell],
) -> Result<Assembled, Memory>
    requires few { length cells.now < 2 ^ 32 }
    requires within { spec.AreShapesWithin cells.now }
    ensures module { IfOk result (λ made. (d : DocModules) → shell ≡ spec.shell_of d (wires_from (wiring around.now).places d.items) (declared_in d.items) → made.«module» ≡ module_of d cells.now (wiring around.now).places nets (wiring around.now).roots (wiring around.now).starts (rams_of (wiring around.now).library (wiring around.now).places (wiring around.now).roots cells.now)) }
    ensures nodes { IfOk result (λ made. map node_of made.nodes.items ≡ spec.nodes_in (ports.memories memories.now) (wiring around.now) cells.now) }
    ensures owners { IfOk result (λ made. made.owners.items ≡ spec.owners_in (ports.memories memories.now) (wiring around.now) 0 cells.now) }
{
    let Making {
        cells: made,
        nodes,
        owners,
    } = make_cells(alloc, around, memories, cells)?;
    let bodies = bodies_of(alloc, made)?;
    Ok(Assembled {
        module: joined(nets, shell, bodies, alloc),
        nodes,
        owners,
    })
}

/// The module of a document's module, of which the places of bits have these nets and the clocks these
/// roots, and its nodes.
pub fn assemble(
    alloc: Global,
    library: &Library,
    nets: &Nets,
    roots: &[ClockRoot],
    doc: &DocModule,
    cells: &[RawCell],
) -> Result<Assembled, Memory>
    requires few { length cells.now < 2 ^ 32 }
    requires within { spec.AreShapesWithin cells.now }
    ensures { IfOk result (spec.Assembles library.now nets.now roots.now doc.now cells.now) }
{
    let Started { wires, starts } = begin(alloc, nets, doc.items.as_slice())?;
    let declared = declared(alloc, doc.items.as_slice())?;
    let memories = memories_in(alloc, doc.items.as_slice(), declared.as_slice())?;
    let around = Around {
        library,
        places: nets.bits.as_slice(),
        roots,
        starts: starts.as_slice(),
    };
    let shell = shell_of(alloc, doc, wires, declared)?;
    let assembled = put_together(alloc, &around, &memories, nets.count, shell, cells)?;
    Ok(assembled)
}
