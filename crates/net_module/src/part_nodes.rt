//! The nodes of cells that make up memories.
ghost use Rattle.std.specs.Prelude.{◌≡◌, ◌++◌, map, IfOk, OnOk};
ghost use Rattle.mem_rows.specs.Limits.{IsWithin};
ghost use Rattle.net_loops.specs.Loops.{node_of};
ghost use Rattle.net_module.specs.PartNodes as spec;

use crate::node::push_reads;
use cell_rows::Places;
use lib_core::{List, Memory, Name};
use mem_collect::{address, pin_bits, read_ports, wide_of};
use mem_rows::{MemRow, PortRow, WholeRow};
use net_core::ports::push_nets;
use net_core::{Bit, MemPart};
use net_loops::NetNode;
use std::alloc::Global;

/// The memories that a module declares.
#[derive(Drop)]
pub struct Memories {
    /// Their places by name.
    pub places: Places,
    /// The bits of their words.
    pub widths: Vec<u32>,
}

/// The wide number of a port over words of this width.
fn wide_over(word: u32, port: u32) -> u32
    ensures { result ≡ spec.wide_over word port }
{
    if word == 0 {
        return 0;
    }
    let words = port / word;
    if word * words == port {
        wide_of(words)
    } else {
        0
    }
}

/// The wide number of a port of the memory of a name; 0 where no such memory is declared.
fn wide_in(memories: &Memories, name: &Name, port: u32) -> u32
    ensures { result ≡ spec.wide_in (spec.memories memories.now) name.now port }
{
    let Some(place) = memories.places.place(name) else {
        return 0;
    };
    match memories.widths.get(place as usize) {
        None => 0,
        Some(word) => wide_over(*word, port),
    }
}

fn port_needs(alloc: Global, clocked: bool, wide: u32, part: &MemPart) -> Result<List<Bit>, Memory>
    ensures { IfOk result (λ bits. bits ≡ spec.port_needs clocked wide part.now) }
{
    if clocked {
        return pin_bits(alloc, part.pins.as_slice(), b"\\ARST");
    }
    let bits = pin_bits(alloc, part.pins.as_slice(), b"\\ADDR")?;
    address(alloc, wide, bits.as_slice())
}

/// The nets among the bits of a pin.
fn nets_at(alloc: Global, part: &MemPart, name: &[u8]) -> Result<List<u32>, Memory>
    ensures { IfOk result (λ nets. nets ≡ spec.nets_at part.now name.now) }
{
    let bits = pin_bits(alloc, part.pins.as_slice(), name)?;
    let mut nets = Vec::new(alloc);
    push_nets(&mut nets, bits.as_slice())?;
    Ok(List::from_vec(nets))
}

fn port_node(alloc: Global, clocked: bool, wide: u32, part: &MemPart) -> Result<NetNode, Memory>
    ensures { IfOk result (λ node. node_of node ≡ spec.port_node clocked wide part.now) }
{
    Ok(NetNode {
        drives: nets_at(alloc, part, b"\\DATA")?,
        needs: port_needs(alloc, clocked, wide, part)?,
    })
}

fn push_port(
    alloc: Global,
    nodes: &mut Vec<NetNode>,
    memories: &Memories,
    row: &PortRow,
    part: &MemPart,
) -> Result<(), Memory>
    ensures { OnOk result (map node_of nodes.new.items ≡ map node_of nodes.old.items ++ spec.port_nodes (spec.memories memories.now) row.now part.now) }
{
    let wide = wide_in(memories, &row.name, row.width);
    nodes.push(port_node(alloc, row.clocked, wide, part)?)?;
    Ok(())
}

fn push_whole(
    alloc: Global,
    nodes: &mut Vec<NetNode>,
    row: &WholeRow,
    part: &MemPart,
) -> Result<(), Memory>
    requires { IsWithin row.now }
    ensures { OnOk result (map node_of nodes.new.items ≡ map node_of nodes.old.items ++ spec.whole_nodes row.now part.now) }
{
    let reads = read_ports(alloc, row, part)?;
    push_reads(alloc, nodes, reads.as_slice())
}

/// Puts the nodes of a memory cell behind others.
pub(crate) fn push_part(
    alloc: Global,
    nodes: &mut Vec<NetNode>,
    memories: &Memories,
    row: &MemRow,
    part: &MemPart,
) -> Result<(), Memory>
    requires { spec.IsWithinLimits row.now }
    ensures { OnOk result (map node_of nodes.new.items ≡ map node_of nodes.old.items ++ spec.part_nodes (spec.memories memories.now) row.now part.now) }
{
    match row {
        MemRow::Whole(whole) => push_whole(alloc, nodes, whole, part),
        MemRow::Read(port) => push_port(alloc, nodes, memories, port, part),
        MemRow::OldRead(port) => push_port(alloc, nodes, memories, port, part),
        MemRow::Write(_) => Ok(()),
        MemRow::Init(_) => Ok(()),
    }
}
