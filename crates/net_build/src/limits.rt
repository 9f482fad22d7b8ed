//! What has to be known of cells and nodes before they are put together; it is tested here.
ghost use Rattle.std.specs.Prelude.{◌≡◌, ◌<◌, ◌^◌, ◌&&◌, Bool, true, length, nat_lt};
ghost use Rattle.net_loops.specs.Loops.{NetsBelow, nodes_in};
ghost use Rattle.net_module.specs.Nodes.{AreShapesWithin};
ghost use Rattle.net_build.specs.Below as spec;

use mem_rows::{MemRow, whole_limit};
use net_core::Bit;
use net_loops::NetNode;
use raw_cells::{CellShape, RawCell};

fn is_below(nets: u32, bit: Bit) -> bool
    ensures { result ≡ spec.is_below nets bit }
{
    match bit {
        Bit::Zero | Bit::One => true,
        Bit::Net(net) => net < nets,
    }
}

fn all_below(nets: u32, bits: &[Bit]) -> bool
    ensures { result ≡ spec.all_below nets bits.now }
{
    bits.iter().all(|bit| is_below(nets, *bit))
}

fn nets_below(nets: u32, list: &[u32]) -> bool
    ensures { result ≡ spec.nets_below nets list.now }
{
    list.iter().all(|net| *net < nets)
}

fn is_node_below(nets: u32, node: &NetNode) -> bool
    ensures { result ≡ spec.is_node_below nets node.now }
{
    nets_below(nets, node.drives.as_slice()) && all_below(nets, node.needs.as_slice())
}

fn nodes_below(nets: u32, nodes: &[NetNode]) -> bool
    ensures { result ≡ spec.nodes_below nets nodes.now }
{
    nodes.iter().all(|node| is_node_below(nets, node))
}

/// Whether all nets of the nodes have a number below this one.
#[tactic(auto, using(crate::proofs::Belows::below))]
pub(crate) fn are_below(nets: u32, nodes: &[NetNode]) -> bool
    ensures value { result ≡ spec.nodes_below nets nodes.now }
    ensures below { result ≡ true → NetsBelow nets (nodes_in nodes.now) }
{
    nodes_below(nets, nodes)
}

fn is_row_within(row: &MemRow) -> bool
    ensures { result ≡ spec.is_row_within row.now }
{
    match row {
        MemRow::Whole(whole) => whole_limit(whole).is_none(),
        MemRow::Read(_) | MemRow::OldRead(_) | MemRow::Write(_) | MemRow::Init(_) => true,
    }
}

fn is_shape_within(shape: &CellShape) -> bool
    ensures { result ≡ spec.is_shape_within shape.now }
{
    match shape {
        CellShape::Memory { kept: _, row } => is_row_within(row),
        CellShape::Comb(_) | CellShape::Reg(_) | CellShape::Carried(_) | CellShape::Ram(_) => true,
    }
}

fn shapes_within(cells: &[RawCell]) -> bool
    ensures { result ≡ spec.shapes_within cells.now }
{
    cells.iter().all(|cell| is_shape_within(&cell.shape))
}

/// Whether the memory cells are within the limits, and numbers of 32 bits can name the cells.
#[tactic(auto, using(crate::proofs::Belows::within))]
pub(crate) fn are_within(cells: &[RawCell]) -> bool
    ensures value { result ≡ (nat_lt (length cells.now) 4294967296 && spec.shapes_within cells.now) }
    ensures few { result ≡ true → length cells.now < 2 ^ 32 }
    ensures within { result ≡ true → AreShapesWithin cells.now }
{
    cells.len() < 4_294_967_296 && shapes_within(cells)
}
