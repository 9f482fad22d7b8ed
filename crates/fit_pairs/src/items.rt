//! What of a clocked read stands in a RAM's register and what outside.
ghost use Rattle.std.specs.Prelude.{◌≡◌, ◌≤◌, ◌&&◌, not, cond};
ghost use Rattle.lib_core.specs.Rams.{has_fill};
ghost use Rattle.net_core.specs.Shape as shape;
ghost use Rattle.fit_pairs.specs.Items as items;
ghost use Rattle.fit_pairs.specs.Placed.{reader_of};

use crate::kinds::{reads_later, reads_now};
use crate::placed::PlacedRead;
use lib_core::{Fill, Group, List, PortKind, Tri, admits};
use net_core::{Bit, Clock, RdPort};

/// Whether the read has a clock and the group reads at once, so that the register stands outside. It
/// takes no memory.
pub fn register_outside(clock: Option<Clock>, group: &Group) -> bool
    ensures { result ≡ items.register_outside clock group.now }
{
    match clock {
        None => false,
        Some(_) => reads_now(group.kind),
    }
}

/// Whether the read has a clock and the group reads into a register. It takes no memory.
pub fn register_inside(clock: Option<Clock>, group: &Group) -> bool
    ensures { result ≡ items.register_inside clock group.now }
{
    match clock {
        None => false,
        Some(_) => reads_later(group.kind),
    }
}

/// Whether the group's ports have an enable of their read. It takes no memory.
pub fn enable_native(group: &Group) -> bool
    ensures { result ≡ items.enable_native group.now }
{
    group.rden || is_read_register(group.kind) && group.clken
}

fn is_read_register(kind: PortKind) -> bool
    ensures { result ≡ shape.is_read_register kind }
{
    match kind {
        PortKind::Sr => true,
        PortKind::Ar | PortKind::Sw | PortKind::Arsw | PortKind::Srsw => false,
    }
}

/// Whether the read's enable is emulated. It takes no memory.
pub fn enable_emulated(read: &PlacedRead<'_>) -> bool
    ensures { result ≡ items.enable_emulated (reader_of read.now) }
{
    register_inside(read.port.clock, read.kind)
        && !is_one(read.port.en)
        && !enable_native(read.kind)
}

/// Whether the read's synchronous reset is emulated. It takes no memory.
pub fn srst_emulated(read: &PlacedRead<'_>) -> bool
    ensures { result ≡ items.srst_emulated (reader_of read.now) }
{
    !is_zero(read.port.srst)
        && (enable_emulated(read) || !fill_admits(read.kind.srst, &read.port.srst_value))
}

/// Whether the read's asynchronous reset is emulated. It takes no memory.
pub fn arst_emulated(read: &PlacedRead<'_>) -> bool
    ensures { result ≡ items.arst_emulated (reader_of read.now) }
{
    !is_zero(read.port.arst) && (enable_emulated(read) || !arst_native(read.kind, read.port))
}

fn arst_native(group: &Group, port: &RdPort) -> bool
    ensures { result ≡ has_fill group.now.arst && items.fill_admits group.now.arst port.now.arst_value }
{
    has_fill(group.arst) && fill_admits(group.arst, &port.arst_value)
}

/// Whether the read's start value is emulated. It takes no memory.
pub fn start_emulated(read: &PlacedRead<'_>) -> bool
    ensures { result ≡ items.start_emulated (reader_of read.now) }
{
    has_start(read.port)
        && (enable_emulated(read) || !fill_admits(read.kind.start, &read.port.init_value))
}

/// How many registers of its data's width stand outside for a read: one where its register does, else
/// one for each item that is emulated. It takes no memory.
pub fn outside_parts(read: &PlacedRead<'_>) -> u32
    ensures value { result ≡ items.outside_parts (reader_of read.now) }
    ensures bound { result ≤ 4 }
{
    if register_outside(read.port.clock, read.kind) {
        return 1;
    }
    if register_inside(read.port.clock, read.kind) {
        return emulated_items(read);
    }
    0
}

fn emulated_items(read: &PlacedRead<'_>) -> u32
    ensures value { result ≡ items.emulated_items (reader_of read.now) }
    ensures bound { result ≤ 4 }
{
    one_where(enable_emulated(read))
        + one_where(srst_emulated(read))
        + one_where(arst_emulated(read))
        + one_where(start_emulated(read))
}

fn one_where(there: bool) -> u32
    ensures value { result ≡ items.one_where there }
    ensures bound { result ≤ 1 }
{
    if there { 1 } else { 0 }
}

fn has_start(port: &RdPort) -> bool
    ensures { result ≡ items.has_start port.now }
{
    port.init_value
        .as_slice()
        .iter()
        .any(|bit| is_defined(*bit))
}

/// Whether a fill can give the value. It takes no memory.
pub fn fill_admits(fill: Fill, value: &List<Tri>) -> bool
    ensures { result ≡ items.fill_admits fill value.now }
{
    admits(fill, value)
}

fn is_defined(bit: Tri) -> bool
    ensures { result ≡ shape.is_defined bit }
{
    match bit {
        Tri::Zero | Tri::One => true,
        Tri::Any => false,
    }
}

fn has_fill(fill: Fill) -> bool
    ensures { result ≡ has_fill fill }
{
    match fill {
        Fill::Nothing => false,
        Fill::Zero | Fill::Any | Fill::NoUndef => true,
    }
}

fn is_zero(bit: Bit) -> bool
    ensures { result ≡ shape.is_zero bit }
{
    match bit {
        Bit::Zero => true,
        Bit::One | Bit::Net(_) => false,
    }
}

fn is_one(bit: Bit) -> bool
    ensures { result ≡ shape.is_one bit }
{
    match bit {
        Bit::One => true,
        Bit::Zero | Bit::Net(_) => false,
    }
}
