//! Memory cells over the bits of places.
ghost use Rattle.std.specs.Prelude.{◌≡◌, ◌++◌, map, IfOk, OnOk};
ghost use Rattle.net_cells.specs.Parts as spec;

use crate::clocks::{clock_bit, flips};
use cell_consts::{attr_bits, bits_attr, flag_attr, flags};
use lib_core::{Duplicate, List, Memory, Name, Tri};
use mem_rows::MemRow;
use net_core::{Attr, Bit, MemPart, Pin};
use net_wires::{ClockRoot, Source, bits_of};
use raw_cells::bits::sources_at;
use raw_cells::{Kept, RawPin};
use std::alloc::Global;

fn tri_of(bit: bool) -> Tri
    ensures { result ≡ spec.tri_of_edge bit }
{
    if bit { Tri::One } else { Tri::Zero }
}

/// The edge of each port, the other one where its clock comes through an inverter.
#[tactic(auto, unfolding(crate::specs::Parts::turned))]
fn turned(alloc: Global, edges: &[bool], flips: &[bool]) -> Result<List<Tri>, Memory>
    ensures { IfOk result (λ list. list ≡ spec.turned edges.now flips.now) }
{
    let mut list = Vec::with_capacity(alloc, edges.len())?;
    let mut rest = edges;
    let mut left = flips;
    while let [edge, tail @ ..] = rest {
        if let [flip, more @ ..] = left {
            list.push(tri_of(*edge != *flip))?;
            left = more;
        } else {
            list.push(tri_of(*edge))?;
        }
        rest = tail;
    }
    Ok(List::from_vec(list))
}

fn turned_attr(
    alloc: Global,
    name: &[u8],
    count: u32,
    flips: &[bool],
    attr: &Attr,
) -> Result<Attr, Memory>
    ensures { IfOk result (λ kept. kept ≡ spec.turned_attr name.now count flips.now attr.now) }
{
    if attr.name.as_slice() != name {
        return attr.duplicate(alloc);
    }
    let bits = attr_bits(alloc, attr)?;
    let edges = flags(alloc, count, bits.as_slice())?;
    let turned = turned(alloc, edges.as_slice(), flips)?;
    bits_attr(alloc, name, &turned)
}

/// The parameters, of which the one of this name has the edges of so many ports.
fn turned_params(
    alloc: Global,
    name: &[u8],
    count: u32,
    flips: &[bool],
    params: &[Attr],
) -> Result<List<Attr>, Memory>
    ensures { IfOk result (λ list. list ≡ spec.turned_params name.now count flips.now params.now) }
{
    let mut list = Vec::with_capacity(alloc, params.len())?;
    let mut rest = params;
    while let [param, tail @ ..] = rest {
        list.push(turned_attr(alloc, name, count, flips, param)?)?;
        rest = tail;
    }
    Ok(List::from_vec(list))
}

fn edge_attr(alloc: Global, name: &[u8], rising: bool, attr: &Attr) -> Result<Attr, Memory>
    ensures { IfOk result (λ kept. kept ≡ spec.edge_attr name.now rising attr.now) }
{
    if attr.name.as_slice() == name {
        flag_attr(alloc, name, rising)
    } else {
        attr.duplicate(alloc)
    }
}

/// The parameters, of which the one of this name has the edge of a port.
fn edge_params(
    alloc: Global,
    name: &[u8],
    rising: bool,
    params: &[Attr],
) -> Result<List<Attr>, Memory>
    ensures { IfOk result (λ list. list ≡ spec.edge_params name.now rising params.now) }
{
    let mut list = Vec::with_capacity(alloc, params.len())?;
    let mut rest = params;
    while let [param, tail @ ..] = rest {
        list.push(edge_attr(alloc, name, rising, param)?)?;
        rest = tail;
    }
    Ok(List::from_vec(list))
}

fn first_flip(flips: &[bool]) -> bool
    ensures { result ≡ spec.first_flip flips.now }
{
    match flips {
        [] => false,
        [first, ..] => *first,
    }
}

fn flips_at(
    alloc: Global,
    roots: &[ClockRoot],
    pins: &[RawPin],
    name: &[u8],
) -> Result<Vec<bool>, Memory>
    ensures { IfOk result (λ list. list.items ≡ spec.flips_at roots.now pins.now name.now) }
{
    flips(alloc, roots, sources_at(pins, name))
}

fn port_params(
    alloc: Global,
    roots: &[ClockRoot],
    pins: &[RawPin],
    rising: bool,
    params: &[Attr],
) -> Result<List<Attr>, Memory>
    ensures { IfOk result (λ list. list ≡ spec.port_params roots.now pins.now rising params.now) }
{
    let found = flips_at(alloc, roots, pins, b"\\CLK")?;
    let flip = first_flip(found.as_slice());
    edge_params(alloc, b"\\CLK_POLARITY", rising != flip, params)
}

#[tactic(auto, unfolding(crate::specs::Parts::whole_params))]
fn whole_params(
    alloc: Global,
    roots: &[ClockRoot],
    pins: &[RawPin],
    reads: u32,
    writes: u32,
    params: &[Attr],
) -> Result<List<Attr>, Memory>
    ensures { IfOk result (λ list. list ≡ spec.whole_params roots.now pins.now reads writes params.now) }
{
    let of_reads = flips_at(alloc, roots, pins, b"\\RD_CLK")?;
    let of_writes = flips_at(alloc, roots, pins, b"\\WR_CLK")?;
    let some = turned_params(
        alloc,
        b"\\RD_CLK_POLARITY",
        reads,
        of_reads.as_slice(),
        params,
    )?;
    turned_params(
        alloc,
        b"\\WR_CLK_POLARITY",
        writes,
        of_writes.as_slice(),
        some.as_slice(),
    )
}

fn part_params(
    alloc: Global,
    roots: &[ClockRoot],
    pins: &[RawPin],
    row: &MemRow,
    params: &List<Attr>,
) -> Result<List<Attr>, Memory>
    ensures { IfOk result (λ list. list ≡ spec.part_params roots.now pins.now row.now params.now) }
{
    match row {
        MemRow::Whole(whole) => whole_params(
            alloc,
            roots,
            pins,
            whole.reads,
            whole.writes,
            params.as_slice(),
        ),
        MemRow::Read(port) => port_params(alloc, roots, pins, port.rising, params.as_slice()),
        MemRow::OldRead(_) => params.duplicate(alloc),
        MemRow::Write(port) => port_params(alloc, roots, pins, port.rising, params.as_slice()),
        MemRow::Init(_) => params.duplicate(alloc),
    }
}

fn clock_bits(
    alloc: Global,
    places: &[Bit],
    roots: &[ClockRoot],
    sources: &[Source],
) -> Result<List<Bit>, Memory>
    ensures { IfOk result (λ bits. bits ≡ spec.clock_bits places.now roots.now sources.now) }
{
    let mut bits = Vec::new(alloc);
    let mut rest = sources;
    while let [source, tail @ ..] = rest {
        bits.push(clock_bit(places, roots, *source))?;
        rest = tail;
    }
    Ok(List::from_vec(bits))
}

fn part_bits(
    alloc: Global,
    places: &[Bit],
    roots: &[ClockRoot],
    pin: &RawPin,
) -> Result<List<Bit>, Memory>
    ensures { IfOk result (λ bits. bits ≡ spec.part_bits places.now roots.now pin.now) }
{
    if pin.clock {
        clock_bits(alloc, places, roots, pin.bits.as_slice())
    } else {
        bits_of(alloc, places, pin.bits.as_slice())
    }
}

fn part_pin(alloc: Global, places: &[Bit], roots: &[ClockRoot], pin: &RawPin) -> Result<Pin, Memory>
    ensures { IfOk result (λ kept. kept ≡ spec.part_pin places.now roots.now pin.now) }
{
    Ok(Pin {
        name: pin.name.copy(alloc)?,
        drives: pin.drives,
        bits: part_bits(alloc, places, roots, pin)?,
    })
}

fn part_pins(
    alloc: Global,
    places: &[Bit],
    roots: &[ClockRoot],
    pins: &[RawPin],
) -> Result<List<Pin>, Memory>
    ensures { IfOk result (λ list. list ≡ spec.part_pins places.now roots.now pins.now) }
{
    let mut list = Vec::with_capacity(alloc, pins.len())?;
    let mut rest = pins;
    while let [pin, tail @ ..] = rest {
        list.push(part_pin(alloc, places, roots, pin)?)?;
        rest = tail;
    }
    Ok(List::from_vec(list))
}

#[tactic(auto, unfolding(crate::specs::Parts::part_of))]
pub fn part_of(
    alloc: Global,
    places: &[Bit],
    roots: &[ClockRoot],
    name: &Name,
    kept: &Kept,
    row: &MemRow,
    pins: &[RawPin],
) -> Result<MemPart, Memory>
    ensures { IfOk result (λ part. part ≡ spec.part_of places.now roots.now name.now kept.now row.now pins.now) }
{
    Ok(MemPart {
        name: name.copy(alloc)?,
        kind: kept.kind.copy(alloc)?,
        attrs: kept.attrs.duplicate(alloc)?,
        params: part_params(alloc, roots, pins, row, &kept.params)?,
        pins: part_pins(alloc, places, roots, pins)?,
    })
}
