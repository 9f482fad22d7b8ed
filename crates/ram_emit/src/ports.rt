//! The ports of the cell of a plain choice.
ghost use Rattle.std.specs.Prelude.{◌≡◌, ◌+◌, ◌*◌, ◌<◌, ◌≤◌, ◌^◌, ◌++◌, IfOk, OnOk, length};
ghost use Rattle.std.specs.Option.{option_copied};
ghost use Rattle.ram_emit.specs.Cell as spec;

use crate::bits::{low_value, padded, push_nets, zeros};
use fit_pairs::{reads, reads_now, writes};
use geom_core::ReadPlace;
use geom_core::spreads::level_width;
use lib_core::{Group, List, Memory, Tri, Variant};
use net_core::{Bit, Clock, RdPort, SlotUse, WrPort};
use std::alloc::Global;

/// The pins of a port that are lists of bits and nets.
#[derive(Debug, Drop)]
struct Pins {
    addr: List<Bit>,
    out: List<u32>,
    value: List<Bit>,
    wren: List<Bit>,
}

/// The values of a port's resets and of its start.
#[derive(Debug, Drop)]
struct Values {
    srst: List<Tri>,
    arst: List<Tri>,
    start: List<Tri>,
}

/// The bits of a word. It takes no memory.
pub(crate) fn word_bits(variant: &Variant) -> u32
    ensures { result ≡ spec.word_bits variant.now }
{
    level_width(variant, 0)
}

/// The values of a port of which nothing is asked.
fn low_values(alloc: Global, group: &Group, width: usize) -> Result<Values, Memory>
    ensures srst { IfOk result (λ values. values.srst ≡ spec.low_value group.now.srst width) }
    ensures arst { IfOk result (λ values. values.arst ≡ spec.low_value group.now.arst width) }
    ensures start { IfOk result (λ values. values.start ≡ spec.low_value group.now.start width) }
{
    Ok(Values {
        srst: low_value(alloc, group.srst, width)?,
        arst: low_value(alloc, group.arst, width)?,
        start: low_value(alloc, group.start, width)?,
    })
}

/// A port of a group of the first width.
fn slot_use(
    alloc: Global,
    variant: &Variant,
    group: &Group,
    used: bool,
    clock: Clock,
    pins: Pins,
) -> Result<SlotUse, Memory>
    ensures { IfOk result (λ slot. slot ≡ spec.slot_use variant.now group.now used clock pins.addr pins.out pins.value pins.wren) }
{
    let Values { srst, arst, start } = low_values(alloc, group, word_bits(variant) as usize)?;
    let Pins {
        addr,
        out,
        value,
        wren,
    } = pins;
    Ok(SlotUse {
        used,
        reads_now: reads_now(group.kind),
        level: 0,
        clock,
        clken: Bit::Zero,
        addr,
        rden: Bit::Zero,
        srst: Bit::Zero,
        arst: Bit::Zero,
        out,
        value,
        wren,
        wrbe: List::from_vec(Vec::new(alloc)),
        srst_value: srst,
        arst_value: arst,
        init_value: start,
    })
}

/// The outputs of a port whose data nothing reads.
fn new_outputs(
    alloc: Global,
    variant: &Variant,
    group: &Group,
    next: u32,
) -> Result<List<u32>, Memory>
    requires { next + spec.word_bits variant.now < 2 ^ 32 }
    ensures { IfOk result (λ nets. nets ≡ spec.new_outputs variant.now group.now next) }
{
    let mut nets = Vec::new(alloc);
    if reads(group.kind) {
        push_nets(&mut nets, next, word_bits(variant))?;
    }
    Ok(List::from_vec(nets))
}

/// The outputs of the port of a read.
fn read_outputs(
    alloc: Global,
    variant: &Variant,
    next: u32,
    read: &RdPort,
) -> Result<List<u32>, Memory>
    requires { next + spec.word_bits variant.now < 2 ^ 32 }
    ensures { IfOk result (λ nets. nets ≡ spec.read_outputs variant.now next read.now) }
{
    let out = read.out.as_slice();
    let mut nets = Vec::from_slice(alloc, out)?;
    push_nets(&mut nets, next, left_bits(variant, out))?;
    Ok(List::from_vec(nets))
}

/// How many bits of a word the data of a read leave. It takes no memory.
fn left_bits(variant: &Variant, out: &[u32]) -> u32
    ensures { result ≡ spec.left_bits variant.now out.now }
{
    (word_bits(variant) as usize).saturating_sub(out.len()) as u32
}

fn no_value(alloc: Global, variant: &Variant, group: &Group) -> Result<List<Bit>, Memory>
    ensures { IfOk result (λ value. value ≡ spec.no_value variant.now group.now) }
{
    if writes(group.kind) {
        zeros(alloc, word_bits(variant) as usize)
    } else {
        Ok(List::from_vec(Vec::new(alloc)))
    }
}

fn no_enable(alloc: Global, group: &Group) -> Result<List<Bit>, Memory>
    ensures { IfOk result (λ wren. wren ≡ spec.no_enable group.now) }
{
    let mut wren = Vec::new(alloc);
    if writes(group.kind) {
        wren.push(Bit::Zero)?;
    }
    Ok(List::from_vec(wren))
}

/// A port that is not used.
pub(crate) fn idle_use(
    alloc: Global,
    variant: &Variant,
    group: &Group,
    next: u32,
) -> Result<SlotUse, Memory>
    requires { next + spec.word_bits variant.now < 2 ^ 32 }
    ensures { IfOk result (λ slot. slot ≡ spec.idle_use variant.now group.now next) }
{
    let addr = zeros(alloc, variant.abits as usize)?;
    let out = new_outputs(alloc, variant, group, next)?;
    let value = no_value(alloc, variant, group)?;
    let wren = no_enable(alloc, group)?;
    let pins = Pins {
        addr,
        out,
        value,
        wren,
    };
    slot_use(alloc, variant, group, false, Clock::Never, pins)
}

/// The first enable of a write, and 0 where there is none.
fn enable(alloc: Global, write: &WrPort) -> Result<List<Bit>, Memory>
    ensures { IfOk result (λ wren. wren ≡ spec.enable write.now) }
{
    let mut wren = Vec::new(alloc);
    wren.push(write.en.as_slice().first().copied().unwrap_or(Bit::Zero))?;
    Ok(List::from_vec(wren))
}

/// The port of a write.
fn write_use(
    alloc: Global,
    variant: &Variant,
    group: &Group,
    next: u32,
    write: &WrPort,
) -> Result<SlotUse, Memory>
    requires { next + spec.word_bits variant.now < 2 ^ 32 }
    ensures { IfOk result (λ slot. slot ≡ spec.write_use variant.now group.now next write.now) }
{
    let addr = padded(alloc, write.addr.as_slice(), variant.abits as usize)?;
    let out = new_outputs(alloc, variant, group, next)?;
    let value = padded(alloc, write.value.as_slice(), word_bits(variant) as usize)?;
    let wren = enable(alloc, write)?;
    let pins = Pins {
        addr,
        out,
        value,
        wren,
    };
    slot_use(alloc, variant, group, true, write.clock, pins)
}

/// The port of a read.
fn read_use(
    alloc: Global,
    variant: &Variant,
    group: &Group,
    next: u32,
    read: &RdPort,
) -> Result<SlotUse, Memory>
    requires { next + spec.word_bits variant.now < 2 ^ 32 }
    ensures { IfOk result (λ slot. slot ≡ spec.read_use variant.now group.now next read.now) }
{
    let addr = padded(alloc, read.addr.as_slice(), variant.abits as usize)?;
    let out = read_outputs(alloc, variant, next, read)?;
    let value = no_value(alloc, variant, group)?;
    let wren = no_enable(alloc, group)?;
    let pins = Pins {
        addr,
        out,
        value,
        wren,
    };
    slot_use(alloc, variant, group, true, Clock::Never, pins)
}

/// The first port of a group, by the write and the read that stand in it.
pub(crate) fn first_use(
    alloc: Global,
    variant: &Variant,
    group: &Group,
    next: u32,
    write: Option<&WrPort>,
    read: Option<&RdPort>,
) -> Result<SlotUse, Memory>
    requires { next + spec.word_bits variant.now < 2 ^ 32 }
    ensures { IfOk result (λ slot. slot ≡ spec.first_use variant.now group.now next (option_copied write.entry) (option_copied read.entry)) }
{
    match write {
        Some(write) => write_use(alloc, variant, group, next, write),
        None => match read {
            Some(read) => read_use(alloc, variant, group, next, read),
            None => idle_use(alloc, variant, group, next),
        },
    }
}

/// How many new nets a port has that is not used. It takes no memory.
pub(crate) fn idle_nets(variant: &Variant, group: &Group) -> u32
    ensures { result ≡ spec.idle_nets variant.now group.now }
{
    if reads(group.kind) {
        word_bits(variant)
    } else {
        0
    }
}

/// How many new nets the first port of a group has. It takes no memory.
pub(crate) fn first_nets(
    variant: &Variant,
    group: &Group,
    write: Option<&WrPort>,
    read: Option<&RdPort>,
) -> u32
    ensures { result ≡ spec.first_nets variant.now group.now (option_copied write.entry) (option_copied read.entry) }
{
    match write {
        Some(_) => idle_nets(variant, group),
        None => match read {
            Some(read) => left_bits(variant, read.out.as_slice()),
            None => idle_nets(variant, group),
        },
    }
}
