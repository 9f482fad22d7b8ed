//! The reads of a whole memory.
ghost use Rattle.std.specs.Prelude.{◌≡◌, ◌≤◌, ◌+◌, ◌*◌, ◌∷◌, ◌++◌, [], map, IfOk, OnOk};
ghost use Rattle.std.specs.List.{list_any};
ghost use Rattle.mem_rows.specs.Limits.{IsWithin};
ghost use Rattle.net_core.specs.Ports.{nets_of};
ghost use Rattle.mem_collect.specs.Unpacked as unpacked;

use crate::pieces::{
    address, bit_or_zero, clock_of, cut_bits, cut_values, flag_or_false, pin_bits,
};
use crate::spans::{PortSpan, spans};
use cell_consts::{fitted, flags};
use lib_core::{List, Memory, Tri};
use mem_rows::{WholeRow, bits};
use net_core::ports::push_nets;
use net_core::{Attr, Bit, MemPart, RdPort};
use std::alloc::Global;

/// The bits at the pins of the reads, by port numbers.
#[derive(Debug, Drop)]
pub struct ReadPins {
    pub clocks: List<Bit>,
    pub en: List<Bit>,
    pub arst: List<Bit>,
    pub srst: List<Bit>,
    pub addr: List<Bit>,
    pub words: List<Bit>,
}

/// The flags of the reads, by port numbers.
#[derive(Debug, Drop)]
pub struct ReadFlags {
    pub clocked: List<bool>,
    pub rising: List<bool>,
    pub over: List<bool>,
    /// For each read and each write.
    pub trans: List<bool>,
    /// For each read and each write.
    pub coll: List<bool>,
}

/// The values of the reads, by port numbers.
#[derive(Debug, Drop)]
pub struct ReadValues {
    pub arst: List<Tri>,
    pub srst: List<Tri>,
    pub init: List<Tri>,
}

/// What a cell says of its reads.
#[derive(Debug, Drop)]
pub struct Reading {
    pub pins: ReadPins,
    pub flags: ReadFlags,
    pub values: ReadValues,
}

/// So many flags of a parameter.
pub fn flags_at(
    alloc: Global,
    params: &[Attr],
    name: &[u8],
    count: u32,
) -> Result<List<bool>, Memory>
    ensures { IfOk result (λ list. list ≡ unpacked.flags_at params.now name.now count) }
{
    let written = bits(alloc, params, name)?;
    flags(alloc, count, written.as_slice())
}

/// So many bits of a parameter.
pub fn values_at(
    alloc: Global,
    params: &[Attr],
    name: &[u8],
    count: u32,
) -> Result<List<Tri>, Memory>
    ensures { IfOk result (λ list. list ≡ unpacked.values_at params.now name.now count) }
{
    let written = bits(alloc, params, name)?;
    fitted(alloc, count, written.as_slice())
}

#[tactic(auto, unfolding(crate::specs::Unpacked::read_pins))]
fn read_pins(alloc: Global, part: &MemPart) -> Result<ReadPins, Memory>
    ensures { IfOk result (λ pins. pins ≡ unpacked.read_pins part.now) }
{
    let pins = part.pins.as_slice();
    Ok(ReadPins {
        clocks: pin_bits(alloc, pins, b"\\RD_CLK")?,
        en: pin_bits(alloc, pins, b"\\RD_EN")?,
        arst: pin_bits(alloc, pins, b"\\RD_ARST")?,
        srst: pin_bits(alloc, pins, b"\\RD_SRST")?,
        addr: pin_bits(alloc, pins, b"\\RD_ADDR")?,
        words: pin_bits(alloc, pins, b"\\RD_DATA")?,
    })
}

#[tactic(auto, unfolding(crate::specs::Unpacked::read_flags))]
fn read_flags(alloc: Global, row: &WholeRow, params: &[Attr]) -> Result<ReadFlags, Memory>
    requires { IsWithin row.now }
    ensures { IfOk result (λ flags. flags ≡ unpacked.read_flags row.now params.now) }
{
    let pairs = row.reads * row.writes;
    Ok(ReadFlags {
        clocked: flags_at(alloc, params, b"\\RD_CLK_ENABLE", row.reads)?,
        rising: flags_at(alloc, params, b"\\RD_CLK_POLARITY", row.reads)?,
        over: flags_at(alloc, params, b"\\RD_CE_OVER_SRST", row.reads)?,
        trans: flags_at(alloc, params, b"\\RD_TRANSPARENCY_MASK", pairs)?,
        coll: flags_at(alloc, params, b"\\RD_COLLISION_X_MASK", pairs)?,
    })
}

#[tactic(auto, unfolding(crate::specs::Unpacked::read_values))]
fn read_values(alloc: Global, row: &WholeRow, params: &[Attr]) -> Result<ReadValues, Memory>
    requires { IsWithin row.now }
    ensures { IfOk result (λ values. values ≡ unpacked.read_values row.now params.now) }
{
    let width = row.reads * row.width;
    Ok(ReadValues {
        arst: values_at(alloc, params, b"\\RD_ARST_VALUE", width)?,
        srst: values_at(alloc, params, b"\\RD_SRST_VALUE", width)?,
        init: values_at(alloc, params, b"\\RD_INIT_VALUE", width)?,
    })
}

/// What a cell says of its reads.
pub fn reading_of(alloc: Global, row: &WholeRow, part: &MemPart) -> Result<Reading, Memory>
    requires { IsWithin row.now }
    ensures { IfOk result (λ reading. reading ≡ unpacked.reading_of row.now part.now) }
{
    let params = part.params.as_slice();
    Ok(Reading {
        pins: read_pins(alloc, part)?,
        flags: read_flags(alloc, row, params)?,
        values: read_values(alloc, row, params)?,
    })
}

/// The ports of the reads.
#[tactic(auto, using(crate::proofs::Lengths::few_flags), unfolding(crate::specs::Unpacked::read_spans))]
pub fn read_spans(alloc: Global, row: &WholeRow, part: &MemPart) -> Result<Vec<PortSpan>, Memory>
    requires { IsWithin row.now }
    ensures { IfOk result (λ spans. spans.items ≡ unpacked.read_spans row.now part.now) }
{
    let flags = flags_at(
        alloc,
        part.params.as_slice(),
        b"\\RD_WIDE_CONTINUATION",
        row.reads,
    )?;
    spans(alloc, flags.as_slice())
}

/// Where the data of a port begin, and how many bits they are.
fn data_place(row: &WholeRow, span: PortSpan) -> (usize, usize)
    ensures { (result.0 ≡ span.first * row.now.width) × (result.1 ≡ span.words * row.now.width) }
{
    let width = u64::from(row.width);
    (
        (u64::from(span.first) * width) as usize,
        (u64::from(span.words) * width) as usize,
    )
}

/// The data bits of a port.
pub fn data_of(
    alloc: Global,
    row: &WholeRow,
    span: PortSpan,
    bits: &List<Bit>,
) -> Result<List<Bit>, Memory>
    ensures { IfOk result (λ words. words ≡ unpacked.words_of row.now span bits.now) }
{
    let (from, count) = data_place(row, span);
    cut_bits(alloc, bits, from, count)
}

/// The value of a port.
fn value_of(
    alloc: Global,
    row: &WholeRow,
    span: PortSpan,
    values: &List<Tri>,
) -> Result<List<Tri>, Memory>
    ensures { IfOk result (λ value. value ≡ unpacked.words_of row.now span values.now) }
{
    let (from, count) = data_place(row, span);
    cut_values(alloc, values, from, count)
}

/// The address of a port.
pub fn address_of(
    alloc: Global,
    row: &WholeRow,
    span: PortSpan,
    bits: &List<Bit>,
) -> Result<List<Bit>, Memory>
    ensures { IfOk result (λ addr. addr ≡ unpacked.address_of row.now span bits.now) }
{
    let from = u64::from(span.first) * u64::from(row.abits);
    let whole = cut_bits(alloc, bits, from as usize, row.abits as usize)?;
    address(alloc, span.wide, whole.as_slice())
}

/// The nets of the data of a port.
fn out_of(
    alloc: Global,
    row: &WholeRow,
    span: PortSpan,
    bits: &List<Bit>,
) -> Result<List<u32>, Memory>
    ensures { IfOk result (λ nets. nets ≡ nets_of (unpacked.words_of row.now span bits.now)) }
{
    let data = data_of(alloc, row, span, bits)?;
    let mut nets = Vec::new(alloc);
    push_nets(&mut nets, data.as_slice())?;
    Ok(List::from_vec(nets))
}

/// Where the bit of a mask for a port and another one stands.
fn mask_place(row: &WholeRow, span: PortSpan, write: PortSpan) -> u64
    ensures { result ≡ span.first * row.now.writes + write.first }
{
    u64::from(span.first) * u64::from(row.writes) + u64::from(write.first)
}

/// The bit of a mask for a read and a write.
pub fn mask_bit(row: &WholeRow, mask: &List<bool>, span: PortSpan, write: PortSpan) -> bool
    ensures { result ≡ unpacked.mask_bit row.now mask.now span write }
{
    flag_or_false(mask, mask_place(row, span, write))
}

/// The bits of a mask for a read and each write.
fn masks(
    alloc: Global,
    row: &WholeRow,
    writes: &[PortSpan],
    mask: &List<bool>,
    span: PortSpan,
) -> Result<List<bool>, Memory>
    ensures { IfOk result (λ bits. bits ≡ unpacked.masks row.now writes.now mask.now span) }
{
    let mut bits = Vec::with_capacity(alloc, writes.len())?;
    let mut rest = writes;
    while let [write, tail @ ..] = rest {
        bits.push(mask_bit(row, mask, span, *write))?;
        rest = tail;
    }
    Ok(List::from_vec(bits))
}

fn no_masks(alloc: Global, writes: &[PortSpan]) -> Result<List<bool>, Memory>
    ensures { IfOk result (λ bits. bits ≡ unpacked.no_masks writes.now) }
{
    Ok(List::from_vec(Vec::from_elem(alloc, false, writes.len())?))
}

#[tactic(auto, unfolding(crate::specs::Unpacked::clocked_read))]
fn clocked_read(
    alloc: Global,
    row: &WholeRow,
    reading: &Reading,
    writes: &[PortSpan],
    span: PortSpan,
) -> Result<RdPort, Memory>
    ensures { IfOk result (λ port. port ≡ unpacked.clocked_read row.now reading.now writes.now span) }
{
    let rising = flag_or_false(&reading.flags.rising, u64::from(span.first));
    Ok(RdPort {
        wide: span.wide,
        clock: Some(clock_of(bit_or_zero(&reading.pins.clocks, span.first), rising)),
        en: bit_or_zero(&reading.pins.en, span.first),
        addr: address_of(alloc, row, span, &reading.pins.addr)?,
        out: out_of(alloc, row, span, &reading.pins.words)?,
        arst: bit_or_zero(&reading.pins.arst, span.first),
        srst: bit_or_zero(&reading.pins.srst, span.first),
        arst_value: value_of(alloc, row, span, &reading.values.arst)?,
        srst_value: value_of(alloc, row, span, &reading.values.srst)?,
        init_value: value_of(alloc, row, span, &reading.values.init)?,
        ce_over_srst: flag_or_false(&reading.flags.over, u64::from(span.first)),
        trans: masks(alloc, row, writes, &reading.flags.trans, span)?,
        coll: masks(alloc, row, writes, &reading.flags.coll, span)?,
    })
}

fn open_value(alloc: Global, row: &WholeRow, span: PortSpan) -> Result<List<Tri>, Memory>
    ensures { IfOk result (λ value. value ≡ unpacked.open_value row.now span) }
{
    let (_, count) = data_place(row, span);
    Ok(List::from_vec(Vec::from_elem(alloc, Tri::Any, count)?))
}

#[tactic(auto, unfolding(crate::specs::Unpacked::direct_read))]
fn direct_read(
    alloc: Global,
    row: &WholeRow,
    reading: &Reading,
    writes: &[PortSpan],
    span: PortSpan,
) -> Result<RdPort, Memory>
    ensures { IfOk result (λ port. port ≡ unpacked.direct_read row.now reading.now writes.now span) }
{
    Ok(RdPort {
        wide: span.wide,
        clock: None,
        en: Bit::One,
        addr: address_of(alloc, row, span, &reading.pins.addr)?,
        out: out_of(alloc, row, span, &reading.pins.words)?,
        arst: Bit::Zero,
        srst: Bit::Zero,
        arst_value: open_value(alloc, row, span)?,
        srst_value: open_value(alloc, row, span)?,
        init_value: open_value(alloc, row, span)?,
        ce_over_srst: false,
        trans: no_masks(alloc, writes)?,
        coll: no_masks(alloc, writes)?,
    })
}

fn read_of(
    alloc: Global,
    row: &WholeRow,
    reading: &Reading,
    writes: &[PortSpan],
    span: PortSpan,
) -> Result<RdPort, Memory>
    ensures { IfOk result (λ port. port ≡ unpacked.read_of row.now reading.now writes.now span) }
{
    if flag_or_false(&reading.flags.clocked, u64::from(span.first)) {
        clocked_read(alloc, row, reading, writes, span)
    } else {
        direct_read(alloc, row, reading, writes, span)
    }
}

/// The reads of these ports.
pub fn reads_of(
    alloc: Global,
    row: &WholeRow,
    reading: &Reading,
    writes: &[PortSpan],
    spans: &[PortSpan],
) -> Result<List<RdPort>, Memory>
    ensures { IfOk result (λ reads. reads ≡ map (λ s. unpacked.read_of row.now reading.now writes.now s) spans.now) }
{
    let mut reads = Vec::with_capacity(alloc, spans.len())?;
    let mut rest = spans;
    while let [span, tail @ ..] = rest {
        reads.push(read_of(alloc, row, reading, writes, *span)?)?;
        rest = tail;
    }
    Ok(List::from_vec(reads))
}

fn both(row: &WholeRow, reading: &Reading, span: PortSpan, write: PortSpan) -> bool
    ensures { result ≡ unpacked.both row.now reading.now span write }
{
    mask_bit(row, &reading.flags.trans, span, write)
        && mask_bit(row, &reading.flags.coll, span, write)
}

fn some_both(row: &WholeRow, reading: &Reading, writes: &[PortSpan], span: PortSpan) -> bool
    ensures { result ≡ unpacked.some_both row.now reading.now writes.now span }
{
    writes.iter().any(|write| both(row, reading, span, *write))
}

/// Whether a read is both transparent and open to collisions for one write.
pub fn overlap(row: &WholeRow, reading: &Reading, writes: &[PortSpan], spans: &[PortSpan]) -> bool
    ensures { result ≡ list_any (λ s. unpacked.some_both row.now reading.now writes.now s) spans.now }
{
    spans
        .iter()
        .any(|span| some_both(row, reading, writes, *span))
}
