//! The ports of a declared memory.
ghost use Rattle.std.specs.Prelude.{◌≡◌, codes, IfOk};
ghost use Rattle.mem_rows.specs.Rows as rows;
ghost use Rattle.net_core.specs.Ports.{nets_of};
ghost use Rattle.mem_collect.specs.Pieces as pieces;
ghost use Rattle.net_collect.specs.Ports as spec;

use crate::sides::{ReadCell, WriteCell};
use cell_consts::{fitted, flag_at};
use lib_core::{List, Memory, Tri};
use mem_collect::{address, pin_bits, wide_of};
use mem_rows::{PortRow, bits};
use net_core::ports::push_nets;
use net_core::{Attr, Bit, Clock, MemPart, RdPort, WrPort};
use std::alloc::Global;

/// What all ports of a memory have in common.
#[derive(Debug, Drop)]
pub struct Frame {
    /// The bits of a word.
    pub width: u32,
    /// The bits of an address.
    pub abits: u32,
    /// The numbers of the writes.
    pub ids: List<u32>,
}

/// A port of 2 to this power words of a width.
fn wide_over(word: u32, port: u32) -> u32
    ensures { result ≡ spec.wide_over word port }
{
    if word == 0 {
        return 0;
    }
    let words = port / word;
    if word * words == port {
        wide_of(words)
    } else {
        0
    }
}

/// An address with 0 above it.
fn padded(alloc: Global, abits: u32, bits: &[Bit]) -> Result<Vec<Bit>, Memory>
    ensures { IfOk result (λ addr. addr.items ≡ spec.padded abits bits.now) }
{
    let missing = (abits as usize).saturating_sub(bits.len());
    let mut addr = Vec::from_slice(alloc, bits)?;
    addr.resize(bits.len() + missing, Bit::Zero)?;
    Ok(addr)
}

fn port_address(
    alloc: Global,
    frame: &Frame,
    row: &PortRow,
    part: &MemPart,
) -> Result<List<Bit>, Memory>
    ensures { IfOk result (λ addr. addr ≡ spec.port_address frame.now row.now part.now) }
{
    let written = pin_bits(alloc, part.pins.as_slice(), b"\\ADDR")?;
    let whole = padded(alloc, frame.abits, written.as_slice())?;
    address(alloc, wide_over(frame.width, row.width), whole.as_slice())
}

/// The first of these bits, 0 where there is none.
fn first_bit(bits: &[Bit]) -> Bit
    ensures { result ≡ pieces.bit_or_zero bits.now 0 }
{
    match bits {
        [] => Bit::Zero,
        [bit, ..] => *bit,
    }
}

/// The bit of a pin of one bit.
fn pin_bit(alloc: Global, part: &MemPart, name: &[u8]) -> Result<Bit, Memory>
    ensures { IfOk result (λ bit. bit ≡ spec.pin_bit part.now name.now) }
{
    let bits = pin_bits(alloc, part.pins.as_slice(), name)?;
    Ok(first_bit(bits.as_slice()))
}

fn clock_of(bit: Bit, rising: bool) -> Clock
    ensures { result ≡ pieces.clock_of bit rising }
{
    match bit {
        Bit::Zero => Clock::Never,
        Bit::One => Clock::Never,
        Bit::Net(net) => Clock::Root { net, rising },
    }
}

fn port_clock(alloc: Global, row: &PortRow, part: &MemPart) -> Result<Clock, Memory>
    ensures { IfOk result (λ clock. clock ≡ pieces.clock_of (spec.pin_bit part.now (codes "\\CLK")) row.now.rising) }
{
    Ok(clock_of(pin_bit(alloc, part, b"\\CLK")?, row.rising))
}

/// The nets of the data of a read.
fn out_of(alloc: Global, part: &MemPart) -> Result<List<u32>, Memory>
    ensures { IfOk result (λ nets. nets ≡ nets_of (pieces.pin_bits part.now.pins (codes "\\DATA"))) }
{
    let bits = pin_bits(alloc, part.pins.as_slice(), b"\\DATA")?;
    let mut nets = Vec::new(alloc);
    push_nets(&mut nets, bits.as_slice())?;
    Ok(List::from_vec(nets))
}

fn mask_bit(mask: &[Tri], id: u32) -> bool
    ensures { result ≡ spec.mask_bit mask.now id }
{
    match mask.get(id as usize) {
        Some(bit) => *bit == Tri::One,
        None => false,
    }
}

/// The bits of a mask for the writes of these numbers.
fn mask_at(alloc: Global, mask: &[Tri], ids: &[u32]) -> Result<Vec<bool>, Memory>
    ensures { IfOk result (λ bits. bits.items ≡ spec.mask_at mask.now ids.now) }
{
    Ok(ids.iter().map(|id| mask_bit(mask, *id)).collect(alloc)?)
}

fn port_mask(
    alloc: Global,
    part: &MemPart,
    name: &[u8],
    ids: &List<u32>,
) -> Result<List<bool>, Memory>
    ensures { IfOk result (λ bits. bits ≡ spec.port_mask part.now name.now ids.now) }
{
    let mask = bits(alloc, part.params.as_slice(), name)?;
    Ok(List::from_vec(mask_at(alloc, mask.as_slice(), ids.as_slice())?))
}

fn port_value(
    alloc: Global,
    row: &PortRow,
    part: &MemPart,
    name: &[u8],
) -> Result<List<Tri>, Memory>
    ensures { IfOk result (λ value. value ≡ spec.port_value row.now part.now name.now) }
{
    let written = bits(alloc, part.params.as_slice(), name)?;
    fitted(alloc, row.width, written.as_slice())
}

/// Whether a parameter is a flag that is set.
fn is_set(params: &[Attr], name: &[u8]) -> bool
    ensures { result ≡ rows.is_set params.now name.now }
{
    flag_at(params, name).unwrap_or(false)
}

#[tactic(auto, unfolding(crate::specs::Ports::clocked_read))]
fn clocked_read(
    alloc: Global,
    frame: &Frame,
    row: &PortRow,
    part: &MemPart,
) -> Result<RdPort, Memory>
    ensures { IfOk result (λ port. port ≡ spec.clocked_read frame.now row.now part.now) }
{
    Ok(RdPort {
        wide: wide_over(frame.width, row.width),
        clock: Some(port_clock(alloc, row, part)?),
        en: pin_bit(alloc, part, b"\\EN")?,
        addr: port_address(alloc, frame, row, part)?,
        out: out_of(alloc, part)?,
        arst: pin_bit(alloc, part, b"\\ARST")?,
        srst: pin_bit(alloc, part, b"\\SRST")?,
        arst_value: port_value(alloc, row, part, b"\\ARST_VALUE")?,
        srst_value: port_value(alloc, row, part, b"\\SRST_VALUE")?,
        init_value: port_value(alloc, row, part, b"\\INIT_VALUE")?,
        ce_over_srst: is_set(part.params.as_slice(), b"\\CE_OVER_SRST"),
        trans: port_mask(alloc, part, b"\\TRANSPARENCY_MASK", &frame.ids)?,
        coll: port_mask(alloc, part, b"\\COLLISION_X_MASK", &frame.ids)?,
    })
}

fn open_value(alloc: Global, row: &PortRow) -> Result<List<Tri>, Memory>
    ensures { IfOk result (λ value. value ≡ spec.open_value row.now) }
{
    Ok(List::from_vec(Vec::from_elem(alloc, Tri::Any, row.width as usize)?))
}

fn no_mask(alloc: Global, ids: &List<u32>) -> Result<List<bool>, Memory>
    ensures { IfOk result (λ bits. bits ≡ spec.no_mask ids.now) }
{
    Ok(List::from_vec(Vec::from_elem(alloc, false, ids.as_slice().len())?))
}

#[tactic(auto, unfolding(crate::specs::Ports::direct_read))]
fn direct_read(
    alloc: Global,
    frame: &Frame,
    row: &PortRow,
    part: &MemPart,
) -> Result<RdPort, Memory>
    ensures { IfOk result (λ port. port ≡ spec.direct_read frame.now row.now part.now) }
{
    Ok(RdPort {
        wide: wide_over(frame.width, row.width),
        clock: None,
        en: Bit::One,
        addr: port_address(alloc, frame, row, part)?,
        out: out_of(alloc, part)?,
        arst: Bit::Zero,
        srst: Bit::Zero,
        arst_value: open_value(alloc, row)?,
        srst_value: open_value(alloc, row)?,
        init_value: open_value(alloc, row)?,
        ce_over_srst: false,
        trans: no_mask(alloc, &frame.ids)?,
        coll: no_mask(alloc, &frame.ids)?,
    })
}

fn read_port(alloc: Global, frame: &Frame, cell: &ReadCell) -> Result<RdPort, Memory>
    ensures { IfOk result (λ port. port ≡ spec.read_port frame.now cell.now) }
{
    if cell.clocked {
        clocked_read(alloc, frame, &cell.row, &cell.part)
    } else {
        direct_read(alloc, frame, &cell.row, &cell.part)
    }
}

/// The read ports of these cells.
pub fn reads_of(alloc: Global, frame: &Frame, cells: &[ReadCell]) -> Result<List<RdPort>, Memory>
    ensures { IfOk result (λ reads. reads ≡ spec.reads_of frame.now cells.now) }
{
    let mut reads = Vec::with_capacity(alloc, cells.len())?;
    let mut rest = cells;
    while let [cell, tail @ ..] = rest {
        reads.push(read_port(alloc, frame, cell)?)?;
        rest = tail;
    }
    Ok(List::from_vec(reads))
}

/// Which writes the one at a place wins over.
fn priorities(alloc: Global, place: usize, mask: &[Tri], ids: &[u32]) -> Result<List<bool>, Memory>
    ensures { IfOk result (λ bits. bits ≡ spec.priorities place mask.now ids.now) }
{
    let before = ids.len().min(place);
    let mut bits = mask_at(alloc, mask, &ids[..before])?;
    bits.resize(ids.len(), false)?;
    Ok(List::from_vec(bits))
}

fn port_priorities(
    alloc: Global,
    frame: &Frame,
    place: usize,
    part: &MemPart,
) -> Result<List<bool>, Memory>
    ensures { IfOk result (λ bits. bits ≡ spec.priorities place (rows.bits part.now.params (codes "\\PRIORITY_MASK")) frame.now.ids) }
{
    let mask = bits(alloc, part.params.as_slice(), b"\\PRIORITY_MASK")?;
    priorities(alloc, place, mask.as_slice(), frame.ids.as_slice())
}

#[tactic(auto, unfolding(crate::specs::Ports::write_port))]
fn write_port(
    alloc: Global,
    frame: &Frame,
    place: usize,
    cell: &WriteCell,
) -> Result<WrPort, Memory>
    ensures { IfOk result (λ port. port ≡ spec.write_port frame.now place cell.now) }
{
    let pins = cell.part.pins.as_slice();
    Ok(WrPort {
        wide: wide_over(frame.width, cell.row.width),
        clock: port_clock(alloc, &cell.row, &cell.part)?,
        en: pin_bits(alloc, pins, b"\\EN")?,
        addr: port_address(alloc, frame, &cell.row, &cell.part)?,
        value: pin_bits(alloc, pins, b"\\DATA")?,
        prio: port_priorities(alloc, frame, place, &cell.part)?,
    })
}

/// The write ports of these cells.
pub fn writes_of(alloc: Global, frame: &Frame, cells: &[WriteCell]) -> Result<List<WrPort>, Memory>
    ensures { IfOk result (λ writes. writes ≡ spec.writes_from frame.now 0 cells.now) }
{
    let mut writes = Vec::with_capacity(alloc, cells.len())?;
    let mut place = 0usize;
    let mut rest = cells;
    while let [cell, tail @ ..] = rest {
        writes.push(write_port(alloc, frame, place, cell)?)?;
        place += 1;
        rest = tail;
    }
    Ok(List::from_vec(writes))
}
