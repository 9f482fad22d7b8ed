//! The writes of a whole memory.
ghost use Rattle.std.specs.Prelude.{◌≡◌, ◌*◌, ◌+◌, map, IfOk};
ghost use Rattle.mem_rows.specs.Limits.{IsWithin};
ghost use Rattle.mem_collect.specs.Unpacked as unpacked;

use crate::pieces::{bit_or_zero, clock_of, flag_or_false, pin_bits};
use crate::reading::{address_of, data_of, flags_at, mask_bit};
use crate::spans::{PortSpan, spans};
use lib_core::{List, Memory};
use mem_rows::WholeRow;
use net_core::{Bit, MemPart, WrPort};
use std::alloc::Global;

/// What a cell says of its writes, by port numbers.
#[derive(Debug, Drop)]
pub struct Writing {
    pub clocks: List<Bit>,
    pub en: List<Bit>,
    pub addr: List<Bit>,
    pub words: List<Bit>,
    pub rising: List<bool>,
    pub prio: List<bool>,
}

#[tactic(auto, unfolding(crate::specs::Unpacked::writing_of))]
pub fn writing_of(alloc: Global, row: &WholeRow, part: &MemPart) -> Result<Writing, Memory>
    requires { IsWithin row.now }
    ensures { IfOk result (λ writing. writing ≡ unpacked.writing_of row.now part.now) }
{
    let pins = part.pins.as_slice();
    let params = part.params.as_slice();
    let pairs = row.writes * row.writes;
    Ok(Writing {
        clocks: pin_bits(alloc, pins, b"\\WR_CLK")?,
        en: pin_bits(alloc, pins, b"\\WR_EN")?,
        addr: pin_bits(alloc, pins, b"\\WR_ADDR")?,
        words: pin_bits(alloc, pins, b"\\WR_DATA")?,
        rising: flags_at(alloc, params, b"\\WR_CLK_POLARITY", row.writes)?,
        prio: flags_at(alloc, params, b"\\WR_PRIORITY_MASK", pairs)?,
    })
}

/// The ports of the writes.
#[tactic(auto, using(crate::proofs::Lengths::few_flags), unfolding(crate::specs::Unpacked::write_spans))]
pub fn write_spans(alloc: Global, row: &WholeRow, part: &MemPart) -> Result<Vec<PortSpan>, Memory>
    requires { IsWithin row.now }
    ensures { IfOk result (λ spans. spans.items ≡ unpacked.write_spans row.now part.now) }
{
    let flags = flags_at(
        alloc,
        part.params.as_slice(),
        b"\\WR_WIDE_CONTINUATION",
        row.writes,
    )?;
    spans(alloc, flags.as_slice())
}

/// Whether a port wins over another, which stands before it.
fn wins(row: &WholeRow, prio: &List<bool>, span: PortSpan, write: PortSpan) -> bool
    ensures { result ≡ unpacked.wins row.now prio.now span write }
{
    write.first < span.first && mask_bit(row, prio, span, write)
}

#[tactic(auto, unfolding(crate::specs::Unpacked::priorities))]
fn priorities(
    alloc: Global,
    row: &WholeRow,
    prio: &List<bool>,
    writes: &[PortSpan],
    span: PortSpan,
) -> Result<List<bool>, Memory>
    ensures { IfOk result (λ bits. bits ≡ unpacked.priorities row.now prio.now writes.now span) }
{
    let mut bits = Vec::with_capacity(alloc, writes.len())?;
    let mut rest = writes;
    while let [write, tail @ ..] = rest {
        bits.push(wins(row, prio, span, *write))?;
        rest = tail;
    }
    Ok(List::from_vec(bits))
}

#[tactic(auto, unfolding(crate::specs::Unpacked::write_of))]
fn write_of(
    alloc: Global,
    row: &WholeRow,
    writing: &Writing,
    writes: &[PortSpan],
    span: PortSpan,
) -> Result<WrPort, Memory>
    ensures { IfOk result (λ port. port ≡ unpacked.write_of row.now writing.now writes.now span) }
{
    let rising = flag_or_false(&writing.rising, u64::from(span.first));
    Ok(WrPort {
        wide: span.wide,
        clock: clock_of(bit_or_zero(&writing.clocks, span.first), rising),
        en: data_of(alloc, row, span, &writing.en)?,
        addr: address_of(alloc, row, span, &writing.addr)?,
        value: data_of(alloc, row, span, &writing.words)?,
        prio: priorities(alloc, row, &writing.prio, writes, span)?,
    })
}

/// The writes of these ports.
pub fn writes_of(
    alloc: Global,
    row: &WholeRow,
    writing: &Writing,
    spans: &[PortSpan],
) -> Result<List<WrPort>, Memory>
    ensures { IfOk result (λ writes. writes ≡ map (λ s. unpacked.write_of row.now writing.now spans.now s) spans.now) }
{
    let mut writes = Vec::with_capacity(alloc, spans.len())?;
    let mut rest = spans;
    while let [span, tail @ ..] = rest {
        writes.push(write_of(alloc, row, writing, spans, *span)?)?;
        rest = tail;
    }
    Ok(List::from_vec(writes))
}
