//! The memory of a cell with all its ports.
ghost use Rattle.std.specs.Prelude.{◌≡◌, IfOk};
ghost use Rattle.mem_rows.specs.Limits.{IsWithin};
ghost use Rattle.mem_collect.specs.Answers.{IsMemoryFault, IsOverlapFault, IsWhole, Unpacks, UnpacksPart};
ghost use Rattle.mem_collect.specs.Unpacked as unpacked;

use crate::fault::{CollectCode, CollectFault};
use crate::reading::{overlap, read_spans, reading_of, reads_of, values_at};
use crate::writing::{write_spans, writes_of, writing_of};
use cell_rows::MemKind;
use lib_core::{Duplicate, List, Memory, Name, Tri};
use mem_rows::{MemRow, WholeRow, mem_row};
use net_core::{Mem, MemPart, Place, RdPort, WrPort};
use std::alloc::Global;

/// The contents at the start and the ports.
struct Held {
    init: List<Tri>,
    reads: List<RdPort>,
    writes: List<WrPort>,
}

/// The read ports of a cell of this row.
pub fn read_ports(alloc: Global, row: &WholeRow, part: &MemPart) -> Result<List<RdPort>, Memory>
    requires { IsWithin row.now }
    ensures { IfOk result (λ reads. reads ≡ unpacked.reads_of row.now part.now) }
{
    let reading = reading_of(alloc, row, part)?;
    let reads = read_spans(alloc, row, part)?;
    let writes = write_spans(alloc, row, part)?;
    reads_of(alloc, row, &reading, writes.as_slice(), reads.as_slice())
}

fn write_ports(alloc: Global, row: &WholeRow, part: &MemPart) -> Result<List<WrPort>, Memory>
    requires { IsWithin row.now }
    ensures { IfOk result (λ writes. writes ≡ unpacked.writes_of row.now part.now) }
{
    let writing = writing_of(alloc, row, part)?;
    let writes = write_spans(alloc, row, part)?;
    writes_of(alloc, row, &writing, writes.as_slice())
}

fn start(alloc: Global, row: &WholeRow, part: &MemPart) -> Result<List<Tri>, Memory>
    requires { IsWithin row.now }
    ensures { IfOk result (λ init. init ≡ unpacked.init_of row.now part.now) }
{
    let bits = row.size * row.width;
    values_at(alloc, part.params.as_slice(), b"\\INIT", bits)
}

fn contents(alloc: Global, row: &WholeRow, part: &MemPart) -> Result<Held, Memory>
    requires { IsWithin row.now }
    ensures { IfOk result (λ held. (held.init ≡ unpacked.init_of row.now part.now) × (held.reads ≡ unpacked.reads_of row.now part.now) × (held.writes ≡ unpacked.writes_of row.now part.now)) }
{
    Ok(Held {
        init: start(alloc, row, part)?,
        reads: read_ports(alloc, row, part)?,
        writes: write_ports(alloc, row, part)?,
    })
}

#[tactic(auto, unfolding(crate::specs::Unpacked::mem_of))]
fn mem_of(alloc: Global, row: &WholeRow, part: &MemPart) -> Result<Mem, Memory>
    requires { IsWithin row.now }
    ensures { IfOk result (λ mem. mem ≡ unpacked.mem_of row.now part.now) }
{
    let Held {
        init,
        reads,
        writes,
    } = contents(alloc, row, part)?;
    Ok(Mem {
        name: row.name.copy(alloc)?,
        attrs: part.attrs.duplicate(alloc)?,
        width: row.width,
        size: row.size,
        offset: row.offset,
        abits: row.abits,
        init,
        reads,
        writes,
        origin: row.name.copy(alloc)?,
        place: Place {
            copy: 0,
            row: 0,
            column: 0,
        },
    })
}

/// Whether a read of the cell is both transparent and open to collisions for one write.
fn has_overlap(alloc: Global, row: &WholeRow, part: &MemPart) -> Result<bool, Memory>
    requires { IsWithin row.now }
    ensures { IfOk result (λ found. found ≡ unpacked.overlap row.now part.now) }
{
    let reading = reading_of(alloc, row, part)?;
    let reads = read_spans(alloc, row, part)?;
    let writes = write_spans(alloc, row, part)?;
    Ok(overlap(row, &reading, writes.as_slice(), reads.as_slice()))
}

/// Want of memory.
fn no_memory(alloc: Global) -> CollectFault
    ensures { IsMemoryFault result }
{
    CollectFault {
        name: Name::from_vec(Vec::new(alloc)),
        code: CollectCode::Memory,
    }
}

fn overlapping(alloc: Global, part: &MemPart) -> CollectFault
    ensures { IsOverlapFault part.now result }
{
    match part.name.copy(alloc) {
        Ok(name) => CollectFault {
            name,
            code: CollectCode::MasksOverlap,
        },
        Err(_) => no_memory(alloc),
    }
}

/// The memory of a cell of this row.
fn unpack_row(alloc: Global, row: &WholeRow, part: &MemPart) -> Result<Mem, CollectFault>
    requires { IsWithin row.now }
    ensures { Unpacks row.now part.now result }
{
    match has_overlap(alloc, row, part) {
        Ok(false) => mem_of(alloc, row, part).map_err(|_| no_memory(alloc)),
        Ok(true) => Err(overlapping(alloc, part)),
        Err(_) => Err(no_memory(alloc)),
    }
}

/// The memory that a cell `$mem_v2` holds. MasksOverlap comes exactly where a read has both masks set
/// for one write; other codes but for Memory do not come.
pub fn unpack(alloc: Global, part: &MemPart) -> Result<Mem, CollectFault>
    requires { IsWhole part.now }
    ensures { UnpacksPart part.now result }
{
    match mem_row(alloc, MemKind::Packed, part.params.as_slice()) {
        Ok(Some(MemRow::Whole(row))) => unpack_row(alloc, &row, part),
        _ => Err(no_memory(alloc)),
    }
}
