//! The write ports that are cells of their own.
ghost use Rattle.std.specs.Prelude.{◌≡◌, ◌≤◌, length, Some, None, IfOk, OnOk};
ghost use Rattle.cell_rows.specs.Kinds.{found};
ghost use Rattle.part_faults.specs.Parts.{AreMemories};
ghost use Rattle.part_faults.specs.Writes as spec;

use crate::ids::{WriteId, add_id, no_ids};
use crate::parts::row_of;
use cell_consts::number_at;
use cell_rows::Places;
use lib_core::{List, Memory};
use mem_rows::MemRow;
use net_core::{Attr, MemPart, Module};
use std::alloc::Global;

/// The number of a write port.
pub(crate) fn port_id(params: &[Attr]) -> u32
    ensures { result ≡ spec.port_id params.now }
{
    number_at(params, b"\\PORTID").unwrap_or(0)
}

fn write_in(memory: Option<u32>, id: u32) -> Option<WriteId>
    ensures { result ≡ spec.write_in memory id }
{
    let memory = memory?;
    Some(WriteId { memory, id })
}

fn write_in_row(memories: &Places, params: &[Attr], row: &MemRow) -> Option<WriteId>
    ensures { result ≡ spec.write_in_row (found memories.now) params.now row.now }
{
    match row {
        MemRow::Whole(_) => None,
        MemRow::Read(_) => None,
        MemRow::OldRead(_) => None,
        MemRow::Write(port) => write_in(memories.place(&port.name), port_id(params)),
        MemRow::Init(_) => None,
    }
}

/// The write port that a cell is, which has this row if any.
pub(crate) fn write_of_row(
    memories: &Places,
    params: &[Attr],
    row: &Option<MemRow>,
) -> Option<WriteId>
    ensures { result ≡ spec.write_of_row (found memories.now) params.now row.now }
{
    match row {
        None => None,
        Some(row) => write_in_row(memories, params, row),
    }
}

fn write_of(alloc: Global, memories: &Places, part: &MemPart) -> Result<Option<WriteId>, Memory>
    ensures { IfOk result (λ write. write ≡ spec.write_of (found memories.now) part.now) }
{
    let row = row_of(alloc, part)?;
    Ok(write_of_row(memories, part.params.as_slice(), &row))
}

/// The numbers of the write ports of each memory that a module declares.
pub(crate) fn write_ids(
    alloc: Global,
    memories: &Places,
    module: &Module,
) -> Result<Vec<List<u32>>, Memory>
    requires { AreMemories «module».now memories.now }
    ensures { IfOk result (λ rows. spec.TellsIds «module».now «module».now.parts rows.items) }
{
    let mut rows = no_ids(alloc, module.declared.as_slice().len())?;
    let mut rest = module.parts.as_slice();
    while let [part, tail @ ..] = rest {
        add_id(&mut rows, write_of(alloc, memories, part)?)?;
        rest = tail;
    }
    Ok(rows)
}
