//! The rows of memory cells, and the memories to which they belong.
ghost use Rattle.std.specs.Prelude.{◌≡◌, IfOk};
ghost use Rattle.cell_rows.specs.Kinds.{found};
ghost use Rattle.part_faults.specs.Parts as spec;

use cell_rows::Places;
use cell_rows::kinds::mem_named;
use lib_core::{Memory, Name};
use mem_rows::{MemRow, mem_row};
use net_core::{Mem, MemPart, Module};
use std::alloc::Global;

/// The row of a memory cell by its type. None where the type is that of no memory cell, and where the
/// parameters are no row of it.
#[tactic(auto, unfolding(crate::specs::Parts::row_of))]
pub fn row_of(alloc: Global, part: &MemPart) -> Result<Option<MemRow>, Memory>
    ensures { IfOk result (λ row. row ≡ spec.row_of part.now) }
{
    match mem_named(&part.kind) {
        Some(kind) => mem_row(alloc, kind, part.params.as_slice()),
        None => Ok(None),
    }
}

fn names_of(alloc: Global, declared: &[Mem]) -> Result<Vec<Name>, Memory>
    ensures { IfOk result (λ names. names.items ≡ spec.names_of declared.now) }
{
    let mut names = Vec::with_capacity(alloc, declared.len())?;
    let mut rest = declared;
    while let [mem, tail @ ..] = rest {
        names.push(mem.name.copy(alloc)?)?;
        rest = tail;
    }
    Ok(names)
}

/// The places of the memories that a module declares, by name.
#[tactic(auto, unfolding(crate::specs::Parts::memory_named))]
pub fn memories_of(alloc: Global, module: &Module) -> Result<Places, Memory>
    ensures { IfOk result (λ places. spec.AreMemories «module».now places) }
{
    let names = names_of(alloc, module.declared.as_slice())?;
    Places::new(alloc, names.as_slice())
}

/// The place of the memory that a cell names, by the places of the memories. A cell that holds a whole
/// memory names none. It takes no memory.
pub fn home_of(memories: &Places, row: &MemRow) -> Option<u32>
    ensures { result ≡ spec.home_of (found memories.now) row.now }
{
    match row {
        MemRow::Whole(_) => None,
        MemRow::Read(port) => memories.place(&port.name),
        MemRow::OldRead(port) => memories.place(&port.name),
        MemRow::Write(port) => memories.place(&port.name),
        MemRow::Init(init) => memories.place(&init.name),
    }
}
