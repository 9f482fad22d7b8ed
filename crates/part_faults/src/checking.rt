//! The first rule that the memory cells of a module break.
ghost use Rattle.std.specs.Prelude.{◌≡◌, Some, slice_get, IfOk};
ghost use Rattle.cell_rows.specs.Kinds.{found};
ghost use Rattle.part_faults.specs.Faults as spec;
ghost use Rattle.part_faults.specs.Ids.{ids_at};
ghost use Rattle.part_faults.specs.Parts.{row_of};
ghost use Rattle.part_faults.specs.Tables.{Tells, module_of};
ghost use Rattle.part_faults.specs.Writes.{write_of};

use crate::ids::{WriteId, add_id, no_ids};
use crate::parts::row_of;
use crate::rules::{has_open_contents, is_id_twice, lacks_memory, masks_overlap, misfits};
use crate::tables::{Tables, tables_of};
use crate::writes::write_of_row;
use lib_core::{List, Memory, Name};
use mem_collect::{CollectCode, CollectFault};
use mem_rows::MemRow;
use net_core::{MemPart, Module};
use std::alloc::Global;

/// The code of the first rule that is broken.
fn first_code(
    lacks: bool,
    twice: bool,
    unfixed: bool,
    both: bool,
    misfits: bool,
) -> Option<CollectCode>
    ensures { result ≡ spec.first_code lacks twice unfixed both misfits }
{
    if lacks {
        return Some(CollectCode::NoMemory);
    }
    if twice {
        return Some(CollectCode::PortIdTwice);
    }
    if unfixed {
        return Some(CollectCode::NotConstant);
    }
    if both {
        return Some(CollectCode::MasksOverlap);
    }
    if misfits {
        return Some(CollectCode::BadWidth);
    }
    None
}

/// The first rule that a cell breaks, by the numbers of the write ports before it.
fn row_code(
    alloc: Global,
    tables: &Tables<'_>,
    seen: &[List<u32>],
    part: &MemPart,
    row: &MemRow,
) -> Result<Option<CollectCode>, Memory>
    requires tells { Tells tables.now }
    requires row { row_of part.now ≡ Some row.now }
    ensures { IfOk result (λ code. code ≡ spec.row_code (module_of tables.now) (ids_at seen.now) part.now row.now) }
{
    let lacks = lacks_memory(&tables.memories, row);
    let twice = is_id_twice(&tables.memories, seen, part.params.as_slice(), row);
    let unfixed = has_open_contents(alloc, tables, part.pins.as_slice(), row)?;
    let both = masks_overlap(alloc, tables, part, row)?;
    let wide = misfits(tables.whole.declared.as_slice(), &tables.memories, row);
    Ok(first_code(lacks, twice, unfixed, both, wide))
}

fn code_of(
    alloc: Global,
    tables: &Tables<'_>,
    seen: &[List<u32>],
    part: &MemPart,
    row: &Option<MemRow>,
) -> Result<Option<CollectCode>, Memory>
    requires tells { Tells tables.now }
    requires row { row.now ≡ row_of part.now }
    ensures { IfOk result (λ code. code ≡ spec.code_of_row (module_of tables.now) (ids_at seen.now) part.now row.now) }
{
    match row {
        None => Ok(None),
        Some(row) => row_code(alloc, tables, seen, part, row),
    }
}

fn fault_at(alloc: Global, part: &MemPart, code: CollectCode) -> Result<CollectFault, Memory>
    ensures { IfOk result (λ fault. fault ≡ record { name = part.now.name; code = code }) }
{
    Ok(CollectFault {
        name: part.name.copy(alloc)?,
        code,
    })
}

/// What is found of a cell.
#[derive(Clone, Copy)]
struct Looked {
    /// The first rule that it breaks.
    code: Option<CollectCode>,
    /// The write port that it is.
    write: Option<WriteId>,
}

fn look(
    alloc: Global,
    tables: &Tables<'_>,
    seen: &[List<u32>],
    part: &MemPart,
) -> Result<Looked, Memory>
    requires { Tells tables.now }
    ensures code { IfOk result (λ looked. looked.code ≡ spec.code_of_row (module_of tables.now) (ids_at seen.now) part.now (row_of part.now)) }
    ensures write { IfOk result (λ looked. looked.write ≡ write_of (found tables.now.memories) part.now) }
{
    let row = row_of(alloc, part)?;
    let code = code_of(alloc, tables, seen, part, &row)?;
    let write = write_of_row(&tables.memories, part.params.as_slice(), &row);
    Ok(Looked { code, write })
}

/// The first cell that breaks a rule, with the first rule that it breaks.
fn first_fault(alloc: Global, tables: &Tables<'_>) -> Result<Option<CollectFault>, Memory>
    requires { Tells tables.now }
    ensures { IfOk result (λ fault. fault ≡ slice_get (spec.part_faults (module_of tables.now)) 0) }
{
    let mut seen = no_ids(alloc, tables.whole.declared.as_slice().len())?;
    let mut rest = tables.whole.parts.as_slice();
    while let [part, tail @ ..] = rest {
        let looked = look(alloc, tables, seen.as_slice(), part)?;
        match looked.code {
            Some(code) => return Ok(Some(fault_at(alloc, part, code)?)),
            None => add_id(&mut seen, looked.write)?,
        }
        rest = tail;
    }
    Ok(None)
}

fn fault_of(alloc: Global, module: &Module) -> Result<Option<CollectFault>, Memory>
    ensures { IfOk result (λ fault. fault ≡ slice_get (spec.part_faults «module».now) 0) }
{
    let tables = tables_of(alloc, module)?;
    first_fault(alloc, &tables)
}

/// Want of memory.
fn no_memory(alloc: Global) -> CollectFault
    ensures { result.code ≡ CollectCode.Memory }
{
    CollectFault {
        name: Name::from_vec(Vec::new(alloc)),
        code: CollectCode::Memory,
    }
}

/// Finds the first rule that the memory cells of a module break, by cells in file order, and of one
/// cell the first of these: NoMemory where it names no declared memory; PortIdTwice where an earlier
/// write port of its memory has its number; NotConstant where initial contents are not; MasksOverlap
/// where a read is both transparent and open to collisions for a write port; BadWidth where a port is
/// no 1, 2, 4, .. or 64 words of its memory wide, or where initial contents have words of another
/// width. The fault names the cell. Cells whose parameters do not read as a memory cell break nothing.
#[tactic(auto, using(crate::proofs::Finding::no_first))]
pub fn check_parts(alloc: Global, module: &Module) -> Result<(), CollectFault>
    ensures { spec.Finds «module».now result }
{
    match fault_of(alloc, module) {
        Ok(None) => Ok(()),
        Ok(Some(fault)) => Err(fault),
        Err(_) => Err(no_memory(alloc)),
    }
}
