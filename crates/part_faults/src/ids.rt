//! Numbers of write ports, for each memory that a module declares.
ghost use Rattle.std.specs.Prelude.{◌≡◌, ℕ, [], length, IfOk, OnOk};
ghost use Rattle.part_faults.specs.Ids as spec;

use lib_core::{List, Memory};
use std::alloc::Global;

/// A write port.
#[derive(Clone, Copy, Debug, PartialEq, Eq)]
pub struct WriteId {
    /// The place of its memory among those that the module declares.
    pub memory: u32,
    /// Its number.
    pub id: u32,
}

/// A table without numbers, for so many memories.
pub(crate) fn no_ids(alloc: Global, count: usize) -> Result<Vec<List<u32>>, Memory>
    ensures len { IfOk result (λ rows. length rows.items ≡ count) }
    ensures none { IfOk result (λ rows. (k : ℕ) → spec.ids_at rows.items k ≡ []) }
{
    let mut rows = Vec::with_capacity(alloc, count)?;
    for _ in 0..count {
        rows.push(List::from_vec(Vec::new(alloc)))?;
    }
    Ok(rows)
}

/// Puts the number of a write port into the table.
pub(crate) fn add_id(rows: &mut Vec<List<u32>>, write: Option<WriteId>) -> Result<(), Memory>
    requires { spec.IsWithin (length rows.old.items) write }
    ensures len { OnOk result (length rows.new.items ≡ length rows.old.items) }
    ensures ids { OnOk result (spec.AddsId rows.old.items write rows.new.items) }
{
    if let Some(write) = write {
        rows[write.memory as usize].push(write.id)?;
    }
    Ok(())
}

/// The numbers for a memory.
pub(crate) fn ids_in(rows: &[List<u32>], memory: Option<u32>) -> &[u32]
    ensures { result.now ≡ spec.ids_in (spec.ids_at rows.now) memory }
{
    match memory {
        None => &[],
        Some(place) => match rows.get(place as usize) {
            Some(row) => row.as_slice(),
            None => &[],
        },
    }
}
