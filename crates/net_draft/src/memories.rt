//! Whole memories as cells.
ghost use Rattle.std.specs.Prelude.{◌≡◌, ◌↔◌, true, IfOk};
ghost use Rattle.net_core.specs.Valid.{MemFits};
ghost use Rattle.mem_pack.specs.Laws.{IsPackable};
ghost use Rattle.mem_pack.specs.Packed.{packed};
ghost use Rattle.net_draft.specs.Cells as spec;
ghost use Rattle.net_draft.specs.Naming as naming;

use crate::naming::Taken;
use lib_core::Memory;
use mem_pack::pack;
use net_core::{Carried, Mem, MemPart, Place};
use std::alloc::Global;

/// Whether a memory was not cut from another.
fn is_whole(mem: &Mem) -> bool
    ensures { result ≡ true ↔ ((mem.now.origin ≡ mem.now.name) × (mem.now.place ≡ record { copy = 0; row = 0; column = 0 })) }
{
    let first = Place {
        copy: 0,
        row: 0,
        column: 0,
    };
    mem.origin == mem.name && mem.place == first
}

/// The cell of a memory that was not cut from another. One that was cut counts as want of memory.
fn part_of(alloc: Global, mem: &Mem) -> Result<MemPart, Memory>
    requires { MemFits mem.now }
    ensures { IfOk result (λ part. part ≡ packed mem.now) }
{
    if !is_whole(mem) {
        return Err(Memory);
    }
    pack(alloc, mem)
}

/// The one cell that holds a memory, under a name that is not taken.
#[tactic(auto, unfolding(crate::specs::Cells::mem_cell))]
pub fn mem_cell(alloc: Global, taken: &mut Taken, mem: &Mem) -> Result<Carried, Memory>
    requires { MemFits mem.now }
    ensures cell { IfOk result (spec.IsMemCell taken.old mem.now) }
    ensures taken { IfOk result (λ cell. taken.new ≡ naming.with_name taken.old cell.name) }
{
    let name = taken.fresh(alloc, mem.name.as_slice())?;
    let MemPart {
        name: _,
        kind,
        attrs,
        params,
        pins,
    } = part_of(alloc, mem)?;
    Ok(Carried {
        name,
        kind,
        attrs,
        params,
        pins,
    })
}
