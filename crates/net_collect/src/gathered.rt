//! The memory that is gathered of a declared one and its cells.
ghost use Rattle.std.specs.Prelude.{◌≡◌, IfOk};
ghost use Rattle.net_collect.specs.Gathered as spec;

use crate::contents::contents;
use crate::grouping::Bucket;
use crate::ports::{Frame, reads_of, writes_of};
use crate::sides::{ReadCell, Sides, WriteCell, by_id, sides_of};
use lib_core::{List, Memory, Tri};
use net_core::{Mem, Place, RdPort, WrPort};
use std::alloc::Global;

/// What a memory has from its cells.
struct Parts {
    abits: u32,
    init: List<Tri>,
    reads: List<RdPort>,
    writes: List<WrPort>,
}

/// The greatest number of address bits.
#[tactic(auto, unfolding(crate::specs::Gathered::read_abits))]
fn read_abits(cells: &[ReadCell]) -> u32
    ensures { result ≡ spec.read_abits cells.now }
{
    let mut most = 0u32;
    let mut rest = cells;
    while let [cell, tail @ ..] = rest {
        most = most.max(cell.row.abits);
        rest = tail;
    }
    most
}

#[tactic(auto, unfolding(crate::specs::Gathered::write_abits))]
fn write_abits(cells: &[WriteCell]) -> u32
    ensures { result ≡ spec.write_abits cells.now }
{
    let mut most = 0u32;
    let mut rest = cells;
    while let [cell, tail @ ..] = rest {
        most = most.max(cell.row.abits);
        rest = tail;
    }
    most
}

fn ids_of(alloc: Global, cells: &[WriteCell]) -> Result<Vec<u32>, Memory>
    ensures { IfOk result (λ ids. ids.items ≡ spec.ids_of cells.now) }
{
    let mut ids = Vec::with_capacity(alloc, cells.len())?;
    for cell in cells {
        ids.push(cell.id)?;
    }
    Ok(ids)
}

/// What a memory has from its cells.
fn parts_of(alloc: Global, mem: &Mem, sides: Sides) -> Result<Parts, Memory>
    ensures { IfOk result (λ parts. spec.ArePartsOf mem.now sides parts) }
{
    let Sides {
        reads,
        writes,
        inits,
    } = sides;
    let init = contents(alloc, mem, inits.as_slice())?;
    let abits = read_abits(reads.as_slice()).max(write_abits(writes.as_slice()));
    let writes = by_id(writes)?;
    let frame = Frame {
        width: mem.width,
        abits,
        ids: List::from_vec(ids_of(alloc, writes.as_slice())?),
    };
    let reads = reads_of(alloc, &frame, reads.as_slice())?;
    let writes = writes_of(alloc, &frame, writes.as_slice())?;
    Ok(Parts {
        abits,
        init,
        reads,
        writes,
    })
}

#[tactic(auto, unfolding(crate::specs::Gathered::with_sides))]
fn with_sides(alloc: Global, mem: Mem, sides: Sides) -> Result<Mem, Memory>
    ensures { IfOk result (λ next. next ≡ spec.with_sides mem sides) }
{
    let Parts {
        abits,
        init,
        reads,
        writes,
    } = parts_of(alloc, &mem, sides)?;
    let origin = mem.name.copy(alloc)?;
    let Mem {
        name,
        attrs,
        width,
        size,
        offset,
        ..
    } = mem;
    Ok(Mem {
        name,
        attrs,
        width,
        size,
        offset,
        abits,
        init,
        reads,
        writes,
        origin,
        place: Place {
            copy: 0,
            row: 0,
            column: 0,
        },
    })
}

/// The memory of a declared one and its cells.
pub fn gathered(alloc: Global, bucket: Bucket) -> Result<Mem, Memory>
    ensures { IfOk result (λ mem. mem ≡ spec.gathered bucket) }
{
    let Bucket { mem, pieces } = bucket;
    let sides = sides_of(alloc, pieces)?;
    with_sides(alloc, mem, sides)
}
