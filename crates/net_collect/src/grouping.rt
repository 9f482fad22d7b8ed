//! The memory cells of a module by the memories that they belong to.
ghost use Rattle.std.specs.Prelude.{◌≡◌, ◌++◌, Some, IfOk};
ghost use Rattle.cell_rows.specs.Kinds.{found};
ghost use Rattle.mem_collect.specs.Answers.{Says};
ghost use Rattle.mem_collect.specs.Unpacked.{mem_of};
ghost use Rattle.net_collect.specs.Grouping as spec;
ghost use Rattle.part_faults.specs.Parts.{row_of};

use cell_rows::Places;
use lib_core::{List, Memory};
use mem_collect::unpack;
use mem_rows::{MemRow, WholeRow, whole_limit};
use net_core::{Mem, MemPart};
use part_faults::{home_of, row_of};
use std::alloc::Global;

/// A memory cell, and what its parameters say.
#[derive(Debug, Drop)]
pub struct Piece {
    pub row: MemRow,
    pub part: MemPart,
}

/// A memory that is declared, and the cells that belong to it.
#[derive(Debug, Drop)]
pub struct Bucket {
    pub mem: Mem,
    pub pieces: List<Piece>,
}

/// The memories of a module with their cells.
#[derive(Debug, Drop)]
pub struct Groups {
    pub buckets: List<Bucket>,
    /// The memories of cells that hold whole ones.
    pub wholes: List<Mem>,
}

/// The memory at a place gets one more cell.
#[tactic(auto, using(crate::proofs::Merging::put_here, crate::proofs::Merging::put_past))]
fn with_piece(buckets: List<Bucket>, place: u32, piece: Piece) -> Result<List<Bucket>, Memory>
    ensures { IfOk result (λ next. next ≡ spec.put_at place piece buckets) }
{
    let place = place as usize;
    let mut buckets = buckets.into_vec();
    if place >= buckets.len() {
        return Ok(List::from_vec(buckets));
    }
    buckets[place].pieces.push(piece)?;
    Ok(List::from_vec(buckets))
}

fn with_row(
    places: &Places,
    buckets: List<Bucket>,
    row: MemRow,
    part: MemPart,
) -> Result<List<Bucket>, Memory>
    ensures { IfOk result (λ next. next ≡ spec.put_row (λ n. found places.now n) (Some row) part buckets) }
{
    match home_of(places, &row) {
        Some(place) => with_piece(buckets, place, Piece { row, part }),
        None => Ok(buckets),
    }
}

/// The memory of a cell that holds a whole one. One outside the limits counts as want of memory.
#[tactic(auto, using(crate::proofs::Says::whole_part))]
fn whole_mem(alloc: Global, row: &WholeRow, part: &MemPart) -> Result<Mem, Memory>
    requires { Says part.now row.now }
    ensures { IfOk result (λ mem. mem ≡ mem_of row.now part.now) }
{
    if whole_limit(row).is_some() {
        return Err(Memory);
    }
    match unpack(alloc, part) {
        Ok(mem) => Ok(mem),
        Err(_) => Err(Memory),
    }
}

#[tactic(auto, using(crate::proofs::Says::says_row))]
fn with_whole(
    alloc: Global,
    mut wholes: List<Mem>,
    row: &MemRow,
    part: &MemPart,
) -> Result<List<Mem>, Memory>
    requires { row_of part.now ≡ Some row.now }
    ensures { IfOk result (λ next. next ≡ wholes ++ spec.whole_in (Some row.now) part.now) }
{
    if let MemRow::Whole(whole) = row {
        wholes.push(whole_mem(alloc, whole, part)?)?;
    }
    Ok(wholes)
}

#[tactic(auto, unfolding(crate::specs::Grouping::with_part))]
fn with_part(
    alloc: Global,
    places: &Places,
    groups: Groups,
    part: MemPart,
) -> Result<Groups, Memory>
    ensures { IfOk result (λ next. next ≡ spec.with_part (λ n. found places.now n) groups part) }
{
    let Groups { buckets, wholes } = groups;
    match row_of(alloc, &part)? {
        None => Ok(Groups { buckets, wholes }),
        Some(row) => {
            let wholes = with_whole(alloc, wholes, &row, &part)?;
            let buckets = with_row(places, buckets, row, part)?;
            Ok(Groups { buckets, wholes })
        }
    }
}

#[tactic(auto, unfolding(crate::specs::Grouping::with_parts))]
fn with_parts(
    alloc: Global,
    places: &Places,
    groups: Groups,
    parts: List<MemPart>,
) -> Result<Groups, Memory>
    ensures { IfOk result (λ next. next ≡ spec.with_parts (λ n. found places.now n) groups parts) }
{
    let mut groups = groups;
    for part in parts.into_vec() {
        groups = with_part(alloc, places, groups, part)?;
    }
    Ok(groups)
}

/// Each memory without cells.
fn empty_buckets(alloc: Global, declared: List<Mem>) -> Result<List<Bucket>, Memory>
    ensures { IfOk result (λ buckets. buckets ≡ spec.empty_buckets declared) }
{
    let mut buckets = Vec::new(alloc);
    for mem in declared.into_vec() {
        buckets.push(Bucket {
            mem,
            pieces: List::from_vec(Vec::new(alloc)),
        })?;
    }
    Ok(List::from_vec(buckets))
}

/// These memories with those of these cells that belong to each, by the places of the memories.
#[tactic(auto, using(crate::proofs::Merging::groups_made))]
pub fn groups_by(
    alloc: Global,
    places: &Places,
    declared: List<Mem>,
    parts: List<MemPart>,
) -> Result<Groups, Memory>
    ensures { IfOk result (λ groups. groups ≡ spec.groups_by (λ n. found places.now n) declared parts) }
{
    let groups = Groups {
        buckets: empty_buckets(alloc, declared)?,
        wholes: List::from_vec(Vec::new(alloc)),
    };
    with_parts(alloc, places, groups, parts)
}
