//! The points of ports at their places.
ghost use Rattle.std.specs.Prelude.{◌≡◌, ◌≤◌, ◌<◌, ◌+◌, ◌*◌, ◌^◌, length};
ghost use Rattle.net_core.specs.Valid.{Each};
ghost use Rattle.fit_pairs.specs.Placed.{reader_of, writer_of};
ghost use Rattle.fit_rules.specs.Limits.{MemLimits};
ghost use Rattle.fit_cost.specs.Points as points;

use crate::parts::{bypass_points, lower_points, part_points};
use fit_pairs::{PlacedRead, PlacedWrite, bypasses, emulated_count, outside_parts};
use fit_rules::standing::placed_read;
use geom_core::ReadPlace;
use lib_core::Variant;
use net_core::{Mem, MemJob, RdPort, WrPort};

/// What stands outside for a read at its place. It takes no memory.
#[tactic(auto, using(crate::proofs::Bounds::parts_few, crate::proofs::Bounds::bypasses_few))]
pub fn reader_points(
    job: &MemJob,
    variant: &Variant,
    groups: &[u32],
    first: bool,
    read: &PlacedRead<'_>,
) -> u64
    requires memory { MemLimits job.now.mem }
    requires groups { length groups.now ≤ 4 }
    requires wide { read.now.port.now.wide ≤ 6 }
    ensures value { result ≡ points.reader_points job.now variant.now groups.now first (reader_of read.now) }
    ensures bound { result ≤ 83886212 }
{
    let writes = job.mem.writes.as_slice();
    let bypasses = bypasses(first, job.quiet.as_slice(), variant, writes, groups, read);
    u64::from(outside_parts(read)) * part_points(&job.mem, read.port.wide)
        + u64::from(bypasses) * bypass_points(&job.mem, read.port.wide)
}

/// What stands outside for a read at a place, 0 where the place is none. It takes no memory.
pub fn place_points(
    job: &MemJob,
    variant: &Variant,
    groups: &[u32],
    first: bool,
    number: u32,
    read: &RdPort,
    place: ReadPlace,
) -> u64
    requires memory { MemLimits job.now.mem }
    requires groups { length groups.now ≤ 4 }
    requires wide { read.now.wide ≤ 6 }
    ensures value { result ≡ points.place_points job.now variant.now groups.now first number read.now place }
    ensures bound { result ≤ 83886212 }
{
    match placed_read(variant, groups, number, read, place) {
        None => 0,
        Some(read) => reader_points(job, variant, groups, first, &read),
    }
}

/// What stands outside for the reads, as far as they have places. It takes no memory.
pub fn places_points(
    job: &MemJob,
    variant: &Variant,
    groups: &[u32],
    first: bool,
    places: &[ReadPlace],
) -> u64
    requires memory { MemLimits job.now.mem }
    requires reads { length job.now.mem.reads ≤ 8 }
    requires groups { length groups.now ≤ 4 }
    ensures value { result ≡ points.places_points job.now variant.now groups.now first places.now }
    ensures bound { result ≤ 671089696 }
{
    reads_points(
        job,
        variant,
        groups,
        first,
        0,
        job.mem.reads.as_slice(),
        places,
    )
}

#[tactic(auto, using(crate::proofs::Bounds::each_later))]
fn reads_points(
    job: &MemJob,
    variant: &Variant,
    groups: &[u32],
    first: bool,
    number: u32,
    reads: &[RdPort],
    places: &[ReadPlace],
) -> u64
    requires memory { MemLimits job.now.mem }
    requires groups { length groups.now ≤ 4 }
    requires reads { number + length reads.now ≤ 8 }
    requires wide { Each reads.now (λ r. r.wide ≤ 6) }
    ensures value { result ≡ points.zip_sum (points.place_points job.now variant.now groups.now first) number reads.now places.now }
    ensures bound { result ≤ 83886212 * length reads.now }
{
    match reads {
        [] => 0,
        [read, reads @ ..] => match places {
            [] => 0,
            [place, places @ ..] => {
                place_points(job, variant, groups, first, number, read, *place)
                    + reads_points(job, variant, groups, first, number + 1, reads, places)
            }
        },
    }
}

/// What the emulated priorities over the writes cost. It takes no memory.
pub fn priorities_points(mem: &Mem, variant: &Variant, groups: &[u32]) -> u64
    requires memory { MemLimits mem.now }
    requires writes { length mem.now.writes ≤ 4 }
    requires groups { length groups.now ≤ 4 }
    ensures value { result ≡ points.priorities_points mem.now variant.now groups.now }
    ensures bound { result ≤ 134218240 }
{
    writes_points(mem, variant, groups, 0, mem.writes.as_slice(), groups)
}

#[tactic(auto, using(crate::proofs::Bounds::each_later))]
fn writes_points(
    mem: &Mem,
    variant: &Variant,
    all: &[u32],
    number: u32,
    writes: &[WrPort],
    groups: &[u32],
) -> u64
    requires memory { MemLimits mem.now }
    requires all { length all.now ≤ 4 }
    requires writes { number + length writes.now ≤ 4 }
    requires enables { Each writes.now (λ w. length w.en ≤ 4194304) }
    ensures value { result ≡ points.zip_sum (points.priority_points mem.now variant.now all.now) number writes.now groups.now }
    ensures bound { result ≤ 33554560 * length writes.now }
{
    match writes {
        [] => 0,
        [write, writes @ ..] => match groups {
            [] => 0,
            [group, groups @ ..] => {
                priority_points(mem, variant, all, number, write, *group)
                    + writes_points(mem, variant, all, number + 1, writes, groups)
            }
        },
    }
}

fn priority_points(
    mem: &Mem,
    variant: &Variant,
    groups: &[u32],
    number: u32,
    port: &WrPort,
    group: u32,
) -> u64
    requires memory { MemLimits mem.now }
    requires groups { length groups.now ≤ 4 }
    requires enables { length port.now.en ≤ 4194304 }
    ensures value { result ≡ points.priority_points mem.now variant.now groups.now number port.now group }
    ensures bound { result ≤ 33554560 }
{
    match variant.groups.as_slice().get(group as usize) {
        None => 0,
        Some(kind) => {
            let write = PlacedWrite {
                number,
                port,
                group,
                kind,
            };
            points_of_lower(mem, variant, groups, &write)
        }
    }
}

#[tactic(auto, using(crate::proofs::Bounds::lowers_few))]
fn points_of_lower(mem: &Mem, variant: &Variant, groups: &[u32], write: &PlacedWrite<'_>) -> u64
    requires memory { MemLimits mem.now }
    requires groups { length groups.now ≤ 4 }
    requires enables { length write.now.port.now.en ≤ 4194304 }
    ensures value { result ≡ points.points_of_lower mem.now variant.now groups.now (writer_of write.now) }
    ensures bound { result ≤ 33554560 }
{
    let uppers = emulated_count(variant, mem.writes.as_slice(), groups, write);
    u64::from(uppers) * lower_points(mem, write.port)
}
