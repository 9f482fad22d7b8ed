//! The points of a choice of groups and places.
ghost use Rattle.std.specs.Prelude.{◌≡◌, ◌≤◌, ◌<◌, ◌^◌, length};
ghost use Rattle.std.specs.List.{sum_by};
ghost use Rattle.fit_rules.specs.Limits.{MemLimits, VariantLimits, IsSpot};
ghost use Rattle.fit_cost.specs.Points as points;

use crate::parts::{looking_points, row_points, waiting_points, write_points};
use crate::places::{places_points, priorities_points};
use fit_rules::rules::read_first;
use fit_rules::shapes::cells;
use fit_rules::spots::Spot;
use geom_core::ReadPlace;
use lib_core::Variant;
use net_core::{Mem, MemJob};

/// What the cells cost. It takes no memory.
#[tactic(auto, using(crate::proofs::Bounds::cell_points_few))]
pub fn cell_points(
    mem: &Mem,
    variant: &Variant,
    spot: Spot,
    groups: &[u32],
    places: &[ReadPlace],
) -> u64
    requires memory { MemLimits mem.now }
    requires limits { VariantLimits variant.now }
    requires spot { IsSpot variant.now spot }
    requires few { length places.now ≤ 8 }
    ensures value { result ≡ points.cell_points mem.now variant.now spot groups.now places.now }
    ensures bound { result ≤ 1688849860263936 }
{
    16 * u64::from(variant.cost) * cells(mem, variant, spot, groups, places)
}

fn rows_points(mem: &Mem, variant: &Variant, spot: Spot) -> u64
    requires memory { MemLimits mem.now }
    requires limits { VariantLimits variant.now }
    requires spot { IsSpot variant.now spot }
    requires few { length mem.now.reads ≤ 8 }
    ensures value { result ≡ sum_by (points.row_points mem.now variant.now spot) mem.now.reads }
    ensures bound { result ≤ 35186519572480 }
{
    let mut sum = 0;
    for read in mem.reads.as_slice() {
        sum += row_points(mem, variant, spot, read);
    }
    sum
}

fn writing_points(mem: &Mem, variant: &Variant, spot: Spot) -> u64
    requires memory { MemLimits mem.now }
    requires limits { VariantLimits variant.now }
    requires spot { IsSpot variant.now spot }
    requires few { length mem.now.writes ≤ 4 }
    ensures value { result ≡ sum_by (points.write_points mem.now variant.now spot) mem.now.writes }
    ensures bound { result ≤ 134219264 }
{
    let mut sum = 0;
    for write in mem.writes.as_slice() {
        sum += write_points(mem, variant, spot, write);
    }
    sum
}

fn all_waiting_points(mem: &Mem) -> u64
    requires memory { MemLimits mem.now }
    requires few { length mem.now.writes ≤ 4 }
    ensures value { result ≡ sum_by (points.waiting_points mem.now) mem.now.writes }
    ensures bound { result ≤ 33554560 }
{
    let mut sum = 0;
    for write in mem.writes.as_slice() {
        sum += waiting_points(mem, write);
    }
    sum
}

fn all_looking_points(mem: &Mem) -> u64
    requires memory { MemLimits mem.now }
    requires few_reads { length mem.now.reads ≤ 8 }
    requires few_writes { length mem.now.writes ≤ 4 }
    ensures value { result ≡ sum_by (points.looking_points mem.now) mem.now.reads }
    ensures bound { result ≤ 402654208 }
{
    let mut sum = 0;
    for read in mem.reads.as_slice() {
        sum += looking_points(mem, read);
    }
    sum
}

/// What it costs that all reads come before the writes. It takes no memory.
pub fn order_points(mem: &Mem, first: bool) -> u64
    requires memory { MemLimits mem.now }
    requires few_reads { length mem.now.reads ≤ 8 }
    requires few_writes { length mem.now.writes ≤ 4 }
    ensures value { result ≡ points.order_points mem.now first }
    ensures bound { result ≤ 436208768 }
{
    if first {
        all_waiting_points(mem) + all_looking_points(mem)
    } else {
        0
    }
}

/// The points of a choice of groups and places. The places may be those of the first reads alone: the
/// points never fall as places are added. It takes no memory.
#[tactic(auto, unfolding(crate::specs::Points::ram_points))]
pub fn ram_points(
    job: &MemJob,
    variant: &Variant,
    spot: Spot,
    groups: &[u32],
    places: &[ReadPlace],
) -> u64
    requires memory { MemLimits job.now.mem }
    requires limits { VariantLimits variant.now }
    requires spot { IsSpot variant.now spot }
    requires few_reads { length job.now.mem.reads ≤ 8 }
    requires few_writes { length job.now.mem.writes ≤ 4 }
    requires few_groups { length groups.now ≤ 4 }
    requires few { length places.now ≤ 8 }
    ensures { result ≡ points.ram_points job.now variant.now spot groups.now places.now }
{
    let first = read_first(job, variant, groups, places);
    cell_points(&job.mem, variant, spot, groups, places)
        + around_points(job, variant, groups, places, first)
        + fixed_points(&job.mem, variant, spot, groups)
}

fn around_points(
    job: &MemJob,
    variant: &Variant,
    groups: &[u32],
    places: &[ReadPlace],
    first: bool,
) -> u64
    requires memory { MemLimits job.now.mem }
    requires few_reads { length job.now.mem.reads ≤ 8 }
    requires few_writes { length job.now.mem.writes ≤ 4 }
    requires few_groups { length groups.now ≤ 4 }
    ensures value { result ≡ points.around_points job.now variant.now groups.now places.now first }
    ensures bound { result ≤ 1107298464 }
{
    places_points(job, variant, groups, first, places) + order_points(&job.mem, first)
}

fn fixed_points(mem: &Mem, variant: &Variant, spot: Spot, groups: &[u32]) -> u64
    requires memory { MemLimits mem.now }
    requires limits { VariantLimits variant.now }
    requires spot { IsSpot variant.now spot }
    requires few_reads { length mem.now.reads ≤ 8 }
    requires few_writes { length mem.now.writes ≤ 4 }
    requires few_groups { length groups.now ≤ 4 }
    ensures value { result ≡ points.fixed_points mem.now variant.now spot groups.now }
    ensures bound { result ≤ 35186788009984 }
{
    priorities_points(mem, variant, groups)
        + (rows_points(mem, variant, spot) + writing_points(mem, variant, spot))
}
