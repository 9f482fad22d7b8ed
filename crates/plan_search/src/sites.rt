//! A memory at a spot of a variant, and the points of its candidates there.
ghost use Rattle.std.specs.Prelude.{◌≡◌, ◌≤◌, length};
ghost use Rattle.std.specs.List.{sum_by};
ghost use Rattle.fit_rules.specs.Limits.{MemLimits, VariantLimits, IsSpot};
ghost use Rattle.fit_rules.specs.Rules as rules;
ghost use Rattle.fit_rules.specs.Shape as shape;
ghost use Rattle.fit_cost.specs.Points as points;
ghost use Rattle.plan_search.specs.Sites.{IsSite};

use fit_cost::parts::{row_points, write_points};
use fit_cost::places::{places_points, priorities_points};
use fit_cost::sums::order_points;
use fit_rules::Spot;
use fit_rules::rules::read_first;
use fit_rules::shapes::{self, copies};
use fit_rules::sizes::new_nets;
use geom_core::ReadPlace;
use lib_core::Variant;
use net_core::{Mem, MemJob};

/// A memory at a spot of a variant, with what all choices there have in common.
#[derive(Clone, Copy)]
pub struct Site<'a> {
    pub job: &'a MemJob,
    pub variant: &'a Variant,
    pub spot: Spot,
    /// The cells of one copy.
    pub cells: u64,
    /// What chooses among rows and among the words of a row, in points.
    pub ports: u64,
}

/// The site at a spot. It takes no memory.
pub fn site_at<'a>(job: &'a MemJob, variant: &'a Variant, spot: Spot) -> Site<'a>
    requires memory { MemLimits job.now.mem }
    requires limits { VariantLimits variant.now }
    requires spot { IsSpot variant.now spot }
    requires few_reads { length job.now.mem.reads ≤ 8 }
    requires few_writes { length job.now.mem.writes ≤ 4 }
    ensures site { IsSite result }
    ensures job { result.job.now ≡ job.now }
    ensures variant { result.variant.now ≡ variant.now }
    ensures spot { result.spot ≡ spot }
{
    Site {
        job,
        variant,
        spot,
        cells: shapes::cells(&job.mem, variant, spot, &[], &[]),
        ports: ports_points(&job.mem, variant, spot),
    }
}

/// What chooses among rows and among the words of a row, in points. It takes no memory.
pub fn ports_points(mem: &Mem, variant: &Variant, spot: Spot) -> u64
    requires memory { MemLimits mem.now }
    requires limits { VariantLimits variant.now }
    requires spot { IsSpot variant.now spot }
    requires few_reads { length mem.now.reads ≤ 8 }
    requires few_writes { length mem.now.writes ≤ 4 }
    ensures value { result ≡ points.ports_points mem.now variant.now spot }
    ensures bound { result ≤ 35186653791744 }
{
    reading_points(mem, variant, spot) + writing_points(mem, variant, spot)
}

fn reading_points(mem: &Mem, variant: &Variant, spot: Spot) -> u64
    requires memory { MemLimits mem.now }
    requires limits { VariantLimits variant.now }
    requires spot { IsSpot variant.now spot }
    requires few { length mem.now.reads ≤ 8 }
    ensures value { result ≡ sum_by (points.row_points mem.now variant.now spot) mem.now.reads }
    ensures bound { result ≤ 35186519572480 }
{
    let mut sum = 0;
    for read in mem.reads.as_slice() {
        sum += row_points(mem, variant, spot, read);
    }
    sum
}

fn writing_points(mem: &Mem, variant: &Variant, spot: Spot) -> u64
    requires memory { MemLimits mem.now }
    requires limits { VariantLimits variant.now }
    requires spot { IsSpot variant.now spot }
    requires few { length mem.now.writes ≤ 4 }
    ensures value { result ≡ sum_by (points.write_points mem.now variant.now spot) mem.now.writes }
    ensures bound { result ≤ 134219264 }
{
    let mut sum = 0;
    for write in mem.writes.as_slice() {
        sum += write_points(mem, variant, spot, write);
    }
    sum
}

/// The cells of a choice of places, which may be those of the first reads alone. It takes no memory.
#[tactic(auto, using(crate::proofs::Bounds::copied_few, crate::proofs::Bounds::copied_cells))]
pub fn cells(site: &Site<'_>, groups: &[u32], places: &[ReadPlace]) -> u64
    requires site { IsSite site.now }
    requires few { length places.now ≤ 8 }
    ensures value { result ≡ shape.cells site.now.job.now.mem site.now.variant.now site.now.spot groups.now places.now }
    ensures bound { result ≤ 805306368 }
{
    u64::from(copies(site.variant, groups, places)) * site.cells
}

/// Whether a choice has few enough cells and makes few enough nets. It takes no memory.
pub fn is_small(site: &Site<'_>, groups: &[u32], places: &[ReadPlace]) -> bool
    requires site { IsSite site.now }
    requires few { length places.now ≤ 8 }
    ensures { result ≡ rules.is_small site.now.job.now.mem site.now.variant.now site.now.spot groups.now places.now }
{
    let cells = cells(site, groups, places);
    cells <= 4096 && new_nets(&site.job.mem, site.variant, site.spot, cells) <= 16_777_216
}

#[tactic(auto, using(crate::proofs::Bounds::cell_points_few))]
fn cell_points(site: &Site<'_>, groups: &[u32], places: &[ReadPlace]) -> u64
    requires site { IsSite site.now }
    requires few { length places.now ≤ 8 }
    ensures value { result ≡ points.cell_points site.now.job.now.mem site.now.variant.now site.now.spot groups.now places.now }
    ensures bound { result ≤ 13510798882111488 }
{
    16 * u64::from(site.variant.cost) * cells(site, groups, places)
}

fn around_points(site: &Site<'_>, groups: &[u32], places: &[ReadPlace]) -> u64
    requires site { IsSite site.now }
    requires few_groups { length groups.now ≤ 4 }
    ensures value { result ≡ points.around_points site.now.job.now site.now.variant.now groups.now places.now (rules.read_first site.now.job.now site.now.variant.now groups.now places.now) }
    ensures bound { result ≤ 1107298464 }
{
    let first = read_first(site.job, site.variant, groups, places);
    places_points(site.job, site.variant, groups, first, places)
        + order_points(&site.job.mem, first)
}

/// The points of a choice of groups and places, which may be those of the first writes alone and of the
/// first reads alone. It takes no memory.
#[tactic(auto, using(crate::proofs::Bounds::points_joined))]
pub fn choice_points(site: &Site<'_>, groups: &[u32], places: &[ReadPlace]) -> u64
    requires site { IsSite site.now }
    requires few_groups { length groups.now ≤ 4 }
    requires few { length places.now ≤ 8 }
    ensures { result ≡ points.ram_points site.now.job.now site.now.variant.now site.now.spot groups.now places.now }
{
    cell_points(site, groups, places)
        + around_points(site, groups, places)
        + (priorities_points(&site.job.mem, site.variant, groups) + site.ports)
}
