//! When a branch of the search is cut.
ghost use Rattle.std.specs.Prelude.{◌≡◌, ◌≤◌, ◌<◌, ◌+◌, ◌^◌, length};
ghost use Rattle.fit_rules.specs.Rules as rules;
ghost use Rattle.fit_rules.specs.Standing as standing;
ghost use Rattle.plan_search.specs.Choice as choice;
ghost use Rattle.plan_search.specs.Sites.{IsSite};
ghost use Rattle.plan_search.specs.Steps as steps;

use crate::sites::{Site, choice_points, is_small};
use fit_rules::Plan;
use fit_rules::rules::{lanes_stand, order_met, writes_placed};
use fit_rules::standing::{read_stands, write_stands};
use geom_core::ReadPlace;
use net_core::{RdPort, WrPort};

/// Whether so many points are fewer than those of the best so far.
pub fn beats(points: u64, best: &Option<Plan>) -> bool
    ensures { result ≡ choice.beats points best.now }
{
    match best {
        None => true,
        Some(best) => points < best.points,
    }
}

fn reads_front(
    site: &Site<'_>,
    groups: &[u32],
    number: u32,
    reads: &[RdPort],
    places: &[ReadPlace],
) -> bool
    requires groups { length groups.now < 2 ^ 32 }
    requires reads { number + length reads.now < 2 ^ 32 }
    ensures { result ≡ rules.zip_front (standing.read_stands site.now.variant.now site.now.spot site.now.job.now.mem.writes groups.now) number reads.now places.now }
{
    match places {
        [] => true,
        [place, places @ ..] => match reads {
            [] => false,
            [read, reads @ ..] => {
                read_stands(
                    site.variant,
                    site.spot,
                    site.job.mem.writes.as_slice(),
                    groups,
                    number,
                    read,
                    *place,
                ) && reads_front(site, groups, number + 1, reads, places)
            }
        },
    }
}

fn writes_front(site: &Site<'_>, writes: &[WrPort], groups: &[u32]) -> bool
    ensures { result ≡ rules.zip_each_front (standing.write_stands site.now.variant.now site.now.spot) writes.now groups.now }
{
    match groups {
        [] => true,
        [group, groups @ ..] => match writes {
            [] => false,
            [write, writes @ ..] => {
                write_stands(site.variant, site.spot, write, *group)
                    && writes_front(site, writes, groups)
            }
        },
    }
}

fn may_read(site: &Site<'_>, groups: &[u32], so_far: &[ReadPlace]) -> bool
    requires site { IsSite site.now }
    requires few { length so_far.now ≤ 8 }
    requires few_groups { length groups.now ≤ 4 }
    ensures { result ≡ steps.may_read site.now.job.now site.now.variant.now site.now.spot groups.now so_far.now }
{
    reads_front(site, groups, 0, site.job.mem.reads.as_slice(), so_far)
        && order_met(site.job, site.variant, groups, so_far)
        && is_small(site, groups, so_far)
}

/// Whether no candidate whose reads begin so fits and beats the best.
pub fn cuts_reads(
    site: &Site<'_>,
    groups: &[u32],
    so_far: &[ReadPlace],
    best: &Option<Plan>,
) -> bool
    requires site { IsSite site.now }
    requires few { length so_far.now ≤ 8 }
    requires few_groups { length groups.now ≤ 4 }
    ensures { result ≡ steps.cuts_reads site.now.job.now site.now.variant.now site.now.spot groups.now so_far.now best.now }
{
    !(may_read(site, groups, so_far) && beats(choice_points(site, groups, so_far), best))
}

/// Whether no candidate whose writes begin so fits and beats the best.
pub fn cuts_writes(site: &Site<'_>, so_far: &[u32], best: &Option<Plan>) -> bool
    requires site { IsSite site.now }
    requires few { length so_far.now ≤ 4 }
    ensures { result ≡ steps.cuts_writes site.now.job.now site.now.variant.now site.now.spot so_far.now best.now }
{
    !(writes_front(site, site.job.mem.writes.as_slice(), so_far)
        && beats(choice_points(site, so_far, &[]), best))
}

/// Whether the writes can stand in these groups.
pub fn may_write(site: &Site<'_>, groups: &[u32]) -> bool
    requires { length groups.now ≤ 4 }
    ensures { result ≡ steps.may_write site.now.job.now site.now.variant.now site.now.spot groups.now }
{
    writes_placed(&site.job.mem, site.variant, site.spot, groups)
        && lanes_stand(&site.job.mem, site.variant, site.spot, groups)
}
