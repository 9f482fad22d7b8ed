//! The walk over the places of the reads.
ghost use Rattle.std.specs.Prelude.{◌≡◌, ◌≤◌, ◌<◌, ◌+◌, length, IfOk};
ghost use Rattle.fit_rules.specs.Candidates as listed;
ghost use Rattle.plan_search.specs.Sites.{IsSite};
ghost use Rattle.plan_search.specs.Steps as steps;
ghost use Rattle.plan_search.specs.Walks.{walk, branches};

use crate::cutting::{beats, cuts_reads};
use crate::sites::{Site, choice_points};
use fit_rules::rules::ram_fits;
use fit_rules::{Plan, Spot};
use geom_core::{Candidate, RamChoice, ReadPlace};
use lib_core::{List, Memory};
use std::alloc::Global;

fn chosen(
    alloc: Global,
    spot: Spot,
    groups: &[u32],
    reads: &[ReadPlace],
) -> Result<Candidate, Memory>
    ensures { IfOk result (λ candidate. candidate ≡ listed.chosen spot groups.now reads.now) }
{
    let writes = List::from_vec(Vec::from_slice(alloc, groups)?);
    let reads = List::from_vec(Vec::from_slice(alloc, reads)?);
    Ok(Candidate::Ram(RamChoice {
        ram: spot.ram,
        variant: spot.variant,
        fold: spot.fold,
        level: spot.level,
        writes,
        reads,
    }))
}

// The best after one more candidate.
fn judge(
    alloc: Global,
    site: &Site<'_>,
    groups: &[u32],
    reads: &[ReadPlace],
    best: Option<Plan>,
) -> Result<Option<Plan>, Memory>
    requires site { IsSite site.now }
    requires few_places { length reads.now ≤ 8 }
    requires few_groups { length groups.now ≤ 4 }
    ensures { IfOk result (λ after. after ≡ steps.at_reads site.now.job.now site.now.variant.now site.now.spot groups.now best reads.now) }
{
    if !ram_fits(site.job, site.variant, site.spot, groups, reads) {
        return Ok(best);
    }
    let points = choice_points(site, groups, reads);
    if !beats(points, &best) {
        return Ok(best);
    }
    let candidate = chosen(alloc, site.spot, groups, reads)?;
    Ok(Some(Plan { candidate, points }))
}

/// The best after all candidates whose reads begin so.
#[cycle(reads)]
pub fn search_reads(
    alloc: Global,
    site: &Site<'_>,
    groups: &[u32],
    choices: &[List<ReadPlace>],
    so_far: &mut Vec<ReadPlace>,
    best: Option<Plan>,
) -> Result<Option<Plan>, Memory>
    requires site { IsSite site.now }
    requires few_places { length so_far.old.items + length choices.now ≤ 8 }
    requires few_groups { length groups.now ≤ 4 }
    ensures best { IfOk result (λ after. after ≡ walk (steps.at_reads site.now.job.now site.now.variant.now site.now.spot groups.now) best so_far.old.items choices.now) }
    ensures kept { IfOk result (λ _. so_far.new.items ≡ so_far.old.items) }
{
    if cuts_reads(site, groups, so_far.as_slice(), &best) {
        return Ok(best);
    }
    match choices {
        [] => judge(alloc, site, groups, so_far.as_slice(), best),
        [places, rest @ ..] => {
            search_places(alloc, site, groups, places.as_slice(), rest, so_far, best)
        }
    }
}

// The best after all candidates whose reads go on with one of these places.
#[cycle(reads)]
fn search_places(
    alloc: Global,
    site: &Site<'_>,
    groups: &[u32],
    places: &[ReadPlace],
    rest: &[List<ReadPlace>],
    so_far: &mut Vec<ReadPlace>,
    best: Option<Plan>,
) -> Result<Option<Plan>, Memory>
    requires site { IsSite site.now }
    requires few_places { length so_far.old.items + length rest.now < 8 }
    requires few_groups { length groups.now ≤ 4 }
    ensures best { IfOk result (λ after. after ≡ branches (steps.at_reads site.now.job.now site.now.variant.now site.now.spot groups.now) best so_far.old.items places.now rest.now) }
    ensures kept { IfOk result (λ _. so_far.new.items ≡ so_far.old.items) }
{
    let mut best = best;
    for place in places {
        so_far.push(*place)?;
        best = search_reads(alloc, site, groups, rest, so_far, best)?;
        so_far.pop();
    }
    Ok(best)
}
