//! The walk over the groups of the writes.
ghost use Rattle.std.specs.Prelude.{◌≡◌, ◌≤◌, ◌<◌, ◌+◌, length, IfOk};
ghost use Rattle.fit_rules.specs.Candidates as listed;
ghost use Rattle.fit_rules.specs.Limits.{MemLimits, VariantLimits, IsSpot};
ghost use Rattle.plan_search.specs.Rams as rams;
ghost use Rattle.plan_search.specs.Sites.{IsSite};
ghost use Rattle.plan_search.specs.Steps as steps;
ghost use Rattle.plan_search.specs.Walks.{walk, branches};

use crate::cutting::{cuts_writes, may_write};
use crate::floors::may_win;
use crate::opening::is_open;
use crate::reading::search_reads;
use crate::sites::{Site, is_small, site_at};
use fit_rules::standing::first_ride;
use fit_rules::{Plan, Spot};
use geom_core::ReadPlace;
use lib_core::{List, Memory, Variant};
use net_core::{Mem, MemJob, RdPort};
use std::alloc::Global;

// The groups in order, then the name of a write.
#[tactic(auto, using(crate::proofs::Walked::map_below_more))]
fn places(
    alloc: Global,
    mem: &Mem,
    variant: &Variant,
    groups: &[u32],
    read: &RdPort,
) -> Result<List<ReadPlace>, Memory>
    requires few_groups { length groups.now ≤ 4 }
    requires few { length variant.now.groups ≤ 4 }
    ensures { IfOk result (λ places. places ≡ listed.places mem.now variant.now groups.now read.now) }
{
    let mut places = Vec::new(alloc);
    for group in 0..variant.groups.as_slice().len() as u32 {
        places.push(ReadPlace::Group(group))?;
    }
    if let Some(write) = first_ride(variant, read, 0, mem.writes.as_slice(), groups) {
        places.push(ReadPlace::Ride(write))?;
    }
    Ok(List::from_vec(places))
}

fn read_choices(
    alloc: Global,
    mem: &Mem,
    variant: &Variant,
    groups: &[u32],
) -> Result<Vec<List<ReadPlace>>, Memory>
    requires few_groups { length groups.now ≤ 4 }
    requires few { length variant.now.groups ≤ 4 }
    ensures { IfOk result (λ choices. choices.items ≡ listed.read_choices mem.now variant.now groups.now) }
{
    let mut choices = Vec::new(alloc);
    for read in mem.reads.as_slice() {
        choices.push(places(alloc, mem, variant, groups, read)?)?;
    }
    Ok(choices)
}

// The best after all candidates with these groups of the writes.
fn search_groups(
    alloc: Global,
    site: &Site<'_>,
    groups: &[u32],
    best: Option<Plan>,
) -> Result<Option<Plan>, Memory>
    requires site { IsSite site.now }
    requires few_groups { length groups.now ≤ 4 }
    ensures { IfOk result (λ after. after ≡ steps.at_groups site.now.job.now site.now.variant.now site.now.spot best groups.now) }
{
    if !may_write(site, groups) {
        return Ok(best);
    }
    let choices = read_choices(alloc, &site.job.mem, site.variant, groups)?;
    let mut so_far = Vec::new(alloc);
    search_reads(alloc, site, groups, choices.as_slice(), &mut so_far, best)
}

// The numbers of the groups.
#[tactic(auto, using(crate::proofs::Walked::below_more))]
fn numbers(alloc: Global, variant: &Variant) -> Result<List<u32>, Memory>
    requires { length variant.now.groups ≤ 4 }
    ensures { IfOk result (λ numbers. numbers ≡ listed.below (length variant.now.groups)) }
{
    let mut numbers = Vec::new(alloc);
    for group in 0..variant.groups.as_slice().len() as u32 {
        numbers.push(group)?;
    }
    Ok(List::from_vec(numbers))
}

/// The groups that each write may have.
pub fn write_choices(alloc: Global, mem: &Mem, variant: &Variant) -> Result<Vec<List<u32>>, Memory>
    requires { length variant.now.groups ≤ 4 }
    ensures { IfOk result (λ choices. choices.items ≡ listed.write_choices mem.now variant.now) }
{
    let mut choices = Vec::new(alloc);
    for _write in mem.writes.as_slice() {
        choices.push(numbers(alloc, variant)?)?;
    }
    Ok(choices)
}

// The best after all candidates whose writes begin so.
#[cycle(writes)]
fn search_writes(
    alloc: Global,
    site: &Site<'_>,
    choices: &[List<u32>],
    so_far: &mut Vec<u32>,
    best: Option<Plan>,
) -> Result<Option<Plan>, Memory>
    requires site { IsSite site.now }
    requires few_writes { length so_far.old.items + length choices.now ≤ 4 }
    ensures best { IfOk result (λ after. after ≡ walk (steps.at_groups site.now.job.now site.now.variant.now site.now.spot) best so_far.old.items choices.now) }
    ensures kept { IfOk result (λ _. so_far.new.items ≡ so_far.old.items) }
{
    if cuts_writes(site, so_far.as_slice(), &best) {
        return Ok(best);
    }
    match choices {
        [] => search_groups(alloc, site, so_far.as_slice(), best),
        [groups, rest @ ..] => { search_each(alloc, site, groups.as_slice(), rest, so_far, best) }
    }
}

// The best after all candidates whose writes go on with one of these groups.
#[cycle(writes)]
fn search_each(
    alloc: Global,
    site: &Site<'_>,
    groups: &[u32],
    rest: &[List<u32>],
    so_far: &mut Vec<u32>,
    best: Option<Plan>,
) -> Result<Option<Plan>, Memory>
    requires site { IsSite site.now }
    requires few_writes { length so_far.old.items + length rest.now < 4 }
    ensures best { IfOk result (λ after. after ≡ branches (steps.at_groups site.now.job.now site.now.variant.now site.now.spot) best so_far.old.items groups.now rest.now) }
    ensures kept { IfOk result (λ _. so_far.new.items ≡ so_far.old.items) }
{
    let mut best = best;
    for group in groups {
        so_far.push(*group)?;
        best = search_writes(alloc, site, rest, so_far, best)?;
        so_far.pop();
    }
    Ok(best)
}

// The best after all candidates of a site.
fn search_site(
    alloc: Global,
    site: &Site<'_>,
    choices: &[List<u32>],
    best: Option<Plan>,
) -> Result<Option<Plan>, Memory>
    requires site { IsSite site.now }
    requires choices { choices.now ≡ listed.write_choices site.now.job.now.mem site.now.variant.now }
    ensures { IfOk result (λ after. after ≡ rams.at_spot site.now.job.now site.now.variant.now site.now.spot best) }
{
    if !is_small(site, &[], &[]) {
        return Ok(best);
    }
    let mut so_far = Vec::new(alloc);
    search_writes(alloc, site, choices, &mut so_far, best)
}

/// The best after all candidates of one RAM, variant, fold and level.
pub fn search_spot(
    alloc: Global,
    job: &MemJob,
    variant: &Variant,
    spot: Spot,
    choices: &[List<u32>],
    best: Option<Plan>,
) -> Result<Option<Plan>, Memory>
    requires memory { MemLimits job.now.mem }
    requires limits { VariantLimits variant.now }
    requires spot { IsSpot variant.now spot }
    requires few_reads { length job.now.mem.reads ≤ 8 }
    requires few_writes { length job.now.mem.writes ≤ 4 }
    requires choices { choices.now ≡ listed.write_choices job.now.mem variant.now }
    ensures { IfOk result (λ after. after ≡ rams.at_spot job.now variant.now spot best) }
{
    if !may_win(&job.mem, variant, spot, &best) {
        return Ok(best);
    }
    if !is_open(alloc, &job.mem, variant, spot, choices)? {
        return Ok(best);
    }
    let site = site_at(job, variant, spot);
    search_site(alloc, &site, choices, best)
}
