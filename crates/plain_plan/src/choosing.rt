//! The plain candidate that a memory gets.
ghost use Rattle.std.specs.Prelude.{◌≡◌, ◌≤◌, ◌∷◌, [], fold, length, IfOk};
ghost use Rattle.fit_rules.specs.Candidates.{below, chosen};
ghost use Rattle.fit_rules.specs.Standing.{first_ride};
ghost use Rattle.fit_rules.specs.Limits.{Limits, RamLimits};
ghost use Rattle.plan_search.specs.Choice as choice;
ghost use Rattle.ram_emit.specs.Judging as judging;
ghost use Rattle.plain_plan.specs.Chosen.{plain_score, least_plain};
ghost use Rattle.plain_plan.specs.Steps as steps;

use fit_cost::cost_of;
use fit_rules::standing::first_ride;
use fit_rules::{Plan, fits};
use geom_core::{Candidate, RamChoice, ReadPlace};
use lib_core::{Library, List, Memory, RamKind, Variant};
use net_core::{MemJob, RdPort, Style};
use ram_emit::is_plain;
use std::alloc::Global;

/// What the candidates of a search have in common: the memory with its read, the library, and what
/// the memory asks for.
#[derive(Clone, Copy)]
pub struct Search<'a> {
    pub job: &'a MemJob,
    pub read: &'a RdPort,
    pub lib: &'a Library,
    pub style: &'a Style,
}

/// Whether the candidate is plain.
#[tactic(auto, using(crate::proofs::Scored::judged))]
fn is_judged_plain(lib: &Library, job: &MemJob, candidate: &Candidate) -> bool
    requires { Limits job.now lib.now }
    ensures { result ≡ judging.is_plain lib.now job.now candidate.now }
{
    is_plain(lib, job, candidate)
}

/// The points of a candidate, where it is plain and fits with the style. It takes no memory.
#[tactic(auto, using(crate::proofs::Scored::fits_auto))]
fn plain_points(job: &MemJob, lib: &Library, style: &Style, candidate: &Candidate) -> Option<u64>
    requires { Limits job.now lib.now }
    ensures { result ≡ plain_score job.now lib.now style.now candidate.now }
{
    if !is_judged_plain(lib, job, candidate) {
        return None;
    }
    if !fits(job, lib, style, candidate) {
        return None;
    }
    Some(cost_of(job, lib, candidate))
}

fn beats(points: u64, best: &Option<Plan>) -> bool
    ensures { result ≡ choice.beats points best.now }
{
    match best {
        None => true,
        Some(best) => points < best.points,
    }
}

/// The best after a candidate, whose points are there where it fits. Of equal ones the earlier stays.
fn offered(best: Option<Plan>, candidate: Candidate, points: Option<u64>) -> Option<Plan>
    ensures { result ≡ choice.offer best candidate points }
{
    let Some(points) = points else {
        return best;
    };
    if !beats(points, &best) {
        return best;
    }
    Some(Plan { candidate, points })
}

/// The candidate of the first fold and width, with the write in a group and the read at a place.
fn candidate_at(
    alloc: Global,
    ram: u32,
    variant: u32,
    group: u32,
    place: ReadPlace,
) -> Result<Candidate, Memory>
    ensures { IfOk result (λ c. c ≡ chosen (steps.first_spot ram variant) (group ∷ []) (place ∷ [])) }
{
    Ok(Candidate::Ram(RamChoice {
        ram,
        variant,
        fold: 0,
        level: 0,
        writes: List::from_vec(Vec::from_slice(alloc, &[group])?),
        reads: List::from_vec(Vec::from_slice(alloc, &[place])?),
    }))
}

/// The best after one more candidate.
fn try_place(
    alloc: Global,
    search: &Search<'_>,
    ram: u32,
    variant: u32,
    group: u32,
    place: ReadPlace,
    best: Option<Plan>,
) -> Result<Option<Plan>, Memory>
    requires { Limits search.now.job.now search.now.lib.now }
    ensures { IfOk result (λ after. after ≡ steps.at_place (plain_score search.now.job.now search.now.lib.now search.now.style.now) ram variant group best place) }
{
    let candidate = candidate_at(alloc, ram, variant, group, place)?;
    let points = plain_points(search.job, search.lib, search.style, &candidate);
    Ok(offered(best, candidate, points))
}

/// The best after the groups of a read.
#[tactic(auto, using(crate::proofs::Walked::fold_below_more))]
fn try_read_groups(
    alloc: Global,
    search: &Search<'_>,
    ram: u32,
    at: u32,
    group: u32,
    groups: u32,
    best: Option<Plan>,
) -> Result<Option<Plan>, Memory>
    requires { Limits search.now.job.now search.now.lib.now }
    ensures { IfOk result (λ after. after ≡ fold (steps.at_read_group (plain_score search.now.job.now search.now.lib.now search.now.style.now) ram at group) best (below groups)) }
{
    let mut best = best;
    for place in 0..groups {
        best = try_place(alloc, search, ram, at, group, ReadPlace::Group(place), best)?;
    }
    Ok(best)
}

/// The best after the name of the write as the place of the read, where the read can stand there.
fn try_ride(
    alloc: Global,
    search: &Search<'_>,
    variant: &Variant,
    ram: u32,
    at: u32,
    group: u32,
    best: Option<Plan>,
) -> Result<Option<Plan>, Memory>
    requires { Limits search.now.job.now search.now.lib.now }
    ensures { IfOk result (λ after. after ≡ steps.with_ride (plain_score search.now.job.now search.now.lib.now search.now.style.now) ram at group best (first_ride variant.now search.now.read.now 0 search.now.job.now.mem.writes (group ∷ []))) }
{
    let writes = search.job.mem.writes.as_slice();
    match first_ride(variant, search.read, 0, writes, &[group]) {
        None => Ok(best),
        Some(write) => try_place(alloc, search, ram, at, group, ReadPlace::Ride(write), best),
    }
}

/// The best after all places of the read, with the write in a group.
#[tactic(auto, using(crate::proofs::Walked::all_places))]
fn try_group(
    alloc: Global,
    search: &Search<'_>,
    variant: &Variant,
    ram: u32,
    at: u32,
    group: u32,
    best: Option<Plan>,
) -> Result<Option<Plan>, Memory>
    requires limits { Limits search.now.job.now search.now.lib.now }
    requires few { length variant.now.groups ≤ 4 }
    ensures { IfOk result (λ after. after ≡ steps.at_group (plain_score search.now.job.now search.now.lib.now search.now.style.now) search.now.job.now.mem search.now.read.now variant.now ram at best group) }
{
    let groups = variant.groups.as_slice().len() as u32;
    let best = try_read_groups(alloc, search, ram, at, group, groups, best)?;
    try_ride(alloc, search, variant, ram, at, group, best)
}

/// The best after all groups of the write.
#[tactic(auto, using(crate::proofs::Walked::fold_below_more))]
fn try_groups(
    alloc: Global,
    search: &Search<'_>,
    variant: &Variant,
    ram: u32,
    at: u32,
    best: Option<Plan>,
) -> Result<Option<Plan>, Memory>
    requires limits { Limits search.now.job.now search.now.lib.now }
    requires few { length variant.now.groups ≤ 4 }
    ensures { IfOk result (λ after. after ≡ steps.at_groups (plain_score search.now.job.now search.now.lib.now search.now.style.now) search.now.job.now.mem search.now.read.now variant.now ram at best) }
{
    let mut best = best;
    for group in 0..variant.groups.as_slice().len() as u32 {
        best = try_group(alloc, search, variant, ram, at, group, best)?;
    }
    Ok(best)
}

/// The best after all candidates of one variant that may be plain.
fn try_variant(
    alloc: Global,
    search: &Search<'_>,
    variant: &Variant,
    ram: u32,
    at: u32,
    best: Option<Plan>,
) -> Result<Option<Plan>, Memory>
    requires limits { Limits search.now.job.now search.now.lib.now }
    requires few { length variant.now.groups ≤ 4 }
    ensures { IfOk result (λ after. after ≡ steps.at_variant (plain_score search.now.job.now search.now.lib.now search.now.style.now) search.now.job.now.mem search.now.read.now ram best at variant.now) }
{
    if variant.widths.as_slice().len() != 1 {
        return Ok(best);
    }
    try_groups(alloc, search, variant, ram, at, best)
}

/// The best after all variants of one RAM.
fn try_ram(
    alloc: Global,
    search: &Search<'_>,
    ram: u32,
    kind: &RamKind,
    best: Option<Plan>,
) -> Result<Option<Plan>, Memory>
    requires limits { Limits search.now.job.now search.now.lib.now }
    requires ram { RamLimits kind.now }
    ensures { IfOk result (λ after. after ≡ steps.at_ram (plain_score search.now.job.now search.now.lib.now search.now.style.now) search.now.job.now.mem search.now.read.now best ram kind.now) }
{
    let variants = kind.variants.as_slice();
    let mut best = best;
    for at in 0..variants.len() {
        best = try_variant(alloc, search, &variants[at], ram, at as u32, best)?;
    }
    Ok(best)
}

/// The best of all RAMs.
fn try_rams(alloc: Global, search: &Search<'_>) -> Result<Option<Plan>, Memory>
    requires { Limits search.now.job.now search.now.lib.now }
    ensures { IfOk result (λ after. after ≡ steps.at_rams (plain_score search.now.job.now search.now.lib.now search.now.style.now) search.now.job.now.mem search.now.read.now search.now.lib.now.rams) }
{
    let rams = search.lib.rams.as_slice();
    let mut best = None;
    for ram in 0..rams.len() {
        best = try_ram(alloc, search, ram as u32, &rams[ram], best)?;
    }
    Ok(best)
}

/// The best of all RAMs, where the memory has one write and one read.
fn try_ports(
    alloc: Global,
    job: &MemJob,
    lib: &Library,
    style: &Style,
) -> Result<Option<Plan>, Memory>
    requires { Limits job.now lib.now }
    ensures { IfOk result (λ after. after ≡ steps.at_ports (plain_score job.now lib.now style.now) job.now.mem lib.now.rams job.now.mem.writes job.now.mem.reads) }
{
    let [_] = job.mem.writes.as_slice() else {
        return Ok(None);
    };
    let [read] = job.mem.reads.as_slice() else {
        return Ok(None);
    };
    let search = Search {
        job,
        read,
        lib,
        style,
    };
    try_rams(alloc, &search)
}

/// The first candidate of least points among all candidates of the memory that are plain and fit with
/// the style, with its points; None exactly where no candidate is plain and fits. Without memory for
/// the search itself the answer is `Memory`.
#[tactic(auto, using(crate::proofs::Walked::least_at_ports))]
pub fn least_plain(
    alloc: Global,
    job: &MemJob,
    lib: &Library,
    style: &Style,
) -> Result<Option<Plan>, Memory>
    requires { Limits job.now lib.now }
    ensures { IfOk result (λ plan. plan ≡ least_plain job.now lib.now style.now) }
{
    try_ports(alloc, job, lib, style)
}
