//! The plans of a list of jobs, by halves.
ghost use Rattle.std.specs.Prelude.{◌≡◌, ◌≤◌, ◌<◌, ◌+◌, ◌^◌, ◌/◌, ◌-◌, ◌++◌, length, map, IfOk};
ghost use Rattle.std.specs.Thread.{IsSync};
ghost use Rattle.fit_rules.specs.Limits.{Limits};
ghost use Rattle.plan_par.specs.Plans.{plan_of, AreWithin, Part};

use crate::gates::Gate;
use fit_rules::Plan;
use lib_core::{Library, List, Memory};
use net_core::{MemJob, style_of};
use plan_search::least;
use std::alloc::Global;
use std::thread::{Threads, join};

fn plan_one<G: Gate>(
    alloc: Global,
    index: u64,
    job: &MemJob,
    lib: &Library,
    gate: &G,
) -> Result<Option<Plan>, Memory>
    requires { Limits job.now lib.now }
    ensures { IfOk result (λ plan. plan ≡ plan_of lib.now job.now) }
{
    gate.enter(index);
    let style = style_of(alloc, &job.mem)?;
    least(alloc, job, lib, &style)
}

fn plan_each<G: Gate>(
    alloc: Global,
    first: u64,
    jobs: &[MemJob],
    lib: &Library,
    gate: &G,
) -> Result<Vec<Option<Plan>>, Memory>
    requires within { AreWithin jobs.now lib.now }
    requires room { first + length jobs.now < 2 ^ 64 }
    ensures { IfOk result (λ plans. plans.items ≡ map (plan_of lib.now) jobs.now) }
{
    let mut plans = Vec::new(alloc);
    let mut index = first;
    for job in jobs {
        plans.push(plan_one(alloc, index, job, lib, gate)?)?;
        index += 1;
    }
    Ok(plans)
}

fn joined(front: Vec<Option<Plan>>, back: Vec<Option<Plan>>) -> Result<Vec<Option<Plan>>, Memory>
    ensures { IfOk result (λ all. all.items ≡ front.items ++ back.items) }
{
    let mut all = front;
    let mut rest = back;
    all.append(&mut rest)?;
    Ok(all)
}

// The two halves of a list of jobs.
#[tactic(auto, using(crate::proofs::Parts::map_halves))]
fn halves<'a>(
    workers: u32,
    first: u64,
    jobs: &'a [MemJob],
    lib: &Library,
) -> (&'a [MemJob], &'a [MemJob])
    requires workers { 2 ≤ workers }
    requires some { 2 ≤ length jobs.now }
    requires within { AreWithin jobs.now lib.now }
    requires room { first + length jobs.now < 2 ^ 64 }
    ensures front { Part (workers / 2) first result.0.now lib.now }
    ensures back { Part (workers - workers / 2) (first + length result.0.now) result.1.now lib.now }
    ensures shorter_front { length result.0.now < length jobs.now }
    ensures shorter_back { length result.1.now < length jobs.now }
    ensures whole { map (plan_of lib.now) result.0.now ++ map (plan_of lib.now) result.1.now ≡ map (plan_of lib.now) jobs.now }
{
    jobs.split_at(jobs.len() / 2)
}

fn plan_some<R: Threads + Sync, G: Gate + Sync>(
    rt: &R,
    alloc: Global,
    workers: u32,
    first: u64,
    jobs: &[MemJob],
    lib: &Library,
    gate: &G,
) -> Result<Vec<Option<Plan>>, Memory>
    requires { Part workers first jobs.now lib.now }
    ensures { IfOk result (λ plans. plans.items ≡ map (plan_of lib.now) jobs.now) }
{
    if workers <= 1 || jobs.len() <= 1 {
        return plan_each(alloc, first, jobs, lib, gate);
    }
    let (front, back) = halves(workers, first, jobs, lib);
    let (left, right) = join(
        rt,
        || -> Result<Vec<Option<Plan>>, Memory>
            requires { IsSync R.row × IsSync G.row × Part (workers / 2) first front.now lib.now }
            ensures { IfOk result (λ plans. plans.items ≡ map (plan_of lib.entry.now) front.entry.now) }
        { plan_some(rt, alloc, workers / 2, first, front, lib, gate) },
        || -> Result<Vec<Option<Plan>>, Memory>
            requires { IsSync R.row × IsSync G.row × Part (workers - workers / 2) (first + length front.now) back.now lib.now }
            ensures { IfOk result (λ plans. plans.items ≡ map (plan_of lib.entry.now) back.entry.now) }
        {
            plan_some(
                rt,
                alloc,
                workers - workers / 2,
                first + front.len() as u64,
                back,
                lib,
                gate,
            )
        },
    );
    joined(left?, right?)
}

/// The best plan of each job, in their order, each by what its memory asks for. As many threads as there
/// are workers share the jobs, where they can be had. Before the search of a job the gate is told its
/// number. Without memory for a search the answer is `Memory`.
pub fn plan_all<R: Threads + Sync, G: Gate + Sync>(
    rt: &R,
    alloc: Global,
    workers: u32,
    jobs: &List<MemJob>,
    lib: &Library,
    gate: &G,
) -> Result<List<Option<Plan>>, Memory>
    requires workers { 1 ≤ workers }
    requires within { AreWithin jobs.now lib.now }
    ensures { IfOk result (λ plans. plans ≡ map (plan_of lib.now) jobs.now) }
{
    let plans = plan_some(rt, alloc, workers, 0, jobs.as_slice(), lib, gate)?;
    Ok(List::from_vec(plans))
}
