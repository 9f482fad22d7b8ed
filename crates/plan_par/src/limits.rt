//! Whether jobs are within the limits of the search.
ghost use Rattle.std.specs.Prelude.{◌≡◌, ◌&&◌, IsTrue};
ghost use Rattle.std.specs.List.{list_all};
ghost use Rattle.fit_rules.specs.Judging.{mem_within, library_within};
ghost use Rattle.plan_par.specs.Plans.{AreWithin, job_within};

use fit_rules::{library_within, mem_within};
use lib_core::{Library, List};
use net_core::MemJob;

fn jobs_within(jobs: &[MemJob]) -> bool
    ensures { result ≡ list_all job_within jobs.now }
{
    match jobs {
        [] => true,
        [job, rest @ ..] => mem_within(&job.mem) && jobs_within(rest),
    }
}

/// Whether each job is within the limits of the search. It takes no memory.
#[tactic(auto, using(crate::proofs::Parts::judged_within))]
pub fn are_within(jobs: &List<MemJob>, lib: &Library) -> bool
    ensures value { result ≡ list_all job_within jobs.now && library_within lib.now }
    ensures limits { IsTrue result → AreWithin jobs.now lib.now }
{
    jobs_within(jobs.as_slice()) && library_within(lib)
}
