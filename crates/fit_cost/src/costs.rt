//! What a candidate costs.
ghost use Rattle.std.specs.Prelude.{◌≡◌, ◌≤◌, true};
ghost use Rattle.net_core.specs.declared.mems.Style.TheVariants as styles;
ghost use Rattle.fit_rules.specs.Limits.{Limits, MemLimits};
ghost use Rattle.fit_rules.specs.Fits.{candidate_fits};
ghost use Rattle.geom_core.specs.declared.candidates.Candidate.TheVariants as candidates;
ghost use Rattle.fit_cost.specs.Points as points;

use crate::sums::ram_points;
use fit_rules::fitting::{spot_of, variant_at};
use geom_core::{Candidate, RamChoice};
use lib_core::Library;
use net_core::{Mem, MemJob, WrPort};

/// What a candidate that fits costs, in points. It takes no memory.
pub fn cost_of(job: &MemJob, lib: &Library, candidate: &Candidate) -> u64
    requires limits { Limits job.now lib.now }
    requires fits { candidate_fits job.now lib.now styles.Auto candidate.now ≡ true }
    ensures { result ≡ points.points_of job.now lib.now candidate.now }
{
    match candidate {
        Candidate::Registers => registers_points(&job.mem),
        Candidate::Ram(choice) => choice_points(job, lib, choice),
    }
}

#[tactic(auto, using(crate::proofs::Chosen::variant_within, crate::proofs::Chosen::spot_within, crate::proofs::Chosen::reads_within, crate::proofs::Chosen::writes_within, crate::proofs::Chosen::groups_within, crate::proofs::Chosen::places_within))]
fn choice_points(job: &MemJob, lib: &Library, choice: &RamChoice) -> u64
    requires limits { Limits job.now lib.now }
    requires fits { candidate_fits job.now lib.now styles.Auto (candidates.Ram choice.now) ≡ true }
    ensures { result ≡ points.points_of job.now lib.now (candidates.Ram choice.now) }
{
    match variant_at(lib, choice.ram, choice.variant) {
        None => 0,
        Some(variant) => ram_points(
            job,
            variant,
            spot_of(choice),
            choice.writes.as_slice(),
            choice.reads.as_slice(),
        ),
    }
}

/// What a memory costs in registers. It takes no memory.
#[tactic(auto, using(crate::proofs::Bounds::register_points_few))]
pub fn registers_points(mem: &Mem) -> u64
    requires { MemLimits mem.now }
    ensures { result ≡ points.registers_points mem.now }
{
    bit_points(mem.writes.as_slice()) * (u64::from(mem.size) * u64::from(mem.width))
}

fn bit_points(writes: &[WrPort]) -> u64
    ensures value { result ≡ points.bit_points writes.now }
    ensures bound { result ≤ 16 }
{
    match writes {
        [] => 1,
        [_, ..] => 16,
    }
}
