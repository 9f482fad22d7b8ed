//! Whether the modules of a design have room for their plans.
ghost use Rattle.std.specs.Prelude.{◌≡◌, ◌≤◌, ◌+◌, ◌*◌, length};
ghost use Rattle.geom_core.specs.declared.candidates.Candidate.TheVariants as candidate;
ghost use Rattle.fit_rules.specs.Limits.{LibraryLimits};
ghost use Rattle.net_core.specs.Valid.{Each, MemFits};
ghost use Rattle.ram_emit.specs.Plain.{IsPlain, IsPlainCandidate};
ghost use Rattle.plain_plan.specs.Planned.{job_of, mems_of, CanPlan, ArePlain};
ghost use Rattle.plain_plan.specs.Rooms as spec;

use fit_rules::Plan;
use fit_rules::fitting::{spot_of, variant_at};
use fit_rules::sizes::new_nets;
use geom_core::{Candidate, RamChoice};
use lib_core::Library;
use net_core::{Design, Mem, Module};

/// The nets that a module has at most.
const MOST_NETS: u128 = 67_108_864;

/// The most new nets that a plain candidate has. It takes no memory.
fn room_of(lib: &Library, mem: &Mem, candidate: &Candidate) -> u64
    requires library { LibraryLimits lib.now }
    requires memory { MemFits mem.now }
    requires plain { IsPlainCandidate lib.now (job_of mem.now) candidate.now }
    ensures value { result ≡ spec.room_of lib.now mem.now candidate.now }
    ensures few { result ≤ 16777216 }
{
    match candidate {
        Candidate::Registers => 0,
        Candidate::Ram(choice) => room_of_choice(lib, mem, choice),
    }
}

/// The most new nets that a plain choice has: it is of one cell.
#[tactic(auto, using(crate::proofs::Roomy::memory_within, crate::proofs::Roomy::variant_within, crate::proofs::Roomy::spot_within, crate::proofs::Roomy::few_reads, crate::proofs::Roomy::few_writes, crate::proofs::Roomy::room_is, crate::proofs::Roomy::room_few))]
fn room_of_choice(lib: &Library, mem: &Mem, choice: &RamChoice) -> u64
    requires library { LibraryLimits lib.now }
    requires memory { MemFits mem.now }
    requires plain { IsPlain lib.now (job_of mem.now) choice.now }
    ensures value { result ≡ spec.room_of lib.now mem.now (candidate.Ram choice.now) }
    ensures few { result ≤ 16777216 }
{
    match variant_at(lib, choice.ram, choice.variant) {
        None => 0,
        Some(variant) => new_nets(mem, variant, spot_of(choice), 1),
    }
}

/// The nets that a module has with the room of its plans.
#[tactic(auto, using(crate::proofs::Roomy::all_summed, crate::proofs::Roomy::run_out))]
fn nets_in_all(lib: &Library, module: &Module, plans: &[Plan]) -> u128
    requires library { LibraryLimits lib.now }
    requires memories { Each «module».now.mems MemFits }
    requires plain { ArePlain lib.now «module».now.mems plans.now }
    ensures { result ≡ spec.nets_in_all lib.now «module».now plans.now }
{
    let mut nets = u128::from(module.nets);
    let mut mems = module.mems.as_slice();
    let mut rest = plans;
    while let [mem, others @ ..] = mems {
        let [plan, tail @ ..] = rest else {
            return nets;
        };
        nets += u128::from(room_of(lib, mem, &plan.candidate));
        mems = others;
        rest = tail;
    }
    nets
}

/// For the first module whose nets with the room of its plans are more than a module may have, that
/// many; None where each module has room. The plans are those of the memories, modules in order. It
/// takes no memory.
#[tactic(auto, using(crate::proofs::Roomy::first_over_is, crate::proofs::Roomy::none_over))]
pub fn room_fault(design: &Design, lib: &Library, plans: &[Plan]) -> Option<u128>
    requires within { CanPlan lib.now design.now.modules }
    requires plain { ArePlain lib.now (mems_of design.now.modules) plans.now }
    ensures { result ≡ spec.first_over lib.now design.now.modules plans.now }
{
    let mut modules = design.modules.as_slice();
    let mut rest = plans;
    while let [module, others @ ..] = modules {
        let nets = nets_in_all(lib, module, rest);
        if nets > MOST_NETS {
            return Some(nets);
        }
        rest = rest.split_at(module.mems.as_slice().len()).1;
        modules = others;
    }
    None
}
