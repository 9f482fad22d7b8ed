//! Which candidates of a memory are plain.
ghost use Rattle.std.specs.Prelude.{◌≡◌, ◌≤◌, ◌<◌, ◌+◌, ◌^◌, true};
ghost use Rattle.std.specs.List.{list_all};
ghost use Rattle.std.specs.Option.{option_copied};
ghost use Rattle.net_core.specs.declared.mems.Style.TheVariants as styles;
ghost use Rattle.geom_core.specs.declared.candidates.Candidate.TheVariants as candidate;
ghost use Rattle.fit_rules.specs.Fits.{candidate_fits};
ghost use Rattle.fit_rules.specs.Limits.{Limits, MemLimits};
ghost use Rattle.ram_emit.specs.Judging as judging;
ghost use Rattle.ram_emit.specs.Plain as spec;

use fit_rules::bits::two_to;
use fit_rules::fitting::variant_at;
use fit_rules::{fits, shape_of};
use geom_core::{Candidate, RamChoice, Shape};
use lib_core::{Group, Library, PortKind, Variant};
use net_core::{Mem, MemJob, RdPort, Style, WrPort};

/// Whether one cell of the candidate stands for the whole memory, each port of the memory at a port
/// of the cell that does the same. It takes no memory.
#[tactic(auto, using(crate::proofs::Judged::plain_tells, crate::proofs::Judged::plain_told))]
pub fn is_plain(lib: &Library, job: &MemJob, candidate: &Candidate) -> bool
    requires { Limits job.now lib.now }
    ensures yes { result ≡ true → spec.IsPlainCandidate lib.now job.now candidate.now }
    ensures only { spec.IsPlainCandidate lib.now job.now candidate.now → result ≡ true }
{
    is_judged(lib, job, candidate)
}

fn is_judged(lib: &Library, job: &MemJob, candidate: &Candidate) -> bool
    requires { Limits job.now lib.now }
    ensures { result ≡ judging.is_plain lib.now job.now candidate.now }
{
    match candidate {
        Candidate::Registers => false,
        Candidate::Ram(choice) => {
            if fits(job, lib, &Style::Auto, candidate) {
                is_plain_choice(lib, job, choice)
            } else {
                false
            }
        }
    }
}

fn is_plain_choice(lib: &Library, job: &MemJob, choice: &RamChoice) -> bool
    requires limits { Limits job.now lib.now }
    requires fits { candidate_fits job.now lib.now styles.Auto (candidate.Ram choice.now) ≡ true }
    ensures { result ≡ judging.is_plain_choice lib.now job.now choice.now }
{
    choice.fold == 0
        && (is_one_cell(shape_of(job, lib, choice))
            && (is_plain_at(variant_at(lib, choice.ram, choice.variant)) && is_plain_mem(&job.mem)))
}

fn is_one_cell(shape: Shape) -> bool
    ensures { result ≡ judging.is_one_cell shape }
{
    shape.copies == 1 && (shape.rows == 1 && shape.columns == 1)
}

fn is_plain_at(variant: Option<&Variant>) -> bool
    ensures { result ≡ spec.is_plain_at (option_copied variant.entry) }
{
    match variant {
        None => false,
        Some(variant) => is_plain_variant(variant),
    }
}

fn is_plain_variant(variant: &Variant) -> bool
    ensures { result ≡ spec.is_plain_variant variant.now }
{
    variant.byte.is_none()
        && (variant.widths.as_slice().len() == 1 && are_plain(variant.groups.as_slice()))
}

fn are_plain(groups: &[Group]) -> bool
    ensures { result ≡ list_all spec.is_plain_group groups.now }
{
    groups.iter().all(|group| is_plain_group(group))
}

fn is_plain_group(group: &Group) -> bool
    ensures { result ≡ spec.is_plain_group group.now }
{
    is_plain_kind(group.kind) && (!group.clken && (!group.separate && has_first_level(group)))
}

fn has_first_level(group: &Group) -> bool
    ensures { result ≡ spec.has_first_level group.now }
{
    group.levels.as_slice().iter().any(|level| 0 == *level)
}

fn is_plain_kind(kind: PortKind) -> bool
    ensures { result ≡ spec.is_plain_kind kind }
{
    match kind {
        PortKind::Ar | PortKind::Sw => true,
        PortKind::Sr | PortKind::Arsw | PortKind::Srsw => false,
    }
}

fn is_plain_mem(mem: &Mem) -> bool
    requires { MemLimits mem.now }
    ensures { result ≡ judging.is_plain_mem mem.now }
{
    has_plain_write(mem) && (has_plain_read(mem) && has_every_word(mem))
}

fn has_plain_write(mem: &Mem) -> bool
    ensures { result ≡ judging.has_plain_write mem.now }
{
    let writes = mem.writes.as_slice();
    writes.len() == 1 && are_plain_writes(writes)
}

fn are_plain_writes(writes: &[WrPort]) -> bool
    ensures { result ≡ list_all spec.is_plain_write writes.now }
{
    writes.iter().all(|write| write.wide == 0)
}

fn has_plain_read(mem: &Mem) -> bool
    ensures { result ≡ judging.has_plain_read mem.now }
{
    let reads = mem.reads.as_slice();
    reads.len() == 1 && are_plain_reads(reads)
}

fn are_plain_reads(reads: &[RdPort]) -> bool
    ensures { result ≡ list_all spec.is_plain_read reads.now }
{
    reads.iter().all(|read| is_plain_read(read))
}

fn is_plain_read(read: &RdPort) -> bool
    ensures { result ≡ spec.is_plain_read read.now }
{
    read.clock.is_none() && read.wide == 0
}

fn has_every_word(mem: &Mem) -> bool
    requires { MemLimits mem.now }
    ensures { result ≡ judging.has_every_word mem.now }
{
    mem.offset == 0 && is_power(mem.size, mem.abits)
}

/// Whether a number is 2 to this power.
#[tactic(auto, using(crate::proofs::Judged::few_address))]
fn is_power(number: u32, exponent: u32) -> bool
    requires few { number ≤ 1048576 }
    ensures { result ≡ judging.is_power number exponent }
{
    if exponent > 20 {
        return false;
    }
    u64::from(number) == two_to(exponent)
}
