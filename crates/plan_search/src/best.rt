//! The first candidate of least points.
ghost use Rattle.std.specs.Prelude.{◌≡◌, ◌≤◌, length, IfOk};
ghost use Rattle.fit_rules.specs.Candidates as listed;
ghost use Rattle.fit_rules.specs.Limits.{MemLimits, VariantLimits, RamLimits, Limits};
ghost use Rattle.fit_cost.specs.Points.{score};
ghost use Rattle.plan_search.specs.Choice.{best_of};
ghost use Rattle.plan_search.specs.Rams as rams;

use crate::cutting::beats;
use crate::writing::{search_spot, write_choices};
use fit_cost::costs::registers_points;
use fit_rules::rules::{can_start, few_ports, is_aligned, registers_fit, style_allows};
use fit_rules::{Plan, Spot};
use geom_core::Candidate;
use lib_core::{Library, List, Memory, RamKind, Variant};
use net_core::{Mem, MemJob, Style};
use std::alloc::Global;

// The best after all levels of one fold.
#[tactic(auto, using(crate::proofs::Walked::fold_below_more))]
fn search_levels(
    alloc: Global,
    job: &MemJob,
    variant: &Variant,
    ram: u32,
    at: u32,
    fold: u32,
    choices: &[List<u32>],
    best: Option<Plan>,
) -> Result<Option<Plan>, Memory>
    requires memory { MemLimits job.now.mem }
    requires limits { VariantLimits variant.now }
    requires fold { fold ≤ 6 }
    requires few_reads { length job.now.mem.reads ≤ 8 }
    requires few_writes { length job.now.mem.writes ≤ 4 }
    requires choices { choices.now ≡ listed.write_choices job.now.mem variant.now }
    ensures { IfOk result (λ after. after ≡ rams.at_fold job.now variant.now ram at best fold) }
{
    let mut best = best;
    for level in 0..variant.widths.as_slice().len() as u32 {
        let spot = Spot {
            ram,
            variant: at,
            fold,
            level,
        };
        best = search_spot(alloc, job, variant, spot, choices, best)?;
    }
    Ok(best)
}

// The best after all folds of one variant.
#[tactic(auto, using(crate::proofs::Walked::fold_below_more))]
fn search_folds(
    alloc: Global,
    job: &MemJob,
    variant: &Variant,
    ram: u32,
    at: u32,
    best: Option<Plan>,
) -> Result<Option<Plan>, Memory>
    requires memory { MemLimits job.now.mem }
    requires limits { VariantLimits variant.now }
    requires few_reads { length job.now.mem.reads ≤ 8 }
    requires few_writes { length job.now.mem.writes ≤ 4 }
    ensures { IfOk result (λ after. after ≡ rams.at_folds job.now variant.now ram at best) }
{
    let choices = write_choices(alloc, &job.mem, variant)?;
    let mut best = best;
    for fold in 0..7 {
        best = search_levels(alloc, job, variant, ram, at, fold, choices.as_slice(), best)?;
    }
    Ok(best)
}

// The best after all candidates of one variant.
#[tactic(auto, using(crate::proofs::Cuts::cannot_start))]
fn search_variant(
    alloc: Global,
    job: &MemJob,
    variant: &Variant,
    ram: u32,
    at: u32,
    best: Option<Plan>,
) -> Result<Option<Plan>, Memory>
    requires memory { MemLimits job.now.mem }
    requires limits { VariantLimits variant.now }
    requires few_reads { length job.now.mem.reads ≤ 8 }
    requires few_writes { length job.now.mem.writes ≤ 4 }
    ensures { IfOk result (λ after. after ≡ rams.at_folds job.now variant.now ram at best) }
{
    if !can_start(&job.mem, variant) {
        return Ok(best);
    }
    search_folds(alloc, job, variant, ram, at, best)
}

// The best after all variants of one RAM.
fn search_variants(
    alloc: Global,
    job: &MemJob,
    ram: u32,
    kind: &RamKind,
    best: Option<Plan>,
) -> Result<Option<Plan>, Memory>
    requires memory { MemLimits job.now.mem }
    requires limits { RamLimits kind.now }
    requires few_reads { length job.now.mem.reads ≤ 8 }
    requires few_writes { length job.now.mem.writes ≤ 4 }
    ensures { IfOk result (λ after. after ≡ rams.at_variants job.now ram best kind.now) }
{
    let variants = kind.variants.as_slice();
    let mut best = best;
    for at in 0..variants.len() {
        best = search_variant(alloc, job, &variants[at], ram, at as u32, best)?;
    }
    Ok(best)
}

// The best after all candidates of one RAM.
fn search_ram(
    alloc: Global,
    job: &MemJob,
    style: &Style,
    ram: u32,
    kind: &RamKind,
    best: Option<Plan>,
) -> Result<Option<Plan>, Memory>
    requires memory { MemLimits job.now.mem }
    requires limits { RamLimits kind.now }
    requires few_reads { length job.now.mem.reads ≤ 8 }
    requires few_writes { length job.now.mem.writes ≤ 4 }
    ensures { IfOk result (λ after. after ≡ rams.at_ram job.now style.now best ram kind.now) }
{
    if !style_allows(style, kind) {
        return Ok(best);
    }
    search_variants(alloc, job, ram, kind, best)
}

// The best of all RAMs.
fn search_rams(
    alloc: Global,
    job: &MemJob,
    style: &Style,
    lib: &Library,
    best: Option<Plan>,
) -> Result<Option<Plan>, Memory>
    requires limits { Limits job.now lib.now }
    requires few_reads { length job.now.mem.reads ≤ 8 }
    requires few_writes { length job.now.mem.writes ≤ 4 }
    ensures { IfOk result (λ after. after ≡ rams.at_rams job.now style.now lib.now best) }
{
    let rams = lib.rams.as_slice();
    let mut best = best;
    for ram in 0..rams.len() {
        best = search_ram(alloc, job, style, ram as u32, &rams[ram], best)?;
    }
    Ok(best)
}

// The best of all RAMs, where the memory's ports allow any.
fn search_library(
    alloc: Global,
    job: &MemJob,
    style: &Style,
    lib: &Library,
    best: Option<Plan>,
) -> Result<Option<Plan>, Memory>
    requires { Limits job.now lib.now }
    ensures { IfOk result (λ after. after ≡ rams.at_library job.now style.now lib.now best) }
{
    if few_ports(&job.mem) && is_aligned(&job.mem) {
        search_rams(alloc, job, style, lib, best)
    } else {
        Ok(best)
    }
}

// What the search begins with: as if it had a candidate that costs one point more than the registers.
#[tactic(auto, using(crate::proofs::Capped::registers_few))]
fn above_registers(mem: &Mem, style: &Style) -> Option<Plan>
    requires { MemLimits mem.now }
    ensures { result ≡ rams.above_registers mem.now style.now }
{
    if !registers_fit(mem, style) {
        return None;
    }
    Some(Plan {
        candidate: Candidate::Registers,
        points: registers_points(mem) + 1,
    })
}

// The best after the registers.
fn with_registers(mem: &Mem, style: &Style, best: Option<Plan>) -> Option<Plan>
    requires { MemLimits mem.now }
    ensures { result ≡ rams.with_registers mem.now style.now best }
{
    if !registers_fit(mem, style) {
        return best;
    }
    let points = registers_points(mem);
    if !beats(points, &best) {
        return best;
    }
    Some(Plan {
        candidate: Candidate::Registers,
        points,
    })
}

/// The first candidate of least points among all that fit, with its points; None exactly where no
/// candidate fits. Without memory for the search itself the answer is `Memory`.
#[tactic(auto, using(crate::proofs::Listed::best_at_last))]
pub fn least(
    alloc: Global,
    job: &MemJob,
    lib: &Library,
    style: &Style,
) -> Result<Option<Plan>, Memory>
    requires { Limits job.now lib.now }
    ensures { IfOk result (λ plan. plan ≡ best_of (score job.now lib.now style.now) (listed.candidates job.now.mem lib.now)) }
{
    let start = above_registers(&job.mem, style);
    let best = search_library(alloc, job, style, lib, start)?;
    Ok(with_registers(&job.mem, style, best))
}
