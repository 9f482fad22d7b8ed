//! Which candidates fit, and their shapes.
ghost use Rattle.std.specs.Prelude.{◌≡◌, ◌≤◌, true, slice_get};
ghost use Rattle.std.specs.Option.{option_copied};
ghost use Rattle.net_core.specs.declared.mems.Style.TheVariants as styles;
ghost use Rattle.geom_core.specs.declared.candidates.Candidate.TheVariants as candidate;
ghost use Rattle.fit_rules.specs.Limits.{Limits, MemLimits, RamLimits, VariantLimits};
ghost use Rattle.fit_rules.specs.Fits as fitting;

use crate::rules::{ram_fits, registers_fit, style_allows};
use crate::shapes::shape_at;
use crate::spots::Spot;
use geom_core::{Candidate, RamChoice, Shape};
use lib_core::{Library, RamKind, Variant};
use net_core::{MemJob, Style};

/// Whether the candidate is one of the memory's and fits. It takes no memory.
pub fn fits(job: &MemJob, lib: &Library, style: &Style, candidate: &Candidate) -> bool
    requires { Limits job.now lib.now }
    ensures { result ≡ fitting.candidate_fits job.now lib.now style.now candidate.now }
{
    match candidate {
        Candidate::Registers => registers_fit(&job.mem, style),
        Candidate::Ram(choice) => fits_library(job, lib, style, choice),
    }
}

fn fits_library(job: &MemJob, lib: &Library, style: &Style, choice: &RamChoice) -> bool
    requires { Limits job.now lib.now }
    ensures { result ≡ fitting.candidate_fits job.now lib.now style.now (candidate.Ram choice.now) }
{
    match ram_at(lib, choice.ram) {
        None => false,
        Some(ram) => style_allows(style, ram) && fits_ram(job, ram, choice),
    }
}

fn fits_ram(job: &MemJob, ram: &RamKind, choice: &RamChoice) -> bool
    requires memory { MemLimits job.now.mem }
    requires limits { RamLimits ram.now }
    ensures { result ≡ fitting.fits_ram job.now ram.now choice.now }
{
    match variant_of(ram, choice.variant) {
        None => false,
        Some(variant) => fits_variant(job, variant, choice),
    }
}

fn fits_variant(job: &MemJob, variant: &Variant, choice: &RamChoice) -> bool
    requires memory { MemLimits job.now.mem }
    requires limits { VariantLimits variant.now }
    ensures { result ≡ fitting.fits_at job.now choice.now variant.now }
{
    let spot = spot_of(choice);
    if spot.fold <= 6 && (spot.level as usize) < variant.widths.as_slice().len() {
        ram_fits(
            job,
            variant,
            spot,
            choice.writes.as_slice(),
            choice.reads.as_slice(),
        )
    } else {
        false
    }
}

/// Where in the library a choice is. It takes no memory.
pub fn spot_of(choice: &RamChoice) -> Spot
    ensures { result ≡ fitting.spot_of choice.now }
{
    Spot {
        ram: choice.ram,
        variant: choice.variant,
        fold: choice.fold,
        level: choice.level,
    }
}

/// The copies, rows and columns of a choice that fits. It takes no memory.
#[tactic(auto, using(crate::proofs::Chosen::variant_limits, crate::proofs::Chosen::spot_met, crate::proofs::Chosen::places_met))]
pub fn shape_of(job: &MemJob, lib: &Library, choice: &RamChoice) -> Shape
    requires limits { Limits job.now lib.now }
    requires fits { fitting.candidate_fits job.now lib.now styles.Auto (candidate.Ram choice.now) ≡ true }
    ensures { result ≡ fitting.shape_of job.now lib.now choice.now }
{
    match variant_at(lib, choice.ram, choice.variant) {
        None => Shape {
            copies: 0,
            rows: 0,
            columns: 0,
        },
        Some(variant) => shape_at(
            &job.mem,
            variant,
            spot_of(choice),
            choice.writes.as_slice(),
            choice.reads.as_slice(),
        ),
    }
}

/// A RAM of the library, where it has it. It takes no memory.
pub fn ram_at(lib: &Library, ram: u32) -> Option<&RamKind>
    ensures { option_copied result ≡ slice_get lib.now.rams ram }
{
    lib.rams.as_slice().get(ram as usize)
}

/// A variant of a RAM, where it has it. It takes no memory.
pub fn variant_of(ram: &RamKind, variant: u32) -> Option<&Variant>
    ensures { option_copied result ≡ slice_get ram.now.variants variant }
{
    ram.variants.as_slice().get(variant as usize)
}

/// A variant of the library, where it has it. It takes no memory.
pub fn variant_at(lib: &Library, ram: u32, variant: u32) -> Option<&Variant>
    ensures { option_copied result ≡ fitting.variant_at lib.now ram variant }
{
    match ram_at(lib, ram) {
        None => None,
        Some(ram) => variant_of(ram, variant),
    }
}
