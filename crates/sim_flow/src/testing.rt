//! Whether a module can be simulated.
ghost use Rattle.std.specs.Prelude.{◌≡◌, ◌↔◌, true, IfOk};
ghost use Rattle.std.specs.List.{list_all};
ghost use Rattle.fit_rules.specs.Limits.{LibraryLimits};
ghost use Rattle.net_core.specs.Runs as runs;
ghost use Rattle.picked_run.specs.Conditions.{CanRun};
ghost use Rattle.sim_flow.specs.Testing as spec;

use fit_rules::library_within;
use lib_core::{Library, Memory};
use net_core::{Module, RamCell, cell_fits, variant_of};
use net_live::{bits_within, is_sound};
use picked_run::outputs;
use std::alloc::Global;

/// The greatest number of 32 bits.
const MOST: usize = 4_294_967_295;

/// Whether the variant of a cell is there and has a width.
fn some_widths(library: &Library, cell: &RamCell) -> bool
    ensures { result ≡ spec.some_widths (runs.variant_of library.now cell.now) }
{
    match variant_of(library, cell) {
        None => false,
        Some(variant) => !variant.widths.as_slice().is_empty(),
    }
}

fn ram_runs(library: &Library, cell: &RamCell) -> bool
    ensures { result ≡ spec.ram_runs library.now cell.now }
{
    cell_fits(cell, library) && cell.slots.as_slice().len() < MOST && some_widths(library, cell)
}

/// Whether each RAM cell can be simulated.
fn rams_run(library: &Library, cells: &[RamCell]) -> bool
    ensures { result ≡ list_all (spec.ram_runs library.now) cells.now }
{
    cells.iter().all(|cell| ram_runs(library, cell))
}

/// Whether numbers of 32 bits can name the memories and the RAM cells.
fn has_counts(module: &Module) -> bool
    ensures { result ≡ true ↔ spec.HasCounts «module».now }
{
    module.mems.as_slice().len() <= MOST && module.rams.as_slice().len() <= MOST
}

/// Whether the outputs have nets of the module alone.
fn outputs_within(alloc: Global, module: &Module) -> Result<bool, Memory>
    ensures { IfOk result (λ within. within ≡ true ↔ spec.OutputsWithin «module».now) }
{
    let bits = outputs(alloc, module)?;
    Ok(bits_within(module.nets, bits.as_slice()))
}

/// Whether a module can be simulated under a library: the library is within its limits, the module's
/// memories are whole and fit, its RAM cells have their shapes, its nets are its own and have at most one
/// driver each, and its nodes have a combinational order. The answer is no exactly where it cannot.
#[tactic(auto, using(crate::proofs::Tested::runs_limits, crate::proofs::Tested::runs_rams, crate::proofs::Tested::runs_counts, crate::proofs::Tested::runs_outputs))]
pub fn can_run(alloc: Global, library: &Library, module: &Module) -> Result<bool, Memory>
    ensures exact { IfOk result (λ can. can ≡ true ↔ (LibraryLimits library.now × CanRun library.now «module».now)) }
    ensures says { IfOk result (λ can. can ≡ true → CanRun library.now «module».now) }
{
    if !library_within(library)
        || !rams_run(library, module.rams.as_slice())
        || !has_counts(module)
    {
        return Ok(false);
    }
    if !outputs_within(alloc, module)? {
        return Ok(false);
    }
    let sound = is_sound(alloc, library, module)?;
    Ok(sound)
}
