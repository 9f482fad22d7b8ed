//! Clocks, and where they lead.
ghost use Rattle.std.specs.Prelude.{◌≡◌, IfOk, List as Seq};
ghost use Rattle.std.specs.List.{list_any};
ghost use Rattle.net_wires.specs.Clocks.{AreClocks};
ghost use Rattle.net_wires.specs.declared.clock.ClockRoot.{ClockRoot as Clocks};
ghost use Rattle.net_checks.specs.Checks as checks;
ghost use Rattle.net_checks.specs.ClockPins as spec;
ghost use Rattle.net_checks.specs.Finds.{FindsFirst};

use crate::digits::digits;
use crate::fault::{ModuleHalt, broken};
use crate::inverters::inverters;
use crate::looked::cell_clocks;
use crate::roots::root_places;
use lib_core::{List, Memory};
use net_gather::Gathered;
use net_wires::{BuildCode, ClockRoot, Source, clock_of, clocks};
use raw_cells::RawCell;
use rtlil_text::Item;
use std::alloc::Global;

fn lacks_root(clocks: &[ClockRoot], source: Source) -> bool
    ensures { result ≡ spec.lacks_root clocks.now source }
{
    match clock_of(clocks, source) {
        ClockRoot::Unknown => true,
        ClockRoot::Never => false,
        ClockRoot::Root { .. } => false,
    }
}

fn any_lacks_root(clocks: &[ClockRoot], sources: &[Source]) -> bool
    ensures { result ≡ list_any (spec.lacks_root clocks.now) sources.now }
{
    sources.iter().any(|source| lacks_root(clocks, *source))
}

/// Stops where a clock of the cell leads nowhere.
fn check_cell(alloc: Global, clocks: &[ClockRoot], cell: &RawCell) -> Result<(), ModuleHalt>
    ensures { FindsFirst result (spec.clock_fault clocks.now cell.now) (λ _. Unit {0}) }
{
    let sources = cell_clocks(alloc, cell)?;
    if any_lacks_root(clocks, sources.as_slice()) {
        let name = cell.name.copy(alloc)?;
        return Err(broken(BuildCode::ClockRoot, name));
    }
    Ok(())
}

/// Stops at the first cell with a clock that leads nowhere.
fn check_cells(alloc: Global, clocks: &[ClockRoot], cells: &[RawCell]) -> Result<(), ModuleHalt>
    ensures { FindsFirst result (spec.clock_faults clocks.now cells.now) (λ _. Unit {0}) }
{
    let mut rest = cells;
    while let [cell, tail @ ..] = rest {
        check_cell(alloc, clocks, cell)?;
        rest = tail;
    }
    Ok(())
}

/// Where each place leads.
fn module_clocks(
    alloc: Global,
    items: &[Item],
    gathered: &Gathered,
) -> Result<List<ClockRoot>, Memory>
    requires sound { checks.IsSound items.now gathered.now }
    ensures { IfOk result (AreClocks (checks.module_links gathered.now) (spec.clock_drives items.now gathered.now)) }
{
    let roots = root_places(alloc, items, gathered.cells.as_slice())?;
    let inverters = inverters(alloc, gathered.cells.as_slice())?;
    let digits = digits(alloc, gathered)?;
    clocks(
        alloc,
        gathered.places,
        gathered.pairs.as_slice(),
        roots.as_slice(),
        inverters.as_slice(),
        digits.as_slice(),
    )
}

/// Where each place leads. It stops at the first cell with a clock that leads neither to a digit of
/// a constant nor to an input, or to what a cell drives that is kept as it is (`ClockRoot`).
pub(crate) fn check_clocks(
    alloc: Global,
    items: &[Item],
    gathered: &Gathered,
) -> Result<List<ClockRoot>, ModuleHalt>
    requires sound { checks.IsSound items.now gathered.now }
    ensures { (clocks : Seq Clocks) → AreClocks (checks.module_links gathered.now) (spec.clock_drives items.now gathered.now) clocks → FindsFirst result (spec.clock_faults clocks gathered.now.cells) (λ roots. roots ≡ clocks) }
{
    let clocks = module_clocks(alloc, items, gathered)?;
    check_cells(alloc, clocks.as_slice(), gathered.cells.as_slice())?;
    Ok(clocks)
}
