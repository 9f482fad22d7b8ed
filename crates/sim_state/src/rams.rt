//! What the RAM cells of a module keep.
ghost use Rattle.std.specs.Prelude.{◌≡◌, ◌+◌, ◌^◌, ◌<◌, ◌≤◌, Some, length, slice_get, IfOk};
ghost use Rattle.net_core.specs.declared.rams.SlotUse.{SlotUse};
ghost use Rattle.net_core.specs.Valid.{Each};
ghost use Rattle.ram_step.specs.Moments.{valuation};
ghost use Rattle.ram_step.specs.States.{RamLook};
ghost use Rattle.picked_run.specs.Conditions.{RamRuns};
ghost use Rattle.picked_run.specs.States.{each_cell, each_state};
ghost use Rattle.sim_state.specs.Cells.{AreStates, IsKeptByRam, ram_starts, ram_steps, ram_begins, ram_goes};
ghost use Rattle.sim_state.specs.Shows.{ShowsSlot};

use crate::boxes::RamBox;
use lib_core::{Library, Memory};
use net_core::{Event, RamCell, variant_of};
use ram_step::PickKey;
use std::alloc::Global;

/// The state of each RAM cell at the start, nothing where the library lacks its variant. The number of
/// the first among the cells is `first`.
pub(crate) fn start_rams(
    alloc: Global,
    library: &Library,
    cells: &[RamCell],
    first: u64,
    seed: u64,
) -> Result<Vec<Option<RamBox>>, Memory>
    requires few { first + length cells.now < 2 ^ 64 }
    requires runs { Each cells.now (RamRuns library.now) }
    ensures value { IfOk result (λ states. states.items ≡ each_cell (ram_begins library.now first seed) 0 cells.now) }
    ensures state { IfOk result (λ states. AreStates IsKeptByRam cells.now states.items) }
{
    let count = cells.len();
    let mut states = Vec::with_capacity(alloc, count)?;
    for index in 0..count {
        let key = PickKey {
            seed,
            event: 0,
            cell: first + index as u64,
        };
        let state = start_ram(alloc, library, &cells[index], &key)?;
        states.push(state)?;
    }
    Ok(states)
}

/// The state of a RAM cell at the start.
fn start_ram(
    alloc: Global,
    library: &Library,
    cell: &RamCell,
    key: &PickKey,
) -> Result<Option<RamBox>, Memory>
    requires { RamRuns library.now cell.now }
    ensures value { IfOk result (λ ram. ram ≡ ram_starts library.now cell.now key.now) }
    ensures state { IfOk result (λ ram. IsKeptByRam cell.now ram) }
{
    match variant_of(library, cell) {
        None => Ok(None),
        Some(variant) => {
            let ram = RamBox::new(alloc, variant, cell, key)?;
            Ok(Some(ram))
        }
    }
}

/// The state of each RAM cell after an event. It takes no memory.
pub(crate) fn step_rams(
    states: &mut [Option<RamBox>],
    cells: &[RamCell],
    first: u64,
    seed: u64,
    number: u64,
    values: &[bool],
    event: &Event,
)
    requires few { first + length cells.now < 2 ^ 64 }
    requires state { AreStates IsKeptByRam cells.now states.old }
    ensures count { length states.new ≡ length states.old }
    ensures state { AreStates IsKeptByRam cells.now states.new }
    ensures value { states.new ≡ each_state (ram_goes first seed number event.now (valuation values.now)) 0 cells.now states.old }
{
    for index in 0..cells.len() {
        let key = PickKey {
            seed,
            event: number,
            cell: first + index as u64,
        };
        step_ram(&mut states[index], &cells[index], values, event, &key);
    }
}

/// The state of a RAM cell after an event.
fn step_ram(
    state: &mut Option<RamBox>,
    cell: &RamCell,
    values: &[bool],
    event: &Event,
    key: &PickKey,
)
    requires { IsKeptByRam cell.now state.old }
    ensures value { state.new ≡ ram_steps cell.now (valuation values.now) event.now key.now state.old }
    ensures state { IsKeptByRam cell.now state.new }
{
    match state {
        None => {}
        Some(ram) => ram.step(cell, values, event, key),
    }
}

/// What a slot of a RAM cell shows from its low place on, where there is a state of the cell. It takes no
/// memory.
pub(crate) fn show_ram(
    state: &Option<RamBox>,
    cell: &RamCell,
    slot: u32,
    values: &[bool],
    key: &PickKey,
    out: &mut [bool],
)
    requires state { IsKeptByRam cell.now state.now }
    requires slot { slot < length cell.now.slots }
    requires room { (p : SlotUse) → slice_get cell.now.slots slot ≡ Some p → length out.old ≤ length p.out }
    ensures len { length out.new ≡ length out.old }
    ensures bits { (a : RamLook) → state.now ≡ Some a → ShowsSlot a cell.now (valuation values.now) key.now slot out.new }
{
    match state {
        None => {}
        Some(ram) => ram.show(cell, slot, values, key, out),
    }
}
