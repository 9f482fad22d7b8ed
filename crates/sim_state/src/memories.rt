//! What the memories of a module keep.
ghost use Rattle.std.specs.Prelude.{◌≡◌, ◌+◌, ◌^◌, ◌<◌, length, IfOk};
ghost use Rattle.net_core.specs.Valid.{Each, MemFits};
ghost use Rattle.ram_step.specs.Moments.{valuation};
ghost use Rattle.picked_run.specs.States.{each_cell, each_state};
ghost use Rattle.sim_state.specs.Cells.{AreStates, IsKeptByMem, mem_begins, mem_goes};

use lib_core::Memory;
use net_core::{Event, Mem};
use ram_step::PickKey;
use sim_cells::MemState;
use std::alloc::Global;

/// The state of each memory at the start. The number of the first among the cells is `first`.
pub(crate) fn start_memories(
    alloc: Global,
    mems: &[Mem],
    first: u64,
    seed: u64,
) -> Result<Vec<MemState>, Memory>
    requires few { first + length mems.now < 2 ^ 64 }
    requires fit { Each mems.now MemFits }
    ensures value { IfOk result (λ states. states.items ≡ each_cell (mem_begins first seed) 0 mems.now) }
    ensures state { IfOk result (λ states. AreStates IsKeptByMem mems.now states.items) }
{
    let count = mems.len();
    let mut states = Vec::with_capacity(alloc, count)?;
    for index in 0..count {
        let key = PickKey {
            seed,
            event: 0,
            cell: first + index as u64,
        };
        let state = MemState::new(alloc, &mems[index], &key)?;
        states.push(state)?;
    }
    Ok(states)
}

/// The state of each memory after an event. It takes no memory.
pub(crate) fn step_memories(
    states: &mut [MemState],
    mems: &[Mem],
    first: u64,
    seed: u64,
    number: u64,
    values: &[bool],
    event: &Event,
)
    requires few { first + length mems.now < 2 ^ 64 }
    requires fit { Each mems.now MemFits }
    requires state { AreStates IsKeptByMem mems.now states.old }
    ensures count { length states.new ≡ length states.old }
    ensures state { AreStates IsKeptByMem mems.now states.new }
    ensures value { states.new ≡ each_state (mem_goes first seed number event.now (valuation values.now)) 0 mems.now states.old }
{
    for index in 0..mems.len() {
        let key = PickKey {
            seed,
            event: number,
            cell: first + index as u64,
        };
        let state = &mut states[index];
        state.step(&mems[index], values, event, &key);
    }
}
