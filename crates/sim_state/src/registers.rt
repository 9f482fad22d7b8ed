//! What the registers of a module keep.
ghost use Rattle.std.specs.Prelude.{◌≡◌, ◌+◌, ◌^◌, ◌<◌, length, IfOk};
ghost use Rattle.ram_step.specs.Moments.{valuation};
ghost use Rattle.sim_cells.specs.KeptBits.{bit_lists};
ghost use Rattle.sim_cells.specs.Registers.{reg_stepped};
ghost use Rattle.picked_run.specs.States.{each_cell, each_state};
ghost use Rattle.sim_state.specs.Cells.{AreStates, IsKept, reg_begins, reg_goes};

use lib_core::Memory;
use net_core::{Event, Reg};
use ram_step::PickKey;
use sim_cells::{start_register, step_register};
use std::alloc::Global;

/// What each register keeps at the start. The number of the first among the cells is `first`.
pub(crate) fn start_registers(
    alloc: Global,
    regs: &[Reg],
    first: u64,
    seed: u64,
) -> Result<Vec<Vec<bool>>, Memory>
    requires { first + length regs.now < 2 ^ 64 }
    ensures { IfOk result (λ kept. bit_lists kept.items ≡ each_cell (reg_begins first seed) 0 regs.now) }
{
    let count = regs.len();
    let mut kept = Vec::with_capacity(alloc, count)?;
    for index in 0..count {
        let key = PickKey {
            seed,
            event: 0,
            cell: first + index as u64,
        };
        let bits = start_register(alloc, &regs[index], &key)?;
        kept.push(bits)?;
    }
    Ok(kept)
}

/// Keeps in each register what comes after an event. It takes no memory.
pub(crate) fn step_registers(
    kept: &mut [Vec<bool>],
    regs: &[Reg],
    first: u64,
    seed: u64,
    number: u64,
    values: &[bool],
    event: &Event,
)
    requires few { first + length regs.now < 2 ^ 64 }
    requires kept { AreStates IsKept regs.now (bit_lists kept.old) }
    ensures count { length kept.new ≡ length kept.old }
    ensures kept { AreStates IsKept regs.now (bit_lists kept.new) }
    ensures value { bit_lists kept.new ≡ each_state (reg_goes first seed number event.now (valuation values.now)) 0 regs.now (bit_lists kept.old) }
{
    for index in 0..regs.len() {
        let key = PickKey {
            seed,
            event: number,
            cell: first + index as u64,
        };
        step_kept(&mut kept[index], &regs[index], values, event, &key);
    }
}

/// Keeps in a register what comes after an event.
fn step_kept(kept: &mut Vec<bool>, reg: &Reg, values: &[bool], event: &Event, key: &PickKey)
    requires { length kept.old.items ≡ length reg.now.q }
    ensures { kept.new.items ≡ reg_stepped reg.now (valuation values.now) event.now key.now kept.old.items }
{
    step_register(reg, kept.as_mut_slice(), values, event, key);
}
