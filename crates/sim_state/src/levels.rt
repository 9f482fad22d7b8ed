//! The state of a RAM cell, by the number of its widths.
ghost use Rattle.std.specs.Prelude.{◌≡◌, ℕ, ◌*◌, ◌-◌, ◌^◌, ◌<◌, ◌≤◌, Some, true, length, IfOk};
ghost use Rattle.lib_core.specs.Rams.{last_width};
ghost use Rattle.net_core.specs.Shape.{fits_variant};
ghost use Rattle.ram_step.specs.Moments.{valuation};
ghost use Rattle.ram_step.specs.States.{IsStateOf, start_of, stepped};
ghost use Rattle.picked_run.specs.Conditions.{VariantRuns};
ghost use Rattle.sim_state.specs.Looks.{level_look};
ghost use Rattle.sim_state.specs.Shows.{IsAsWide, ShowsSlot};

use lib_core::{Memory, Variant};
use net_core::{Event, RamCell};
use ram_step::{PickKey, RamState};
use std::alloc::Global;

/// The state of a RAM cell with 1 to 8 widths.
#[derive(Drop)]
pub(crate) enum Levels<const LIMBS: usize> {
    One(RamState<LIMBS, 1>),
    Two(RamState<LIMBS, 2>),
    Three(RamState<LIMBS, 3>),
    Four(RamState<LIMBS, 4>),
    Five(RamState<LIMBS, 5>),
    Six(RamState<LIMBS, 6>),
    Seven(RamState<LIMBS, 7>),
    Eight(RamState<LIMBS, 8>),
}

impl<const LIMBS: usize> Levels<LIMBS> {
    /// The state at the start of a cell that fits the variant.
    pub fn new(
        alloc: Global,
        variant: &Variant,
        cell: &RamCell,
        picks: &PickKey,
    ) -> Result<Levels<LIMBS>, Memory>
        requires fits { fits_variant cell.now (Some variant.now) ≡ true }
        requires variant { VariantRuns variant.now }
        requires few_bits { last_width variant.now ≤ 64 * LIMBS }
        requires few_limbs { 64 * LIMBS < 2 ^ 32 }
        requires few_slots { length cell.now.slots < 2 ^ 32 - 1 }
        ensures value { IfOk result (λ levels. level_look levels ≡ start_of variant.now cell.now picks.now) }
        ensures state { IfOk result (λ levels. IsStateOf (level_look levels) cell.now) }
    {
        match variant.widths.as_slice().len() {
            1 => Ok(Levels::One(RamState::new(alloc, variant, cell, picks)?)),
            2 => Ok(Levels::Two(RamState::new(alloc, variant, cell, picks)?)),
            3 => Ok(Levels::Three(RamState::new(alloc, variant, cell, picks)?)),
            4 => Ok(Levels::Four(RamState::new(alloc, variant, cell, picks)?)),
            5 => Ok(Levels::Five(RamState::new(alloc, variant, cell, picks)?)),
            6 => Ok(Levels::Six(RamState::new(alloc, variant, cell, picks)?)),
            7 => Ok(Levels::Seven(RamState::new(alloc, variant, cell, picks)?)),
            8 => Ok(Levels::Eight(RamState::new(alloc, variant, cell, picks)?)),
            _ => unreachable!(),
        }
    }

    /// The state after an event, at these values of the nets. It takes no memory.
    pub fn step(&mut self, cell: &RamCell, values: &[bool], event: &Event, picks: &PickKey)
        requires { IsStateOf (level_look self.old) cell.now }
        ensures value { level_look self.new ≡ stepped (level_look self.old) cell.now (valuation values.now) event.now picks.now }
        ensures state { IsStateOf (level_look self.new) cell.now }
    {
        match self {
            Levels::One(state) => state.step(cell, values, event, picks),
            Levels::Two(state) => state.step(cell, values, event, picks),
            Levels::Three(state) => state.step(cell, values, event, picks),
            Levels::Four(state) => state.step(cell, values, event, picks),
            Levels::Five(state) => state.step(cell, values, event, picks),
            Levels::Six(state) => state.step(cell, values, event, picks),
            Levels::Seven(state) => state.step(cell, values, event, picks),
            Levels::Eight(state) => state.step(cell, values, event, picks),
        }
    }

    /// What a slot shows from its low place on. It takes no memory.
    pub fn show(
        &self,
        cell: &RamCell,
        slot: u32,
        values: &[bool],
        picks: &PickKey,
        out: &mut [bool],
    )
        requires state { IsStateOf (level_look self.now) cell.now }
        requires slot { slot < length cell.now.slots }
        requires few { length out.old < 2 ^ 32 }
        requires room { IsAsWide (level_look self.now) cell.now slot (length out.old) }
        ensures len { length out.new ≡ length out.old }
        ensures bits { ShowsSlot (level_look self.now) cell.now (valuation values.now) picks.now slot out.new }
    {
        match self {
            Levels::One(state) => show_slot(state, cell, slot, values, picks, out),
            Levels::Two(state) => show_slot(state, cell, slot, values, picks, out),
            Levels::Three(state) => show_slot(state, cell, slot, values, picks, out),
            Levels::Four(state) => show_slot(state, cell, slot, values, picks, out),
            Levels::Five(state) => show_slot(state, cell, slot, values, picks, out),
            Levels::Six(state) => show_slot(state, cell, slot, values, picks, out),
            Levels::Seven(state) => show_slot(state, cell, slot, values, picks, out),
            Levels::Eight(state) => show_slot(state, cell, slot, values, picks, out),
        }
    }
}

/// What a slot shows from its low place on.
fn show_slot<const LIMBS: usize, const LEVELS: usize>(
    state: &RamState<LIMBS, LEVELS>,
    cell: &RamCell,
    slot: u32,
    values: &[bool],
    picks: &PickKey,
    out: &mut [bool],
)
    requires state { IsStateOf state.now cell.now }
    requires slot { slot < length cell.now.slots }
    requires few { length out.old < 2 ^ 32 }
    requires room { IsAsWide state.now cell.now slot (length out.old) }
    ensures len { length out.new ≡ length out.old }
    ensures bits { ShowsSlot state.now cell.now (valuation values.now) picks.now slot out.new }
{
    for (place, here) in out.iter_mut().enumerate() {
        *here = state.output(cell, slot, place as u32, values, picks);
    }
}
