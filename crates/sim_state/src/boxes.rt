//! The state of a RAM cell, by the width of its words.
ghost use Rattle.std.specs.Prelude.{◌≡◌, ℕ, ◌*◌, ◌-◌, ◌^◌, ◌<◌, ◌≤◌, Some, true, length, IfOk};
ghost use Rattle.lib_core.specs.Rams as rams;
ghost use Rattle.net_core.specs.Shape.{fits_variant};
ghost use Rattle.ram_step.specs.Moments.{valuation};
ghost use Rattle.ram_step.specs.States.{IsStateOf, start_of, stepped};
ghost use Rattle.picked_run.specs.Conditions.{VariantRuns};
ghost use Rattle.sim_state.specs.Shows.{IsAsWide, ShowsSlot};

use crate::levels::Levels;
use lib_core::{Memory, Variant};
use net_core::{Event, RamCell};
use ram_step::PickKey;
use std::alloc::Global;
use std::marker::Model;

/// The state of a RAM cell whose words have at most 64, 256 or 1,024 bits.
#[derive(Drop)]
pub(crate) enum Limbs {
    Narrow(Levels<1>),
    Middle(Levels<4>),
    Wide(Levels<16>),
}

/// The state of a RAM cell. Contracts see what a `RamState` shows of it.
#[derive(Drop)]
pub(crate) struct RamBox {
    limbs: Limbs,
}

impl Model for RamBox {
    ghost use Rattle.ram_step.specs.States.{RamLook};

    ghost Value = { RamLook };

    ghost use Rattle.sim_state.specs.Looks.{limb_look};

    ghost view = { λ b. limb_look b.limbs };
}

impl RamBox {
    /// The state at the start of a cell that fits the variant.
    pub fn new(
        alloc: Global,
        variant: &Variant,
        cell: &RamCell,
        picks: &PickKey,
    ) -> Result<RamBox, Memory>
        requires fits { fits_variant cell.now (Some variant.now) ≡ true }
        requires variant { VariantRuns variant.now }
        requires few_slots { length cell.now.slots < 2 ^ 32 - 1 }
        ensures value { IfOk result (λ ram. ram ≡ start_of variant.now cell.now picks.now) }
        ensures state { IfOk result (λ ram. IsStateOf ram cell.now) }
    {
        let width = last_width(variant);
        if width <= 64 {
            let levels = Levels::new(alloc, variant, cell, picks)?;
            Ok(RamBox {
                limbs: Limbs::Narrow(levels),
            })
        } else if width <= 256 {
            let levels = Levels::new(alloc, variant, cell, picks)?;
            Ok(RamBox {
                limbs: Limbs::Middle(levels),
            })
        } else {
            let levels = Levels::new(alloc, variant, cell, picks)?;
            Ok(RamBox {
                limbs: Limbs::Wide(levels),
            })
        }
    }

    /// The state after an event, at these values of the nets. It takes no memory.
    pub fn step(&mut self, cell: &RamCell, values: &[bool], event: &Event, picks: &PickKey)
        requires { IsStateOf self.old cell.now }
        ensures value { self.new ≡ stepped self.old cell.now (valuation values.now) event.now picks.now }
        ensures state { IsStateOf self.new cell.now }
    {
        match &mut self.limbs {
            Limbs::Narrow(levels) => levels.step(cell, values, event, picks),
            Limbs::Middle(levels) => levels.step(cell, values, event, picks),
            Limbs::Wide(levels) => levels.step(cell, values, event, picks),
        }
    }

    /// What a slot shows from its low place on. It takes no memory.
    pub fn show(
        &self,
        cell: &RamCell,
        slot: u32,
        values: &[bool],
        picks: &PickKey,
        out: &mut [bool],
    )
        requires state { IsStateOf self.now cell.now }
        requires slot { slot < length cell.now.slots }
        requires few { length out.old < 2 ^ 32 }
        requires room { IsAsWide self.now cell.now slot (length out.old) }
        ensures len { length out.new ≡ length out.old }
        ensures bits { ShowsSlot self.now cell.now (valuation values.now) picks.now slot out.new }
    {
        match &self.limbs {
            Limbs::Narrow(levels) => levels.show(cell, slot, values, picks, out),
            Limbs::Middle(levels) => levels.show(cell, slot, values, picks, out),
            Limbs::Wide(levels) => levels.show(cell, slot, values, picks, out),
        }
    }
}

/// The width of the last level, 0 where there is none.
fn last_width(variant: &Variant) -> u32
    ensures { result ≡ rams.last_width variant.now }
{
    last_of(variant.widths.as_slice())
}

/// The last of some widths, 0 where there is none.
fn last_of(widths: &[u32]) -> u32
    ensures { result ≡ rams.width_at widths.now (length widths.now - 1) }
{
    widths.last().copied().unwrap_or(0)
}
