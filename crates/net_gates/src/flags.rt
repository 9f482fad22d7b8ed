//! A flag that chooses between lists.
ghost use Rattle.std.specs.Prelude.{◌≡◌, ◌≤◌, ◌+◌, ◌^◌, ◌<◌, ◌∷◌, ◌++◌, [], length, IfOk, OnErr, IfErr};
ghost use Rattle.net_edit.specs.Edits.{IsOverBy};
ghost use Rattle.net_edit.specs.Laws.{IsKnownClock};
ghost use Rattle.net_gates.specs.Adds.{Grows, IsReady};
ghost use Rattle.net_gates.specs.Flags.{flag_pins, AddsFlag};

use crate::compare::mux;
use crate::logic::one_bit;
use crate::registers::{RegPins, register};
use lib_core::{List, Memory, Tri};
use net_core::{Bit, Clock};
use net_edit::{Edit, EditFault};
use std::alloc::Global;

/// What sets a flag.
#[derive(Clone, Copy, Debug, PartialEq, Eq)]
pub struct FlagPins {
    pub clock: Clock,
    /// Where this is 1 the flag takes `set` at an edge.
    pub en: Bit,
    pub set: Bit,
}

/// A value that is 0.
fn low_value(alloc: Global) -> Result<List<Tri>, Memory>
    ensures { IfOk result (λ value. value ≡ Tri.Zero ∷ []) }
{
    let mut value = Vec::new(alloc);
    value.push(Tri::Zero)?;
    Ok(List::from_vec(value))
}

/// The pins of a register of one bit that starts with 0 and is never reset.
fn flag_register(alloc: Global, flag: FlagPins) -> Result<RegPins, Memory>
    ensures { IfOk result (λ pins. pins ≡ flag_pins flag) }
{
    Ok(RegPins {
        clock: flag.clock,
        en: flag.en,
        rst: Bit::Zero,
        d: one_bit(alloc, flag.set)?,
        value: low_value(alloc)?,
        init: low_value(alloc)?,
    })
}

/// A new flag, and the bits of the second list while it is 1, else those of the first. After an `Err`
/// the module has all that it had, and maybe the flag or new nets.
#[tactic(auto, using(crate::proofs::Flagging::over_flag))]
pub fn flag_mux(
    alloc: Global,
    edit: &mut Edit,
    flag: FlagPins,
    low: &[Bit],
    high: &[Bit],
) -> Result<List<Bit>, EditFault>
    requires ready { IsReady edit.old (flag.en ∷ flag.set ∷ low.now ++ high.now) }
    requires known { IsKnownClock edit.old.netlist flag.clock }
    requires even { length low.now ≡ length high.now }
    requires few { length low.now < 2 ^ 32 }
    ensures adds { IfOk result (λ ys. AddsFlag edit.old edit.new flag low.now high.now ys) }
    ensures full { IfErr result (IsOverBy (edit.old.netlist.nets + (1 + length low.now))) }
    ensures fits { IfOk result (λ _. edit.old.netlist.nets + (1 + length low.now) ≤ 67108864) }
    ensures left { OnErr result (Grows edit.old.netlist edit.new.netlist) }
{
    let pins = flag_register(alloc, flag)?;
    let shown = register(alloc, edit, pins)?;
    let ys = mux(alloc, edit, shown.as_slice()[0], low, high)?;
    Ok(ys)
}
