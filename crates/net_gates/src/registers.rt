//! Registers with an enable and a reset.
ghost use Rattle.std.specs.Prelude.{◌≡◌, ◌≤◌, ◌+◌, ◌∷◌, ◌^◌, ◌<◌, length, IfOk, IfErr};
ghost use Rattle.net_edit.specs.Edits.{bits_from, IsOver};
ghost use Rattle.net_edit.specs.Laws.{IsKnownClock};
ghost use Rattle.net_gates.specs.Adds.{IsReady};
ghost use Rattle.net_gates.specs.Cells.{IsLeft};
ghost use Rattle.net_gates.specs.Registers.{AddsRegister};

use crate::logic::net_bits;
use lib_core::{List, Name, Tri};
use net_core::{Bit, Clock, FfKind, Reg};
use net_edit::{Edit, EditFault};
use std::alloc::Global;

/// What a register reads, what a reset gives, and the bits at the start. The reset counts before the
/// enable, at edges of the clock, and both count where they are 1.
#[derive(Debug, PartialEq, Eq, Drop)]
pub struct RegPins {
    pub clock: Clock,
    pub en: Bit,
    pub rst: Bit,
    pub d: List<Bit>,
    pub value: List<Tri>,
    pub init: List<Tri>,
}

/// The outputs of a new register, whose clock the module has already.
#[tactic(auto, using(crate::proofs::Leaving::left_at_once, crate::proofs::Leaving::left_with_nets))]
pub fn register(alloc: Global, edit: &mut Edit, pins: RegPins) -> Result<List<Bit>, EditFault>
    requires ready { IsReady edit.old (pins.en ∷ pins.rst ∷ pins.d) }
    requires known { IsKnownClock edit.old.netlist pins.clock }
    requires few { length pins.d < 2 ^ 32 }
    ensures bits { IfOk result (λ ys. ys ≡ bits_from edit.old.netlist.nets (length pins.d)) }
    ensures adds { IfOk result (λ _. AddsRegister edit.old edit.new pins) }
    ensures nets { IfOk result (λ _. edit.new.netlist.nets ≡ edit.old.netlist.nets + length pins.d) }
    ensures full { IfErr result (IsOver (edit.old.netlist.nets + length pins.d)) }
    ensures fits { IfOk result (λ _. edit.old.netlist.nets + length pins.d ≤ 67108864) }
    ensures left { IfErr result (IsLeft edit.old edit.new (length pins.d)) }
{
    let q = edit.fresh(pins.d.as_slice().len() as u32)?;
    let bits = net_bits(alloc, q.as_slice())?;
    edit.add_reg(Reg {
        name: Name::from_vec(Vec::new(alloc)),
        kind: FfKind::Sdffe,
        clock: pins.clock,
        en: pins.en,
        en_high: true,
        arst: Bit::Zero,
        arst_high: false,
        arst_value: List::from_vec(Vec::new(alloc)),
        srst: pins.rst,
        srst_high: true,
        srst_value: pins.value,
        d: pins.d,
        q,
        init: pins.init,
    })?;
    Ok(bits)
}
