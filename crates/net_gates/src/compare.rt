//! Comparisons with constants, and choices between lists.
ghost use Rattle.std.specs.Prelude.{◌≡◌, ◌≤◌, ◌+◌, ◌^◌, ◌<◌, ◌∷◌, ◌++◌, [], length, IfOk, IfErr};
ghost use Rattle.net_edit.specs.Edits.{IsOver};
ghost use Rattle.net_gates.specs.Adds.{Adds, AddsBit, IsReady};
ghost use Rattle.net_gates.specs.Cells.{IsLeft};
ghost use Rattle.net_gates.specs.Meanings as spec;

use crate::constants::constant;
use crate::logic::{gate, list_of, logic, one_bit};
use lib_core::List;
use net_core::{Bit, CombKind};
use net_edit::{Edit, EditFault};
use std::alloc::Global;

/// A bit that is 1 where the bits are a number, low bit first.
#[tactic(auto, using(crate::proofs::OneBit::nets_more, crate::proofs::Leaving::left_as_was))]
pub fn equal_const(
    alloc: Global,
    edit: &mut Edit,
    bits: &[Bit],
    number: u32,
) -> Result<Bit, EditFault>
    requires { IsReady edit.old bits.now }
    ensures adds { IfOk result (λ y. AddsBit edit.old edit.new bits.now y (spec.equals bits.now number)) }
    ensures nets { IfOk result (λ _. edit.new.netlist.nets ≡ edit.old.netlist.nets + 1) }
    ensures full { IfErr result (IsOver (edit.old.netlist.nets + 1)) }
    ensures fits { IfOk result (λ _. edit.old.netlist.nets + 1 ≤ 67108864) }
    ensures left { IfErr result (IsLeft edit.old edit.new 1) }
{
    let left = list_of(alloc, bits)?;
    let right = constant(alloc, number)?;
    let y = gate(alloc, edit, CombKind::Eq, left, right)?;
    Ok(y)
}

/// A bit that is 1 where the bits, low bit first, are less than a number.
#[tactic(auto, using(crate::proofs::OneBit::nets_more, crate::proofs::Leaving::left_as_was))]
pub fn less_const(
    alloc: Global,
    edit: &mut Edit,
    bits: &[Bit],
    number: u32,
) -> Result<Bit, EditFault>
    requires { IsReady edit.old bits.now }
    ensures adds { IfOk result (λ y. AddsBit edit.old edit.new bits.now y (spec.is_below bits.now number)) }
    ensures nets { IfOk result (λ _. edit.new.netlist.nets ≡ edit.old.netlist.nets + 1) }
    ensures full { IfErr result (IsOver (edit.old.netlist.nets + 1)) }
    ensures fits { IfOk result (λ _. edit.old.netlist.nets + 1 ≤ 67108864) }
    ensures left { IfErr result (IsLeft edit.old edit.new 1) }
{
    let left = list_of(alloc, bits)?;
    let right = constant(alloc, number)?;
    let y = gate(alloc, edit, CombKind::Lt, left, right)?;
    Ok(y)
}

/// The bits of the second list where the selector is 1, else those of the first.
#[tactic(auto, using(crate::proofs::OneBit::nets_more, crate::proofs::Leaving::left_as_was))]
pub fn mux(
    alloc: Global,
    edit: &mut Edit,
    select: Bit,
    low: &[Bit],
    high: &[Bit],
) -> Result<List<Bit>, EditFault>
    requires ready { IsReady edit.old (low.now ++ high.now ++ select ∷ []) }
    requires even { length low.now ≡ length high.now }
    requires few { length low.now < 2 ^ 32 }
    ensures adds { IfOk result (λ ys. Adds edit.old edit.new (low.now ++ high.now ++ select ∷ []) ys (spec.either_list select low.now high.now)) }
    ensures nets { IfOk result (λ _. edit.new.netlist.nets ≡ edit.old.netlist.nets + length low.now) }
    ensures full { IfErr result (IsOver (edit.old.netlist.nets + length low.now)) }
    ensures fits { IfOk result (λ _. edit.old.netlist.nets + length low.now ≤ 67108864) }
    ensures left { IfErr result (IsLeft edit.old edit.new (length low.now)) }
{
    let width = low.len() as u32;
    let left = list_of(alloc, low)?;
    let right = list_of(alloc, high)?;
    let selector = one_bit(alloc, select)?;
    let ys = logic(alloc, edit, CombKind::Mux, left, right, selector, width)?;
    Ok(ys)
}
