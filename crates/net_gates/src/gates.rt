//! Gates of one bit.
ghost use Rattle.std.specs.Prelude.{◌≡◌, ◌≤◌, ◌+◌, ◌∷◌, [], not, IfOk, IfErr};
ghost use Rattle.net_core.specs.Values.{value_of};
ghost use Rattle.net_edit.specs.Edits.{IsOver};
ghost use Rattle.net_gates.specs.Adds.{AddsBit, IsReady};
ghost use Rattle.net_gates.specs.Cells.{IsLeft};
ghost use Rattle.net_gates.specs.Meanings as spec;

use crate::logic::{gate, list_of, no_bits, one_bit};
use net_core::{Bit, CombKind};
use net_edit::{Edit, EditFault};
use std::alloc::Global;

/// A bit that is 1 where the given one is 0. The answer is `Full` exactly where the new net would be
/// one too many, and the edit then stays as it was; without memory it has at most that net more. So it
/// is with each gate here.
#[tactic(auto, using(crate::proofs::OneBit::not_adds, crate::proofs::OneBit::nets_more, crate::proofs::Leaving::left_as_was))]
pub fn not_gate(alloc: Global, edit: &mut Edit, a: Bit) -> Result<Bit, EditFault>
    requires { IsReady edit.old (a ∷ []) }
    ensures adds { IfOk result (λ y. AddsBit edit.old edit.new (a ∷ []) y (λ u. not (value_of u a))) }
    ensures nets { IfOk result (λ _. edit.new.netlist.nets ≡ edit.old.netlist.nets + 1) }
    ensures full { IfErr result (IsOver (edit.old.netlist.nets + 1)) }
    ensures fits { IfOk result (λ _. edit.old.netlist.nets + 1 ≤ 67108864) }
    ensures left { IfErr result (IsLeft edit.old edit.new 1) }
{
    let operand = one_bit(alloc, a)?;
    let y = gate(alloc, edit, CombKind::Not, operand, no_bits(alloc))?;
    Ok(y)
}

/// A bit that is 1 where both are.
#[tactic(auto, using(crate::proofs::OneBit::and_adds, crate::proofs::OneBit::nets_more, crate::proofs::Leaving::left_as_was))]
pub fn and_gate(alloc: Global, edit: &mut Edit, a: Bit, b: Bit) -> Result<Bit, EditFault>
    requires { IsReady edit.old (a ∷ b ∷ []) }
    ensures adds { IfOk result (λ y. AddsBit edit.old edit.new (a ∷ b ∷ []) y (spec.both_of a b)) }
    ensures nets { IfOk result (λ _. edit.new.netlist.nets ≡ edit.old.netlist.nets + 1) }
    ensures full { IfErr result (IsOver (edit.old.netlist.nets + 1)) }
    ensures fits { IfOk result (λ _. edit.old.netlist.nets + 1 ≤ 67108864) }
    ensures left { IfErr result (IsLeft edit.old edit.new 1) }
{
    let left = one_bit(alloc, a)?;
    let right = one_bit(alloc, b)?;
    let y = gate(alloc, edit, CombKind::And, left, right)?;
    Ok(y)
}

/// A bit that is 1 where one of the two is.
#[tactic(auto, using(crate::proofs::OneBit::or_adds, crate::proofs::OneBit::nets_more, crate::proofs::Leaving::left_as_was))]
pub fn or_gate(alloc: Global, edit: &mut Edit, a: Bit, b: Bit) -> Result<Bit, EditFault>
    requires { IsReady edit.old (a ∷ b ∷ []) }
    ensures adds { IfOk result (λ y. AddsBit edit.old edit.new (a ∷ b ∷ []) y (spec.either_of a b)) }
    ensures nets { IfOk result (λ _. edit.new.netlist.nets ≡ edit.old.netlist.nets + 1) }
    ensures full { IfErr result (IsOver (edit.old.netlist.nets + 1)) }
    ensures fits { IfOk result (λ _. edit.old.netlist.nets + 1 ≤ 67108864) }
    ensures left { IfErr result (IsLeft edit.old edit.new 1) }
{
    let left = one_bit(alloc, a)?;
    let right = one_bit(alloc, b)?;
    let y = gate(alloc, edit, CombKind::Or, left, right)?;
    Ok(y)
}

/// A bit that is 1 where the two differ.
#[tactic(auto, using(crate::proofs::OneBit::xor_adds, crate::proofs::OneBit::nets_more, crate::proofs::Leaving::left_as_was))]
pub fn xor_gate(alloc: Global, edit: &mut Edit, a: Bit, b: Bit) -> Result<Bit, EditFault>
    requires { IsReady edit.old (a ∷ b ∷ []) }
    ensures adds { IfOk result (λ y. AddsBit edit.old edit.new (a ∷ b ∷ []) y (spec.differ a b)) }
    ensures nets { IfOk result (λ _. edit.new.netlist.nets ≡ edit.old.netlist.nets + 1) }
    ensures full { IfErr result (IsOver (edit.old.netlist.nets + 1)) }
    ensures fits { IfOk result (λ _. edit.old.netlist.nets + 1 ≤ 67108864) }
    ensures left { IfErr result (IsLeft edit.old edit.new 1) }
{
    let left = one_bit(alloc, a)?;
    let right = one_bit(alloc, b)?;
    let y = gate(alloc, edit, CombKind::Xor, left, right)?;
    Ok(y)
}

/// A bit that is 1 where all are.
#[tactic(auto, using(crate::proofs::OneBit::all_adds, crate::proofs::OneBit::nets_more, crate::proofs::Leaving::left_as_was))]
pub fn and_all(alloc: Global, edit: &mut Edit, bits: &[Bit]) -> Result<Bit, EditFault>
    requires { IsReady edit.old bits.now }
    ensures adds { IfOk result (λ y. AddsBit edit.old edit.new bits.now y (spec.all_of bits.now)) }
    ensures nets { IfOk result (λ _. edit.new.netlist.nets ≡ edit.old.netlist.nets + 1) }
    ensures full { IfErr result (IsOver (edit.old.netlist.nets + 1)) }
    ensures fits { IfOk result (λ _. edit.old.netlist.nets + 1 ≤ 67108864) }
    ensures left { IfErr result (IsLeft edit.old edit.new 1) }
{
    let operand = list_of(alloc, bits)?;
    let y = gate(alloc, edit, CombKind::ReduceAnd, operand, no_bits(alloc))?;
    Ok(y)
}

/// A bit that is 1 where one of them is.
#[tactic(auto, using(crate::proofs::OneBit::some_adds, crate::proofs::OneBit::nets_more, crate::proofs::Leaving::left_as_was))]
pub fn or_all(alloc: Global, edit: &mut Edit, bits: &[Bit]) -> Result<Bit, EditFault>
    requires { IsReady edit.old bits.now }
    ensures adds { IfOk result (λ y. AddsBit edit.old edit.new bits.now y (spec.some_of bits.now)) }
    ensures nets { IfOk result (λ _. edit.new.netlist.nets ≡ edit.old.netlist.nets + 1) }
    ensures full { IfErr result (IsOver (edit.old.netlist.nets + 1)) }
    ensures fits { IfOk result (λ _. edit.old.netlist.nets + 1 ≤ 67108864) }
    ensures left { IfErr result (IsLeft edit.old edit.new 1) }
{
    let operand = list_of(alloc, bits)?;
    let y = gate(alloc, edit, CombKind::ReduceOr, operand, no_bits(alloc))?;
    Ok(y)
}
