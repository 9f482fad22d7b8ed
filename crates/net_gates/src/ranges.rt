//! Addresses in a range.
ghost use Rattle.std.specs.Prelude.{◌≡◌, ◌≤◌, ◌+◌, IfOk, OnErr, IfErr};
ghost use Rattle.net_edit.specs.Edits.{IsOverBy};
ghost use Rattle.net_gates.specs.Adds.{AddsBit, Grows, IsReady};
ghost use Rattle.net_gates.specs.Meanings as spec;

use crate::compare::less_const;
use crate::gates::{and_gate, not_gate};
use net_core::Bit;
use net_edit::{Edit, EditFault};
use std::alloc::Global;

/// A bit that is 1 where an address, low bit first, is not below the first of a range and below its
/// end. Four gates are added. After an `Err` the module has all that it had, and maybe some of them.
pub fn in_range(
    alloc: Global,
    edit: &mut Edit,
    addr: &[Bit],
    first: u32,
    end: u32,
) -> Result<Bit, EditFault>
    requires { IsReady edit.old addr.now }
    ensures adds { IfOk result (λ y. AddsBit edit.old edit.new addr.now y (spec.is_within addr.now first end)) }
    ensures full { IfErr result (IsOverBy (edit.old.netlist.nets + 4)) }
    ensures fits { IfOk result (λ _. edit.old.netlist.nets + 4 ≤ 67108864) }
    ensures left { OnErr result (Grows edit.old.netlist edit.new.netlist) }
{
    let below = less_const(alloc, edit, addr, first)?;
    let reached = not_gate(alloc, edit, below)?;
    let before = less_const(alloc, edit, addr, end)?;
    let y = and_gate(alloc, edit, reached, before)?;
    Ok(y)
}
