//! The row of a logic cell.
ghost use Rattle.std.specs.Prelude.{◌≡◌, ℕ, ◌+◌, ◌-◌, ◌<◌, ◌&&◌, nat_le, length};
ghost use Rattle.net_core.specs.Nodes.{comb_node};
ghost use Rattle.net_core.specs.Values.{bit_at};
ghost use Rattle.net_core.specs.Logic.{lone, row_bit, comb_shows};
ghost use Rattle.cell_table.specs.Row.{HaveValues, valuation, chosen};

use crate::arithmetic::{add, is_equal, is_less};
use crate::operand::Operand;
use crate::selector::{Selection, select};
use net_core::{Comb, CombKind};

/// Computes what a logic cell shows, low bit first. `values` has the value of each net, and `free`
/// what the cell shows at each place where it may show anything.
pub fn eval(cell: &Comb, values: &[bool], free: &[bool], out: &mut [bool])
    requires nets { HaveValues (comb_node cell.now).needs values.now }
    requires free_bits { length free.now ≡ length cell.now.y }
    requires out_bits { length out.old ≡ length cell.now.y }
    ensures { (k : ℕ) → k < length cell.now.y
        → bit_at out.new k ≡ chosen (comb_shows cell.now (valuation values.now) k) (bit_at free.now k) }
{
    let a = Operand::new(cell.a.as_slice(), values);
    let b = Operand::new(cell.b.as_slice(), values);
    let s = Operand::new(cell.s.as_slice(), values);
    row(cell.kind, cell.signed, &a, &b, &s, free, out);
}

/// Sets each place to what the function says of it.
fn fill<F: Fn(usize) -> bool>(out: &mut [bool], bit: F)
    requires { F.IsAlwaysCallable bit }
    ensures { (k : ℕ) → k < length out.new → F.post bit k (bit_at out.new k) }
{
    for (place, here) in out.iter_mut().enumerate() {
        *here = bit(place);
    }
}

/// Sets the lowest place to a bit, and the others to 0.
fn set_lowest(out: &mut [bool], bit: bool)
    ensures { (k : ℕ) → k < length out.new → bit_at out.new k ≡ lone bit k }
{
    fill(out, |k| bit && k == 0);
}

/// Sets the bits of an operand from a place on, and 0 past its end.
fn copy_from(operand: &Operand<'_>, start: usize, out: &mut [bool])
    ensures { (k : ℕ) → k < length out.new → bit_at out.new k ≡ bit_at operand.now (start + k) }
{
    fill(out, |k| operand.bit_after(start, k));
}

/// Sets the bits of an operand that is moved up, and 0 below them.
fn shift_up(operand: &Operand<'_>, amount: usize, out: &mut [bool])
    ensures { (k : ℕ) → k < length out.new → bit_at out.new k ≡ (nat_le amount k && bit_at operand.now (k - amount)) }
{
    fill(out, |k| amount <= k && operand.bit(k - amount));
}

/// The table: one arm for each type of cell.
fn row(
    kind: CombKind,
    signed: bool,
    a: &Operand<'_>,
    b: &Operand<'_>,
    s: &Operand<'_>,
    free: &[bool],
    out: &mut [bool],
)
    requires { length free.now ≡ length out.old }
    ensures { (k : ℕ) → k < length out.new
        → bit_at out.new k ≡ chosen (row_bit kind signed a.now b.now s.now (length out.new) k) (bit_at free.now k) }
{
    match kind {
        CombKind::Not => fill(out, |k| !a.extended(signed, k)),
        CombKind::And => fill(out, |k| a.extended(signed, k) && b.extended(signed, k)),
        CombKind::Or => fill(out, |k| a.extended(signed, k) || b.extended(signed, k)),
        CombKind::Xor => fill(out, |k| a.extended(signed, k) != b.extended(signed, k)),
        CombKind::Xnor => fill(out, |k| a.extended(signed, k) == b.extended(signed, k)),
        CombKind::ReduceAnd => set_lowest(out, a.all_set()),
        CombKind::ReduceOr | CombKind::ReduceBool => set_lowest(out, a.some_set()),
        CombKind::ReduceXor => set_lowest(out, a.is_odd()),
        CombKind::ReduceXnor => set_lowest(out, !a.is_odd()),
        CombKind::LogicNot => set_lowest(out, !a.some_set()),
        CombKind::LogicAnd => set_lowest(out, a.some_set() && b.some_set()),
        CombKind::LogicOr => set_lowest(out, a.some_set() || b.some_set()),
        CombKind::Eq => set_lowest(out, is_equal(a, b, signed)),
        CombKind::Ne => set_lowest(out, !is_equal(a, b, signed)),
        CombKind::Lt => set_lowest(out, is_less(a, b, signed)),
        CombKind::Le => set_lowest(out, !is_less(b, a, signed)),
        CombKind::Gt => set_lowest(out, is_less(b, a, signed)),
        CombKind::Ge => set_lowest(out, !is_less(a, b, signed)),
        CombKind::Add => add(a, b, signed, false, out),
        CombKind::Sub => add(a, b, signed, true, out),
        CombKind::Shl => shift_up(a, b.number(), out),
        CombKind::Shr => copy_from(a, b.number().min(a.len()), out),
        CombKind::Mux => {
            if s.bit(0) {
                copy_from(b, 0, out);
            } else {
                copy_from(a, 0, out);
            }
        }
        CombKind::Pmux => match select(s) {
            Selection::Nothing => copy_from(a, 0, out),
            Selection::One(place) => {
                copy_from(b, place.saturating_mul(a.len()).min(b.len()), out);
            }
            Selection::Several => out.copy_from_slice(free),
        },
    }
}
