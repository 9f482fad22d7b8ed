//! Sums and comparisons of operands, one bit after the other from the low end.
ghost use Rattle.std.specs.Prelude.{◌≡◌, ℕ, ◌+◌, ◌-◌, ◌<◌, ◌^◌, length, if◌then◌else◌};
ghost use Rattle.net_core.specs.Values.{bit_at, nat_bit};
ghost use Rattle.net_core.specs.Logic.{number_at, is_equal, is_less};

use crate::operand::Operand;

/// Whether the operands are alike.
pub fn is_equal(a: &Operand<'_>, b: &Operand<'_>, signed: bool) -> bool
    ensures { result ≡ is_equal signed a.now b.now }
{
    for place in 0..a.len().max(b.len()) {
        if a.extended(signed, place) != b.extended(signed, place) {
            return false;
        }
    }
    true
}

/// Whether the first operand is below the second.
pub fn is_less(a: &Operand<'_>, b: &Operand<'_>, signed: bool) -> bool
    ensures { result ≡ is_less signed a.now b.now }
{
    let width = a.len().max(b.len());
    let mut less = false;
    for place in 0..width {
        let turned = signed & (place + 1 == width);
        let x = a.extended(signed, place) ^ turned;
        let y = b.extended(signed, place) ^ turned;
        less = if x == y { less } else { y };
    }
    less
}

/// Sets the low bits of a sum, or of a difference.
pub fn add(a: &Operand<'_>, b: &Operand<'_>, signed: bool, subtract: bool, out: &mut [bool])
    ensures { (k : ℕ) → k < length out.new → bit_at out.new k ≡ nat_bit (number_at signed a.now (length out.new)
        + (if subtract then 2 ^ length out.new - number_at signed b.now (length out.new) else number_at signed b.now (length out.new))) k }
{
    let mut carry = subtract;
    for (place, here) in out.iter_mut().enumerate() {
        let x = a.extended(signed, place);
        let y = b.extended(signed, place) ^ subtract;
        *here = x ^ y ^ carry;
        carry = if x == y { x } else { carry };
    }
}
