//! The operands of a logic cell.
ghost use Rattle.std.specs.Prelude.{◌≡◌, ℕ, ◌+◌, ◌<◌, ◌^◌, ◌-◌, length, min};
ghost use Rattle.net_core.specs.Values.{value_of, values_of, bit_at, number_of};
ghost use Rattle.net_core.specs.Logic.{sign_of, extended, all_set, some_set, is_odd};
ghost use Rattle.cell_table.specs.Row.{HaveValues, valuation};

use net_core::Bit;
use std::marker::Model;

/// The bits of a pin with the values of the nets. Contracts see the values of the bits.
#[derive(Drop)]
pub struct Operand<'a> {
    bits: &'a [Bit],
    values: &'a [bool],
}

impl<'a> Model for Operand<'a> {
    ghost use Rattle.std.specs.Prelude.{List, Bool};
    ghost use Rattle.net_core.specs.Values.{values_of};
    ghost use Rattle.cell_table.specs.Row.{HaveValues, valuation};

    ghost Value = { List Bool };

    ghost view = { λ o. values_of (valuation o.values.now) o.bits.now };

    ghost invariant = { λ o. HaveValues o.bits.now o.values.now };
}

/// The value of a bit.
#[tactic(auto, using(crate::proofs::Operands::bit_at_is))]
fn value(bit: Bit, values: &[bool]) -> bool
    requires { (n : ℕ) → bit ≡ Bit.Net n → n < length values.now }
    ensures { result ≡ value_of (valuation values.now) bit }
{
    match bit {
        Bit::Zero => false,
        Bit::One => true,
        Bit::Net(net) => values[net as usize],
    }
}

impl<'a> Operand<'a> {
    /// The bits of a pin.
    pub fn new(bits: &'a [Bit], values: &'a [bool]) -> Operand<'a>
        requires { HaveValues bits.now values.now }
        ensures { result ≡ values_of (valuation values.now) bits.now }
    {
        Operand { bits, values }
    }

    /// The number of bits.
    #[tactic(auto, using(crate::proofs::Operands::length_values_of))]
    pub fn len(&self) -> usize
        ensures { result ≡ length self.now }
    {
        self.bits.len()
    }

    /// The bit at a place, false past the end.
    #[tactic(auto, using(crate::proofs::Operands::bit_at_read, crate::proofs::Operands::bit_at_past, crate::proofs::Operands::length_values_of))]
    pub fn bit(&self, place: usize) -> bool
        ensures { result ≡ bit_at self.now place }
    {
        match self.bits.get(place) {
            Some(bit) => value(*bit, self.values),
            None => false,
        }
    }

    /// The bit that stands so many places after a place, false past the end.
    #[tactic(auto, using(crate::proofs::Operands::bit_at_past, crate::proofs::Operands::length_values_of))]
    pub fn bit_after(&self, start: usize, offset: usize) -> bool
        ensures { result ≡ bit_at self.now (start + offset) }
    {
        offset < self.bits.len().saturating_sub(start) && self.bit(start + offset)
    }

    /// The last bit, false where there is none.
    fn sign(&self) -> bool
        ensures { result ≡ sign_of self.now }
    {
        self.bit(self.len().saturating_sub(1))
    }

    /// The bit at a place of the operand as it is extended by its sign, or by 0.
    pub fn extended(&self, signed: bool, place: usize) -> bool
        ensures { result ≡ extended signed self.now place }
    {
        if place < self.len() {
            self.bit(place)
        } else {
            signed && self.sign()
        }
    }

    /// Whether each bit is 1.
    #[tactic(auto, using(crate::proofs::Operands::all_set_drop))]
    pub fn all_set(&self) -> bool
        ensures { result ≡ all_set self.now }
    {
        for place in 0..self.len() {
            if !self.bit(place) {
                return false;
            }
        }
        true
    }

    /// Whether a bit is 1.
    #[tactic(auto, using(crate::proofs::Operands::some_set_drop))]
    pub fn some_set(&self) -> bool
        ensures { result ≡ some_set self.now }
    {
        for place in 0..self.len() {
            if self.bit(place) {
                return true;
            }
        }
        false
    }

    /// Whether the number of bits that are 1 is odd.
    #[tactic(auto, using(crate::proofs::Operands::is_odd_drop, crate::proofs::Operands::xor_step))]
    pub fn is_odd(&self) -> bool
        ensures { result ≡ is_odd self.now }
    {
        let mut odd = false;
        for place in 0..self.len() {
            odd ^= self.bit(place);
        }
        odd
    }

    /// The number whose bits these are, or the greatest `usize` where that is less.
    pub fn number(&self) -> usize
        ensures { result ≡ min (number_of self.now) (2 ^ 64 - 1) }
    {
        let mut number: usize = 0;
        for place in (0..self.len()).rev() {
            number = number
                .saturating_mul(2)
                .saturating_add(usize::from(self.bit(place)));
        }
        number
    }
}
