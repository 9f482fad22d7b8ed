//! The bits of a constant.
ghost use Rattle.std.specs.Prelude.{◌≡◌, ◌≤◌, ◌<◌, ◌++◌, map, reverse, IfOk};
ghost use Rattle.net_core.specs.Values.{nat_bit};
ghost use Rattle.net_wires.specs.Signals.{bit_source, const_bits, digit_source, number_bits, text_bits};

use crate::source::Source;
use lib_core::Memory;
use rtlil_text::{Digit, DocConst};

fn digit_source(digit: Digit) -> Source
    ensures { result ≡ digit_source digit }
{
    match digit {
        Digit::Zero => Source::Zero,
        Digit::One => Source::One,
        Digit::X | Digit::Z | Digit::Dash => Source::Loose,
    }
}

fn bit_source(value: u32, at: u32) -> Source
    requires { at < 32 }
    ensures { result ≡ bit_source (nat_bit value at) }
{
    if (value >> at) % 2 == 1 {
        Source::One
    } else {
        Source::Zero
    }
}

/// Puts the low bits of a number behind the others, the highest first.
#[tactic(auto, using(crate::proofs::Bits::down_turn, crate::proofs::Bits::down_done), unfolding(crate::specs::Signals::number_bits))]
fn push_number(bits: &mut Vec<Source>, value: u32, count: u32) -> Result<(), Memory>
    requires { count ≤ 32 }
    ensures { IfOk result (λ _. bits.new.items ≡ bits.old.items ++ reverse (number_bits value count)) }
{
    let mut left = count;
    while left > 0 {
        left -= 1;
        bits.push(bit_source(value, left))?;
    }
    Ok(())
}

#[tactic(auto, using(crate::proofs::Bits::text_turn))]
fn push_text(bits: &mut Vec<Source>, text: &[u8]) -> Result<(), Memory>
    ensures { IfOk result (λ _. bits.new.items ≡ bits.old.items ++ reverse (text_bits text.now)) }
{
    let mut rest = text;
    while let [byte, tail @ ..] = rest {
        push_number(bits, u32::from(*byte), 8)?;
        rest = tail;
    }
    Ok(())
}

fn push_digits(bits: &mut Vec<Source>, digits: &[Digit]) -> Result<(), Memory>
    ensures { IfOk result (λ _. bits.new.items ≡ bits.old.items ++ map digit_source digits.now) }
{
    let mut rest = digits;
    while let [digit, tail @ ..] = rest {
        bits.push(digit_source(*digit))?;
        rest = tail;
    }
    Ok(())
}

/// Puts the bits of a constant behind the others, the most significant first.
pub fn push_constant(bits: &mut Vec<Source>, constant: &DocConst) -> Result<(), Memory>
    ensures { IfOk result (λ _. bits.new.items ≡ bits.old.items ++ reverse (const_bits constant.now)) }
{
    match constant {
        DocConst::Digits(digits) => push_digits(bits, digits.as_slice()),
        DocConst::Number(number) => push_number(bits, number.cast_unsigned(), 32),
        DocConst::Text(text) => push_text(bits, text.as_slice()),
    }
}
