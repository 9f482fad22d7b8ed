//! The bits of numbers, of strings and of parameters, low bit first.
ghost use Rattle.std.specs.Prelude.{◌≡◌, ◌++◌, IfOk, OnOk};
ghost use Rattle.cell_consts.specs.Consts as consts;

use lib_core::{Duplicate, List, Memory, Tri};
use net_core::Attr;
use std::alloc::Global;

/// So many low bits of a number.
pub fn low_bits(alloc: Global, width: u32, number: u32) -> Result<List<Tri>, Memory>
    ensures { IfOk result (λ bits. bits ≡ consts.low_bits width number) }
{
    let mut bits = Vec::new(alloc);
    push_low_bits(&mut bits, width, number)?;
    Ok(List::from_vec(bits))
}

/// The bits of a string, eight a byte: each byte stands above those behind it.
pub fn text_bits(alloc: Global, text: &[u8]) -> Result<List<Tri>, Memory>
    ensures { IfOk result (λ bits. bits ≡ consts.text_bits text.now) }
{
    let mut bits = Vec::new(alloc);
    for place in (0..text.len()).rev() {
        push_low_bits(&mut bits, 8, u32::from(text[place]))?;
    }
    Ok(List::from_vec(bits))
}

/// Puts so many low bits of a number at the end.

fn push_low_bits(bits: &mut Vec<Tri>, width: u32, number: u32) -> Result<(), Memory>
    ensures { OnOk result (bits.new.items ≡ bits.old.items ++ consts.low_bits width number) }
{
    let mut left = width;
    let mut high = number;
    while left > 0 {
        bits.push(low_bit(high))?;
        high /= 2;
        left -= 1;
    }
    Ok(())
}

/// The lowest bit of a number.
fn low_bit(number: u32) -> Tri
    ensures { result ≡ consts.low_bit number }
{
    if number % 2 == 1 { Tri::One } else { Tri::Zero }
}

/// The bits of an attribute or a parameter, also of a string.
pub fn attr_bits(alloc: Global, attr: &Attr) -> Result<List<Tri>, Memory>
    ensures { IfOk result (λ bits. bits ≡ consts.attr_bits attr.now) }
{
    if attr.is_text {
        text_bits(alloc, attr.value.as_slice())
    } else {
        attr.bits.duplicate(alloc)
    }
}
