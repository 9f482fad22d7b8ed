//! The numbers, values and flags that bits are.
ghost use Rattle.std.specs.Prelude.{◌≡◌, IfOk, map};
ghost use Rattle.net_core.specs.Valid.{is_one_digit};
ghost use Rattle.cell_consts.specs.Consts as consts;

use lib_core::{List, Memory, Tri};
use net_core::Attr;
use std::alloc::Global;

/// The number that a parameter is: none for a string, for one with an open bit, and for one that
/// does not fit 32 bits. It takes no memory.
pub fn number(attr: &Attr) -> Option<u32>
    ensures { result ≡ consts.attr_number attr.now }
{
    if attr.is_text {
        None
    } else {
        number_of_bits(attr.bits.as_slice())
    }
}

/// The number whose bits these are, where it is one of 32 bits.
#[tactic(auto, using(crate::proofs::Joined::joined_before, crate::proofs::Joined::joined_here, crate::proofs::Joined::joined_nowhere))]
fn number_of_bits(bits: &[Tri]) -> Option<u32>
    ensures { result ≡ consts.number_of_bits bits.now }
{
    let mut number = 0;
    for place in (0..bits.len()).rev() {
        number = with_low_bit(bits[place], number)?;
    }
    Some(number)
}

/// The number with one more bit below its lowest, where it still is one of 32 bits.
fn with_low_bit(bit: Tri, number: u32) -> Option<u32>
    ensures { result ≡ consts.with_low_bit bit number }
{
    let low = match bit {
        Tri::Zero => 0,
        Tri::One => 1,
        Tri::Any => return None,
    };
    let more = low + 2 * u64::from(number);
    if more < 1 << 32 {
        Some(more as u32)
    } else {
        None
    }
}

/// As many bits as are wanted: missing ones are open, and extra ones are not looked at.
pub fn fitted(alloc: Global, width: u32, bits: &[Tri]) -> Result<List<Tri>, Memory>
    ensures { IfOk result (λ list. list ≡ consts.fitted width bits.now) }
{
    let width = width as usize;
    let mut list = Vec::from_slice(alloc, &bits[..bits.len().min(width)])?;
    list.resize(width, Tri::Any)?;
    Ok(List::from_vec(list))
}

/// As many flags as are wanted: a flag is set where its bit is 1; missing and open ones are not.
pub fn flags(alloc: Global, count: u32, bits: &[Tri]) -> Result<List<bool>, Memory>
    ensures { IfOk result (λ list. list ≡ consts.flags count bits.now) }
{
    let count = count as usize;
    let mut list = ones(alloc, &bits[..bits.len().min(count)])?;
    list.resize(count, false)?;
    Ok(List::from_vec(list))
}

/// For each bit whether it is 1.
fn ones(alloc: Global, bits: &[Tri]) -> Result<Vec<bool>, Memory>
    ensures { IfOk result (λ list. list.items ≡ map is_one_digit bits.now) }
{
    Ok(bits.iter().map(|bit| is_one(*bit)).collect(alloc)?)
}

/// Whether a bit is 1.
pub(crate) fn is_one(bit: Tri) -> bool
    ensures { result ≡ is_one_digit bit }
{
    bit == Tri::One
}
