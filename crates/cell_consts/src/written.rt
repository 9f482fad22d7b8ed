//! Parameters that are written.
ghost use Rattle.std.specs.Prelude.{◌≡◌, IfOk};
ghost use Rattle.cell_consts.specs.Consts as consts;

use crate::bits::low_bits;
use lib_core::{Duplicate, List, Memory, Name, Tri};
use net_core::Attr;
use std::alloc::Global;

/// A number, of 32 bits.
pub fn number_attr(alloc: Global, name: &[u8], number: u32) -> Result<Attr, Memory>
    ensures { IfOk result (λ attr. attr ≡ consts.number_attr name.now number) }
{
    attr_of_bits(alloc, name, low_bits(alloc, 32, number)?)
}

/// A flag, of one bit.
pub fn flag_attr(alloc: Global, name: &[u8], set: bool) -> Result<Attr, Memory>
    ensures { IfOk result (λ attr. attr ≡ consts.flag_attr name.now set) }
{
    let mut bits = Vec::new(alloc);
    bits.push(if set { Tri::One } else { Tri::Zero })?;
    attr_of_bits(alloc, name, List::from_vec(bits))
}

/// Bits, low bit first.
pub fn bits_attr(alloc: Global, name: &[u8], bits: &List<Tri>) -> Result<Attr, Memory>
    ensures { IfOk result (λ attr. attr ≡ consts.bits_attr name.now bits.now) }
{
    attr_of_bits(alloc, name, bits.duplicate(alloc)?)
}

/// A string.
pub fn text_attr(alloc: Global, name: &[u8], text: &Name) -> Result<Attr, Memory>
    ensures { IfOk result (λ attr. attr ≡ consts.text_attr name.now text.now) }
{
    Ok(Attr {
        name: Name::from_vec(Vec::from_slice(alloc, name)?),
        is_text: true,
        value: text.copy(alloc)?,
        bits: List::from_vec(Vec::new(alloc)),
    })
}

/// A parameter that has these bits.
fn attr_of_bits(alloc: Global, name: &[u8], bits: List<Tri>) -> Result<Attr, Memory>
    ensures { IfOk result (λ attr. attr ≡ consts.bits_attr name.now bits) }
{
    Ok(Attr {
        name: Name::from_vec(Vec::from_slice(alloc, name)?),
        is_text: false,
        value: Name::from_vec(Vec::new(alloc)),
        bits,
    })
}
