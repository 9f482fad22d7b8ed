//! How a document writes what a design keeps.
ghost use Rattle.std.specs.Prelude.{◌≡◌, IfOk, map};
ghost use Rattle.doc_params.specs.Docs as docs;

use cell_consts::number;
use lib_core::{List, Memory, Tri};
use net_core::Attr;
use rtlil_text::{Digit, DocAttr, DocConst, DocFlag, DocParam};
use std::alloc::Global;

/// The constant of an attribute or a parameter: a string, a number where it is 32 bits that are all
/// 0 or 1, and digits otherwise.
#[tactic(auto, unfolding(crate::specs::Docs::const_of_bits))]
pub fn const_of(alloc: Global, attr: &Attr) -> Result<DocConst, Memory>
    ensures { IfOk result (λ value. value ≡ docs.const_of attr.now) }
{
    if attr.is_text {
        return Ok(DocConst::Text(attr.value.copy(alloc)?));
    }
    let bits = attr.bits.as_slice();
    if bits.len() == 32 {
        return match number(attr) {
            Some(number) => Ok(DocConst::Number(number.cast_signed())),
            None => digits_of(alloc, bits),
        };
    }
    digits_of(alloc, bits)
}

/// The digits of bits, the most significant first.
fn digits_of(alloc: Global, bits: &[Tri]) -> Result<DocConst, Memory>
    ensures { IfOk result (λ value. value ≡ docs.digits_of bits.now) }
{
    let mut digits = each_digit(alloc, bits)?;
    digits.reverse();
    Ok(DocConst::Digits(List::from_vec(digits)))
}

fn each_digit(alloc: Global, bits: &[Tri]) -> Result<Vec<Digit>, Memory>
    ensures { IfOk result (λ digits. digits.items ≡ map docs.bit_digit bits.now) }
{
    Ok(bits.iter().map(|bit| bit_digit(*bit)).collect(alloc)?)
}

/// The digit of a bit: an open one is x.
fn bit_digit(bit: Tri) -> Digit
    ensures { result ≡ docs.bit_digit bit }
{
    match bit {
        Tri::Zero => Digit::Zero,
        Tri::One => Digit::One,
        Tri::Any => Digit::X,
    }
}

/// An attribute as a document writes it.
pub fn doc_attr(alloc: Global, attr: &Attr) -> Result<DocAttr, Memory>
    ensures { IfOk result (λ written. written ≡ docs.doc_attr attr.now) }
{
    Ok(DocAttr {
        name: attr.name.copy(alloc)?,
        value: const_of(alloc, attr)?,
    })
}

/// A parameter as a document writes it.
pub fn doc_param(alloc: Global, param: &Attr) -> Result<DocParam, Memory>
    ensures { IfOk result (λ written. written ≡ docs.doc_param param.now) }
{
    Ok(DocParam {
        flag: DocFlag::Plain,
        name: param.name.copy(alloc)?,
        value: Some(const_of(alloc, param)?),
    })
}
