//! What a design keeps of attributes and parameters.
ghost use Rattle.std.specs.Prelude.{◌≡◌, ◌++◌, IfOk, OnOk, reverse, map};
ghost use Rattle.cell_consts.specs.Consts.{bits_attr};
ghost use Rattle.doc_params.specs.Docs as docs;

use cell_consts::{low_bits, text_bits};
use lib_core::{List, Memory, Name, Tri};
use net_core::Attr;
use rtlil_text::{CellLine, Digit, DocAttr, DocConst, DocParam};
use std::alloc::Global;

/// The bits of a constant, low bit first: 32 of a number, eight a byte of a string. A digit that is
/// neither 0 nor 1 leaves its bit open.
pub fn bits_of(alloc: Global, value: &DocConst) -> Result<List<Tri>, Memory>
    ensures { IfOk result (λ bits. bits ≡ docs.bits_of value.now) }
{
    match value {
        DocConst::Digits(digits) => digit_bits(alloc, digits.as_slice()),
        DocConst::Number(number) => low_bits(alloc, 32, number.cast_unsigned()),
        DocConst::Text(text) => text_bits(alloc, text.as_slice()),
    }
}

/// The bit that a digit stands for.
fn digit_bit(digit: Digit) -> Tri
    ensures { result ≡ docs.digit_bit digit }
{
    match digit {
        Digit::Zero => Tri::Zero,
        Digit::One => Tri::One,
        Digit::X | Digit::Z | Digit::Dash => Tri::Any,
    }
}

/// The bits of digits, of which the most significant comes first.
fn digit_bits(alloc: Global, digits: &[Digit]) -> Result<List<Tri>, Memory>
    ensures { IfOk result (λ bits. bits ≡ map docs.digit_bit (reverse digits.now)) }
{
    Ok(List::from_vec(each_bit(alloc, digits)?))
}

fn each_bit(alloc: Global, digits: &[Digit]) -> Result<Vec<Tri>, Memory>
    ensures { IfOk result (λ bits. bits.items ≡ map docs.digit_bit (reverse digits.now)) }
{
    Ok(
        digits
            .iter()
            .rev()
            .map(|digit| digit_bit(*digit))
            .collect(alloc)?,
    )
}

/// An attribute as a design keeps it.
pub fn attr_of(alloc: Global, attr: &DocAttr) -> Result<Attr, Memory>
    ensures { IfOk result (λ kept. kept ≡ docs.attr_of attr.now) }
{
    kept(alloc, &attr.name, &attr.value)
}

/// Attributes as a design keeps them.
pub fn attrs_of(alloc: Global, attrs: &[DocAttr]) -> Result<List<Attr>, Memory>
    ensures { IfOk result (λ list. list ≡ docs.attrs_of attrs.now) }
{
    let mut list = Vec::with_capacity(alloc, attrs.len())?;
    for attr in attrs {
        list.push(attr_of(alloc, attr)?)?;
    }
    Ok(List::from_vec(list))
}

/// A parameter as a design keeps it. One without a value has no bits.
pub fn param_of(alloc: Global, param: &DocParam) -> Result<Attr, Memory>
    ensures { IfOk result (λ kept. kept ≡ docs.param_of param.now) }
{
    match &param.value {
        Some(value) => kept(alloc, &param.name, value),
        None => kept_bits(alloc, &param.name, List::from_vec(Vec::new(alloc))),
    }
}

/// The parameters among the lines of a cell, as a design keeps them.
pub fn params_of(alloc: Global, lines: &[CellLine]) -> Result<List<Attr>, Memory>
    ensures { IfOk result (λ list. list ≡ docs.params_of lines.now) }
{
    let mut list = Vec::new(alloc);
    for line in lines {
        push_param(alloc, &mut list, line)?;
    }
    Ok(List::from_vec(list))
}

/// Puts the parameter at the end, if the line is one.
fn push_param(alloc: Global, list: &mut Vec<Attr>, line: &CellLine) -> Result<(), Memory>
    ensures { OnOk result (list.new.items ≡ list.old.items ++ docs.param_of_line line.now) }
{
    match line {
        CellLine::Param(param) => list.push(param_of(alloc, param)?)?,
        CellLine::Pin { .. } => (),
    }
    Ok(())
}

/// A name with what a constant stands for.
fn kept(alloc: Global, name: &Name, value: &DocConst) -> Result<Attr, Memory>
    ensures { IfOk result (λ kept. kept ≡ docs.attr name.now value.now) }
{
    match value {
        DocConst::Text(text) => Ok(Attr {
            name: name.copy(alloc)?,
            is_text: true,
            value: text.copy(alloc)?,
            bits: List::from_vec(Vec::new(alloc)),
        }),
        DocConst::Digits(digits) => kept_bits(alloc, name, digit_bits(alloc, digits.as_slice())?),
        DocConst::Number(number) => {
            kept_bits(alloc, name, low_bits(alloc, 32, number.cast_unsigned())?)
        }
    }
}

/// A name with bits.
fn kept_bits(alloc: Global, name: &Name, bits: List<Tri>) -> Result<Attr, Memory>
    ensures { IfOk result (λ kept. kept ≡ bits_attr name.now bits) }
{
    Ok(Attr {
        name: name.copy(alloc)?,
        is_text: false,
        value: Name::from_vec(Vec::new(alloc)),
        bits,
    })
}
