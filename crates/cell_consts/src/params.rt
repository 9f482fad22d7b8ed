//! What the parameters of a cell say, by name.
ghost use Rattle.std.specs.Prelude.{◌≡◌, IfOk};
ghost use Rattle.std.specs.Option.{option_copied};
ghost use Rattle.std.specs.List.{list_any};
ghost use Rattle.net_core.specs.Valid.{is_one_digit};
ghost use Rattle.cell_consts.specs.Params as by_name;

use crate::bits::attr_bits;
use crate::numbers::{is_one, number};
use lib_core::{List, Memory, Name, Tri};
use net_core::Attr;
use std::alloc::Global;

/// The first parameter of a name.
pub fn named<'a>(params: &'a [Attr], name: &[u8]) -> Option<&'a Attr>
    ensures { option_copied result ≡ by_name.named params.now name.now }
{
    params.iter().find(|param| param.name.as_slice() == name)
}

/// The number of this name, where there is one. It takes no memory.
pub fn number_at(params: &[Attr], name: &[u8]) -> Option<u32>
    ensures { result ≡ by_name.number_at params.now name.now }
{
    number(named(params, name)?)
}

/// Whether the number of this name is not 0, where there is one. It takes no memory.
pub fn polarity_at(params: &[Attr], name: &[u8]) -> Option<bool>
    ensures { result ≡ by_name.polarity_at params.now name.now }
{
    let number = number_at(params, name)?;
    Some(number != 0)
}

/// Whether a bit of this name is 1, where the parameter is there and no string. It takes no memory.
pub fn flag_at(params: &[Attr], name: &[u8]) -> Option<bool>
    ensures { result ≡ by_name.flag_at params.now name.now }
{
    let param = named(params, name)?;
    if param.is_text {
        return None;
    }
    Some(has_one(param.bits.as_slice()))
}

/// Whether a bit is 1.
fn has_one(bits: &[Tri]) -> bool
    ensures { result ≡ list_any is_one_digit bits.now }
{
    bits.iter().any(|bit| is_one(*bit))
}

/// The bits of this name, low bit first, also of a string, where the parameter is there.
pub fn bits_at(alloc: Global, params: &[Attr], name: &[u8]) -> Result<Option<List<Tri>>, Memory>
    ensures { IfOk result (λ bits. bits ≡ by_name.bits_at params.now name.now) }
{
    match named(params, name) {
        None => Ok(None),
        Some(param) => Ok(Some(attr_bits(alloc, param)?)),
    }
}

/// The string of this name, where there is one.
pub fn text_at(alloc: Global, params: &[Attr], name: &[u8]) -> Result<Option<Name>, Memory>
    ensures { IfOk result (λ text. text ≡ by_name.text_at params.now name.now) }
{
    match named(params, name) {
        Some(param) if param.is_text => Ok(Some(param.value.copy(alloc)?)),
        _ => Ok(None),
    }
}
