//! Parameters of a memory cell, by name.
ghost use Rattle.std.specs.Prelude.{◌≡◌, IfOk};
ghost use Rattle.mem_rows.specs.Rows as rows;

use cell_consts::{bits_at, flag_at, named, number_at, text_at};
use lib_core::{List, Memory, Name, Tri};
use net_core::Attr;
use std::alloc::Global;

pub fn has(params: &[Attr], name: &[u8]) -> bool
    ensures { result ≡ rows.has params.now name.now }
{
    named(params, name).is_some()
}

pub fn has_number(params: &[Attr], name: &[u8]) -> bool
    ensures { result ≡ rows.has_number params.now name.now }
{
    number_at(params, name).is_some()
}

/// The number, 0 where there is none.
pub fn number(params: &[Attr], name: &[u8]) -> u32
    ensures { result ≡ rows.number params.now name.now }
{
    number_at(params, name).unwrap_or(0)
}

/// Whether there is a number other than 0.
pub fn has_some(params: &[Attr], name: &[u8]) -> bool
    ensures { result ≡ rows.has_some params.now name.now }
{
    has_number(params, name) && number(params, name) != 0
}

/// The string, empty where there is none.
pub fn text(alloc: Global, params: &[Attr], name: &[u8]) -> Result<Name, Memory>
    ensures { IfOk result (λ text. text ≡ rows.text params.now name.now) }
{
    match text_at(alloc, params, name)? {
        Some(text) => Ok(text),
        None => Ok(Name::from_vec(Vec::new(alloc))),
    }
}

/// The bits, none where the parameter is missing.
pub fn bits(alloc: Global, params: &[Attr], name: &[u8]) -> Result<List<Tri>, Memory>
    ensures { IfOk result (λ bits. bits ≡ rows.bits params.now name.now) }
{
    match bits_at(alloc, params, name)? {
        Some(bits) => Ok(bits),
        None => Ok(List::from_vec(Vec::new(alloc))),
    }
}

/// Whether the parameter is a flag.
pub fn has_flag(params: &[Attr], name: &[u8]) -> bool
    ensures { result ≡ rows.has_flag params.now name.now }
{
    flag_at(params, name).is_some()
}

/// Whether the parameter is a flag that is set.
pub fn is_set(params: &[Attr], name: &[u8]) -> bool
    ensures { result ≡ rows.is_set params.now name.now }
{
    flag_at(params, name).unwrap_or(false)
}

/// Whether the parameter MEMID is a string that a memory can have as its name.
#[tactic(auto, unfolding(crate::specs::Rows::has_memory_name))]
pub fn has_memory_name(params: &[Attr]) -> bool
    ensures { result ≡ rows.has_memory_name params.now }
{
    match named(params, b"\\MEMID") {
        Some(param) => param.is_text && is_identifier(param.value.as_slice()),
        None => false,
    }
}

/// Whether the parameter is a string.
pub fn has_text(params: &[Attr], name: &[u8]) -> bool
    ensures { result ≡ rows.has_text params.now name.now }
{
    match named(params, name) {
        Some(param) => param.is_text,
        None => false,
    }
}

fn is_white(byte: u8) -> bool
    ensures { result ≡ rows.is_white_byte byte }
{
    byte == 32 || byte == 9 || byte == 10 || byte == 13
}

fn has_no_white(bytes: &[u8]) -> bool
    ensures { result ≡ rows.has_no_white bytes.now }
{
    bytes.iter().all(|byte| !is_white(*byte))
}

/// Whether the bytes are an identifier: `\` or `$`, and at least one more byte, none of them white.
fn is_identifier(bytes: &[u8]) -> bool
    ensures { result ≡ rows.is_name bytes.now }
{
    match bytes {
        [] => false,
        [_] => false,
        [first, more @ ..] => (*first == 92 || *first == 36) && has_no_white(more),
    }
}
