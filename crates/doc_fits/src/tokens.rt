//! Names and numbers.
ghost use Rattle.std.specs.Prelude.{◌≡◌};
ghost use Rattle.std.specs.List.{list_all};
ghost use Rattle.doc_fits.specs.Tests.{is_name_byte, begins_name, is_identifier, is_count, int_fits, const_fits, value_fits};

use rtlil_text::DocConst;

/// What a number that is not negative has to be below: 2 to the power of 31.
const COUNTS: u32 = 2_147_483_648;

fn is_name_byte(byte: u8) -> bool
    ensures { result ≡ is_name_byte byte }
{
    byte != b' ' && byte != b'\t' && byte != b'\r' && byte != b'\n'
}

fn are_name_bytes(bytes: &[u8]) -> bool
    ensures { result ≡ list_all (λ b. is_name_byte b) bytes.now }
{
    bytes.iter().all(|byte| is_name_byte(*byte))
}

fn begins_name(name: &[u8]) -> bool
    ensures { result ≡ begins_name name.now }
{
    match name {
        [first, _, ..] => *first == b'\\' || *first == b'$',
        _ => false,
    }
}

/// Whether a name stands in a text as it is: `\` or `$`, and more bytes without white space.
#[tactic(auto, unfolding(crate::specs::Tests::is_identifier))]
pub fn is_identifier(name: &[u8]) -> bool
    ensures { result ≡ is_identifier name.now }
{
    begins_name(name) && are_name_bytes(name)
}

/// Whether a number that is not negative can be written: it has 32 bits with its sign.
pub fn is_count(number: u32) -> bool
    ensures { result ≡ is_count number }
{
    number < COUNTS
}

/// Whether a number can be written, as each of 32 bits can.
pub fn int_fits(_number: i32) -> bool
    ensures { result ≡ int_fits _number }
{
    true
}

/// Whether a constant can be written.
#[tactic(auto, unfolding(crate::specs::Tests::const_fits))]
pub fn const_fits(value: &DocConst) -> bool
    ensures { result ≡ const_fits value.now }
{
    match value {
        DocConst::Digits(_) | DocConst::Text(_) => true,
        DocConst::Number(number) => int_fits(*number),
    }
}

/// Whether the value of a parameter can be written, where `missing` tells whether it may have none.
pub fn value_fits(missing: bool, value: &Option<DocConst>) -> bool
    ensures { result ≡ value_fits missing value.now }
{
    match value {
        None => missing,
        Some(value) => const_fits(value),
    }
}
