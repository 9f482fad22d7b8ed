//! Numbers and constants.
ghost use Rattle.std.specs.Prelude.{◌≡◌, ◌^◌, ◌++◌, ◌+◌, ◌-◌, ◌≤◌, ◌<◌, ◌==◌, ◌||◌, ◌&&◌, min, map, reverse, replicate, length, take, drop, nat_le, nat_lt, position, false, IfOk};
ghost use Rattle.std.specs.List.{list_all};
ghost use Rattle.rtlil_lex.specs.Bytes.{is_decimal, is_constant_digit};
ghost use Rattle.rtlil_lex.specs.Lex.{without_flag};
ghost use Rattle.rtlil_lex.specs.Values as values;
ghost use Rattle.stim_text.specs.Spoken as words;
ghost use Rattle.stim_text.specs.Stimulus.{Gives};

use crate::fault::{StimCode, Stop};
use lib_core::{List, Memory};
use std::alloc::Global;

/// No width and no index is as large.
const LARGE: u128 = 0x1_0000_0000_0000_0000;

fn is_decimal(byte: u8) -> bool
    ensures { result ≡ is_decimal byte }
{
    b'0' <= byte && byte <= b'9'
}

fn are_decimal(bytes: &[u8]) -> bool
    ensures { result ≡ list_all (λ b. is_decimal b) bytes.now }
{
    bytes.iter().all(|byte| is_decimal(*byte))
}

fn is_number(word: &[u8]) -> bool
    ensures { result ≡ words.is_number word.now }
{
    !word.is_empty() && are_decimal(word)
}

/// The number that decimal digits spell, or `LARGE` where it is larger.
#[tactic(auto, using(crate::proofs::Digits::value_more, crate::proofs::Digits::value_none))]
fn value_of(digits: &[u8]) -> u128
    ensures { result ≡ min (values.value_of digits.now) (2 ^ 64) }
{
    let mut value = 0;
    for digit in digits {
        value = LARGE.min(10 * value + u128::from(digit.saturating_sub(b'0')));
    }
    value
}

/// The number that a word is, where it is one below a bound.
#[tactic(auto, unfolding(crate::specs::Spoken::number_below))]
pub fn number_below(bound: usize, word: &[u8]) -> Option<usize>
    ensures { result ≡ words.number_below bound word.now }
{
    if !is_number(word) {
        return None;
    }
    let number = value_of(word);
    if number < bound as u128 {
        Some(number as usize)
    } else {
        None
    }
}

fn is_width(width: usize, digits: &[u8]) -> bool
    ensures { result ≡ (values.value_of digits.now == width) }
{
    value_of(digits) == width as u128
}

fn is_constant_digit(byte: u8) -> bool
    ensures { result ≡ is_constant_digit byte }
{
    byte == b'0' || byte == b'1' || byte == b'x' || byte == b'z' || byte == b'm' || byte == b'-'
}

fn are_constant_digits(bytes: &[u8]) -> bool
    ensures { result ≡ list_all (λ b. is_constant_digit b) bytes.now }
{
    bytes.iter().all(|byte| is_constant_digit(*byte))
}

/// Whether a digit is 0 or 1.
fn is_bit(byte: u8) -> bool
    ensures { result ≡ (byte == 48 || byte == 49) }
{
    byte == b'0' || byte == b'1'
}

fn are_bits(digits: &[u8]) -> bool
    ensures { result ≡ list_all (λ b. b == 48 || b == 49) digits.now }
{
    digits.iter().all(|digit| is_bit(*digit))
}

/// Whether digits that are too few are filled up with 0.
fn begins_with_bit(digits: &[u8]) -> bool
    ensures { result ≡ words.begins_with_bit digits.now }
{
    match digits {
        [first, ..] => is_bit(*first),
        [] => false,
    }
}

/// The values of digits, in their order.
fn ones(alloc: Global, digits: &[u8]) -> Result<Vec<bool>, Memory>
    ensures { IfOk result (λ bits. bits.items ≡ map (λ b. b == 49) digits.now) }
{
    Ok(digits.iter().map(|digit| *digit == b'1').collect(alloc)?)
}

/// The values of digits, the last one first, and 0 behind them up to a width.
fn low_first(alloc: Global, width: usize, digits: &[u8]) -> Result<List<bool>, Memory>
    requires { length digits.now ≤ width }
    ensures { IfOk result (λ bits. bits ≡ reverse (map (λ b. b == 49) digits.now) ++ replicate (width - length digits.now) false) }
{
    let mut bits = ones(alloc, digits)?;
    bits.as_mut_slice().reverse();
    bits.resize(width, false)?;
    Ok(List::from_vec(bits))
}

/// The bits that so many digits spell, low bit first, where each is 0 or 1.
#[tactic(auto, unfolding(crate::specs::Spoken::plain_bits))]
fn bits_of(alloc: Global, width: usize, digits: &[u8]) -> Result<Option<List<bool>>, Memory>
    ensures { IfOk result (λ bits. bits ≡ words.plain_bits width digits.now) }
{
    if digits.len() < width && !begins_with_bit(digits) {
        return Ok(None);
    }
    let kept = &digits[digits.len().saturating_sub(width)..];
    if !are_bits(kept) {
        return Ok(None);
    }
    Ok(Some(low_first(alloc, width, kept)?))
}

/// Digits without the `s` that says nothing.
fn without_flag(digits: &[u8]) -> &[u8]
    ensures { result.now ≡ without_flag digits.now }
{
    match digits {
        [b's', rest @ ..] => rest,
        digits => digits,
    }
}

/// The bits of a constant of this width, of which these are the two parts.
#[tactic(auto, unfolding(crate::specs::Spoken::value_of_parts), using(crate::proofs::Digits::bits_are))]
fn value_of_parts(
    alloc: Global,
    width: usize,
    number: &[u8],
    digits: &[u8],
) -> Result<List<bool>, Stop>
    ensures { Gives result (words.value_of_parts width number.now digits.now) }
{
    if !is_number(number) || !are_constant_digits(digits) {
        return Err(Stop::Refused(StimCode::Line));
    }
    if !is_width(width, number) {
        return Err(Stop::Refused(StimCode::Width));
    }
    match bits_of(alloc, width, digits)? {
        Some(bits) => Ok(bits),
        None => Err(Stop::Refused(StimCode::Width)),
    }
}

/// The place of the first `'`.
fn quote_in(word: &[u8]) -> Option<usize>
    ensures { result ≡ position (λ b. b == 39) word.now }
{
    word.iter().position(|byte| *byte == b'\'')
}

/// The bits of a constant of this width.
#[tactic(auto, unfolding(crate::specs::Spoken::value_in))]
pub fn value_in(alloc: Global, width: usize, word: &[u8]) -> Result<List<bool>, Stop>
    ensures { Gives result (words.value_in width word.now) }
{
    match quote_in(word) {
        None => Err(Stop::Refused(StimCode::Line)),
        Some(quote) => {
            value_of_parts(
                alloc,
                width,
                &word[..quote],
                without_flag(&word[quote + 1..]),
            )
        }
    }
}
