//! Numbers and constants.
ghost use Rattle.std.specs.Prelude.{◌≡◌, ◌^◌, ◌++◌, min, map, List, ℕ, IfOk, OnOk};
ghost use Rattle.rtlil_lex.specs.Values.{value_of, number_token, negative_token, digit_of, filler, fit, constant_token};
ghost use Rattle.rtlil_lex.specs.Limits.{limited, limited_first};
ghost use Rattle.rtlil_lex.specs.Lex.{without_flag, number_at, negative_at};

use crate::bytes::{Class, cut};
use crate::token::{Digit, MAX_WIDTH, Token};
use lib_core::{List, Memory};
use std::alloc::Global;

/// No number that a text may hold is as large.
const LARGE: u64 = 0x1_0000_0000;

/// The number that decimal digits spell, or `LARGE` where it is larger.
#[tactic(auto, using(crate::proofs::Numbers::value_more, crate::proofs::Numbers::value_none))]
fn value_of(digits: &[u8]) -> u64
    ensures { result ≡ min (value_of digits.now) (2 ^ 32) }
{
    let mut value = 0;
    for b in digits {
        value = LARGE.min(10 * value + u64::from(b.saturating_sub(b'0')));
    }
    value
}

fn number_token(digits: &[u8]) -> Token
    ensures { result ≡ number_token (value_of digits.now) }
{
    match i32::try_from(value_of(digits)) {
        Ok(number) => Token::Number(number),
        Err(_) => Token::Bad,
    }
}

fn negative_token(digits: &[u8]) -> Token
    ensures { result ≡ negative_token (value_of digits.now) }
{
    let value = value_of(digits);
    if value > 0x8000_0000 {
        return Token::Bad;
    }
    Token::Number((-(value as i64)) as i32)
}

fn digit_of(b: u8) -> Digit
    ensures { result ≡ digit_of b }
{
    match b {
        b'0' => Digit::Zero,
        b'1' => Digit::One,
        b'z' => Digit::Z,
        b'-' => Digit::Dash,
        _ => Digit::X,
    }
}

/// What stands before digits that are fewer than the width.
fn filler(digits: &[u8]) -> Digit
    ensures { result ≡ filler (map digit_of digits.now) }
{
    match digits {
        [] => Digit::X,
        [first, ..] => match digit_of(*first) {
            Digit::One => Digit::Zero,
            digit => digit,
        },
    }
}

/// Appends the digits that bytes spell.
fn push_digits(fitted: &mut Vec<Digit>, digits: &[u8]) -> Result<(), Memory>
    ensures { OnOk result (fitted.new.items ≡ fitted.old.items ++ map digit_of digits.now) }
{
    for b in digits {
        fitted.push(digit_of(*b))?;
    }
    Ok(())
}

/// As many digits as the width.
fn fit(alloc: Global, width: usize, digits: &[u8]) -> Result<List<Digit>, Memory>
    ensures { IfOk result (λ fitted. fitted ≡ fit width (map digit_of digits.now)) }
{
    let missing = width.saturating_sub(digits.len());
    let surplus = digits.len().saturating_sub(width);
    let mut fitted = Vec::with_capacity(alloc, width)?;
    fitted.resize(missing, filler(digits))?;
    push_digits(&mut fitted, &digits[surplus..])?;
    Ok(List::from_vec(fitted))
}

#[tactic(auto, using(crate::proofs::Numbers::constant_over, crate::proofs::Numbers::constant_within))]
fn constant_token(alloc: Global, width: &[u8], digits: &[u8]) -> Result<Token, Memory>
    ensures { IfOk result (λ t. t ≡ limited (constant_token (value_of width.now) (map digit_of digits.now))) }
{
    let width = value_of(width);
    if width > MAX_WIDTH {
        return Ok(Token::Over {
            seen: MAX_WIDTH + 1,
        });
    }
    Ok(Token::Digits(fit(alloc, width as usize, digits)?))
}

fn without_flag(bytes: &[u8]) -> &[u8]
    ensures { result.now ≡ without_flag bytes.now }
{
    match bytes {
        [b's', tail @ ..] => tail,
        _ => bytes,
    }
}

/// The number or the constant that begins with decimal digits, and what follows it.
pub fn number_at<'a>(
    alloc: Global,
    digits: &[u8],
    behind: &'a [u8],
) -> Result<(Token, &'a [u8]), Memory>
    ensures { IfOk result (λ x. (x.0, x.1.now) ≡ limited_first (number_at digits.now behind.now)) }
{
    match behind {
        [b'\'', tail @ ..] => {
            let (bits, rest) = cut(Class::ConstantDigit, without_flag(tail));
            Ok((constant_token(alloc, digits, bits)?, rest))
        }
        _ => Ok((number_token(digits), behind)),
    }
}

/// The token of decimal digits behind a `-`.
pub fn negative_at(digits: &[u8]) -> Token
    ensures { (rest : List ℕ) → negative_at digits.now rest ≡ (result, rest) }
{
    match digits {
        [] => Token::Bad,
        _ => negative_token(digits),
    }
}
