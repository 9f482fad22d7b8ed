//! Strings: what stands between their quotes.
ghost use Rattle.std.specs.Prelude.{◌≡◌, ◌++◌, IfOk, option_map};
ghost use Rattle.rtlil_lex.specs.declared.string.Place.TheVariants.{Plain};
ghost use Rattle.rtlil_lex.specs.Values.{unescaped, octal_byte};
ghost use Rattle.rtlil_lex.specs.Lex.{plain_step, string_step, string_at};

use crate::bytes::is_octal;
use lib_core::{Memory, Name};
use std::alloc::Global;

/// Where a reader stands in a string.
#[derive(Clone, Copy)]
pub enum Place {
    Plain,
    /// Behind a backslash.
    Escape,
    /// Behind a backslash and this octal digit.
    One(u8),
    /// Behind a backslash and these octal digits.
    Two(u8, u8),
}

fn unescaped(b: u8) -> u8
    ensures { result ≡ unescaped b }
{
    match b {
        b'n' => b'\n',
        b't' => b'\t',
        _ => b,
    }
}

/// The byte that three octal digits spell.
fn octal_byte(a: u8, b: u8, c: u8) -> u8
    ensures { result ≡ octal_byte a b c }
{
    let high = u32::from(a.saturating_sub(b'0'));
    let middle = u32::from(b.saturating_sub(b'0'));
    let low = u32::from(c.saturating_sub(b'0'));
    ((64 * high + 8 * middle + low) % 256) as u8
}

/// Takes a byte where no escape is open. The answer is the place behind it, or nothing behind the
/// closing quote.
fn take_plain(text: &mut Vec<u8>, b: u8) -> Result<Option<Place>, Memory>
    ensures { IfOk result (λ behind. (text.new.items ≡ text.old.items ++ (plain_step b).0) × (behind ≡ (plain_step b).1)) }
{
    match b {
        b'"' => Ok(None),
        b'\\' => Ok(Some(Place::Escape)),
        _ => {
            text.push(b)?;
            Ok(Some(Place::Plain))
        }
    }
}

/// Takes a byte of a string.
fn take(text: &mut Vec<u8>, place: Place, b: u8) -> Result<Option<Place>, Memory>
    ensures { IfOk result (λ behind. (text.new.items ≡ text.old.items ++ (string_step place b).0) × (behind ≡ (string_step place b).1)) }
{
    match place {
        Place::Plain => take_plain(text, b),
        Place::Escape => {
            if is_octal(b) {
                return Ok(Some(Place::One(b)));
            }
            text.push(unescaped(b))?;
            Ok(Some(Place::Plain))
        }
        Place::One(first) => {
            if is_octal(b) {
                return Ok(Some(Place::Two(first, b)));
            }
            text.push(octal_byte(b'0', b'0', first))?;
            take_plain(text, b)
        }
        Place::Two(first, second) => {
            if is_octal(b) {
                text.push(octal_byte(first, second, b))?;
                return Ok(Some(Place::Plain));
            }
            text.push(octal_byte(b'0', first, second))?;
            take_plain(text, b)
        }
    }
}

/// The string behind its opening quote, and what follows its closing one, where there is one.
#[tactic(auto, unfolding(crate::specs::Lex::string_at), using(crate::proofs::Quotes::front_grows))]
pub fn string_at(alloc: Global, bytes: &[u8]) -> Result<Option<(Name, &[u8])>, Memory>
    ensures { IfOk result (λ o. option_map (λ x. (x.0, x.1.now)) o ≡ string_at Plain bytes.now) }
{
    let mut text = Vec::new(alloc);
    let mut place = Place::Plain;
    let mut rest = bytes;
    while let [b, tail @ ..] = rest {
        let Some(behind) = take(&mut text, place, *b)? else {
            return Ok(Some((Name::from_vec(text), tail)));
        };
        place = behind;
        rest = tail;
    }
    Ok(None)
}
