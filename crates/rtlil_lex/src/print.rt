//! From tokens to their printed form. Each call appends to a text; without memory the text may have
//! gained a part of the form.
ghost use Rattle.std.specs.Prelude.{◌≡◌, ◌++◌, ◌∷◌, [], map, OnOk};
ghost use Rattle.std.specs.List.{flat_map};
ghost use Rattle.rtlil_lex.specs.declared.token.Token.TheVariants as token;
ghost use Rattle.rtlil_lex.specs.Spelling.{numeral, digit_byte, octal_digits, escape, word_text, spelling};

use crate::token::{Digit, Word};
use itoa::Buffer;
use lib_core::Memory;

fn push_bytes(text: &mut Vec<u8>, bytes: &[u8]) -> Result<(), Memory>
    ensures { OnOk result (text.new.items ≡ text.old.items ++ bytes.now) }
{
    text.extend_from_slice(bytes)?;
    Ok(())
}

fn push_byte(text: &mut Vec<u8>, b: u8) -> Result<(), Memory>
    ensures { OnOk result (text.new.items ≡ text.old.items ++ b ∷ []) }
{
    text.push(b)?;
    Ok(())
}

/// An identifier.
#[tactic(auto, unfolding(crate::specs::Spelling::spelling))]
pub fn push_identifier(text: &mut Vec<u8>, name: &[u8]) -> Result<(), Memory>
    ensures { OnOk result (text.new.items ≡ text.old.items ++ spelling (token.Id name.now)) }
{
    push_bytes(text, name)
}

/// A number.
#[tactic(auto, using(crate::proofs::Numbers::numeral_signed), unfolding(crate::specs::Spelling::spelling))]
pub fn push_number(text: &mut Vec<u8>, number: i32) -> Result<(), Memory>
    ensures { OnOk result (text.new.items ≡ text.old.items ++ spelling (token.Number number)) }
{
    let mut buffer = Buffer::new();
    push_bytes(text, buffer.format(number).as_bytes())
}

fn digit_byte(digit: Digit) -> u8
    ensures { result ≡ digit_byte digit }
{
    match digit {
        Digit::Zero => b'0',
        Digit::One => b'1',
        Digit::X => b'x',
        Digit::Z => b'z',
        Digit::Dash => b'-',
    }
}

fn push_digits(text: &mut Vec<u8>, digits: &[Digit]) -> Result<(), Memory>
    ensures { OnOk result (text.new.items ≡ text.old.items ++ map digit_byte digits.now) }
{
    text.reserve(digits.len())?;
    for digit in digits {
        push_byte(text, digit_byte(*digit))?;
    }
    Ok(())
}

#[tactic(auto, using(crate::proofs::Numbers::numeral_decimal))]
fn push_width(text: &mut Vec<u8>, width: usize) -> Result<(), Memory>
    ensures { OnOk result (text.new.items ≡ text.old.items ++ numeral width) }
{
    let mut buffer = Buffer::new();
    push_bytes(text, buffer.format(width).as_bytes())
}

/// A constant, with all its digits.
#[tactic(auto, unfolding(crate::specs::Spelling::spelling))]
pub fn push_constant(text: &mut Vec<u8>, digits: &[Digit]) -> Result<(), Memory>
    ensures { OnOk result (text.new.items ≡ text.old.items ++ spelling (token.Digits digits.now)) }
{
    push_width(text, digits.len())?;
    push_byte(text, b'\'')?;
    push_digits(text, digits)
}

fn push_octal(text: &mut Vec<u8>, b: u8) -> Result<(), Memory>
    ensures { OnOk result (text.new.items ≡ text.old.items ++ octal_digits b) }
{
    push_byte(text, b'0' + b / 64)?;
    push_byte(text, b'0' + b / 8 % 8)?;
    push_byte(text, b'0' + b % 8)
}

fn push_escaped(text: &mut Vec<u8>, b: u8) -> Result<(), Memory>
    ensures { OnOk result (text.new.items ≡ text.old.items ++ escape b) }
{
    match b {
        b'"' => push_bytes(text, b"\\\""),
        b'\\' => push_bytes(text, b"\\\\"),
        b'\n' => push_bytes(text, b"\\n"),
        b'\t' => push_bytes(text, b"\\t"),
        0..=31 | 127 => {
            push_byte(text, b'\\')?;
            push_octal(text, b)
        }
        _ => push_byte(text, b),
    }
}

fn push_all_escaped(text: &mut Vec<u8>, bytes: &[u8]) -> Result<(), Memory>
    ensures { OnOk result (text.new.items ≡ text.old.items ++ flat_map escape bytes.now) }
{
    for b in bytes {
        push_escaped(text, *b)?;
    }
    Ok(())
}

/// A string in its quotes.
#[tactic(auto, unfolding(crate::specs::Spelling::spelling))]
pub fn push_string(text: &mut Vec<u8>, bytes: &[u8]) -> Result<(), Memory>
    ensures { OnOk result (text.new.items ≡ text.old.items ++ spelling (token.Text bytes.now)) }
{
    push_byte(text, b'"')?;
    push_all_escaped(text, bytes)?;
    push_byte(text, b'"')
}

fn word_text(word: Word) -> &'static [u8]
    ensures { result.now ≡ word_text word }
{
    match word {
        Word::Autoidx => b"autoidx",
        Word::Module => b"module",
        Word::End => b"end",
        Word::Attribute => b"attribute",
        Word::Parameter => b"parameter",
        Word::Signed => b"signed",
        Word::Real => b"real",
        Word::Wire => b"wire",
        Word::Width => b"width",
        Word::Offset => b"offset",
        Word::Input => b"input",
        Word::Output => b"output",
        Word::Inout => b"inout",
        Word::Upto => b"upto",
        Word::Memory => b"memory",
        Word::Size => b"size",
        Word::Cell => b"cell",
        Word::Connect => b"connect",
        Word::Process => b"process",
        Word::Other => b"",
    }
}

/// A word. `Other` has no printed form, and nothing is appended for it.
#[tactic(auto, unfolding(crate::specs::Spelling::spelling))]
pub fn push_word(text: &mut Vec<u8>, word: Word) -> Result<(), Memory>
    ensures { OnOk result (text.new.items ≡ text.old.items ++ spelling (token.Word word)) }
{
    push_bytes(text, word_text(word))
}
