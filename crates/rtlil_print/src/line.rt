//! Lines and the tokens on them. Each call appends to a text; without memory the text may have gained
//! a part.
ghost use Rattle.std.specs.Prelude.{◌≡◌, ◌++◌, ◌∷◌, [], OnOk, decimal, pos};
ghost use Rattle.rtlil_lex.specs.declared.token.Token.TheVariants as token;
ghost use Rattle.rtlil_lex.specs.Spelling.{numeral, spelling, spaced};
ghost use Rattle.rtlil_print.specs.Print.{indent, line, name_text, number_text, end_text, const_text, value_text};

use itoa::Buffer;
use lib_core::{List, Memory, Name};
use rtlil_lex::{Word, push_constant, push_identifier, push_number, push_string, push_word};
use rtlil_text::DocConst;

/// Where a line stands: at the margin, in a module or in a cell.
#[derive(Clone, Copy, Debug, PartialEq, Eq)]
pub enum Depth {
    File,
    Module,
    Cell,
}

pub fn push_bytes(text: &mut Vec<u8>, bytes: &[u8]) -> Result<(), Memory>
    ensures { OnOk result (text.new.items ≡ text.old.items ++ bytes.now) }
{
    text.extend_from_slice(bytes)?;
    Ok(())
}

fn indent(depth: Depth) -> &'static [u8]
    ensures { result.now ≡ indent depth }
{
    match depth {
        Depth::File => b"",
        Depth::Module => b"  ",
        Depth::Cell => b"    ",
    }
}

/// The indentation of a line and its first word.
pub fn push_begin(text: &mut Vec<u8>, depth: Depth, word: Word) -> Result<(), Memory>
    ensures { OnOk result (text.new.items ≡ text.old.items ++ (indent depth ++ spelling (token.Word word))) }
{
    push_bytes(text, indent(depth))?;
    push_word(text, word)
}

/// The end of a line.
pub fn push_end(text: &mut Vec<u8>) -> Result<(), Memory>
    ensures { OnOk result (text.new.items ≡ text.old.items ++ 10 ∷ []) }
{
    push_bytes(text, b"\n")
}

/// A line that is one word.
#[tactic(auto, unfolding(crate::specs::Print::line))]
pub fn push_lone_word(text: &mut Vec<u8>, depth: Depth, word: Word) -> Result<(), Memory>
    ensures { OnOk result (text.new.items ≡ text.old.items ++ line depth word []) }
{
    push_begin(text, depth, word)?;
    push_end(text)
}

/// A space and a word.
pub fn push_spaced_word(text: &mut Vec<u8>, word: Word) -> Result<(), Memory>
    ensures { OnOk result (text.new.items ≡ text.old.items ++ spaced (token.Word word)) }
{
    push_bytes(text, b" ")?;
    push_word(text, word)
}

/// A space and a name.
pub fn push_name(text: &mut Vec<u8>, name: &Name) -> Result<(), Memory>
    ensures { OnOk result (text.new.items ≡ text.old.items ++ name_text name.now) }
{
    push_bytes(text, b" ")?;
    push_identifier(text, name.as_slice())
}

/// A number that is not below 0.
#[tactic(auto, using(crate::proofs::Counts::count_spelled))]
pub fn push_count(text: &mut Vec<u8>, number: u32) -> Result<(), Memory>
    ensures { OnOk result (text.new.items ≡ text.old.items ++ end_text number) }
{
    let mut buffer = Buffer::new();
    push_bytes(text, buffer.format(number).as_bytes())
}

/// A space and a constant.
pub fn push_const(text: &mut Vec<u8>, value: &DocConst) -> Result<(), Memory>
    ensures { OnOk result (text.new.items ≡ text.old.items ++ const_text value.now) }
{
    push_bytes(text, b" ")?;
    match value {
        DocConst::Digits(digits) => push_constant(text, digits.as_slice()),
        DocConst::Number(number) => push_number(text, *number),
        DocConst::Text(string) => push_string(text, string.as_slice()),
    }
}

/// A space and a constant, or nothing.
pub fn push_value(text: &mut Vec<u8>, value: &Option<DocConst>) -> Result<(), Memory>
    ensures { OnOk result (text.new.items ≡ text.old.items ++ value_text value.now) }
{
    match value {
        Some(value) => push_const(text, value),
        None => Ok(()),
    }
}
