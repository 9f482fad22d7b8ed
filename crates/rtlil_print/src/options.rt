//! The options of wires and memories. Each call appends to a text; without memory the text may have
//! gained a part.
ghost use Rattle.std.specs.Prelude.{◌≡◌, ◌++◌, OnOk, pos};
ghost use Rattle.rtlil_print.specs.Print.{word_and_number, count_option, offset_option, port_option, flag_option, wire_options, memory_options};

use crate::line::{push_bytes, push_count, push_spaced_word};
use lib_core::Memory;
use rtlil_lex::{Word, push_number};
use rtlil_text::{DocMem, DocWire};

fn push_word_and_count(text: &mut Vec<u8>, word: Word, number: u32) -> Result<(), Memory>
    ensures { OnOk result (text.new.items ≡ text.old.items ++ word_and_number word (pos number)) }
{
    push_spaced_word(text, word)?;
    push_bytes(text, b" ")?;
    push_count(text, number)
}

fn push_word_and_number(text: &mut Vec<u8>, word: Word, number: i32) -> Result<(), Memory>
    ensures { OnOk result (text.new.items ≡ text.old.items ++ word_and_number word number) }
{
    push_spaced_word(text, word)?;
    push_bytes(text, b" ")?;
    push_number(text, number)
}

/// An option with a number, unless it says what holds without it.
fn push_count_option(
    text: &mut Vec<u8>,
    word: Word,
    number: u32,
    without: u32,
) -> Result<(), Memory>
    ensures { OnOk result (text.new.items ≡ text.old.items ++ count_option word number without) }
{
    if number == without {
        return Ok(());
    }
    push_word_and_count(text, word, number)
}

fn push_offset(text: &mut Vec<u8>, offset: i32) -> Result<(), Memory>
    ensures { OnOk result (text.new.items ≡ text.old.items ++ offset_option offset) }
{
    if offset == 0 {
        return Ok(());
    }
    push_word_and_number(text, Word::Offset, offset)
}

fn push_port(text: &mut Vec<u8>, wire: &DocWire) -> Result<(), Memory>
    ensures { OnOk result (text.new.items ≡ text.old.items ++ port_option wire.now.input wire.now.output wire.now.port) }
{
    match (wire.input, wire.output) {
        (true, true) => push_word_and_count(text, Word::Inout, wire.port),
        (true, false) => push_word_and_count(text, Word::Input, wire.port),
        (false, true) => push_word_and_count(text, Word::Output, wire.port),
        (false, false) => Ok(()),
    }
}

fn push_flag_option(text: &mut Vec<u8>, word: Word, stands: bool) -> Result<(), Memory>
    ensures { OnOk result (text.new.items ≡ text.old.items ++ flag_option word stands) }
{
    if stands {
        return push_spaced_word(text, word);
    }
    Ok(())
}

/// The options of a wire.
#[tactic(auto, unfolding(crate::specs::Print::wire_options))]
pub fn push_wire_options(text: &mut Vec<u8>, wire: &DocWire) -> Result<(), Memory>
    ensures { OnOk result (text.new.items ≡ text.old.items ++ wire_options wire.now) }
{
    push_count_option(text, Word::Width, wire.width, 1)?;
    push_offset(text, wire.offset)?;
    push_port(text, wire)?;
    push_flag_option(text, Word::Upto, wire.upto)?;
    push_flag_option(text, Word::Signed, wire.signed)
}

/// The options of a memory.
#[tactic(auto, unfolding(crate::specs::Print::memory_options))]
pub fn push_memory_options(text: &mut Vec<u8>, memory: &DocMem) -> Result<(), Memory>
    ensures { OnOk result (text.new.items ≡ text.old.items ++ memory_options memory.now) }
{
    push_count_option(text, Word::Width, memory.width, 1)?;
    push_count_option(text, Word::Size, memory.size, 0)?;
    push_count_option(text, Word::Offset, memory.offset, 0)
}
