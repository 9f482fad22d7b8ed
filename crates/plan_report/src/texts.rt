//! Pieces of lines. Each call appends to a text; without memory the text may have gained a part.
ghost use Rattle.std.specs.Prelude.{◌≡◌, ◌++◌, OnOk};
ghost use Rattle.plan_report.specs.Lines.{field, named, line_end};

use itoa::Buffer;
use lib_core::Memory;

pub fn push_bytes(text: &mut Vec<u8>, bytes: &[u8]) -> Result<(), Memory>
    ensures { OnOk result (text.new.items ≡ text.old.items ++ bytes.now) }
{
    text.extend_from_slice(bytes)?;
    Ok(())
}

/// Words and a number.
#[tactic(auto, unfolding(crate::specs::Lines::field))]
pub fn push_field(text: &mut Vec<u8>, words: &[u8], number: u128) -> Result<(), Memory>
    ensures { OnOk result (text.new.items ≡ text.old.items ++ field words.now number) }
{
    push_bytes(text, words)?;
    let mut buffer = Buffer::new();
    push_bytes(text, buffer.format(number).as_bytes())
}

/// Words and a name.
#[tactic(auto, unfolding(crate::specs::Lines::named))]
pub fn push_named(text: &mut Vec<u8>, words: &[u8], name: &[u8]) -> Result<(), Memory>
    ensures { OnOk result (text.new.items ≡ text.old.items ++ named words.now name.now) }
{
    push_bytes(text, words)?;
    push_bytes(text, name)
}

pub fn push_end(text: &mut Vec<u8>) -> Result<(), Memory>
    ensures { OnOk result (text.new.items ≡ text.old.items ++ line_end) }
{
    push_bytes(text, b"\n")
}
