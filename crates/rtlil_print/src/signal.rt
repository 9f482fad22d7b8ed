//! Signals. Each call appends to a text; without memory the text may have gained a part.
ghost use Rattle.std.specs.Prelude.{◌≡◌, ◌++◌, OnOk};
ghost use Rattle.rtlil_print.specs.Print.{slice_text, part_text, signal_text};

use crate::line::{push_bytes, push_const, push_count, push_name};
use lib_core::Memory;
use rtlil_text::Part;

fn push_slice(text: &mut Vec<u8>, high: u32, low: u32) -> Result<(), Memory>
    ensures { OnOk result (text.new.items ≡ text.old.items ++ slice_text high low) }
{
    push_bytes(text, b" [")?;
    push_count(text, high)?;
    if high != low {
        push_bytes(text, b":")?;
        push_count(text, low)?;
    }
    push_bytes(text, b"]")
}

#[tactic(auto, unfolding(crate::specs::Print::part_text))]
fn push_part(text: &mut Vec<u8>, part: &Part) -> Result<(), Memory>
    ensures { OnOk result (text.new.items ≡ text.old.items ++ part_text part.now) }
{
    match part {
        Part::Fixed(value) => push_const(text, value),
        Part::Wire(name) => push_name(text, name),
        Part::Slice { high, low } => push_slice(text, *high, *low),
        Part::Begin => push_bytes(text, b" {"),
        Part::End => push_bytes(text, b" }"),
    }
}

/// A signal, each part with a space before it.
pub fn push_signal(text: &mut Vec<u8>, parts: &[Part]) -> Result<(), Memory>
    ensures { OnOk result (text.new.items ≡ text.old.items ++ signal_text parts.now) }
{
    for part in parts {
        push_part(text, part)?;
    }
    Ok(())
}
