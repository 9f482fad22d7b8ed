//! The names of the pins and parameters of RAM cells.
ghost use Rattle.std.specs.Prelude.{◌≡◌, ℕ, List, ◌++◌, IfOk};
ghost use Rattle.std.specs.Option.{option_copied};
ghost use Rattle.std.specs.Str.{bytes_eq};
ghost use Rattle.ram_rows.specs.RamNames as names;

use lib_core::{Memory, Name};
use std::alloc::Global;

const PORT: &[u8] = b"\\PORT_";

const OPTION: &[u8] = b"OPTION_";

/// The name of what belongs to a port.
pub fn slot_name(alloc: Global, slot: &[u8], what: &[u8]) -> Result<Name, Memory>
    ensures { IfOk result (λ name. name ≡ names.slot_name slot.now what.now) }
{
    let mut name = Vec::from_slice(alloc, PORT)?;
    name.extend_from_slice(slot)?;
    name.extend_from_slice(b"_")?;
    name.extend_from_slice(what)?;
    Ok(Name::from_vec(name))
}

/// What stands behind the front, if the text begins with it.
fn after<'a>(text: &'a [u8], front: &[u8]) -> Option<&'a [u8]>
    ensures { (rest : List ℕ) → bytes_eq text.now (front.now ++ rest) ≡ names.is_rest (option_copied result) rest }
{
    text.strip_prefix(front)
}

/// What stands behind the name of the port, if the text is a name that belongs to it.
fn after_slot<'a>(text: &'a [u8], slot: &[u8]) -> Option<&'a [u8]>
    ensures { (what : List ℕ) → bytes_eq text.now (names.slot_name slot.now what) ≡ names.is_rest (option_copied result) what }
{
    let rest = after(text, PORT)?;
    let rest = after(rest, slot)?;
    after(rest, b"_")
}

/// Whether this is the name of what belongs to a port.
pub fn is_slot_name(text: &[u8], slot: &[u8], what: &[u8]) -> bool
    ensures { result ≡ bytes_eq text.now (names.slot_name slot.now what.now) }
{
    match after_slot(text, slot) {
        Some(rest) => rest == what,
        None => false,
    }
}

/// Whether this is the name of an option of a port.
pub fn is_slot_option(text: &[u8], slot: &[u8], option: &[u8]) -> bool
    ensures { result ≡ bytes_eq text.now (names.slot_option_name slot.now option.now) }
{
    let Some(rest) = after_slot(text, slot) else {
        return false;
    };
    match after(rest, OPTION) {
        Some(rest) => rest == option,
        None => false,
    }
}

/// Whether this is the name of an option of the RAM.
pub fn is_option(text: &[u8], option: &[u8]) -> bool
    ensures { result ≡ bytes_eq text.now (names.option_name option.now) }
{
    match after(text, b"\\OPTION_") {
        Some(rest) => rest == option,
        None => false,
    }
}
