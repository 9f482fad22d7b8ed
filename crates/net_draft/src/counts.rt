//! Numbers of 32 bits.
ghost use Rattle.std.specs.Prelude.{◌≡◌, ◌+◌, IfOk};

use lib_core::Memory;

/// The number behind a place. One that does not fit 32 bits counts as want of memory.
pub fn after(place: u32) -> Result<u32, Memory>
    ensures { IfOk result (λ next. next ≡ place + 1) }
{
    match place.checked_add(1) {
        Some(next) => Ok(next),
        None => Err(Memory),
    }
}

/// How many there are. More than 32 bits can count are want of memory.
pub fn count_of(length: usize) -> Result<u32, Memory>
    ensures { IfOk result (λ count. count ≡ length) }
{
    match u32::try_from(length) {
        Ok(count) => Ok(count),
        Err(_) => Err(Memory),
    }
}
