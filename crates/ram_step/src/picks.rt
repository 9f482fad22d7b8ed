//! Which value is taken where any would do.
ghost use Rattle.std.specs.Prelude.{◌≡◌, ◌-◌, ◌^◌, ◌<◌};
ghost use Rattle.ram_step.specs.Picks.{resolved, start_key};

use lib_core::{Tri, pick};

/// What a picked value depends on, but for the bit.
#[derive(Clone, Copy, Debug, PartialEq, Eq)]
pub struct PickKey {
    pub seed: u64,
    /// The number of the event whose step it is.
    pub event: u64,
    /// The number of the cell.
    pub cell: u64,
}

/// The value of a bit of a slot that may be undefined. It takes no memory.
pub(crate) fn resolve(key: PickKey, slot: u32, bit: u32, tri: Tri) -> bool
    requires { slot < 2 ^ 32 - 1 }
    ensures { result ≡ resolved key slot bit tri }
{
    match tri {
        Tri::Zero => false,
        Tri::One => true,
        Tri::Any => {
            let number = 4_294_967_296 * (slot as u64 + 1) + bit as u64;
            pick(key.seed, key.event, key.cell, number)
        }
    }
}

/// The key of the values that read registers start with. It takes no memory.
pub(crate) fn start_key(key: PickKey) -> PickKey
    ensures { result ≡ start_key key }
{
    PickKey {
        seed: key.seed,
        event: 4_294_967_295,
        cell: key.cell,
    }
}
