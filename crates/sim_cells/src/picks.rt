//! Which value is taken where any would do.
ghost use Rattle.std.specs.Prelude.{◌≡◌};
ghost use Rattle.ram_step.specs.Picks as picks;
ghost use Rattle.sim_cells.specs.Choices as choices;

use lib_core::{Tri, pick};
use ram_step::PickKey;

/// The value of a bit that may be undefined, by the number of the bit. It takes no memory.
pub fn take(key: &PickKey, number: u64, tri: Tri) -> bool
    ensures { result ≡ choices.taken key.now number tri }
{
    match tri {
        Tri::Zero => false,
        Tri::One => true,
        Tri::Any => pick(key.seed, key.event, key.cell, number),
    }
}

/// The key of the values at the start, which have an event number of their own. It takes no memory.
pub fn start_key(key: &PickKey) -> PickKey
    ensures { result ≡ picks.start_key key.now }
{
    PickKey {
        seed: key.seed,
        event: 4_294_967_295,
        cell: key.cell,
    }
}
