//! Which value is taken where any would do.
ghost use Rattle.std.specs.Prelude.{◌≡◌};
ghost use Rattle.lib_core.specs.Picks.{picked};

/// The value of a bit that may have any, by a hash of where it stands. It takes no memory.
pub fn pick(seed: u64, event: u64, cell: u64, bit: u64) -> bool
    ensures { result ≡ picked seed event cell bit }
{
    let sum = seed
        .wrapping_mul(11400714819323198485)
        .wrapping_add(event.wrapping_mul(6364136223846793005))
        .wrapping_add(cell.wrapping_mul(1442695040888963407))
        .wrapping_add(bit.wrapping_mul(3935559000370003845));
    let mixed = (sum ^ (sum >> 32)).wrapping_mul(2862933555777941757);
    mixed >> 63 == 1
}
