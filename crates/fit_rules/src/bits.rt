//! How many bits count so many things.
ghost use Rattle.std.specs.Prelude.{◌≡◌, ◌≤◌, ◌^◌};
ghost use Rattle.fit_rules.specs.Bits as bits;

use net_core::Mem;

/// The least number of bits that has a value for each of so many things. It takes no memory.
pub fn bits_to(number: u32) -> u32
    ensures value { result ≡ bits.bits_to number }
    ensures bound { result ≤ 32 }
{
    for bits in 0..32 {
        if u64::from(number) <= two_to(bits) {
            return bits;
        }
    }
    32
}

/// A power of 2. It takes no memory.
#[tactic(auto, using(crate::proofs::Powers::shifted_is))]
pub fn two_to(exponent: u32) -> u64
    requires { exponent ≤ 32 }
    ensures { result ≡ 2 ^ exponent }
{
    1 << exponent
}

/// The address bits of a port of 2 to this power words. It takes no memory.
pub fn address_bits(mem: &Mem, wide: u32) -> u32
    ensures { result ≡ bits.address_bits mem.now wide }
{
    mem.abits.saturating_sub(wide)
}

/// The same where the memory's size asks for more. It takes no memory.
pub fn room_bits(mem: &Mem, wide: u32) -> u32
    requires { mem.now.abits ≤ 32 }
    ensures value { result ≡ bits.room_bits mem.now wide }
    ensures bound { result ≤ 32 }
{
    mem.abits.max(bits_to(mem.size)).saturating_sub(wide)
}
