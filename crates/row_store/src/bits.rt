//! A list of bits, packed.
ghost use Rattle.std.specs.Prelude.{◌≡◌, ℕ, ◌*◌, ◌^◌, ◌<◌, ◌≤◌, cond, false, nat_eq, length, slice_set};
ghost use Rattle.row_store.specs.Limbs.{bit_in};
ghost use Rattle.row_store.specs.Bits.{no_bits, bit_or_low};

use crate::limbs::{has_bit, set_bit};
use std::marker::Model;

/// At most 64 bits a limb. Contracts see them as the list of them.
#[derive(Drop)]
pub struct Bits<const LIMBS: usize> {
    width: u32,
    limbs: [u64; LIMBS],
}

impl<const LIMBS: usize> Model for Bits<LIMBS> {
    ghost use Rattle.std.specs.Prelude.{List, Bool, ◌*◌, ◌^◌, ◌<◌, ◌≤◌, map};
    ghost use Rattle.std.specs.List.{range_with_len};
    ghost use Rattle.row_store.specs.Limbs.{bit_in};

    ghost Value = { List Bool };

    ghost view = { λ b. map (bit_in b.limbs) (range_with_len 0 b.width) };

    ghost invariant = { λ b. (b.width ≤ 64 * LIMBS) × (64 * LIMBS < 2 ^ 32) };
}

impl<const LIMBS: usize> Bits<LIMBS> {
    /// So many bits, all 0. It takes no memory.
    #[tactic(auto, using(crate::proofs::BitLists::none_set))]
    pub fn new(width: u32) -> Bits<LIMBS>
        requires few_bits { width ≤ 64 * LIMBS }
        requires few_limbs { 64 * LIMBS < 2 ^ 32 }
        ensures { result ≡ no_bits width }
    {
        Bits {
            width,
            limbs: [0u64; LIMBS],
        }
    }

    /// How many bits there are. It takes no memory.
    #[tactic(auto, using(crate::proofs::BitLists::length_seen))]
    pub fn len(&self) -> u32
        ensures { result ≡ length self.now }
    {
        self.width
    }

    /// A bit. It takes no memory.
    pub fn get(&self, place: u32) -> bool
        requires { place < length self.now }
        ensures { result ≡ bit_or_low self.now place }
    {
        has_bit(&self.limbs, place as usize)
    }

    /// Changes a bit. It takes no memory.
    pub fn put(&mut self, place: u32, bit: bool)
        requires { place < length self.old }
        ensures { self.new ≡ slice_set self.old place bit }
    {
        if bit {
            set_bit(&mut self.limbs, place as usize);
        } else {
            clear_bit(&mut self.limbs, place as usize);
        }
    }
}

/// Clears a bit. It takes no memory.
fn clear_bit<const LIMBS: usize>(limbs: &mut [u64; LIMBS], place: usize)
    requires { place < 64 * LIMBS }
    ensures { (k : ℕ) → bit_in limbs.new k ≡ cond (nat_eq k place) false (bit_in limbs.old k) }
{
    let limb = limbs[place / 64];
    limbs[place / 64] = limb & !(1 << (place % 64));
}
