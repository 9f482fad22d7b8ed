//! Bits over several limbs, the low limb first.
ghost use Rattle.std.specs.Prelude.{◌≡◌, ℕ, ◌*◌, ◌<◌, not, ◌&&◌, ◌||◌, nat_eq};
ghost use Rattle.row_store.specs.Limbs.{bit_in};

/// Whether a bit is set. It takes no memory.
pub fn has_bit<const LIMBS: usize>(limbs: &[u64; LIMBS], place: usize) -> bool
    requires { place < 64 * LIMBS }
    ensures { result ≡ bit_in limbs.now place }
{
    limbs[place / 64] >> (place % 64) & 1 == 1
}

/// Sets a bit. It takes no memory.
pub fn set_bit<const LIMBS: usize>(limbs: &mut [u64; LIMBS], place: usize)
    requires { place < 64 * LIMBS }
    ensures { (k : ℕ) → bit_in limbs.new k ≡ (nat_eq k place || bit_in limbs.old k) }
{
    let limb = limbs[place / 64];
    limbs[place / 64] = limb | 1 << (place % 64);
}

/// The bits that are set in either. It takes no memory.
pub fn or<const LIMBS: usize>(a: &[u64; LIMBS], b: &[u64; LIMBS]) -> [u64; LIMBS]
    ensures { (k : ℕ) → bit_in result k ≡ (bit_in a.now k || bit_in b.now k) }
{
    let mut out = [0u64; LIMBS];
    for at in 0..LIMBS {
        out[at] = a[at] | b[at];
    }
    out
}

/// The bits that are set in both. It takes no memory.
pub fn and<const LIMBS: usize>(a: &[u64; LIMBS], b: &[u64; LIMBS]) -> [u64; LIMBS]
    ensures { (k : ℕ) → bit_in result k ≡ (bit_in a.now k && bit_in b.now k) }
{
    let mut out = [0u64; LIMBS];
    for at in 0..LIMBS {
        out[at] = a[at] & b[at];
    }
    out
}

/// The bits that are set in the first and not in the second. It takes no memory.
pub fn and_not<const LIMBS: usize>(a: &[u64; LIMBS], b: &[u64; LIMBS]) -> [u64; LIMBS]
    ensures { (k : ℕ) → bit_in result k ≡ (bit_in a.now k && not (bit_in b.now k)) }
{
    let mut out = [0u64; LIMBS];
    for at in 0..LIMBS {
        out[at] = a[at] & !b[at];
    }
    out
}
