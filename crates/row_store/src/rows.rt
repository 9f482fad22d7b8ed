//! The rows, and how they are read and changed.
ghost use Rattle.std.specs.Prelude.{◌≡◌, ℕ, ◌*◌, ◌%◌, ◌^◌, ◌<◌, ◌≤◌, ◌&&◌, ◌||◌, nat_eq, nat_lt, cond, length, IfOk, slice_set};
ghost use Rattle.lib_core.specs.Rams.{tri_at};
ghost use Rattle.row_store.specs.Limbs.{bit_in};
ghost use Rattle.row_store.specs.Rows.{is_one, is_defined, tri_in, row_of, bit_of, rows_cut, changed};

use crate::limbs::{and, and_not, has_bit, or, set_bit};
use lib_core::{Memory, Tri};
use std::alloc::Global;
use std::marker::Model;

/// The values of a row's bits, and which of them are defined.
#[derive(Clone, Copy)]
pub struct Row<const LIMBS: usize> {
    pub values: [u64; LIMBS],
    pub known: [u64; LIMBS],
}

impl<const LIMBS: usize> Row<LIMBS> {
    /// A bit. It takes no memory.
    pub fn bit(&self, place: u32) -> Tri
        requires { place < 64 * LIMBS }
        ensures { result ≡ tri_in self.now.values self.now.known place }
    {
        if !has_bit(&self.known, place as usize) {
            Tri::Any
        } else if has_bit(&self.values, place as usize) {
            Tri::One
        } else {
            Tri::Zero
        }
    }
}

/// Rows of at most 64 bits a limb, each bit 0, 1 or undefined. Contracts see them as the list of rows.
#[derive(Drop)]
pub struct Rows<const LIMBS: usize> {
    width: u32,
    /// The bits below the width.
    inside: [u64; LIMBS],
    rows: Vec<Row<LIMBS>>,
}

impl<const LIMBS: usize> Model for Rows<LIMBS> {
    ghost use Rattle.std.specs.Prelude.{◌≡◌, ℕ, List, ◌*◌, ◌^◌, ◌<◌, ◌≤◌, nat_lt, map};
    ghost use Rattle.std.specs.List.{All};
    ghost use Rattle.lib_core.specs.declared.library.Tri.{Tri};
    ghost use Rattle.row_store.specs.Limbs.{bit_in};
    ghost use Rattle.row_store.specs.Rows.{row_in, IsPacked};

    ghost Value = { List (List Tri) };

    ghost view = { λ a. map (λ r. row_in a.width r.values r.known) a.rows.items };

    ghost invariant = { λ a. (a.width ≤ 64 * LIMBS) × (64 * LIMBS < 2 ^ 32) × ((k : ℕ) → bit_in a.inside k ≡ nat_lt k a.width) × All (λ r. IsPacked a.width r.values r.known) a.rows.items };
}

impl<const LIMBS: usize> Rows<LIMBS> {
    /// The rows of this width that are in `init`, row 0 first, low bit first.
    pub fn new(alloc: Global, width: u32, init: &[Tri]) -> Result<Rows<LIMBS>, Memory>
        requires some_bits { 1 ≤ width }
        requires few_bits { width ≤ 64 * LIMBS }
        requires few_limbs { 64 * LIMBS < 2 ^ 32 }
        requires whole { length init.now % width ≡ 0 }
        ensures { IfOk result (λ rows. rows ≡ rows_cut init.now width) }
    {
        let size = width as usize;
        let count = init.len() / size;
        let mut rows = Vec::with_capacity(alloc, count)?;
        for row in 0..count {
            rows.push(packed(&init[row * size..row * size + size]))?;
        }
        let inside = lanes_below(width);
        Ok(Rows {
            width,
            inside,
            rows,
        })
    }

    /// A bit of a row. It takes no memory.
    pub fn get(&self, row: u32, bit: u32) -> Tri
        requires row { row < length self.now }
        requires bit { bit < length (row_of self.now row) }
        ensures { result ≡ bit_of self.now row bit }
    {
        let found = &self.rows[row as usize];
        found.bit(bit)
    }

    /// All bits of a row. It takes no memory.
    pub fn row(&self, row: u32) -> Row<LIMBS>
        requires { row < length self.now }
        ensures { (k : ℕ) → k < length (row_of self.now row) → tri_in result.values result.known k ≡ bit_of self.now row k }
    {
        self.rows[row as usize]
    }

    /// The values of a row: bit k mod 64 of limb k / 64 is 1 exactly where bit k of the row is 1, and 0 past its end.
    /// It takes no memory.
    pub fn values(&self, row: u32) -> &[u64; LIMBS]
        requires { row < length self.now }
        ensures { (k : ℕ) → bit_in result.now k ≡ is_one (bit_of self.now row k) }
    {
        &self.rows[row as usize].values
    }

    /// Which bits of a row are defined: bit k mod 64 of limb k / 64 is 1 exactly where bit k of the row is 0 or 1, and 0
    /// past its end. It takes no memory.
    pub fn known(&self, row: u32) -> &[u64; LIMBS]
        requires { row < length self.now }
        ensures { (k : ℕ) → bit_in result.now k ≡ is_defined (bit_of self.now row k) }
    {
        &self.rows[row as usize].known
    }

    /// Sets the masked bits of a row to their values where these are known, and makes them undefined where not. Masked
    /// bits past the end of the row count for nothing. It takes no memory.
    pub fn set_lanes(
        &mut self,
        row: u32,
        mask: &[u64; LIMBS],
        value: &[u64; LIMBS],
        known: &[u64; LIMBS],
    )
        requires { row < length self.old }
        ensures { self.new ≡ slice_set self.old row (changed mask.now value.now known.now (row_of self.old row)) }
    {
        let old = self.rows[row as usize];
        let mask = and(mask, &self.inside);
        let value = and(value, known);
        self.rows[row as usize] = Row {
            values: chosen(&mask, &value, &old.values),
            known: chosen(&mask, known, &old.known),
        };
    }
}

/// The bits of one where the mask is set, and of the other elsewhere.
fn chosen<const LIMBS: usize>(
    mask: &[u64; LIMBS],
    inside: &[u64; LIMBS],
    outside: &[u64; LIMBS],
) -> [u64; LIMBS]
    ensures { (k : ℕ) → bit_in result k ≡ cond (bit_in mask.now k) (bit_in inside.now k) (bit_in outside.now k) }
{
    or(&and(mask, inside), &and_not(outside, mask))
}

/// Puts a bit where none is set. It takes no memory.
fn put_bit<const LIMBS: usize>(
    values: &mut [u64; LIMBS],
    known: &mut [u64; LIMBS],
    place: usize,
    bit: Tri,
)
    requires { place < 64 * LIMBS }
    ensures values { (k : ℕ) → bit_in values.new k ≡ ((nat_eq k place && is_one bit) || bit_in values.old k) }
    ensures known { (k : ℕ) → bit_in known.new k ≡ ((nat_eq k place && is_defined bit) || bit_in known.old k) }
{
    match bit {
        Tri::Zero => set_bit(known, place),
        Tri::One => {
            set_bit(values, place);
            set_bit(known, place);
        }
        Tri::Any => {}
    }
}

/// The bits below a width.
fn lanes_below<const LIMBS: usize>(width: u32) -> [u64; LIMBS]
    requires { width ≤ 64 * LIMBS }
    ensures { (k : ℕ) → bit_in result k ≡ nat_lt k width }
{
    let mut lanes = [0u64; LIMBS];
    for place in 0..width {
        set_bit(&mut lanes, place as usize);
    }
    lanes
}

/// The row of these bits.
fn packed<const LIMBS: usize>(bits: &[Tri]) -> Row<LIMBS>
    requires { length bits.now ≤ 64 * LIMBS }
    ensures values { (k : ℕ) → bit_in result.values k ≡ is_one (tri_at bits.now k) }
    ensures known { (k : ℕ) → bit_in result.known k ≡ is_defined (tri_at bits.now k) }
{
    let mut values = [0u64; LIMBS];
    let mut known = [0u64; LIMBS];
    for (place, bit) in bits.iter().enumerate() {
        put_bit(&mut values, &mut known, place, *bit);
    }
    Row { values, known }
}
