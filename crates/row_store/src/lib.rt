//! Bits, and rows of bits that may be undefined, packed into limbs of 64 bits.
#![tactic(auto)]

mod bits;
mod limbs;
mod rows;
#[cfg(test)]
mod tests;

pub use bits::Bits;
pub use limbs::{and, and_not, has_bit, or, set_bit};
pub use rows::{Row, Rows};
