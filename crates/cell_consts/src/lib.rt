//! What the bits and strings of a cell's parameters stand for: numbers, flags and values, by name.
#![tactic(auto)]

mod bits;
mod numbers;
mod params;
mod written;

pub use bits::{attr_bits, low_bits, text_bits};
pub use numbers::{fitted, flags, number};
pub use params::{bits_at, flag_at, named, number_at, polarity_at, text_at};
pub use written::{bits_attr, flag_attr, number_attr, text_attr};
