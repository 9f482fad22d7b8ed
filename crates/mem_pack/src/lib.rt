//! From a memory to the one cell that holds it with all its ports.
#![tactic(auto)]

mod cell;
pub mod laws;
mod numbers;
mod params;
mod pins;
mod reads;
mod writes;

pub use cell::pack;
