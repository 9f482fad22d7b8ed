//! Logic that is added to a module: one function for each kind, whose contract says what the new bits
//! mean in each run, and that runs, drivers and combinational orders are kept.
#![tactic(auto)]

pub mod compare;
mod constants;
pub mod flags;
pub mod gates;
pub mod laws;
mod logic;
pub mod ranges;
pub mod registers;

pub use compare::{equal_const, less_const, mux};
pub use flags::{FlagPins, flag_mux};
pub use gates::{and_all, and_gate, not_gate, or_all, or_gate, xor_gate};
pub use ranges::in_range;
pub use registers::{RegPins, register};
