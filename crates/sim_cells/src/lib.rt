//! What registers and memories keep in a simulation: at the start, after an event, and what they show.
#![tactic(auto)]

mod hits;
pub mod laws;
mod mems;
mod picks;
mod pins;
mod places;
mod registers;
mod winners;

pub use mems::MemState;
pub use registers::{show_register, start_register, step_register};
