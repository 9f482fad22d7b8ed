//! One module of a document: its cells with their rows, their pins by places, its connected bits, and what it breaks first.
#![tactic(auto)]

mod around;
mod bits;
mod cell;
mod clocks;
mod connects;
mod counts;
mod faces;
mod fault;
mod file_pin;
mod gathering;
mod known;
pub mod laws;
mod limits;
mod open_pin;
mod sizes;

pub use faces::Faces;
pub use fault::{Fault, Halt};
pub use gathering::{Gathered, gather};
