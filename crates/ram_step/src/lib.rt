//! The state of a RAM cell in a simulation: what it starts with, what an event makes of it, and what it shows.
#![tactic(auto)]

mod copies;
mod gathers;
mod hits;
pub mod laws;
mod nexts;
mod picks;
mod pins;
mod ports;
mod starts;
mod state;
mod steps;

pub use picks::PickKey;
pub use state::RamState;
