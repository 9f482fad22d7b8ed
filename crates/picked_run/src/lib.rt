//! The simulation of a module, event by event, with each free choice picked.
#![tactic(auto)]

pub mod laws;
mod ports;

pub use ports::outputs;
