//! The simulation of a module, event by event, with each free choice picked by a seed.
#![tactic(auto)]

mod copies;
mod settling;
mod showing;
mod sim;
mod traces;

pub use sim::Sim;
pub use traces::{trace_all, trace_one};
