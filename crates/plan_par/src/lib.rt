//! The plans of many memories, on several threads.
#![tactic(auto)]

pub mod gates;
mod limits;
mod planning;

pub use gates::{Gate, OpenGate};
pub use limits::are_within;
pub use planning::plan_all;
