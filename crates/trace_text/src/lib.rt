//! The text of a trace: the outputs of a module at each event, run by run.
#![tactic(auto)]

pub mod laws;
mod length;
mod print;
mod rows;

pub use length::trace_length;
pub use print::print_trace;
