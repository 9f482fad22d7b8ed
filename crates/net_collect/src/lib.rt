//! From the memory cells of a module to whole memories.
#![tactic(auto)]

mod assembly;
mod contents;
mod fault;
mod gathered;
mod grouping;
mod naming;
mod ports;
mod sides;

pub use assembly::{collect, collect_design};
pub use fault::DesignFault;
