//! The design that a document means, with its memories whole.
#![tactic(auto)]

mod fault;
pub mod laws;
mod whole;

pub use fault::WholeFault;
pub use whole::whole_design;
