//! Stimulus texts: from the bytes of a text and a module to the events that it sets off, or its
//! first fault.
#![tactic(auto)]

mod fault;
pub mod laws;
mod names;
mod numbers;
mod read;
mod roots;
mod says;
mod split;
mod tables;

pub use fault::{StimCode, StimFault};
pub use read::read_stim;
