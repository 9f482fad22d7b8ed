//! The design that a document means under a library.
#![tactic(auto)]

mod building;
mod fault;
mod limits;
mod module;

pub use building::build;
pub use fault::BuildFault;
