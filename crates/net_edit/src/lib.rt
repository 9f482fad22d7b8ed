//! Edits of a module: the one way in which a rewriting changes one.
#![tactic(auto)]

pub mod edit;
pub mod fault;
pub mod laws;
mod naming;
mod readers;
mod redirect;
pub mod step;

pub use edit::Edit;
pub use fault::EditFault;
pub use readers::users;
pub use step::Step;
