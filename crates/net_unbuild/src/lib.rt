//! From a design back to a document that means it.
#![tactic(auto)]

mod writing;

pub use writing::unbuild;
