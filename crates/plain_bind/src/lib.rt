//! A design with a RAM cell in the place of each memory, by plain plans.
#![tactic(auto)]

pub mod binding;
pub mod laws;
pub mod naming;

pub use binding::bind_plain;
