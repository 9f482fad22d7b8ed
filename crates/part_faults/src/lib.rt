//! The first rule that the memory cells of a module break when they are gathered into memories.
#![tactic(auto)]

mod checking;
mod driven;
mod ids;
mod parts;
mod rules;
mod tables;
mod writes;

pub use checking::check_parts;
pub use ids::WriteId;
pub use parts::{home_of, memories_of, row_of};
