//! The module that the items of a module in a document mean, put together of its cells; and its nodes.
#![tactic(auto)]

mod assembly;
mod bodies;
mod made;
mod node;
mod part_nodes;

pub use assembly::{Assembled, assemble};
pub use made::{Around, Made, made_of};
