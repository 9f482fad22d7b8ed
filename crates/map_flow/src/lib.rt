//! A design mapped onto a library: from a document to the texts that are written.
#![tactic(auto)]

pub mod laws;
mod map;
mod planning;
mod refusal;
mod shapes;
mod writing;

pub use map::{Made, map_design};
pub use refusal::MapRefusal;
