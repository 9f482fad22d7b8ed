//! Whether two modules are the same but for the numbers of nets, added wires and `\init` attributes.
#![tactic(auto)]

mod alike;
mod cells;
pub mod laws;
mod mems;
mod nets;
mod rams;
mod same;
mod tables;
mod wires;

pub use same::{are_same, is_same};
