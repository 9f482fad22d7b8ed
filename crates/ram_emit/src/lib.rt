//! The RAM cell that stands in the place of a memory.
#![tactic(auto)]

mod bits;
pub mod cell;
mod contents;
mod groups;
pub mod laws;
mod placing;
pub mod plain;
mod ports;

pub use cell::{PlainCell, plain_cell};
pub use placing::{place_plain, put_in_place};
pub use plain::is_plain;
