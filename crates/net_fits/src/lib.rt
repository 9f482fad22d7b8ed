//! Laws: what is built of a module of a document is valid. Each is the contract of a function that does nothing.
#![tactic(auto)]

pub mod cells;
pub mod clocks;
pub mod drivers;
pub mod modules;
pub mod names;
pub mod rams;
pub mod texts;
pub mod whole;
pub mod wires;
