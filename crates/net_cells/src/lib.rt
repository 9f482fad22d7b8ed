//! Wires, logic cells, registers, cells that are kept as they are, and parts of memories, once each place of a module has its bit.
#![tactic(auto)]

mod cells;
mod clocks;
mod parts;
mod starts;
mod wires;

pub use cells::{carried_of, comb_of, reg_of};
pub use parts::part_of;
pub use starts::starts_of;
pub use wires::{declared, wires_from};
