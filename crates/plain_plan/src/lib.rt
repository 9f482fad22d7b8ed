//! The plan of each memory of a design where plain candidates alone are taken: those of which one RAM
//! cell stands for the whole memory. Of the plain candidates that fit, the first of least points.
#![tactic(auto)]

pub mod choosing;
pub mod laws;
pub mod planning;
pub mod rooms;

pub use choosing::least_plain;
pub use planning::{Planned, plans_of};
pub use rooms::room_fault;
