//! What the cells of a module keep in a simulation: registers, memories and RAM cells.
#![tactic(auto)]

mod boxes;
mod levels;
mod memories;
mod rams;
mod registers;
mod state;

pub use state::SimState;
