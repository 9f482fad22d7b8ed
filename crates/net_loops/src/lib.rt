//! Nodes over nets in a list: whether they have a combinational order, and else the first of them on a loop.
#![tactic(auto)]

mod cells;
pub mod laws;
mod levels;
mod loops;
mod nodes;
mod rings;
mod rows;
mod walk;

pub use loops::first_loop;
pub use nodes::NetNode;
