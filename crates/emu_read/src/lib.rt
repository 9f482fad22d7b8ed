//! Emulations of clocked reads: what a read of a memory does beyond what a RAM can do is done by logic
//! and registers outside.
#![tactic(auto)]

pub mod enable;
pub mod laws;
mod listed;
