//! The best plan of a memory: of all its candidates that fit the first of least points.
//!
//! The search walks the groups of the writes and the places of the reads in the candidates' order, and
//! leaves out what begins in a way that cannot fit or cannot cost less than the best so far.
#![tactic(auto)]

pub mod best;
mod cutting;
mod floors;
pub mod laws;
mod opening;
mod reading;
pub mod sites;
mod writing;

pub use best::least;
