//! Where bits lie in RAM cells: the levels of a RAM, and the bits of a memory's rows.
#![tactic(auto)]

pub mod candidates;
pub mod geometry;
pub mod splits;
pub mod spreads;

pub use candidates::{Candidate, RamChoice, ReadPlace, Shape};
pub use geometry::{BasePlace, Geometry};
pub use splits::{lane_runs, split};
pub use spreads::{BitPlace, Spread, UnitPlace, bit_place, layout};
