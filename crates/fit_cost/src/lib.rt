//! What a candidate costs, in points.
#![tactic(auto)]

pub mod costs;
pub mod laws;
pub mod parts;
pub mod places;
pub mod sums;

pub use costs::cost_of;
pub use sums::ram_points;
