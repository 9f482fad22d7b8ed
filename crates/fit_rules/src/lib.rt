//! Which candidates of a memory fit, by rules on ports, levels, pairs and sizes; and their shapes.
#![tactic(auto)]

pub mod bits;
pub mod fitting;
pub mod laws;
pub mod limits;
pub mod plans;
pub mod rules;
pub mod shapes;
pub mod sizes;
pub mod spots;
pub mod standing;

pub use fitting::{fits, shape_of};
pub use limits::{library_within, mem_within, variant_within};
pub use plans::Plan;
pub use spots::Spot;
