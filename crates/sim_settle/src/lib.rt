//! The order in which the nodes of a module are worked off in a simulation, and what is written to its nets.
#![tactic(auto)]

mod combs;
mod nets;
mod places;
mod schedules;

pub use combs::show_comb;
pub use nets::{pick_nets, write_nets};
pub use places::{NodePlace, nets_at};
pub use schedules::Schedule;
