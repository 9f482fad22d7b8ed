//! Ports of a memory in the groups of a RAM: when they work at one clock edge, what a read sees of a
//! write and has to see of it, and what of a read stands outside the RAM.
#![tactic(auto)]

pub mod clocks;
pub mod items;
pub mod kinds;
pub mod pairs;
pub mod placed;
pub mod priorities;

pub use clocks::{all_one_clock, all_one_domain, fits_edge, one_domain, same_clock};
pub use items::{enable_emulated, outside_parts, register_outside};
pub use kinds::{reads, reads_later, reads_now, writes};
pub use pairs::{Need, Relation, bypasses, ride_met, some_need};
pub use placed::{PlacedRead, PlacedWrite};
pub use priorities::{emulated_count, is_single, stands_even};
