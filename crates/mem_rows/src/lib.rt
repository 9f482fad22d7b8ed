//! What the parameters of memory cells say: names, sizes, clocks and ports, and which pins they have.
#![tactic(auto)]

mod groups;
pub mod laws;
mod part;
mod pins;
mod row;
mod separate;
mod whole;

pub use groups::are_groups;
pub use part::bits;
pub use pins::mem_pins;
pub use row::{MemRow, is_known, mem_row};
pub use separate::{InitRow, PortRow};
pub use whole::{WholeRow, size_limit, whole_limit};
