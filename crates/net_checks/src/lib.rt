//! What a module breaks once its cells, its pins and its connects are known: two drivers, inouts, clocks without a root, and
//! rings of connects; each with the name that it shows.
#![tactic(auto)]

mod checking;
mod clocks;
mod digits;
mod drivers;
mod fault;
mod inout_pins;
mod inouts;
mod inverters;
mod joined;
pub mod laws;
mod looked;
mod marking;
mod naming;
mod roots;
mod sources;

pub use checking::{Checked, check};
pub use fault::{ModuleFault, ModuleHalt};
pub use inouts::Inouts;
pub use naming::{fault_name, module_fault};
