//! From the cells that make up memories to memories.
#![tactic(auto)]

mod fault;
mod mem;
mod pieces;
mod reading;
mod spans;
mod writing;

pub use fault::{CollectCode, CollectFault};
pub use mem::{read_ports, unpack};
pub use pieces::{address, pin_bits};
pub use reading::Reading;
pub use spans::{PortSpan, wide_of};
pub use writing::Writing;
