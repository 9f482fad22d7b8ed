//! The reader of RAM libraries: the library that a text reads as, or its first fault.
#![tactic(auto)]

mod groups;
mod kinds;
mod read;

pub use lib_tree::{LibCode, LibFault};
pub use read::read_library;
