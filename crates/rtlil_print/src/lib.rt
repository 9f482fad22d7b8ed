//! The printer of RTLIL text, the text form of Yosys: from a document to its one printed text.
#![tactic(auto)]

mod laws;
mod line;
mod options;
mod print;
mod signal;

pub use laws::{well_formed_is_writable, what_reads_is_writable, writable_is_well_formed};
pub use print::print_doc;
