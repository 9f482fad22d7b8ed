//! Whether a document has a text: the test that stands before the printer.
#![tactic(auto)]

mod fits;
mod names;
mod signal;
mod tokens;

pub use fits::is_writable;
