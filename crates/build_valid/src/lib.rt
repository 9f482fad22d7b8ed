//! Laws: a design that is built of a document is valid. Each is the contract of a function that does
//! nothing.
#![tactic(auto)]

pub mod cells;
pub mod documents;
pub mod inouts;
pub mod libraries;
pub mod sound;
pub mod texts;
pub mod whole;
