//! A design written as a document.
#![tactic(auto)]

mod cells;
mod connects;
mod counts;
mod drafting;
mod homes;
mod logic;
mod memories;
mod naming;
mod pins;
mod rams;
mod registers;
mod signals;
mod starts;
mod taking;
mod wires;

pub use drafting::draft;
