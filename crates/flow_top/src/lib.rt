//! The commands of the program, over any desk.
#![tactic(auto)]

mod command;
mod formatting;
mod joining;
mod mapping;
mod number;
mod reading;
mod refusal;
mod refusing;
mod simulating;
pub mod status;
mod subject;
mod texts;
pub mod top;

pub use refusal::refusal_line;
pub use status::{Counted, DesignCode, Status};
pub use top::run;
