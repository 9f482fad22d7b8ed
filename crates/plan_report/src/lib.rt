//! The report: what each memory became, and what that costs.
#![tactic(auto)]

mod lines;
mod ports;
mod report;
mod texts;
mod total;

pub use report::print_report;
