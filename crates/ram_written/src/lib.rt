//! The parameters by which RAM cells are written.
#![tactic(auto)]

pub mod laws;
mod params;
mod slots;

pub use params::ram_params;
