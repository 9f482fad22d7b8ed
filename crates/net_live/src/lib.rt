//! A test at run time that a module whose memories are whole can run: whatever happens to it, it has a run.
#![tactic(auto)]

mod attrs;
mod drives;
pub mod laws;
mod mems;
mod needs;
mod order;
mod ports;
mod slots;
mod sound;

pub use needs::bits_within;
pub use sound::{design_is_sound, is_sound};
