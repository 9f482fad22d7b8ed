//! What the parameters of a RAM cell say, and which pins it has, by a library.
#![tactic(auto)]

mod names;
pub mod options;
pub mod pins;
pub mod row;
pub mod slots;

pub use names::slot_name;
pub use options::{Chosen, chosen_by};
pub use pins::{SlotPin, knows_param, knows_pin, pin_width, slot_pins, suffix};
pub use row::{RamRow, has_strange_level, row_at};
pub use slots::{Level, SlotRow, Values};
