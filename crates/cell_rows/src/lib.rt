//! The rows of the tables of cells: what a cell's type and parameters say, and which pins it has.
#![tactic(auto)]

pub mod carried;
pub mod comb;
pub mod kinds;
pub mod laws;
pub mod operands;
pub mod pin;
pub mod places;
pub mod reg;
pub mod written;

pub use carried::drives;
pub use comb::{CombRow, comb_pins, comb_row, is_carried_row};
pub use kinds::{CellKind, MemKind, kind_of, mem_type};
pub use operands::{Operands, operands_of};
pub use pin::PinRow;
pub use places::Places;
pub use reg::{Controls, RegRow, has_arst, has_enable, has_srst, reg_pins, reg_row};
pub use written::{comb_params, reg_params};
