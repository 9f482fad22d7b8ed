//! Cells of a module whose pins name bits by their places: what they are by type and parameters, and what stands at their pins.
#![tactic(auto)]

pub mod bits;
pub mod clocks;
mod ram;
pub mod ram_cell;
mod raw;
mod row;
mod shaped;
pub mod tied;

pub use clocks::clock_at;
pub use ram::{suits_ram, variant_of};
pub use ram_cell::ram_of;
pub use raw::{CellShape, Kept, RamUse, RawCell, RawPin};
pub use row::{CellRow, Found, found_row, is_kept, table_of};
pub use shaped::has_shape;
pub use tied::{Tied, tied_of};
