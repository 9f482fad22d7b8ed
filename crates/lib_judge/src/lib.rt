//! What the RAMs of a library's text mean: which statements count in a variant, and the first fault of
//! a RAM.
#![tactic(auto)]

mod faults;
mod judge;
mod names;
mod raw;
mod sketch;
mod variants;

pub use faults::{Judged, RamFault, all_options, ram_fault};
pub use judge::{Sizes, is_width, sizes_of};
pub use raw::{RawPort, RawRam, rams_of};
pub use sketch::{Sketch, cut_row, sketch_of};
pub use variants::{capped_count, has_name, rows};
