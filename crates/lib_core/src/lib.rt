//! What every layer shares: lists and names that contracts see as lists, want of memory, equal
//! copies, and the data of a RAM library.
#![tactic(auto)]

pub mod cells;
pub mod duplicate;
pub mod fills;
pub mod kinds;
pub mod library;
pub mod list;
pub mod memory;
pub mod name;
pub mod picks;

pub use cells::is_cell_name;
pub use duplicate::Duplicate;
pub use fills::admits;
pub use kinds::allowed;
pub use library::{
    Budget, Choice, EdgeKind, Fill, Group, Library, OwnWrite, PortKind, Property, RamClass,
    RamKind, Seen, SrstGate, Trans, Tri, Value, Variant,
};
pub use list::List;
pub use memory::Memory;
pub use name::Name;
pub use picks::pick;
