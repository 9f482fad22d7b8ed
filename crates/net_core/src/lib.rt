//! A design as data: modules of wires, logic cells, registers, memories and RAM cells over nets.
#![tactic(auto)]

pub mod bits;
pub mod cells;
mod copies;
pub mod laws;
pub mod mems;
pub mod modules;
mod nodes;
mod order;
pub mod ports;
pub mod rams;
mod search;
pub mod shapes;
pub mod styles;

pub use bits::{Bit, Clock, Edge, Event};
pub use cells::{Carried, Comb, CombKind, FfKind, Pin, Reg};
pub use mems::{Attr, Mem, MemJob, Pair, Place, RdPort, Style, WrPort};
pub use modules::{Design, MemPart, Module, Wire};
pub use order::comb_order;
pub use ports::inputs;
pub use rams::{RamCell, SlotUse};
pub use search::LoopFault;
pub use shapes::{cell_fits, variant_of};
pub use styles::style_of;
