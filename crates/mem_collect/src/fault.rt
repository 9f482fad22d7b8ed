//! Why the cells of a module make no memories.
use lib_core::Name;

/// A rule that memory cells can break.
#[derive(Clone, Copy, Debug, PartialEq, Eq)]
pub enum CollectCode {
    /// A cell names a memory that is not there.
    NoMemory,
    /// Two write ports of a memory have one number.
    PortIdTwice,
    /// Initial contents that are not constant.
    NotConstant,
    /// A read is both transparent and open to collisions for one write.
    MasksOverlap,
    /// A width that is no power of two up to 64 times the memory's.
    BadWidth,
    /// Want of memory.
    Memory,
}

/// The first rule that is broken, and the cell.
#[derive(Debug, PartialEq, Eq, Drop)]
pub struct CollectFault {
    pub name: Name,
    pub code: CollectCode,
}
