//! Cells whose pins name bits by their places.
use cell_rows::{CombRow, RegRow};
use lib_core::{List, Name};
use mem_rows::MemRow;
use net_core::Attr;
use net_wires::Source;
use ram_rows::RamRow;

/// What a design keeps of a cell that is not taken apart.
#[derive(Debug, PartialEq, Eq, Drop)]
pub struct Kept {
    /// The cell's type.
    pub kind: Name,
    pub attrs: List<Attr>,
    pub params: List<Attr>,
}

/// What the type and the parameters of a RAM cell say.
#[derive(Debug, PartialEq, Eq, Drop)]
pub struct RamUse {
    /// The place of the RAM in the library.
    pub ram: u32,
    /// The place of the variant in the RAM.
    pub variant: usize,
    pub row: RamRow,
}

/// What a cell is.
#[derive(Debug, PartialEq, Eq, Drop)]
pub enum CellShape {
    Comb(CombRow),
    Reg(RegRow),
    /// A cell that is kept as it is: by its type, for the signs of its operands, or an instance.
    Carried(Kept),
    /// A memory, or a port or the contents of one.
    Memory { kept: Kept, row: MemRow },
    /// A cell of a RAM.
    Ram(RamUse),
}

/// A pin of a cell.
#[derive(Debug, PartialEq, Eq, Drop)]
pub struct RawPin {
    pub name: Name,
    /// Whether the file gives it. The bits of a pin that is left out have places of their own.
    pub given: bool,
    /// Whether the cell drives it.
    pub drives: bool,
    /// Whether it is a clock.
    pub clock: bool,
    /// The bits, low bit first. None is loose: a digit that is neither 0 nor 1 has a place of its
    /// own too, behind those of the wires.
    pub bits: List<Source>,
}

/// A cell.
#[derive(Debug, PartialEq, Eq, Drop)]
pub struct RawCell {
    pub name: Name,
    pub shape: CellShape,
    /// The pins in the order of the cell's table. Those of a cell that is kept as it is stand in
    /// file order.
    pub pins: List<RawPin>,
}
