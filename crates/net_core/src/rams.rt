//! RAM cells: what a memory becomes on the chip.
use crate::bits::{Bit, Clock};
use lib_core::{List, Name, Tri};

/// How a cell uses one of its ports. Fields that the port's group has no pin for have no use.
#[derive(Debug, PartialEq, Eq, Drop)]
pub struct SlotUse {
    pub used: bool,
    /// Whether the port's kind reads at once.
    pub reads_now: bool,
    /// The place of the port's width in the variant's widths.
    pub level: u32,
    pub clock: Clock,
    pub clken: Bit,
    /// The address of a word of the first width, low bit first.
    pub addr: List<Bit>,
    pub rden: Bit,
    pub srst: Bit,
    pub arst: Bit,
    pub out: List<u32>,
    pub value: List<Bit>,
    pub wren: List<Bit>,
    pub wrbe: List<Bit>,
    pub srst_value: List<Tri>,
    pub arst_value: List<Tri>,
    pub init_value: List<Tri>,
}

/// A cell of a RAM of the library.
#[derive(Debug, PartialEq, Eq, Drop)]
pub struct RamCell {
    pub name: Name,
    /// The place of the RAM in the library.
    pub ram: u32,
    /// The place of the variant in the RAM.
    pub variant: u32,
    /// One for each name of each group, in their order.
    pub slots: List<SlotUse>,
    /// The contents at the start: all words of the last width, word 0 first, low bit first.
    pub init: List<Tri>,
}
