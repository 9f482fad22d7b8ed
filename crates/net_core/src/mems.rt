//! Memories, their ports, and what is asked of a memory when it is mapped.
use crate::bits::{Bit, Clock};
use lib_core::{List, Name, RamClass, Tri};

/// A port that reads a memory. Without a clock it reads at once, and then the fields from `en` on,
/// but for `addr` and `out`, have no use.
#[derive(Debug, PartialEq, Eq, Drop)]
pub struct RdPort {
    /// The port reads 2 to this power words at once.
    pub wide: u32,
    pub clock: Option<Clock>,
    pub en: Bit,
    /// The address, low bit first.
    pub addr: List<Bit>,
    /// The nets of the data, the word at the lowest address first.
    pub out: List<u32>,
    pub arst: Bit,
    pub srst: Bit,
    pub arst_value: List<Tri>,
    pub srst_value: List<Tri>,
    pub init_value: List<Tri>,
    /// Whether `srst` counts only while `en` is 1.
    pub ce_over_srst: bool,
    /// For each write, whether this read shows what it writes in the same event.
    pub trans: List<bool>,
    /// For each write, whether this read may show anything of what it writes in the same event.
    pub coll: List<bool>,
}

/// A port that writes a memory.
#[derive(Debug, PartialEq, Eq, Drop)]
pub struct WrPort {
    /// The port writes 2 to this power words at once.
    pub wide: u32,
    pub clock: Clock,
    /// One enable for each bit of the data.
    pub en: List<Bit>,
    /// The address, low bit first.
    pub addr: List<Bit>,
    /// The data, the word at the lowest address first.
    pub value: List<Bit>,
    /// For each write, whether this one wins over it; false from the own number on.
    pub prio: List<bool>,
}

/// Which part of a memory this one is, once a memory is cut.
#[derive(Clone, Copy, Debug, PartialEq, Eq)]
pub struct Place {
    pub copy: u32,
    pub row: u32,
    pub column: u32,
}

/// An attribute or a parameter.
#[derive(Debug, PartialEq, Eq, Drop)]
pub struct Attr {
    pub name: Name,
    /// Whether the value is a string, which then stands in `value`, and else in `bits`.
    pub is_text: bool,
    pub value: Name,
    /// The bits, low bit first.
    pub bits: List<Tri>,
}

/// A memory.
#[derive(Debug, PartialEq, Eq, Drop)]
pub struct Mem {
    pub name: Name,
    pub attrs: List<Attr>,
    /// The bits of a word.
    pub width: u32,
    /// The number of words.
    pub size: u32,
    /// The address of word 0.
    pub offset: u32,
    /// The bits of an address.
    pub abits: u32,
    /// The contents at the start, word 0 first, low bit first.
    pub init: List<Tri>,
    pub reads: List<RdPort>,
    pub writes: List<WrPort>,
    /// The name of the memory that this one was cut from, or its own.
    pub origin: Name,
    pub place: Place,
}

/// A read and a write of a memory, by their numbers.
#[derive(Clone, Copy, Debug, PartialEq, Eq)]
pub struct Pair {
    pub read: u32,
    pub write: u32,
}

/// A memory to be mapped, with the pairs that are never enabled together.
#[derive(Debug, PartialEq, Eq, Drop)]
pub struct MemJob {
    pub mem: Mem,
    pub quiet: List<Pair>,
}

/// What a memory asks to be mapped to.
#[derive(Debug, PartialEq, Eq, Drop)]
pub enum Style {
    /// Anything.
    Auto,
    /// Registers.
    Registers,
    /// A RAM of a class.
    Class(RamClass),
    /// A RAM that has this word.
    Word(Name),
}
