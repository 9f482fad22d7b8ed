//! What a memory can become.
use lib_core::{Duplicate, List, Memory};
use std::alloc::Global;

/// Where a read of a memory stands.
#[derive(Clone, Copy, Debug, PartialEq, Eq)]
pub enum ReadPlace {
    /// At a name of its own in the group of this number.
    Group(u32),
    /// At the name of the write of this number.
    Ride(u32),
}

/// A memory in cells of a RAM.
#[derive(Debug, PartialEq, Eq, Drop)]
pub struct RamChoice {
    /// The place of the RAM in the library.
    pub ram: u32,
    /// The place of the variant in the RAM.
    pub variant: u32,
    /// A row of cells has rows of 2 to this power words.
    pub fold: u32,
    /// The place of the width of a row's column in the variant's widths.
    pub level: u32,
    /// The group of each write.
    pub writes: List<u32>,
    /// The place of each read.
    pub reads: List<ReadPlace>,
}

/// What a memory can become.
#[derive(Debug, PartialEq, Eq, Drop)]
pub enum Candidate {
    Ram(RamChoice),
    Registers,
}

/// How many RAM cells a memory becomes: copies for its reads, rows for its words, columns for the
/// bits of a row.
#[derive(Clone, Copy, Debug, PartialEq, Eq)]
pub struct Shape {
    pub copies: u32,
    pub rows: u32,
    pub columns: u32,
}

impl Duplicate for ReadPlace {
    fn duplicate(&self, _alloc: Global) -> Result<ReadPlace, Memory> {
        Ok(*self)
    }
}

impl Duplicate for RamChoice {
    fn duplicate(&self, alloc: Global) -> Result<RamChoice, Memory> {
        Ok(RamChoice {
            ram: self.ram,
            variant: self.variant,
            fold: self.fold,
            level: self.level,
            writes: self.writes.duplicate(alloc)?,
            reads: self.reads.duplicate(alloc)?,
        })
    }
}

impl Duplicate for Candidate {
    fn duplicate(&self, alloc: Global) -> Result<Candidate, Memory> {
        match self {
            Candidate::Ram(choice) => Ok(Candidate::Ram(choice.duplicate(alloc)?)),
            Candidate::Registers => Ok(Candidate::Registers),
        }
    }
}
