//! Modules and designs.
use crate::bits::Bit;
use crate::cells::{Carried, Comb, Pin, Reg};
use crate::mems::{Attr, Mem};
use crate::rams::RamCell;
use lib_core::{List, Name};

/// A wire. One that is both an input and an output is an inout.
#[derive(Debug, PartialEq, Eq, Drop)]
pub struct Wire {
    pub name: Name,
    pub attrs: List<Attr>,
    /// The port number, 0 where the wire is no port.
    pub port: u32,
    pub input: bool,
    pub output: bool,
    /// The index that the text gives to bit 0.
    pub offset: i32,
    /// Whether indices rise towards bit 0 in the text.
    pub upto: bool,
    pub signed: bool,
    /// The bits, low bit first.
    pub bits: List<Bit>,
}

/// A memory cell as it was read: a part of a memory that is still to be gathered.
#[derive(Debug, PartialEq, Eq, Drop)]
pub struct MemPart {
    pub name: Name,
    pub kind: Name,
    pub attrs: List<Attr>,
    pub params: List<Attr>,
    pub pins: List<Pin>,
}

/// A module. Its nets are numbered from 0.
#[derive(Debug, PartialEq, Eq, Drop)]
pub struct Module {
    pub name: Name,
    pub attrs: List<Attr>,
    /// How many nets there are.
    pub nets: u32,
    pub wires: List<Wire>,
    /// Memories that are declared and whose ports stand in `parts`.
    pub declared: List<Mem>,
    pub parts: List<MemPart>,
    pub mems: List<Mem>,
    pub combs: List<Comb>,
    pub regs: List<Reg>,
    pub rams: List<RamCell>,
    pub carried: List<Carried>,
}

/// The modules of a file, in their order.
#[derive(Debug, PartialEq, Eq, Drop)]
pub struct Design {
    pub modules: List<Module>,
}
