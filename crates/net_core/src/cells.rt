//! Logic cells, registers, and cells that are kept as they are.
use crate::bits::{Bit, Clock};
use crate::mems::Attr;
use lib_core::{List, Name, Tri};

/// The type of a register: the cell's name without `$`.
#[derive(Clone, Copy, Debug, PartialEq, Eq)]
pub enum FfKind {
    Dff,
    Dffe,
    Adff,
    Adffe,
    Sdff,
    Sdffe,
    Sdffce,
}

/// The type of a logic cell: the cell's name without `$`.
#[derive(Clone, Copy, Debug, PartialEq, Eq)]
pub enum CombKind {
    Not,
    And,
    Or,
    Xor,
    Xnor,
    ReduceAnd,
    ReduceOr,
    ReduceBool,
    ReduceXor,
    ReduceXnor,
    LogicNot,
    LogicAnd,
    LogicOr,
    Eq,
    Ne,
    Lt,
    Le,
    Gt,
    Ge,
    Add,
    Sub,
    Shl,
    Shr,
    Mux,
    Pmux,
}

/// A register. Pins that its kind lacks are 0, and their values empty.
#[derive(Debug, PartialEq, Eq, Drop)]
pub struct Reg {
    pub name: Name,
    pub kind: FfKind,
    pub clock: Clock,
    pub en: Bit,
    /// Whether 1 enables.
    pub en_high: bool,
    pub arst: Bit,
    /// Whether 1 resets.
    pub arst_high: bool,
    pub arst_value: List<Tri>,
    pub srst: Bit,
    /// Whether 1 resets.
    pub srst_high: bool,
    pub srst_value: List<Tri>,
    pub d: List<Bit>,
    pub q: List<u32>,
    /// The bits at the start.
    pub init: List<Tri>,
}

/// A logic cell. Pins that its kind lacks are empty. Bits stand low bit first.
#[derive(Debug, PartialEq, Eq, Drop)]
pub struct Comb {
    pub name: Name,
    pub kind: CombKind,
    /// Whether the operands are signed.
    pub signed: bool,
    pub a: List<Bit>,
    pub b: List<Bit>,
    pub s: List<Bit>,
    pub y: List<u32>,
}

/// A pin of a cell that is kept as it is.
#[derive(Debug, PartialEq, Eq, Drop)]
pub struct Pin {
    pub name: Name,
    /// Whether the cell drives these bits.
    pub drives: bool,
    pub bits: List<Bit>,
}

/// A cell that is kept as it is: its outputs are inputs of the module, its inputs are outputs.
#[derive(Debug, PartialEq, Eq, Drop)]
pub struct Carried {
    pub name: Name,
    pub kind: Name,
    pub attrs: List<Attr>,
    pub params: List<Attr>,
    pub pins: List<Pin>,
}
