//! A text as data, in file order.
use lib_core::{List, Name};
use rtlil_lex::Digit;

/// A constant.
#[derive(Debug, PartialEq, Eq, Drop)]
pub enum DocConst {
    /// Digits, the most significant first.
    Digits(List<Digit>),
    Number(i32),
    Text(Name),
}

/// A part of a signal.
#[derive(Debug, PartialEq, Eq, Drop)]
pub enum Part {
    Fixed(DocConst),
    Wire(Name),
    /// The bits from `low` to `high` of the signal that ends right before.
    Slice { high: u32, low: u32 },
    /// An opening brace.
    Begin,
    /// A closing brace.
    End,
}

/// An attribute.
#[derive(Debug, PartialEq, Eq, Drop)]
pub struct DocAttr {
    pub name: Name,
    pub value: DocConst,
}

/// How a parameter of a cell is marked.
#[derive(Clone, Copy, Debug, PartialEq, Eq)]
pub enum DocFlag {
    Plain,
    Signed,
    Real,
}

/// A parameter of a module or of a cell.
#[derive(Debug, PartialEq, Eq, Drop)]
pub struct DocParam {
    pub flag: DocFlag,
    pub name: Name,
    /// A parameter of a module may have none.
    pub value: Option<DocConst>,
}

/// A wire. One that is both input and output is an inout.
#[derive(Debug, PartialEq, Eq, Drop)]
pub struct DocWire {
    pub attrs: List<DocAttr>,
    pub name: Name,
    pub width: u32,
    pub offset: i32,
    /// The port's number, and 0 for a wire that is no port.
    pub port: u32,
    pub input: bool,
    pub output: bool,
    pub upto: bool,
    pub signed: bool,
}

/// A memory.
#[derive(Debug, PartialEq, Eq, Drop)]
pub struct DocMem {
    pub attrs: List<DocAttr>,
    pub name: Name,
    pub width: u32,
    pub size: u32,
    pub offset: u32,
}

/// A line within a cell.
#[derive(Debug, PartialEq, Eq, Drop)]
pub enum CellLine {
    Param(DocParam),
    Pin { name: Name, value: List<Part> },
}

/// A cell.
#[derive(Debug, PartialEq, Eq, Drop)]
pub struct DocCell {
    pub attrs: List<DocAttr>,
    pub kind: Name,
    pub name: Name,
    pub lines: List<CellLine>,
}

/// What stands in a module.
#[derive(Debug, PartialEq, Eq, Drop)]
pub enum Item {
    Param(DocParam),
    Wire(DocWire),
    Mem(DocMem),
    Cell(DocCell),
    Connect { left: List<Part>, right: List<Part> },
}

/// A module.
#[derive(Debug, PartialEq, Eq, Drop)]
pub struct DocModule {
    pub attrs: List<DocAttr>,
    pub name: Name,
    pub items: List<Item>,
}

/// A whole text. Its `autoidx` line is no part of it.
#[derive(Debug, PartialEq, Eq, Drop)]
pub struct Doc {
    pub modules: List<DocModule>,
}
