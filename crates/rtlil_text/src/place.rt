//! What a line says, and the places within a line.
use crate::doc::{DocAttr, DocFlag, DocMem, DocParam, DocWire, Part};
use crate::signal::Signal;
use lib_core::{List, Name};

/// What a line says. The object that a `Wire` or a `Memory` holds has no attributes.
#[derive(Drop)]
pub enum Statement {
    /// Nothing: the line has no token.
    Blank,
    Autoidx,
    Attribute(DocAttr),
    Module(Name),
    Parameter(DocParam),
    Wire(DocWire),
    Memory(DocMem),
    Cell { kind: Name, name: Name },
    Connect { left: List<Part>, right: List<Part> },
    CellParameter(DocParam),
    Pin { name: Name, value: List<Part> },
    End,
}

/// What the next number sets in a wire.
#[derive(Clone, Copy)]
pub enum WireField {
    Width,
    Offset,
    Input,
    Output,
    Inout,
}

/// What the next number sets in a memory.
#[derive(Clone, Copy)]
pub enum MemField {
    Width,
    Size,
    Offset,
}

/// A place within a line, with what was read before it.
#[derive(Drop)]
pub enum Place {
    Start,
    AutoidxNumber,
    AttributeName,
    AttributeValue(Name),
    ModuleName,
    ParameterName,
    /// The constant, or the end of the line.
    ParameterValue(Name),
    /// An option of a wire, or its name.
    WireOption(DocWire),
    WireNumber(DocWire, WireField),
    /// An option of a memory, or its name.
    MemOption(DocMem),
    MemNumber(DocMem, MemField),
    CellKind,
    CellName(Name),
    /// In the left signal of a connect, or at the right one's begin.
    Left(Signal),
    /// In the right signal of a connect.
    Right(List<Part>, Signal),
    /// The flag of a parameter, or its name.
    CellParameterFlag,
    CellParameterName(DocFlag),
    CellParameterValue(DocFlag, Name),
    PinName,
    PinValue(Name, Signal),
    /// The end of the line.
    Done(Statement),
}
