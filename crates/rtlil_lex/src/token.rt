//! The tokens of a line.
use lib_core::{List, Name};

/// The most bytes of an identifier, with its first one, and of a string, after its escapes.
pub const MAX_TEXT: usize = 65_536;

/// The most digits of a constant, as many as its width says.
pub const MAX_WIDTH: u64 = 4_194_304;

/// A digit of a constant.
#[derive(Clone, Copy, Debug, PartialEq, Eq)]
pub enum Digit {
    Zero,
    One,
    X,
    Z,
    Dash,
}

/// The words that the grammar knows. Every other word is `Other`.
#[derive(Clone, Copy, Debug, PartialEq, Eq)]
pub enum Word {
    Autoidx,
    Module,
    End,
    Attribute,
    Parameter,
    Signed,
    Real,
    Wire,
    Width,
    Offset,
    Input,
    Output,
    Inout,
    Upto,
    Memory,
    Size,
    Cell,
    Connect,
    Process,
    Other,
}

/// A token.
#[derive(Debug, PartialEq, Eq, Drop)]
pub enum Token {
    /// An identifier, with its first `\` or `$`.
    Id(Name),
    Number(i32),
    /// A constant, its most significant digit first, as many as its width says.
    Digits(List<Digit>),
    /// A string, without its quotes and escapes.
    Text(Name),
    Word(Word),
    OpenBrace,
    CloseBrace,
    OpenBracket,
    CloseBracket,
    Colon,
    /// Bytes that are no token.
    Bad,
    /// An identifier, a string or a constant that is longer than this program reads.
    Over { seen: u64 },
}
