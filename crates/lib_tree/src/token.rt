//! The tokens of a library's text.
use lib_core::{EdgeKind, Fill, Name, PortKind, Property, RamClass, Seen, SrstGate};

/// A word that the grammar knows, by what it says. The word `ram` is a token of its own, and every
/// word that the grammar does not know is `Other`.
#[derive(Clone, Copy, Debug, PartialEq, Eq)]
pub enum Word {
    Class(RamClass),
    Abits,
    Widths,
    PerPort,
    Global,
    Byte,
    Cost,
    Init,
    Style,
    RamOption,
    PortOption,
    Port,
    Kind(PortKind),
    /// The word of a property. `width` is one, also where it stands outside ports.
    Property(Property),
    Edge(EdgeKind),
    Undefined,
    NoChange,
    /// The words `old` and `new`.
    Seen(Seen),
    NewOnly,
    All,
    Fill(Fill),
    Gate(SrstGate),
    Tied,
    Other,
}

/// A token.
#[derive(Debug, PartialEq, Eq, Drop)]
pub enum Token {
    /// The word `ram`, with the line in which it stands.
    Ram { line: u32 },
    Word(Word),
    /// A number below 2 ^ 32.
    Number(u32),
    /// A greater number.
    Large,
    /// An identifier, with its first `\` or `$`.
    Id(Name),
    /// A string, without its quotes.
    Text(Name),
    Open,
    Close,
    Semicolon,
    /// Bytes that are no token.
    Bad,
}
