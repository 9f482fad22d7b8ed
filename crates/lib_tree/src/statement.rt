//! The statements of a library's text, as they stand there.
use lib_core::{Choice, EdgeKind, Fill, List, Name, OwnWrite, PortKind, RamClass, Seen, SrstGate};

/// Whether an option is the RAM's or a port's own.
#[derive(Clone, Copy, Debug, PartialEq, Eq)]
pub enum Scope {
    /// The word `option`.
    Ram,
    /// The word `portoption`.
    Port,
}

/// The items that are one number.
#[derive(Clone, Copy, Debug, PartialEq, Eq)]
pub enum Size {
    Abits,
    Width,
    Byte,
    Cost,
}

/// What stands in the block of a RAM.
#[derive(Debug, PartialEq, Eq, Drop)]
pub enum Item {
    Size(Size, u32),
    /// More than one width may be had, by each port for itself or by all alike.
    Widths { widths: List<u32>, per_port: bool },
    Init(Fill),
    Style(Name),
}

/// Groups of ports, by the names of ports.
#[derive(Debug, PartialEq, Eq, Drop)]
pub enum Targets {
    All,
    Named(List<Name>),
}

/// What stands in the block of a port.
#[derive(Debug, PartialEq, Eq, Drop)]
pub enum Setting {
    Clock(EdgeKind),
    Clken,
    Rden,
    Rdwr(OwnWrite),
    Wrtrans { targets: Targets, seen: Seen },
    Wrprio(Targets),
    Rdsrst { fill: Fill, gate: Option<SrstGate> },
    Rdarst(Fill),
    Rdinit(Fill),
    WrbeSeparate,
    Width { tied: bool, widths: List<u32> },
}

/// A statement, or the end of a block.
#[derive(Debug, PartialEq, Eq, Drop)]
pub enum Statement {
    /// A RAM's block begins. Its word `ram` stands in the line.
    Ram {
        line: u32,
        class: RamClass,
        name: Name,
    },
    Item(Item),
    /// A block begins that counts where the option has the value.
    Block {
        scope: Scope,
        choice: Choice,
    },
    /// A port's block begins.
    Port {
        kind: PortKind,
        names: List<Name>,
    },
    Setting(Setting),
    /// A block ends.
    End,
}

/// Where a statement stands.
#[derive(Clone, Copy, Debug, PartialEq, Eq)]
pub enum Place {
    Outside,
    /// In a RAM's block.
    Ram,
    /// In a block of an option of a RAM, with so many more around it.
    Options { depth: u32 },
    /// In the block of a port of the kind, with so many blocks of options around.
    Port { kind: PortKind, depth: u32 },
}
