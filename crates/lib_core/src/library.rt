//! A RAM library as data: what the chip has.
use crate::list::List;
use crate::name::Name;

/// A bit of contents, of a start value or of a reset value.
#[derive(Clone, Copy, Debug, PartialEq, Eq)]
pub enum Tri {
    Zero,
    One,
    /// Any value may be shown.
    Any,
}

/// What a RAM is made of, as the library's word after `ram` says.
#[derive(Clone, Copy, Debug, PartialEq, Eq)]
pub enum RamClass {
    Distributed,
    Block,
    Huge,
}

/// Which values a RAM can start with or reset to.
#[derive(Clone, Copy, Debug, PartialEq, Eq)]
pub enum Fill {
    /// None: the word `none`.
    Nothing,
    /// All bits 0.
    Zero,
    /// Any list of bits, undefined ones too.
    Any,
    /// Any list of bits, each of which has to be written as 0 or 1.
    NoUndef,
}

/// What a port of a RAM does: `a` reads at once, `s` at a clock edge; `r` reads, `w` writes.
#[derive(Clone, Copy, Debug, PartialEq, Eq)]
pub enum PortKind {
    Ar,
    Sr,
    Sw,
    Arsw,
    Srsw,
}

/// What the block of a port may state.
#[derive(Clone, Copy, Debug, PartialEq, Eq)]
pub enum Property {
    Clock,
    Clken,
    Rden,
    Rdwr,
    Wrtrans,
    Wrprio,
    Rdsrst,
    Rdarst,
    Rdinit,
    WrbeSeparate,
    Width,
}

/// The clock edges at which a port works.
#[derive(Clone, Copy, Debug, PartialEq, Eq)]
pub enum EdgeKind {
    Pos,
    Neg,
    /// Either of them, by a parameter of the cell.
    Either,
}

/// What a port shows that reads while it writes.
#[derive(Clone, Copy, Debug, PartialEq, Eq)]
pub enum OwnWrite {
    Undefined,
    NoChange,
    Old,
    New,
    NewOnly,
}

/// What has to be 1 for a synchronous reset to count.
#[derive(Clone, Copy, Debug, PartialEq, Eq)]
pub enum SrstGate {
    Ungated,
    Clken,
    Rden,
}

/// How a read sees a write of the same event.
#[derive(Clone, Copy, Debug, PartialEq, Eq)]
pub enum Seen {
    Old,
    New,
}

/// The value of an option.
#[derive(Debug, PartialEq, Eq, Drop)]
pub enum Value {
    Number(u32),
    Text(Name),
}

/// An option and the value that a variant has for it.
#[derive(Debug, PartialEq, Eq, Drop)]
pub struct Choice {
    pub name: Name,
    pub value: Value,
}

/// How the reads of a group see the writes of the group that has this.
#[derive(Clone, Copy, Debug, PartialEq, Eq)]
pub struct Trans {
    /// The reading group, counted from 0 in the order of the variant's groups.
    pub group: u32,
    pub seen: Seen,
}

/// Ports of one block: as many as it has names.
#[derive(Debug, PartialEq, Eq, Drop)]
pub struct Group {
    pub kind: PortKind,
    /// The names of the ports, in their order.
    pub names: List<Name>,
    /// The values of the group's own options.
    pub options: List<Choice>,
    /// The clock edge, where the kind has a clock.
    pub edge: Option<EdgeKind>,
    /// Whether there is a clock enable.
    pub clken: bool,
    /// Whether there is a read enable.
    pub rden: bool,
    pub own: OwnWrite,
    pub trans: List<Trans>,
    /// The groups over which the writes of this one win, counted from 0.
    pub prio: List<u32>,
    /// What a synchronous reset can reset to.
    pub srst: Fill,
    pub srst_gate: SrstGate,
    /// What an asynchronous reset can reset to.
    pub arst: Fill,
    /// What the read register can start with.
    pub start: Fill,
    /// Whether write enable and byte enables are pins apart.
    pub separate: bool,
    /// The places in the variant's widths that a port may have.
    pub levels: List<u32>,
}

/// A RAM with one value chosen for each of its options.
#[derive(Debug, PartialEq, Eq, Drop)]
pub struct Variant {
    /// The address bits at the first width.
    pub abits: u32,
    /// The bits of a word, from the smallest.
    pub widths: List<u32>,
    /// Whether each port has a width of its own.
    pub per_port: bool,
    /// The bits of a byte with a write enable of its own.
    pub byte: Option<u32>,
    /// What a cell costs, in the library's own unit.
    pub cost: u32,
    /// What the contents can start with.
    pub fill: Fill,
    /// The values of the RAM's options.
    pub options: List<Choice>,
    pub groups: List<Group>,
}

/// A RAM of the library.
#[derive(Debug, PartialEq, Eq, Drop)]
pub struct RamKind {
    /// The type of its cells.
    pub name: Name,
    pub class: RamClass,
    /// The word by which a memory asks for this RAM.
    pub style: Option<Name>,
    pub variants: List<Variant>,
}

/// How many cells of a class there are at most.
#[derive(Clone, Copy, Debug, PartialEq, Eq)]
pub struct Budget {
    pub class: RamClass,
    pub cells: u32,
}

/// The RAMs of a chip, in the order in which they are tried.
#[derive(Debug, PartialEq, Eq, Drop)]
pub struct Library {
    pub rams: List<RamKind>,
    pub budget: Option<Budget>,
}
