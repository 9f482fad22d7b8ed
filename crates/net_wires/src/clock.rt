//! What a clock is.
use crate::source::Source;

/// Where a place leads through connects and inverters.
#[derive(Clone, Copy, Debug, PartialEq, Eq)]
pub enum ClockRoot {
    /// To an input, by an odd number of inverters where it is flipped.
    Root { place: u32, flipped: bool },
    /// To a digit of a constant, by connects alone.
    Never,
    /// To neither.
    Unknown,
}

/// What drives a place that no connect drives.
#[derive(Clone, Copy, Debug, PartialEq, Eq)]
pub enum Drive {
    /// Nothing that a clock leads through.
    Open,
    /// A digit without a value.
    Digit,
    /// The outside: the place is an input.
    Root,
    /// An inverter, and what it inverts.
    Inverts(Source),
}

/// A place that an inverter drives.
#[derive(Clone, Copy, Debug, PartialEq, Eq)]
pub struct Inverter {
    pub from: Source,
    pub to: u32,
}
