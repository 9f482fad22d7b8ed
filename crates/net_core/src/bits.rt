//! Bits, clocks and what happens at a moment.
use lib_core::List;

/// What a pin reads: a constant or a net of its module.
#[derive(Clone, Copy, Debug, PartialEq, Eq)]
pub enum Bit {
    Zero,
    One,
    Net(u32),
}

/// The edges at which a register, a port or a slot works.
#[derive(Clone, Copy, Debug, PartialEq, Eq)]
pub enum Clock {
    /// The edges of one kind of a net that is an input of the module.
    Root { net: u32, rising: bool },
    /// None: the clock pin is constant.
    Never,
}

/// An edge of a net.
#[derive(Clone, Copy, Debug, PartialEq, Eq)]
pub struct Edge {
    pub net: u32,
    pub rising: bool,
}

/// What happens to a module at a moment.
#[derive(Debug, PartialEq, Eq, Drop)]
pub struct Event {
    /// One value for each input, in their order.
    pub values: List<bool>,
    pub edge: Option<Edge>,
}
