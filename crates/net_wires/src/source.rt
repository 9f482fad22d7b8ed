//! What stands in a signal.

/// A bit of a signal.
#[derive(Clone, Copy, Debug, PartialEq, Eq)]
pub enum Source {
    Zero,
    One,
    /// A digit without a value: x, z or `-`.
    Loose,
    /// A bit of a wire, by its place in the list of all bits.
    At(u32),
}

/// A bit that a connect drives, and what drives it.
#[derive(Clone, Copy, Debug, PartialEq, Eq)]
pub struct Pair {
    pub left: Source,
    pub right: Source,
}
