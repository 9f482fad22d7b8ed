//! What was read of a signal.
ghost use Rattle.std.specs.Prelude.{◌≤◌, ◌+◌};

use crate::source::Source;
use lib_core::List;

/// Bits that stand side by side in the list of all bits.
#[derive(Clone, Copy)]
pub struct Run {
    pub base: u32,
    pub width: u32,
    ghost near: { base + width ≤ 4294967295 },
}

/// A signal within another one.
#[derive(Drop)]
pub enum Piece {
    Run(Run),
    /// These bits but for the first `skip`, the most significant first.
    Held { bits: Vec<Source>, skip: usize },
}

/// What was read of a signal. Lists of bits stand the most significant first.
#[derive(Drop)]
pub struct Reading {
    /// For each open brace, the innermost last: the bits of the signals in front of it, within the braces around it.
    pub outer: Vec<List<Source>>,
    /// The bits of the signals within the innermost braces, but for the last one.
    pub before: Vec<Source>,
    /// The last signal.
    pub last: Piece,
}
