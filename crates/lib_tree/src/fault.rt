//! Why a library's text could not be read.
ghost use Rattle.std.specs.Prelude.{◌≡◌};
ghost use Rattle.lib_tree.specs.declared.fault.LibCode.TheVariants.{Memory as memory};

use lib_core::Memory;
use std::alloc::AllocError;
use thiserror::Error;

/// What is wrong.
#[derive(Clone, Copy, Debug, PartialEq, Eq)]
pub enum LibCode {
    /// Bytes that are no token, or a token of a wrong class.
    Token,
    /// The text ends where a token is wanted.
    Unclosed,
    /// A word that its place does not have.
    UnknownWord,
    /// A property that ports of the kind do not have.
    NotForKind,
    /// A name, an item or a property again.
    Twice,
    /// Something that a RAM needs is not there.
    Missing,
    /// Widths that do not fit together.
    BadWidths,
    /// No number where one is wanted, or one that is too large or 0.
    BadNumber,
    /// More than this program takes.
    Limit,
    /// Memory could not be had.
    Memory,
}

/// The first fault of a library's text.
#[derive(Clone, Copy, Debug, PartialEq, Eq, Error)]
#[error("library fault in line {line}")]
pub struct LibFault {
    /// The line of the fault, counted from 1, or 0 where memory ran out.
    pub line: u32,
    pub code: LibCode,
    /// One more than the limit that is passed, and 0 for other faults.
    pub seen: u64,
}

impl From<Memory> for LibFault {
    ghost from_gives = { λ _ fault. fault ≡ record { line = 0; code = memory; seen = 0 } };

    fn from(_memory: Memory) -> LibFault {
        LibFault {
            line: 0,
            code: LibCode::Memory,
            seen: 0,
        }
    }
}

impl From<Memory> for LibCode {
    ghost from_gives = { λ _ code. code ≡ memory };

    fn from(_memory: Memory) -> LibCode {
        LibCode::Memory
    }
}

impl From<AllocError> for LibCode {
    ghost from_gives = { λ _ code. code ≡ memory };

    fn from(_error: AllocError) -> LibCode {
        LibCode::Memory
    }
}
