//! Why a stimulus text is not read.
ghost use Rattle.std.specs.Prelude.{◌≡◌};
ghost use Rattle.stim_text.specs.declared.fault.Stop.TheVariants.{Memory as NoMemory};

use lib_core::Memory;
use std::alloc::{AllocError, AllocFailed};
use thiserror::Error;

/// What is wrong in the first faulty line of a stimulus text, with its number. Of several the one of
/// the lowest number is told.
#[derive(Clone, Copy, Debug, PartialEq, Eq)]
pub enum StimCode {
    /// A line of another form, or a name, pin or index that is not there as an input.
    Line = 1,
    /// A constant of another width, or with a digit other than 0 and 1.
    Width = 2,
    /// An edge of a bit that is no clock of the module.
    Clock = 3,
    /// More events than are read.
    Limit = 4,
    /// Want of memory.
    Memory = 5,
}

/// The first fault of a stimulus text.
#[derive(Clone, Copy, Debug, PartialEq, Eq, Error)]
#[error("stimulus fault in line {line}")]
pub struct StimFault {
    /// The line, counted from 1, and 0 for want of memory.
    pub line: u32,
    pub code: StimCode,
    /// The limit plus 1 where the code is `Limit`, else 0.
    pub seen: u64,
}

/// Why reading stops.
#[derive(Clone, Copy, Debug, PartialEq, Eq)]
pub enum Stop {
    Memory,
    Refused(StimCode),
}

impl From<Memory> for Stop {
    ghost from_gives = { λ _ e. e ≡ NoMemory };

    fn from(_error: Memory) -> Stop {
        Stop::Memory
    }
}

impl From<AllocError> for Stop {
    ghost from_gives = { λ _ e. e ≡ NoMemory };

    fn from(_error: AllocError) -> Stop {
        Stop::Memory
    }
}

impl<T: Drop> From<AllocFailed<T>> for Stop {
    ghost from_gives = { λ _ e. e ≡ NoMemory };

    fn from(_failed: AllocFailed<T>) -> Stop {
        Stop::Memory
    }
}
