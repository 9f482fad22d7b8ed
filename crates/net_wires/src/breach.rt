//! What a document breaks first, where it means no design.
ghost use Rattle.std.specs.Prelude.{◌≡◌};
ghost use Rattle.net_wires.specs.Finds.{code_number};
ghost use Rattle.net_wires.specs.declared.breach.Stop.TheVariants.{Broken, Memory as NoMemory};

use lib_core::Memory;
use std::alloc::{AllocError, AllocFailed};

/// A rule that a document can break.
#[derive(Clone, Copy, Debug, PartialEq, Eq)]
pub enum BuildCode {
    /// A wire that is not there.
    NoWire,
    /// A bit outside what a slice cuts.
    Range,
    /// A width other than the wanted one.
    WidthDiffers,
    /// A net with two drivers, an input that is driven, or a driven constant.
    TwoDrivers,
    /// A type of cells that is not known.
    UnknownCell,
    /// A parameter that is missing, or that is no number where one is wanted.
    MissingParam,
    /// A clock that leads neither to an input nor to a constant.
    ClockRoot,
    /// A write port without a clock.
    AsyncWrite,
    /// A loop of connects, or of cells without a clock.
    CombLoop,
    /// A bit of an inout where none may stand.
    Inout,
    /// A RAM cell that no variant of the library has.
    BadRam,
    /// More than this program builds.
    Limit,
    /// Want of memory.
    Memory,
}

impl BuildCode {
    /// The code's number, from 1 to 13.
    pub fn number(self) -> u32
        ensures { result ≡ code_number self }
    {
        match self {
            BuildCode::NoWire => 1,
            BuildCode::Range => 2,
            BuildCode::WidthDiffers => 3,
            BuildCode::TwoDrivers => 4,
            BuildCode::UnknownCell => 5,
            BuildCode::MissingParam => 6,
            BuildCode::ClockRoot => 7,
            BuildCode::AsyncWrite => 8,
            BuildCode::CombLoop => 9,
            BuildCode::Inout => 10,
            BuildCode::BadRam => 11,
            BuildCode::Limit => 12,
            BuildCode::Memory => 13,
        }
    }
}

/// A rule that is broken at some place of a document.
#[derive(Clone, Copy, Debug, PartialEq, Eq)]
pub struct Breach {
    pub code: BuildCode,
    /// The limit plus 1 where the code is `Limit`, else 0.
    pub seen: u64,
}

/// Why a check stops.
#[derive(Clone, Copy, Debug, PartialEq, Eq)]
pub enum Stop {
    /// Memory could not be had.
    Memory,
    /// The first breach.
    Broken(Breach),
}

/// A stop at a breach that is no limit.
pub fn broken(code: BuildCode) -> Stop
    ensures { result ≡ Broken (record { code = code; seen = 0 }) }
{
    Stop::Broken(Breach { code, seen: 0 })
}

impl From<Memory> for Stop {
    ghost from_gives = { λ _ e. e ≡ NoMemory };

    fn from(_error: Memory) -> Stop {
        Stop::Memory
    }
}

impl From<AllocError> for Stop {
    ghost from_gives = { λ _ e. e ≡ NoMemory };

    fn from(_error: AllocError) -> Stop {
        Stop::Memory
    }
}

impl<T: Drop> From<AllocFailed<T>> for Stop {
    ghost from_gives = { λ _ e. e ≡ NoMemory };

    fn from(_failed: AllocFailed<T>) -> Stop {
        Stop::Memory
    }
}
