//! Why a text is not read.
ghost use Rattle.std.specs.Prelude.{◌≡◌};
ghost use Rattle.rtlil_text.specs.Read.{refusal_at};
ghost use Rattle.rtlil_text.specs.declared.fault.Stop.TheVariants.{Memory as NoMemory};

use lib_core::Memory;
use rtlil_lex::Token;
use std::alloc::{AllocError, AllocFailed};
use thiserror::Error;

/// What is wrong at the first fault of a text, with its number.
#[derive(Clone, Copy, Debug, PartialEq, Eq)]
pub enum TextCode {
    /// Bytes that are no token.
    Token = 1,
    /// A token in a wrong place, a name that repeats, or an end where more is wanted.
    Grammar = 2,
    /// A process.
    Process = 3,
    /// More than this program reads.
    Limit = 4,
    /// Want of memory.
    Memory = 5,
}

/// The first fault of a text.
#[derive(Clone, Copy, Debug, PartialEq, Eq, Error)]
#[error("text fault in line {line}")]
pub struct TextFault {
    /// The line, counted from 1, and 0 for want of memory.
    pub line: u32,
    pub code: TextCode,
    /// The limit plus 1 where the code is `Limit`, else 0.
    pub seen: u64,
}

/// Why a line is refused.
#[derive(Clone, Copy, Debug, PartialEq, Eq)]
pub enum Refusal {
    Token,
    Grammar,
    Process,
    Limit { seen: u64 },
}

/// Why reading stops.
#[derive(Clone, Copy, Debug, PartialEq, Eq)]
pub enum Stop {
    Memory,
    Refused(Refusal),
}

impl From<Memory> for Stop {
    ghost from_gives = { λ _ e. e ≡ NoMemory };

    fn from(_error: Memory) -> Stop {
        Stop::Memory
    }
}

impl From<AllocError> for Stop {
    ghost from_gives = { λ _ e. e ≡ NoMemory };

    fn from(_error: AllocError) -> Stop {
        Stop::Memory
    }
}

impl<T: Drop> From<AllocFailed<T>> for Stop {
    ghost from_gives = { λ _ e. e ≡ NoMemory };

    fn from(_failed: AllocFailed<T>) -> Stop {
        Stop::Memory
    }
}

/// Why a token is refused that may not stand where it does.
#[tactic(auto, unfolding(crate::specs::Read::refusal_at))]
pub fn refusal_at(token: &Token) -> Refusal
    ensures { result ≡ refusal_at token.now }
{
    match token {
        Token::Bad => Refusal::Token,
        Token::Over { seen } => Refusal::Limit { seen: *seen },
        _ => Refusal::Grammar,
    }
}
