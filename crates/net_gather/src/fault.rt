//! What a module breaks first, and where.
ghost use Rattle.std.specs.Prelude.{◌≡◌};
ghost use Rattle.net_gather.specs.Faults.{halt_at};
ghost use Rattle.net_gather.specs.declared.fault.Halt.TheVariants.{Memory as NoMemory};

use lib_core::Memory;
use net_wires::{Breach, Stop};
use std::alloc::{AllocError, AllocFailed};

/// A rule that an item of a module breaks.
#[derive(Clone, Copy, Debug, PartialEq, Eq)]
pub struct Fault {
    /// The place of the item among those of its module, from 0.
    pub item: usize,
    pub breach: Breach,
}

/// Why the items of a module are not gathered.
#[derive(Clone, Copy, Debug, PartialEq, Eq)]
pub enum Halt {
    /// Memory could not be had.
    Memory,
    /// The first fault.
    Broken(Fault),
}

/// A stop at an item.
pub(crate) fn halt_at(item: usize, stop: Stop) -> Halt
    ensures { result ≡ halt_at item stop }
{
    match stop {
        Stop::Memory => Halt::Memory,
        Stop::Broken(breach) => Halt::Broken(Fault { item, breach }),
    }
}

impl From<Memory> for Halt {
    ghost from_gives = { λ _ e. e ≡ NoMemory };

    fn from(_error: Memory) -> Halt {
        Halt::Memory
    }
}

impl From<AllocError> for Halt {
    ghost from_gives = { λ _ e. e ≡ NoMemory };

    fn from(_error: AllocError) -> Halt {
        Halt::Memory
    }
}

impl<T: Drop> From<AllocFailed<T>> for Halt {
    ghost from_gives = { λ _ e. e ≡ NoMemory };

    fn from(_failed: AllocFailed<T>) -> Halt {
        Halt::Memory
    }
}
