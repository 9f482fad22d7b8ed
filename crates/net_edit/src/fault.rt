//! Why an edit gives no new nets.
ghost use Rattle.std.specs.Prelude.{◌≡◌};
ghost use Rattle.net_edit.specs.declared.fault.EditFault.TheVariants.{Memory as NoMemory};

use lib_core::Memory;
use std::alloc::AllocError;

/// Why there are no new nets.
#[derive(Clone, Copy, Debug, PartialEq, Eq)]
pub enum EditFault {
    /// The module would have more nets than a module may: so many.
    Full { seen: u64 },
    Memory,
}

impl From<Memory> for EditFault {
    ghost from_gives = { λ _ fault. fault ≡ NoMemory };

    fn from(_memory: Memory) -> EditFault {
        EditFault::Memory
    }
}

impl From<AllocError> for EditFault {
    ghost from_gives = { λ _ fault. fault ≡ NoMemory };

    fn from(_error: AllocError) -> EditFault {
        EditFault::Memory
    }
}
