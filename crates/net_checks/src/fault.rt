//! What a module breaks first, with the name that it shows.
ghost use Rattle.std.specs.Prelude.{◌≡◌};
ghost use Rattle.net_checks.specs.Finds as finds;
ghost use Rattle.net_checks.specs.declared.fault.ModuleHalt.TheVariants.{Broken, Memory as NoMemory};

use lib_core::{Memory, Name};
use net_wires::BuildCode;
use std::alloc::{AllocError, AllocFailed, Global};

/// A rule that a module breaks.
#[derive(Debug, PartialEq, Eq, Drop)]
pub struct ModuleFault {
    pub code: BuildCode,
    /// What the fault shows; it may be empty.
    pub name: Name,
    /// The limit plus 1 where the code is `Limit`, else 0.
    pub seen: u64,
}

/// Why a module is not built.
#[derive(Debug, PartialEq, Eq, Drop)]
pub enum ModuleHalt {
    /// Memory could not be had.
    Memory,
    /// The first fault.
    Broken(ModuleFault),
}

/// A halt at a breach that is no limit.
pub(crate) fn broken(code: BuildCode, name: Name) -> ModuleHalt
    ensures { result ≡ Broken (finds.broken code name) }
{
    ModuleHalt::Broken(ModuleFault {
        code,
        name,
        seen: 0,
    })
}

/// The name that was found, or else the empty one.
pub(crate) fn shown(alloc: Global, found: Option<Name>) -> Name
    ensures { result ≡ finds.shown found }
{
    match found {
        Some(name) => name,
        None => Name::from_vec(Vec::new(alloc)),
    }
}

impl From<Memory> for ModuleHalt {
    ghost from_gives = { λ _ e. e ≡ NoMemory };

    fn from(_error: Memory) -> ModuleHalt {
        ModuleHalt::Memory
    }
}

impl From<AllocError> for ModuleHalt {
    ghost from_gives = { λ _ e. e ≡ NoMemory };

    fn from(_error: AllocError) -> ModuleHalt {
        ModuleHalt::Memory
    }
}

impl<T: Drop> From<AllocFailed<T>> for ModuleHalt {
    ghost from_gives = { λ _ e. e ≡ NoMemory };

    fn from(_failed: AllocFailed<T>) -> ModuleHalt {
        ModuleHalt::Memory
    }
}
