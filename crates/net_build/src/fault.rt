//! Why a document means no design.
ghost use Rattle.std.specs.Prelude.{◌≡◌};
ghost use Rattle.net_build.specs.Builds.{fault_in};
ghost use Rattle.net_build.specs.Faults as faults;
ghost use Rattle.net_build.specs.declared.fault.Refusal.TheVariants.{Memory as NoMemory};

use lib_core::{List, Memory, Name};
use net_checks::ModuleFault;
use net_wires::BuildCode;
use std::alloc::Global;

/// The first rule that a document breaks.
#[derive(Debug, PartialEq, Eq, Drop)]
pub struct BuildFault {
    /// The module in which it is broken. For want of memory only the code says something.
    pub module: Name,
    /// What breaks it: a wire, a memory or a cell; empty where nothing has a name.
    pub name: Name,
    pub code: BuildCode,
    /// The cells of a loop, from the first in file order that lies on one; empty but for a loop of
    /// cells.
    pub cells: List<Name>,
    /// The limit plus 1 where a limit is passed, and else 0.
    pub seen: u64,
}

/// The first rule that a module breaks.
#[derive(Debug, Drop)]
pub(crate) struct Refused {
    pub name: Name,
    pub code: BuildCode,
    pub cells: List<Name>,
    pub seen: u64,
}

/// Why a module is refused.
#[derive(Debug, Drop)]
pub(crate) enum Refusal {
    Memory,
    Broken(Refused),
}

impl From<Memory> for Refusal {
    ghost from_gives = { λ _ e. e ≡ NoMemory };

    fn from(_error: Memory) -> Refusal {
        Refusal::Memory
    }
}

/// A breach that is no loop of cells.
pub(crate) fn broken_by(alloc: Global, fault: ModuleFault) -> Refused
    ensures { result ≡ faults.refused fault }
{
    let ModuleFault { code, name, seen } = fault;
    Refused {
        name,
        code,
        cells: List::from_vec(Vec::new(alloc)),
        seen,
    }
}

/// The breach of a module of this name.
pub(crate) fn fault_in(module: Name, refused: Refused) -> BuildFault
    ensures { result ≡ fault_in «module» refused }
{
    let Refused {
        name,
        code,
        cells,
        seen,
    } = refused;
    BuildFault {
        module,
        name,
        code,
        cells,
        seen,
    }
}
