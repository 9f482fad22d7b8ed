//! Why a design is not mapped.
ghost use Rattle.std.specs.Prelude.{◌≡◌};
ghost use Rattle.map_flow.specs.Maps.{refusal_of};
ghost use Rattle.map_flow.specs.declared.refusal.MapRefusal.TheVariants.{Memory as NoMemory};

use lib_core::{Memory, Name};
use net_build::BuildFault;
use net_collect::DesignFault;
use net_whole::WholeFault;

/// Why a design is not mapped.
#[derive(Debug, Drop)]
pub enum MapRefusal {
    /// Memory could not be had.
    Memory,
    /// The first rule that the document breaks.
    Build(BuildFault),
    /// The first rule that the memory cells of a module break.
    Collect(DesignFault),
    /// The first memory that has no plain candidate, and its module.
    NoFit { module: Name, memory: Name },
    /// The first module that has no room for its plans: its nets and those that its plans may add
    /// are together above 67,108,864.
    Room { seen: u64 },
}

impl From<Memory> for MapRefusal {
    ghost from_gives = { λ _ refusal. refusal ≡ NoMemory };

    fn from(_memory: Memory) -> MapRefusal {
        MapRefusal::Memory
    }
}

/// The refusal of a document that means no design with whole memories.
pub(crate) fn refusal_of(fault: WholeFault) -> MapRefusal
    ensures { result ≡ refusal_of fault }
{
    match fault {
        WholeFault::Memory => MapRefusal::Memory,
        WholeFault::Build(fault) => MapRefusal::Build(fault),
        WholeFault::Collect(fault) => MapRefusal::Collect(fault),
    }
}
