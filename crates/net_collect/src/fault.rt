//! Why the memory cells of a design make no memories.
ghost use Rattle.mem_collect.specs.Answers.{IsMemoryFault};
ghost use Rattle.net_collect.specs.Faults.{IsMemoryIn};

use lib_core::Name;
use mem_collect::{CollectCode, CollectFault};
use std::alloc::Global;

/// The first rule that is broken in a design.
#[derive(Debug, PartialEq, Eq, Drop)]
pub struct DesignFault {
    /// The module in which it is broken. For want of memory only the code says something.
    pub module: Name,
    pub fault: CollectFault,
}

/// Want of memory.
pub(crate) fn no_memory(alloc: Global) -> CollectFault
    ensures { IsMemoryFault result }
{
    CollectFault {
        name: Name::from_vec(Vec::new(alloc)),
        code: CollectCode::Memory,
    }
}

/// Want of memory in a design.
pub(crate) fn no_memory_in(alloc: Global) -> DesignFault
    ensures { IsMemoryIn result }
{
    DesignFault {
        module: Name::from_vec(Vec::new(alloc)),
        fault: no_memory(alloc),
    }
}
