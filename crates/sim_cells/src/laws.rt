//! Laws about runs by picks, each the contract of a function that does nothing.
ghost use Rattle.sim_cells.specs.MemoryRuns.{MemoryRunIsAllowed};
ghost use Rattle.sim_cells.specs.RegisterRuns.{RegisterRunIsAllowed};

/// A run of a register by picks is one that the register allows.
pub fn register_run_is_allowed()
    ensures { RegisterRunIsAllowed }
{}

/// A run of a memory by picks is one that the memory allows.
pub fn memory_run_is_allowed()
    ensures { MemoryRunIsAllowed }
{}
