//! Laws about picked runs, each the contract of a function that does nothing.
ghost use Rattle.picked_run.specs.PickedRuns.{PickedRunIsRun, ShownIsTrace};

/// The picked run of a module is a run of the module.
pub fn picked_run_is_run()
    ensures { PickedRunIsRun }
{
    sim_cells::laws::register_run_is_allowed();
    sim_cells::laws::memory_run_is_allowed();
    ram_step::laws::picked_run_is_allowed();
}

/// What the picked run of a module shows is a trace of the module.
pub fn shown_is_trace()
    ensures { ShownIsTrace }
{
    picked_run_is_run();
}
