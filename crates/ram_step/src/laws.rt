//! What the picks are allowed to do.
ghost use Rattle.ram_step.specs.Runs.{PickedRunIsAllowed};

/// A run of a RAM cell by picks is one that its meaning allows.
pub fn picked_run_is_allowed()
    ensures { PickedRunIsAllowed }
{}
