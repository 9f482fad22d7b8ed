//! The values of all nets at an event.
ghost use Rattle.std.specs.Prelude.{◌≡◌, ℕ, ◌≤◌, length};
ghost use Rattle.lib_core.specs.declared.library.Library.{Library};
ghost use Rattle.net_core.specs.Drivers.{HasOneDriver};
ghost use Rattle.net_core.specs.Nodes.{NetsWithin};
ghost use Rattle.net_core.specs.Ports.{inputs_of};
ghost use Rattle.picked_run.specs.Conditions.{CanRun};
ghost use Rattle.picked_run.specs.Settled.{IsSettled};
ghost use Rattle.ram_step.specs.Moments.{valuation};
ghost use Rattle.sim_settle.specs.Nets.{AreBelow};
ghost use Rattle.sim_settle.specs.Places.{HasNode, HaveNodes};
ghost use Rattle.sim_settle.specs.Schedules.{IsSchedule, IsWide};
ghost use Rattle.sim_settle.specs.Working.{PlaceSteps, Worked, Begins};
ghost use Rattle.sim_state.specs.SimStates.{IsStateOfCells, IsSimState};
ghost use Rattle.cycle_sim.specs.Views.{HasInputs};

use crate::showing::show;
use net_core::{Event, Module};
use sim_settle::{NodePlace, Schedule, nets_at, pick_nets, write_nets};
use sim_state::SimState;

/// Settles the values of all nets at an event. `picks` and `shown` are room for the bits of a node. It takes no memory.
pub(crate) fn settle(
    module: &Module,
    schedule: &Schedule,
    state: &SimState,
    seed: u64,
    number: u64,
    event: &Event,
    values: &mut [bool],
    picks: &mut [bool],
    shown: &mut [bool],
)
    requires schedule { IsSchedule «module».now schedule.now }
    requires state { IsStateOfCells «module».now state.now }
    requires nets { NetsWithin «module».now }
    requires driven { HasOneDriver «module».now }
    requires input_nets { AreBelow «module».now.nets (inputs_of «module».now) }
    requires inputs { HasInputs «module».now event.now }
    requires values { length values.old ≡ «module».now.nets }
    requires picks { length picks.old ≡ schedule.now.width }
    requires shown { length shown.old ≡ schedule.now.width }
    ensures { (lib : Library) → CanRun lib «module».now → IsSimState lib «module».now state.now → IsSettled lib «module».now seed number event.now state.now (valuation values.new) }
{
    begin(module, schedule, seed, number, event, values);
    work_all(
        module,
        state,
        seed,
        number,
        schedule.work.as_slice(),
        values,
        picks,
        shown,
    );
}

/// Gives the inputs their values, and the nets that nothing drives their picks.
fn begin(
    module: &Module,
    schedule: &Schedule,
    seed: u64,
    number: u64,
    event: &Event,
    values: &mut [bool],
)
    requires schedule { IsSchedule «module».now schedule.now }
    requires driven { HasOneDriver «module».now }
    requires input_nets { AreBelow «module».now.nets (inputs_of «module».now) }
    requires inputs { HasInputs «module».now event.now }
    requires values { length values.old ≡ «module».now.nets }
    ensures { Begins «module».now seed number event.now (valuation values.new) }
{
    pick_nets(values, schedule.free.as_slice(), seed, number);
    write_nets(values, schedule.inputs.as_slice(), event.values.as_slice());
}

/// Works off places one after the other.
fn work_all(
    module: &Module,
    state: &SimState,
    seed: u64,
    number: u64,
    work: &[NodePlace],
    values: &mut [bool],
    picks: &mut [bool],
    shown: &mut [bool],
)
    requires state { IsStateOfCells «module».now state.now }
    requires nets { NetsWithin «module».now }
    requires driven { HasOneDriver «module».now }
    requires work { HaveNodes «module».now work.now }
    requires values { length values.old ≡ «module».now.nets }
    requires picks { IsWide «module».now (length picks.old) }
    requires shown { IsWide «module».now (length shown.old) }
    ensures { Worked «module».now seed number state.now work.now (valuation values.old) (valuation values.new) }
{
    for at in work {
        work_place(module, state, seed, number, *at, values, picks, shown);
    }
}

/// Works off a place.
fn work_place(
    module: &Module,
    state: &SimState,
    seed: u64,
    number: u64,
    at: NodePlace,
    values: &mut [bool],
    picks: &mut [bool],
    shown: &mut [bool],
)
    requires state { IsStateOfCells «module».now state.now }
    requires nets { NetsWithin «module».now }
    requires driven { HasOneDriver «module».now }
    requires node { HasNode «module».now at }
    requires values { length values.old ≡ «module».now.nets }
    requires picks { IsWide «module».now (length picks.old) }
    requires shown { IsWide «module».now (length shown.old) }
    ensures { PlaceSteps «module».now seed number state.now at (valuation values.old) (valuation values.new) }
{
    let nets = nets_at(module, at);
    let count = nets.len();
    let out = &mut shown[..count];
    show(
        module,
        state,
        seed,
        number,
        at,
        values,
        &mut picks[..count],
        out,
    );
    write_nets(values, nets, out);
}
