//! A simulation of a module, step by step.
ghost use Rattle.std.specs.Prelude.{◌≡◌, ℕ, ◌<◌, Bool, List, Some, length, IfOk, IsSome};
ghost use Rattle.net_core.specs.declared.bits.Bit.TheVariants.{Net};
ghost use Rattle.net_core.specs.Values.{value_of};
ghost use Rattle.picked_run.specs.Conditions.{CanRun};
ghost use Rattle.ram_step.specs.Moments.{valuation};
ghost use Rattle.sim_settle.specs.Schedules.{IsSchedule};
ghost use Rattle.cycle_sim.specs.Views.{first_view, with_values, stepped_view, HasInputs, HasSettled, ShowsInputs};

use crate::copies::Twin;
use crate::settling::settle;
use lib_core::{Library, Memory};
use net_core::{Bit, Event, Module};
use sim_settle::Schedule;
use sim_state::SimState;
use std::alloc::Global;
use std::marker::Model;

/// A simulation of a module with each free choice picked by a seed. At each event the values of the nets
/// are settled first, and then a step is taken. Contracts see the module and its library, the seed, what
/// the cells keep, how many steps were taken, and the values of the nets, if they are settled since the
/// last step.
#[derive(Drop)]
pub struct Sim {
    module: Module,
    library: Library,
    schedule: Schedule,
    state: SimState,
    nets: Nets,
    seed: u64,
    steps: u64,
    settled: bool,
}

/// The values of the nets, and room for the bits of a node: picks, and what it shows.
#[derive(Drop)]
struct Nets {
    values: Vec<bool>,
    picks: Vec<bool>,
    shown: Vec<bool>,
}

impl Model for Sim {
    ghost use Rattle.cycle_sim.specs.Views.{SimView, settled_values};
    ghost use Rattle.cycle_sim.specs.Settling.{IsSound};

    ghost Value = { SimView };

    ghost view = { λ s. record { unit = s.module; library = s.library; seed = s.seed; state = s.state; steps = s.steps; values = settled_values s.settled s.nets.values.items } };

    ghost invariant = { λ s. IsSound s.library s.module s.schedule s.state s.nets.values.items s.nets.picks.items s.nets.shown.items };
}

impl Sim {
    /// The simulation at the start.
    pub fn new(alloc: Global, module: &Module, library: &Library, seed: u64) -> Result<Sim, Memory>
        requires { CanRun library.now «module».now }
        ensures { IfOk result (λ sim. sim ≡ first_view «module».now library.now seed) }
    {
        let schedule = schedule(alloc, module, library)?;
        let state = SimState::new(alloc, module, library, seed)?;
        let nets = room_for(alloc, module.nets as usize, schedule.width)?;
        let module = module.twin(alloc)?;
        let library = library.twin(alloc)?;
        Ok(Sim {
            module,
            library,
            schedule,
            state,
            nets,
            seed,
            steps: 0,
            settled: false,
        })
    }

    /// Settles the values of the nets at an event. It takes no memory.
    pub fn settle(&mut self, event: &Event)
        requires { HasInputs self.old.unit event.now }
        ensures settled { HasSettled self.new event.now }
        ensures same { self.new ≡ with_values self.old self.new.values }
    {
        settle(
            &self.module,
            &self.schedule,
            &self.state,
            self.seed,
            self.steps,
            event,
            self.nets.values.as_mut_slice(),
            self.nets.picks.as_mut_slice(),
            self.nets.shown.as_mut_slice(),
        );
        self.settled = true;
    }

    /// Takes the step of an event, at whose values the nets are settled. It takes no memory.
    pub fn step(&mut self, event: &Event)
        requires inputs { ShowsInputs self.old event.now }
        requires few { self.old.steps < 4294967295 }
        ensures { (values : List Bool) → self.old.values ≡ Some values → self.new ≡ stepped_view self.old event.now values }
    {
        self.state.step(
            &self.module,
            self.seed,
            self.steps,
            self.nets.values.as_slice(),
            event,
        );
        self.steps += 1;
        self.settled = false;
    }

    /// The settled value of a bit. It takes no memory.
    pub fn output(&self, bit: Bit) -> bool
        requires settled { IsSome self.now.values }
        requires net { (n : ℕ) → bit ≡ Net n → n < self.now.unit.nets }
        ensures { (values : List Bool) → self.now.values ≡ Some values → result ≡ value_of (valuation values) bit }
    {
        match bit {
            Bit::Zero => false,
            Bit::One => true,
            Bit::Net(net) => self.nets.values[net as usize],
        }
    }
}

/// What is found once of a module that can run.
fn schedule(alloc: Global, module: &Module, library: &Library) -> Result<Schedule, Memory>
    requires { CanRun library.now «module».now }
    ensures { IfOk result (IsSchedule «module».now) }
{
    let schedule = Schedule::new(alloc, module)?;
    Ok(schedule)
}

/// The values of so many nets, and room for so many bits of a node.
fn room_for(alloc: Global, count: usize, width: usize) -> Result<Nets, Memory>
    ensures { IfOk result (λ nets. (length nets.values.items ≡ count) × (length nets.picks.items ≡ width) × (length nets.shown.items ≡ width)) }
{
    Ok(Nets {
        values: zeros(alloc, count)?,
        picks: zeros(alloc, width)?,
        shown: zeros(alloc, width)?,
    })
}

/// So many zeros.
fn zeros(alloc: Global, count: usize) -> Result<Vec<bool>, Memory>
    ensures { IfOk result (λ bits. length bits.items ≡ count) }
{
    let bits = vec![in alloc; false; count]?;
    Ok(bits)
}
