//! What the runs of a module show, event by event.
ghost use Rattle.std.specs.Prelude.{◌≡◌, ℕ, ◌+◌, ◌-◌, ◌/◌, ◌^◌, ◌<◌, ◌≤◌, ◌++◌, length, Bool, List, Some, IfOk, IsSome};
ghost use Rattle.std.specs.Thread.{IsSync};
ghost use Rattle.net_core.specs.declared.bits.Bit.TheVariants.{Net};
ghost use Rattle.net_core.specs.Nodes.{HasNet};
ghost use Rattle.net_core.specs.Ports.{outputs_of};
ghost use Rattle.net_core.specs.Values.{values_of};
ghost use Rattle.picked_run.specs.Conditions.{CanRun};
ghost use Rattle.picked_run.specs.PickedRuns.{IsShown};
ghost use Rattle.ram_step.specs.Moments.{valuation};
ghost use Rattle.cycle_sim.specs.Views.{HasInputs};
ghost use Rattle.cycle_sim.specs.Traces.{HaveInputs, AreShown, ShowsEvent, ShowsFrom, IsJob};

use crate::sim::Sim;
use lib_core::{Library, List, Memory};
use net_core::{Bit, Event, Module};
use picked_run::outputs;
use std::alloc::Global;
use std::thread::{Threads, join};

/// The values of a module's outputs at each of at most 65,536 events, with each free choice picked by a
/// seed.
pub fn trace_one(
    alloc: Global,
    module: &Module,
    library: &Library,
    events: &List<Event>,
    seed: u64,
) -> Result<List<List<bool>>, Memory>
    requires runs { CanRun library.now «module».now }
    requires few { length events.now ≤ 65536 }
    requires inputs { HaveInputs «module».now events.now }
    ensures { IfOk result (IsShown library.now «module».now seed events.now) }
{
    let outputs = outputs(alloc, module)?;
    let mut sim = Sim::new(alloc, module, library, seed)?;
    let lines = run_all(alloc, &mut sim, outputs.as_slice(), events.as_slice())?;
    Ok(lines)
}

/// The values of the outputs at events that follow each other.
fn run_all(
    alloc: Global,
    sim: &mut Sim,
    outputs: &[Bit],
    events: &[Event],
) -> Result<List<List<bool>>, Memory>
    requires outputs { outputs.now ≡ outputs_of sim.old.unit }
    requires nets { (n : ℕ) → HasNet outputs.now n → n < sim.old.unit.nets }
    requires few { sim.old.steps + length events.now ≤ 65536 }
    requires inputs { HaveInputs sim.old.unit events.now }
    ensures { IfOk result (λ lines. ShowsFrom sim.old.library sim.old.unit sim.old.seed sim.old.steps sim.old.state events.now lines) }
{
    let mut lines = Vec::new(alloc);
    for event in events {
        lines.push(run_event(alloc, sim, outputs, event)?)?;
    }
    Ok(List::from_vec(lines))
}

/// The values of the outputs at an event, whose step is taken then.
fn run_event(
    alloc: Global,
    sim: &mut Sim,
    outputs: &[Bit],
    event: &Event,
) -> Result<List<bool>, Memory>
    requires inputs { HasInputs sim.old.unit event.now }
    requires nets { (n : ℕ) → HasNet outputs.now n → n < sim.old.unit.nets }
    requires few { sim.old.steps < 4294967295 }
    ensures { IfOk result (λ line. ShowsEvent sim.old sim.new event.now outputs.now line) }
{
    sim.settle(event);
    let line = line(alloc, sim, outputs)?;
    sim.step(event);
    Ok(line)
}

/// The settled values of bits.
fn line(alloc: Global, sim: &Sim, bits: &[Bit]) -> Result<List<bool>, Memory>
    requires settled { IsSome sim.now.values }
    requires nets { (n : ℕ) → HasNet bits.now n → n < sim.now.unit.nets }
    ensures { IfOk result (λ line. (values : List Bool) → sim.now.values ≡ Some values → line ≡ values_of (valuation values) bits.now) }
{
    let mut line = Vec::with_capacity(alloc, bits.len())?;
    for bit in bits {
        line.push(sim.output(*bit))?;
    }
    Ok(List::from_vec(line))
}

/// The trace of each of the first so many seeds, in their order. As many threads as there are workers
/// share the seeds, where they can be had.
pub fn trace_all<R: Threads + Sync>(
    rt: &R,
    alloc: Global,
    workers: u32,
    module: &Module,
    library: &Library,
    events: &List<Event>,
    seeds: u64,
) -> Result<List<List<List<bool>>>, Memory>
    requires workers { 1 ≤ workers }
    requires runs { CanRun library.now «module».now }
    requires few { length events.now ≤ 65536 }
    requires inputs { HaveInputs «module».now events.now }
    ensures { IfOk result (AreShown library.now «module».now events.now 0 seeds) }
{
    let traces = trace_some(rt, alloc, workers, module, library, events, 0, seeds)?;
    Ok(List::from_vec(traces))
}

fn trace_some<R: Threads + Sync>(
    rt: &R,
    alloc: Global,
    workers: u32,
    module: &Module,
    library: &Library,
    events: &List<Event>,
    first: u64,
    count: u64,
) -> Result<Vec<List<List<bool>>>, Memory>
    requires job { IsJob library.now «module».now events.now workers first count }
    ensures { IfOk result (λ traces. AreShown library.now «module».now events.now first count traces.items) }
{
    if workers <= 1 || count <= 1 {
        return trace_each(alloc, module, library, events, first, count);
    }
    let low = count / 2;
    let high = count - low;
    let (left, right) = join(
        rt,
        || -> Result<Vec<List<List<bool>>>, Memory>
            requires { IsSync R.row × IsJob library.now «module».now events.now (workers / 2) first low }
            ensures { IfOk result (λ traces. AreShown library.entry.now «module».entry.now events.entry.now first low traces.items) }
        { trace_some(rt, alloc, workers / 2, module, library, events, first, low) },
        || -> Result<Vec<List<List<bool>>>, Memory>
            requires { IsSync R.row × IsJob library.now «module».now events.now (workers - workers / 2) (first + low) high }
            ensures { IfOk result (λ traces. AreShown library.entry.now «module».entry.now events.entry.now (first + low) high traces.items) }
        {
            trace_some(
                rt,
                alloc,
                workers - workers / 2,
                module,
                library,
                events,
                first + low,
                high,
            )
        },
    );
    let front = left?;
    let back = right?;
    let all = joined(front, back)?;
    Ok(all)
}

/// The traces of seeds that follow each other.
fn trace_each(
    alloc: Global,
    module: &Module,
    library: &Library,
    events: &List<Event>,
    first: u64,
    count: u64,
) -> Result<Vec<List<List<bool>>>, Memory>
    requires { IsJob library.now «module».now events.now 1 first count }
    ensures { IfOk result (λ traces. AreShown library.now «module».now events.now first count traces.items) }
{
    let mut traces = Vec::new(alloc);
    for index in 0..count {
        traces.push(trace_one(alloc, module, library, events, first + index)?)?;
    }
    Ok(traces)
}

/// Two lists of traces as one.
fn joined(
    front: Vec<List<List<bool>>>,
    back: Vec<List<List<bool>>>,
) -> Result<Vec<List<List<bool>>>, Memory>
    ensures { IfOk result (λ all. all.items ≡ front.items ++ back.items) }
{
    let mut all = front;
    let mut rest = back;
    all.append(&mut rest)?;
    Ok(all)
}
