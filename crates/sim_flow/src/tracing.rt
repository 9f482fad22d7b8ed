//! The text of the traces of a module.
ghost use Rattle.std.specs.Prelude.{◌≡◌, length, IfOk, IfErr};
ghost use Rattle.picked_run.specs.Conditions.{CanRun};
ghost use Rattle.stim_text.specs.Whole.{AreWholeEvents};
ghost use Rattle.sim_flow.specs.Simulates as spec;
ghost use Rattle.sim_flow.specs.declared.tracing.TraceRefusal.TheVariants.{Memory as NoMemory};

use cycle_sim::trace_all;
use lib_core::{Library, List, Memory};
use net_core::{Event, Module};
use picked_run::laws::shown_is_trace;
use std::alloc::Global;
use std::thread::Threads;
use trace_text::laws::text_has_bytes;
use trace_text::{print_trace, trace_length};

/// The bytes that a trace may have.
const MOST_BYTES: u64 = 67_108_864;

/// How many threads share the seeds, where they can be had.
const WORKERS: u32 = 4;

/// Why there is no text of traces.
#[derive(Clone, Copy, Debug, PartialEq, Eq)]
pub enum TraceRefusal {
    /// Memory could not be had.
    Memory,
    /// The text would have so many bytes, which are too many.
    Long { seen: u64 },
}

impl From<Memory> for TraceRefusal {
    ghost from_gives = { λ _ refusal. refusal ≡ NoMemory };

    fn from(_memory: Memory) -> TraceRefusal {
        TraceRefusal::Memory
    }
}

/// The text of the traces of a module under these events, for seeds from 0 on. Nothing is simulated where
/// the text would have more than 67,108,864 bytes.
pub fn trace_of<R: Threads + Sync>(
    rt: &R,
    alloc: Global,
    module: &Module,
    library: &Library,
    events: &List<Event>,
    seeds: u64,
) -> Result<Vec<u8>, TraceRefusal>
    requires runs { CanRun library.now «module».now }
    requires whole { AreWholeEvents «module».now events.now }
    ensures traced { IfOk result (λ text. spec.AreTraces library.now «module».now events.now seeds text.items) }
    ensures refused { IfErr result (spec.IsUntraced «module».now (length events.now) seeds) }
{
    shown_is_trace();
    text_has_bytes();
    let seen = trace_length(module, events.as_slice().len() as u64, seeds);
    if seen > MOST_BYTES {
        return Err(TraceRefusal::Long { seen });
    }
    let traces = trace_all(rt, alloc, WORKERS, module, library, events, seeds)?;
    let text = print_trace(alloc, module, &traces)?;
    Ok(text)
}
