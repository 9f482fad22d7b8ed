//! What is simulated, and the statuses that tell why it is not.
ghost use Rattle.std.specs.Prelude.{◌≡◌, ◌≤◌, IfOk, IfErr, length};
ghost use Rattle.picked_run.specs.Conditions.{CanRun};
ghost use Rattle.rtlil_text.specs.Reads.{Writable};
ghost use Rattle.stim_text.specs.Whole.{AreWholeEvents};
ghost use Rattle.sim_flow.specs.Simulates.{IsSubject, AreEventsOf, AreTraces};
ghost use Rattle.flow_top.specs.Simulating as spec;

use crate::refusing::{build_status, collect_status};
use crate::status::{Counted, Status};
use lib_core::{Library, List};
use net_core::{Event, Module};
use net_whole::WholeFault;
use rtlil_text::Doc;
use sim_flow::{TraceRefusal, events_of, subject_of, trace_of};
use std::alloc::Global;
use std::thread::Threads;
use stim_text::{StimCode, StimFault};

/// The status of a document that means no design with whole memories.
fn whole_status(fault: WholeFault) -> Status
    ensures { result ≡ spec.whole_status fault }
{
    match fault {
        WholeFault::Memory => Status::Memory,
        WholeFault::Build(fault) => build_status(fault),
        WholeFault::Collect(fault) => collect_status(fault),
    }
}

/// The status of a stimulus's fault.
fn stimulus_status(fault: StimFault) -> Status
    ensures { result ≡ spec.stimulus_status fault }
{
    match fault.code {
        StimCode::Memory => Status::Memory,
        StimCode::Limit => Status::Limit {
            counted: Counted::Stimulus,
            seen: fault.seen,
        },
        code => Status::Stimulus {
            line: fault.line,
            code,
        },
    }
}

/// The status of traces that have no text.
fn trace_status(refusal: TraceRefusal) -> Status
    ensures { result ≡ spec.trace_status refusal }
{
    match refusal {
        TraceRefusal::Memory => Status::Memory,
        TraceRefusal::Long { seen } => Status::Limit {
            counted: Counted::Trace,
            seen,
        },
    }
}

/// The module that is simulated of a document, or the status that ends the command.
pub fn find_subject(alloc: Global, doc: &Doc, library: &Library) -> Result<Module, Status>
    requires { Writable doc.now }
    ensures found { IfOk result (IsSubject library.now doc.now) }
    ensures refused { IfErr result (spec.TellsNoSubject doc.now library.now) }
{
    match subject_of(alloc, doc, library) {
        Ok(module) => Ok(module),
        Err(fault) => Err(whole_status(fault)),
    }
}

/// The events of a stimulus, or the status that ends the command.
pub fn find_events(alloc: Global, bytes: &[u8], module: &Module) -> Result<List<Event>, Status>
    requires { length bytes.now ≤ 16777216 }
    ensures found { IfOk result (AreEventsOf «module».now bytes.now) }
    ensures refused { IfErr result (spec.RefusesStimulus «module».now bytes.now) }
{
    match events_of(alloc, bytes, module) {
        Ok(events) => Ok(events),
        Err(fault) => Err(stimulus_status(fault)),
    }
}

/// The text of the traces for seeds from 0 on, or the status that ends the command.
pub fn find_traces<R: Threads + Sync>(
    rt: &R,
    alloc: Global,
    module: &Module,
    library: &Library,
    events: &List<Event>,
    seeds: u64,
) -> Result<Vec<u8>, Status>
    requires runs { CanRun library.now «module».now }
    requires whole { AreWholeEvents «module».now events.now }
    ensures found { IfOk result (λ text. AreTraces library.now «module».now events.now seeds text.items) }
    ensures refused { IfErr result (spec.TellsNoTrace «module».now (length events.now) seeds) }
{
    match trace_of(rt, alloc, module, library, events, seeds) {
        Ok(text) => Ok(text),
        Err(refusal) => Err(trace_status(refusal)),
    }
}
