//! The events of a stimulus.
ghost use Rattle.std.specs.Prelude.{◌≡◌, ◌≤◌, ◌⊎◌, length, IfOk, IfErr};
ghost use Rattle.stim_text.specs.Stimulus.{IsMemory};
ghost use Rattle.sim_flow.specs.Simulates as spec;

use lib_core::List;
use net_core::{Event, Module};
use std::alloc::Global;
use stim_text::laws::events_are_whole;
use stim_text::{StimFault, read_stim};

/// The events that a stimulus text sets off in a module: each has a value for each input. An error is the
/// first fault of the text, or want of memory.
pub fn events_of(alloc: Global, bytes: &[u8], module: &Module) -> Result<List<Event>, StimFault>
    requires { length bytes.now ≤ 16777216 }
    ensures events { IfOk result (spec.AreEventsOf «module».now bytes.now) }
    ensures refused { IfErr result (λ fault. IsMemory fault ⊎ spec.HasFault «module».now bytes.now fault) }
{
    events_are_whole();
    match read_stim(alloc, bytes, module) {
        Ok(events) => Ok(events),
        Err(fault) => Err(fault),
    }
}
