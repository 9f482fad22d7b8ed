//! The module that is simulated of a document.
ghost use Rattle.std.specs.Prelude.{◌≡◌, IfOk, IfErr};
ghost use Rattle.rtlil_text.specs.Reads.{Writable};
ghost use Rattle.net_whole.specs.Whole.{IsFault};
ghost use Rattle.sim_flow.specs.Simulates as spec;

use crate::chosen::simulated_module;
use crate::testing::can_run;
use lib_core::Library;
use net_core::Module;
use net_whole::{WholeFault, whole_design};
use rtlil_text::Doc;
use std::alloc::Global;

/// The module that is simulated of the design that a document means. The document is one that some text
/// reads as. That the module can be simulated is tested; where it could not, the answer would be want of
/// memory.
pub fn subject_of(alloc: Global, doc: &Doc, library: &Library) -> Result<Module, WholeFault>
    requires { Writable doc.now }
    ensures subject { IfOk result (spec.IsSubject library.now doc.now) }
    ensures refused { IfErr result (IsFault doc.now library.now) }
{
    let design = whole_design(alloc, doc, library)?;
    let module = simulated_module(alloc, design);
    match can_run(alloc, library, &module) {
        Ok(true) => Ok(module),
        _ => Err(WholeFault::Memory),
    }
}
