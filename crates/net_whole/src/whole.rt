//! The design that a document means, with its memories whole.
ghost use Rattle.std.specs.Prelude.{◌≡◌, IfOk, IfErr};
ghost use Rattle.rtlil_text.specs.Reads.{Writable};
ghost use Rattle.net_whole.specs.Whole as spec;

use crate::fault::WholeFault;
use lib_core::Library;
use mem_collect::CollectCode;
use net_build::{BuildFault, build};
use net_collect::{DesignFault, collect_design};
use net_core::Design;
use net_wires::BuildCode;
use rtlil_text::Doc;
use std::alloc::Global;

/// The fault of a document that means no design.
fn build_fault(fault: BuildFault) -> WholeFault
    ensures { result ≡ spec.build_fault fault }
{
    match fault.code {
        BuildCode::Memory => WholeFault::Memory,
        _ => WholeFault::Build(fault),
    }
}

/// The fault of memory cells that make no memories.
fn collect_fault(fault: DesignFault) -> WholeFault
    ensures { result ≡ spec.collect_fault fault }
{
    match fault.fault.code {
        CollectCode::Memory => WholeFault::Memory,
        _ => WholeFault::Collect(fault),
    }
}

/// The design that a document means under a library, before its memories are made whole.
#[tactic(auto, using(crate::proofs::Faults::build_is_fault))]
fn parts_of(alloc: Global, doc: &Doc, library: &Library) -> Result<Design, WholeFault>
    requires { Writable doc.now }
    ensures built { IfOk result (spec.IsBuiltOf library.now doc.now) }
    ensures refused { IfErr result (spec.IsFault doc.now library.now) }
{
    match build(alloc, doc, library) {
        Ok(parts) => Ok(parts),
        Err(fault) => Err(build_fault(fault)),
    }
}

/// The design that a document means under a library, with its memories whole: Ok exactly where no
/// rule is broken; else the first rule that the document breaks, or where it breaks none the first
/// that its memory cells break. Want of memory is `Memory`.
#[tactic(auto, using(crate::proofs::Faults::collect_is_fault))]
pub fn whole_design(alloc: Global, doc: &Doc, library: &Library) -> Result<Design, WholeFault>
    requires { Writable doc.now }
    ensures whole { IfOk result (spec.MeansWhole library.now doc.now) }
    ensures refused { IfErr result (spec.IsFault doc.now library.now) }
{
    let parts = parts_of(alloc, doc, library)?;
    match collect_design(alloc, parts) {
        Ok(design) => Ok(design),
        Err(fault) => Err(collect_fault(fault)),
    }
}
