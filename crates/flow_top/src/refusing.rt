//! Libraries and designs that are refused, and the statuses that tell it.
ghost use Rattle.std.specs.Prelude.{◌≡◌, ◌≤◌, IfOk, IfErr, length};
ghost use Rattle.lib_read.specs.Limits.{IsWithinLimits};
ghost use Rattle.lib_read.specs.Reads.{LibReads};
ghost use Rattle.map_flow.specs.Maps.{IsMapped};
ghost use Rattle.rtlil_text.specs.Reads.{Writable};
ghost use Rattle.flow_top.specs.Refusing as spec;

use crate::status::{Counted, DesignCode, Status};
use lib_core::{Library, Name};
use lib_read::{LibCode, LibFault, read_library};
use map_flow::{Made, MapRefusal, map_design};
use mem_collect::CollectCode;
use net_build::BuildFault;
use net_collect::DesignFault;
use net_wires::BuildCode;
use rtlil_text::Doc;
use std::alloc::Global;

/// The status of a library's fault.
fn library_status(fault: LibFault) -> Status
    ensures { result ≡ spec.library_status fault }
{
    match fault.code {
        LibCode::Memory => Status::Memory,
        LibCode::Limit => Status::Limit {
            counted: Counted::Library,
            seen: fault.seen,
        },
        code => Status::Library {
            line: fault.line,
            code,
        },
    }
}

/// The library that a text reads as, or the status that ends the command.
pub fn read_ram_text(alloc: Global, bytes: &[u8]) -> Result<Library, Status>
    requires { length bytes.now ≤ 16777216 }
    ensures found { IfOk result (λ library. LibReads bytes.now library × IsWithinLimits library) }
    ensures refused { IfErr result (spec.RefusesLibrary bytes.now) }
{
    match read_library(alloc, bytes) {
        Ok(library) => Ok(library),
        Err(fault) => Err(library_status(fault)),
    }
}

/// The status of a document that means no design.
pub fn build_status(fault: BuildFault) -> Status
    ensures { result ≡ spec.build_status fault }
{
    match fault.code {
        BuildCode::Memory => Status::Memory,
        BuildCode::Limit => Status::Limit {
            counted: Counted::Build,
            seen: fault.seen,
        },
        code => Status::Design {
            module: fault.module,
            name: fault.name,
            line: 0,
            code: DesignCode::Build(code),
        },
    }
}

/// The status of memory cells that make no memories.
pub fn collect_status(fault: DesignFault) -> Status
    ensures { result ≡ spec.collect_status fault }
{
    match fault.fault.code {
        CollectCode::Memory => Status::Memory,
        code => Status::Design {
            module: fault.module,
            name: fault.fault.name,
            line: 0,
            code: DesignCode::Collect(code),
        },
    }
}

/// The status of a design that is not mapped.
fn map_status(refusal: MapRefusal) -> Status
    ensures { result ≡ spec.map_status refusal }
{
    match refusal {
        MapRefusal::Memory => Status::Memory,
        MapRefusal::Build(fault) => build_status(fault),
        MapRefusal::Collect(fault) => collect_status(fault),
        MapRefusal::NoFit { module, memory } => Status::NoFit { module, memory },
        MapRefusal::Room { seen } => Status::Limit {
            counted: Counted::Room,
            seen,
        },
    }
}

/// The texts of a design that is mapped onto a library, or the status that ends the command.
pub fn map_texts(alloc: Global, doc: &Doc, library: &Library) -> Result<Made, Status>
    requires { Writable doc.now }
    ensures mapped { IfOk result (IsMapped doc.now library.now) }
    ensures refused { IfErr result (spec.TellsRefusal doc.now library.now) }
{
    match map_design(alloc, doc, library) {
        Ok(made) => Ok(made),
        Err(refusal) => Err(map_status(refusal)),
    }
}
