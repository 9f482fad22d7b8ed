//! Plans of all memories of a design, as words of a row ask for them.
ghost use Rattle.std.specs.Prelude.{IfOk};
ghost use Rattle.fit_rules.specs.Limits.{LibraryLimits};
ghost use Rattle.rtlil_text.specs.Reads.{Writable};

use crate::planning::report_on;
use fit_rules::library_within;
use flow_io::{Desk, MemDesk};
use flow_top::Status;
use lib_core::{Library, Memory};
use lib_read::read_library;
use net_core::{Design, Module};
use net_whole::whole_design;
use rtlil_text::{Doc, read_doc};
use std::alloc::Global;

/// The greatest number of bytes of a file that a command reads.
const FILE_BYTES: u64 = 16_777_216;

/// The document of a file.
fn doc_of(alloc: Global, name: &str, desk: &mut MemDesk) -> Result<Doc, Status>
    ensures { IfOk result Writable }
{
    let Ok(bytes) = desk.read_file(alloc, name, FILE_BYTES) else {
        return Err(Status::ReadFault);
    };
    match read_doc(alloc, bytes.as_slice()) {
        Ok(doc) => Ok(doc),
        Err(_) => Err(Status::Usage),
    }
}

/// The library of a file.
fn library_of(alloc: Global, name: &str, desk: &mut MemDesk) -> Result<Library, Status>
    ensures { IfOk result LibraryLimits }
{
    let Ok(bytes) = desk.read_file(alloc, name, FILE_BYTES) else {
        return Err(Status::ReadFault);
    };
    match read_library(alloc, bytes.as_slice()) {
        Ok(library) if library_within(&library) => Ok(library),
        _ => Err(Status::Usage),
    }
}

/// That a memory has no plan.
fn unfit(alloc: Global, module: &Module, memory: &lib_core::Name) -> Result<Status, Memory> {
    Ok(Status::NoFit {
        module: module.name.copy(alloc)?,
        memory: memory.copy(alloc)?,
    })
}

/// Appends the reports on the memories of a module; the status where one has no plan.
fn append_module(
    alloc: Global,
    library: &Library,
    module: &Module,
    text: &mut Vec<u8>,
) -> Result<Status, Memory>
    requires limits { LibraryLimits library.now }
{
    for mem in module.mems.as_slice() {
        match report_on(alloc, library, &module.name, mem)? {
            Some(report) => text.extend_from_slice(report.as_slice())?,
            None => return unfit(alloc, module, &mem.name),
        }
    }
    Ok(Status::Ok)
}

/// The reports on the memories of a design, or the status where one has no plan.
fn reports(alloc: Global, library: &Library, design: &Design) -> Result<(Vec<u8>, Status), Memory>
    requires limits { LibraryLimits library.now }
{
    let mut text = Vec::new(alloc);
    for module in design.modules.as_slice() {
        let status = append_module(alloc, library, module, &mut text)?;
        if status.exit_status() != 0 {
            return Ok((text, status));
        }
    }
    Ok((text, Status::Ok))
}

/// What the words `plan DESIGN LIBRARY PLANS` of a row end as. PLANS gets the report on each memory of
/// the design by itself. A memory without a plan is `NoFit`, and then PLANS stays. Files that are no
/// design or no library are `Usage`: no row has them.
pub fn plan(
    alloc: Global,
    design: &str,
    library: &str,
    plans: &str,
    desk: &mut MemDesk,
) -> Result<(), Status> {
    let doc = doc_of(alloc, design, desk)?;
    let library = library_of(alloc, library, desk)?;
    let Ok(design) = whole_design(alloc, &doc, &library) else {
        return Err(Status::Usage);
    };
    let Ok((text, status)) = reports(alloc, &library, &design) else {
        return Err(Status::Memory);
    };
    if status.exit_status() != 0 {
        return Err(status);
    }
    match desk.write_file(alloc, plans, text.as_slice()) {
        Ok(()) => Ok(()),
        Err(_) => Err(Status::WriteFault),
    }
}
