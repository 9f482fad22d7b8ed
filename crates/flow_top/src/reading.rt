//! Files that a command reads, and the statuses of a desk's faults.
ghost use Rattle.std.specs.Prelude.{◌≡◌, ◌≤◌, IfOk, IfErr, length};
ghost use Rattle.flow_io.specs.Files.{Tells};
ghost use Rattle.flow_top.specs.Reading.{ReadStops, RefusesText, text_status};
ghost use Rattle.flow_top.specs.Statuses.{status_of_read, status_of_write, FaultIsOfWrite};
ghost use Rattle.rtlil_text.specs.Reads.{Reads};
ghost use Rattle.rtlil_text.specs.Text.{IsWithinLimits};

use crate::status::{Counted, DesignCode, Status};
use flow_io::{Desk, DeskFault};
use lib_core::Name;
use rtlil_text::{Doc, TextCode, TextFault, read_doc};
use std::alloc::Global;

/// The bytes that a file may have.
pub const MOST_BYTES: u64 = 16_777_216;

/// The status of a read that gave nothing.
fn read_status(fault: DeskFault) -> Status
    ensures { result ≡ status_of_read fault }
{
    match fault {
        DeskFault::Failed => Status::ReadFault,
        DeskFault::TooLong { seen } => Status::Limit {
            counted: Counted::File,
            seen,
        },
        DeskFault::Memory => Status::Memory,
    }
}

/// The status of writes that stopped.
pub fn write_status(fault: DeskFault) -> Status
    requires { FaultIsOfWrite fault }
    ensures { result ≡ status_of_write fault }
{
    match fault {
        DeskFault::Failed => Status::WriteFault,
        DeskFault::TooLong { .. } => unreachable!(),
        DeskFault::Memory => Status::Memory,
    }
}

/// Reads a file, or says which status ends the command.
pub fn read<D: Desk>(alloc: Global, name: &str, desk: &mut D) -> Result<Vec<u8>, Status>
    ensures told { IfOk result (λ bytes. Tells (D.files desk.old) name.now bytes.items) }
    ensures within { IfOk result (λ bytes. length bytes.items ≤ 16777216) }
    ensures stops { IfErr result (ReadStops (D.files desk.old) name.now (D.read_faults desk.old) (D.read_faults desk.new)) }
    ensures files_stay { D.files desk.new ≡ D.files desk.old }
    ensures reads_later { D.read_faults desk.old ≤ D.read_faults desk.new }
    ensures writes_later { D.write_faults desk.old ≤ D.write_faults desk.new }
{
    desk.read_file(alloc, name, MOST_BYTES).map_err(read_status)
}

/// The status of a text that is not read.
fn text_status(alloc: Global, fault: TextFault) -> Status
    ensures { result ≡ text_status fault }
{
    match fault.code {
        TextCode::Memory => Status::Memory,
        TextCode::Limit => Status::Limit {
            counted: Counted::Text,
            seen: fault.seen,
        },
        code => Status::Design {
            module: Name::from_vec(Vec::new(alloc)),
            name: Name::from_vec(Vec::new(alloc)),
            line: fault.line,
            code: DesignCode::Text(code),
        },
    }
}

/// The document that a text reads as, or the status that ends the command.
pub fn read_text(alloc: Global, bytes: &[u8]) -> Result<Doc, Status>
    requires { length bytes.now ≤ 16777216 }
    ensures found { IfOk result (λ doc. Reads bytes.now doc × IsWithinLimits bytes.now doc) }
    ensures refused { IfErr result (RefusesText bytes.now) }
{
    match read_doc(alloc, bytes) {
        Ok(doc) => Ok(doc),
        Err(fault) => Err(text_status(alloc, fault)),
    }
}
