//! The line that a refused command leaves.
ghost use Rattle.std.specs.Prelude.{◌≡◌, ◌⊎◌, ◌≤◌, IfOk};
ghost use Rattle.flow_top.specs.RefusalLine.{refusal_line, text_fault, build_fault, collect_fault, design_fault, library_fault, stimulus_fault, name_of, fault_of, line_in, shown_name, is_refusal, LineLeft, Refused};

use crate::joining::{decimal, joined};
use crate::status::{DesignCode, Status};
use flow_io::{Desk, DeskFault};
use lib_core::Memory;
use lib_read::LibCode;
use mem_collect::CollectCode;
use net_wires::BuildCode;
use rtlil_text::TextCode;
use std::alloc::Global;
use stim_text::StimCode;

/// The number of a text's fault.
fn text_fault(code: TextCode) -> u64
    ensures { result ≡ text_fault code }
{
    match code {
        TextCode::Token => 1,
        TextCode::Grammar => 2,
        TextCode::Process => 3,
        TextCode::Limit => 4,
        TextCode::Memory => 5,
    }
}

/// The number of a fault of what a text means.
fn build_fault(code: BuildCode) -> u64
    ensures { result ≡ build_fault code }
{
    match code {
        BuildCode::NoWire => 1,
        BuildCode::Range => 2,
        BuildCode::WidthDiffers => 3,
        BuildCode::TwoDrivers => 4,
        BuildCode::UnknownCell => 5,
        BuildCode::MissingParam => 6,
        BuildCode::ClockRoot => 7,
        BuildCode::AsyncWrite => 8,
        BuildCode::CombLoop => 9,
        BuildCode::Inout => 10,
        BuildCode::BadRam => 11,
        BuildCode::Limit => 12,
        BuildCode::Memory => 13,
    }
}

/// The number of a fault of memory cells.
fn collect_fault(code: CollectCode) -> u64
    ensures { result ≡ collect_fault code }
{
    match code {
        CollectCode::NoMemory => 1,
        CollectCode::PortIdTwice => 2,
        CollectCode::NotConstant => 3,
        CollectCode::MasksOverlap => 4,
        CollectCode::BadWidth => 5,
        CollectCode::Memory => 6,
    }
}

/// The number of a design's fault.
fn design_fault(code: DesignCode) -> u64
    ensures { result ≡ design_fault code }
{
    match code {
        DesignCode::Text(code) => text_fault(code),
        DesignCode::Build(code) => build_fault(code),
        DesignCode::Collect(code) => collect_fault(code),
    }
}

/// The number of a library's fault.
fn library_fault(code: LibCode) -> u64
    ensures { result ≡ library_fault code }
{
    match code {
        LibCode::Token => 1,
        LibCode::Unclosed => 2,
        LibCode::UnknownWord => 3,
        LibCode::NotForKind => 4,
        LibCode::Twice => 5,
        LibCode::Missing => 6,
        LibCode::BadWidths => 7,
        LibCode::BadNumber => 8,
        LibCode::Limit => 9,
        LibCode::Memory => 10,
    }
}

/// The number of a stimulus's fault.
fn stimulus_fault(code: StimCode) -> u64
    ensures { result ≡ stimulus_fault code }
{
    match code {
        StimCode::Line => 1,
        StimCode::Width => 2,
        StimCode::Clock => 3,
        StimCode::Limit => 4,
        StimCode::Memory => 5,
    }
}

/// The number of the fault in a status, 0 where it has none.
fn fault_of(status: &Status) -> u64
    ensures { result ≡ fault_of status.now }
{
    match status {
        Status::Design { code, .. } => design_fault(*code),
        Status::Library { code, .. } => library_fault(*code),
        Status::Stimulus { code, .. } => stimulus_fault(*code),
        _ => 0,
    }
}

/// The line in a status, 0 where it has none.
fn line_in(status: &Status) -> u32
    ensures { result ≡ line_in status.now }
{
    match status {
        Status::Design { line, .. } => *line,
        Status::Library { line, .. } => *line,
        Status::Stimulus { line, .. } => *line,
        _ => 0,
    }
}

/// A name, or `-` for none.
fn shown_name(name: &[u8]) -> &[u8]
    ensures { result.now ≡ shown_name name.now }
{
    if name.is_empty() { b"-" } else { name }
}

/// The name in a status, `-` where it has none.
fn name_of(status: &Status) -> &[u8]
    ensures { result.now ≡ name_of status.now }
{
    match status {
        Status::Design { name, .. } => shown_name(name.as_slice()),
        Status::NoFit { memory, .. } => shown_name(memory.as_slice()),
        _ => b"-",
    }
}

/// The line of a status, ended by a line feed.
pub fn refusal_line(alloc: Global, status: &Status) -> Result<Vec<u8>, Memory>
    ensures { IfOk result (λ line. line.items ≡ refusal_line status.now) }
{
    let exit = decimal(alloc, u64::from(status.exit_status()))?;
    let fault = decimal(alloc, fault_of(status))?;
    let line = decimal(alloc, u64::from(line_in(status)))?;
    joined(
        alloc,
        &[
            b"refused ".as_slice(),
            exit.as_slice(),
            b" ".as_slice(),
            fault.as_slice(),
            b" ".as_slice(),
            line.as_slice(),
            b" ".as_slice(),
            name_of(status),
            b"\n".as_slice(),
        ],
    )
}

/// Whether the input was read and refused, so that a line is left.
fn is_refusal(status: &Status) -> bool
    ensures { result ≡ is_refusal status.now }
{
    matches!(
        status,
        Status::Design { .. }
            | Status::Library { .. }
            | Status::NoFit { .. }
            | Status::Limit { .. }
            | Status::Stimulus { .. }
    )
}

/// Leaves the line of a refusal in a file, and hands the status on. Any other status leaves nothing.
pub fn refuse<D: Desk>(alloc: Global, status: Status, report: &str, desk: &mut D) -> Status
    ensures refused { Refused report.now (D.files desk.old) (D.files desk.new) (D.write_faults desk.old) (D.write_faults desk.new) status result }
    ensures reads_later { D.read_faults desk.old ≤ D.read_faults desk.new }
    ensures writes_later { D.write_faults desk.old ≤ D.write_faults desk.new }
{
    if !is_refusal(&status) {
        return status;
    }
    let Ok(line) = refusal_line(alloc, &status) else {
        return Status::Memory;
    };
    match desk.write_file(alloc, report, line.as_slice()) {
        Err(DeskFault::Memory) => Status::Memory,
        _ => status,
    }
}
