//! The command `fmt`.
ghost use Rattle.std.specs.Prelude.{◌≡◌, ◌≤◌, IfOk, IfErr};
ghost use Rattle.flow_top.specs.Asked.{Fmt as AskedFmt};
ghost use Rattle.flow_top.specs.Command.{fmt_files_of};
ghost use Rattle.flow_top.specs.Formatting.{Formatted, FmtStopped};
ghost use Rattle.flow_top.specs.Outcome.{Outcome, look_of};

use crate::command::FmtCommand;
use crate::reading::{read, read_text, write_status};
use crate::status::Status;
use crate::texts::{Text, write_texts};
use flow_io::Desk;
use rtlil_print::print_doc;
use std::alloc::Global;

/// Reads the text and prints its document. It writes no file.
fn reformat<D: Desk>(
    alloc: Global,
    command: FmtCommand<'_>,
    desk: &mut D,
) -> Result<Vec<u8>, Status>
    ensures made { IfOk result (λ text. Formatted (fmt_files_of command.entry) (D.files desk.old) text.items) }
    ensures stopped { IfErr result (FmtStopped (fmt_files_of command.entry) (D.files desk.old) (D.read_faults desk.old) (D.read_faults desk.new)) }
    ensures files_stay { D.files desk.new ≡ D.files desk.old }
    ensures reads_later { D.read_faults desk.old ≤ D.read_faults desk.new }
    ensures writes_later { D.write_faults desk.old ≤ D.write_faults desk.new }
{
    let bytes = read(alloc, command.design, desk)?;
    let doc = read_text(alloc, bytes.as_slice())?;
    match print_doc(alloc, &doc) {
        Ok(text) => Ok(text),
        Err(_) => Err(Status::Memory),
    }
}

/// Prints a text anew: reads it whole, and writes the printed text of its document.
pub fn format_text<D: Desk>(alloc: Global, command: FmtCommand<'_>, desk: &mut D) -> Status
    ensures { Outcome (AskedFmt (fmt_files_of command.entry)) (look_of D.files D.read_faults D.write_faults desk.old) (look_of D.files D.read_faults D.write_faults desk.new) result }
{
    let text = match reformat(alloc, command, desk) {
        Ok(text) => text,
        Err(status) => return status,
    };
    let texts = [Text {
        name: command.out,
        bytes: text.as_slice(),
    }];
    match write_texts(alloc, desk, &texts) {
        Ok(()) => Status::Ok,
        Err(fault) => write_status(fault),
    }
}
