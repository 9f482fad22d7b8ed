//! The command `map`.
ghost use Rattle.std.specs.Prelude.{◌≡◌, ◌≤◌, IfOk, IfErr};
ghost use Rattle.flow_top.specs.Asked.{Map as AskedMap};
ghost use Rattle.flow_top.specs.Command.{files_of};
ghost use Rattle.flow_top.specs.Outcome.{Outcome, look_of};
ghost use Rattle.flow_top.specs.Preparing.{Prepared, Stopped};

use crate::command::MapCommand;
use crate::reading::{read, read_text, write_status};
use crate::refusal::refuse;
use crate::refusing::{map_texts, read_ram_text};
use crate::status::Status;
use crate::texts::{Text, write_texts};
use flow_io::Desk;
use map_flow::Made;
use std::alloc::Global;

/// Reads the design and the library and makes the texts. It writes no file.
fn prepare<D: Desk>(alloc: Global, command: MapCommand<'_>, desk: &mut D) -> Result<Made, Status>
    ensures made { IfOk result (Prepared (files_of command.entry) (D.files desk.old)) }
    ensures stopped { IfErr result (Stopped (files_of command.entry) (D.files desk.old) (D.read_faults desk.old) (D.read_faults desk.new)) }
    ensures files_stay { D.files desk.new ≡ D.files desk.old }
    ensures reads_later { D.read_faults desk.old ≤ D.read_faults desk.new }
    ensures writes_later { D.write_faults desk.old ≤ D.write_faults desk.new }
{
    let design = read(alloc, command.design, desk)?;
    let doc = read_text(alloc, design.as_slice())?;
    let text = read(alloc, command.library, desk)?;
    let library = read_ram_text(alloc, text.as_slice())?;
    let made = map_texts(alloc, &doc, &library)?;
    Ok(made)
}

/// Maps a design: reads the design and the library, and writes the inferred design, the netlist
/// and the report. A refusal leaves its line in the report's file.
pub fn map<D: Desk>(alloc: Global, command: MapCommand<'_>, desk: &mut D) -> Status
    ensures { Outcome (AskedMap (files_of command.entry)) (look_of D.files D.read_faults D.write_faults desk.old) (look_of D.files D.read_faults D.write_faults desk.new) result }
{
    let made = match prepare(alloc, command, desk) {
        Ok(made) => made,
        Err(status) => return refuse(alloc, status, command.report, desk),
    };
    let texts = [
        Text {
            name: command.inferred,
            bytes: made.inferred.as_slice(),
        },
        Text {
            name: command.netlist,
            bytes: made.netlist.as_slice(),
        },
        Text {
            name: command.report,
            bytes: made.report.as_slice(),
        },
    ];
    match write_texts(alloc, desk, &texts) {
        Ok(()) => Status::Ok,
        Err(fault) => write_status(fault),
    }
}
