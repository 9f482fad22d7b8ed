//! The command `sim`.
ghost use Rattle.std.specs.Prelude.{◌≡◌, ◌≤◌, ◌∷◌, [], IfOk, IfErr};
ghost use Rattle.flow_top.specs.Asked.{Sim as AskedSim};
ghost use Rattle.flow_top.specs.Command.{sim_files_of};
ghost use Rattle.flow_top.specs.Outcome.{Outcome, look_of};
ghost use Rattle.flow_top.specs.Simulating.{SimWrites};
ghost use Rattle.flow_top.specs.SimStopping.{SimFound, SimStopped};

use crate::command::SimCommand;
use crate::reading::{read, read_text, write_status};
use crate::refusing::read_ram_text;
use crate::status::Status;
use crate::subject::{find_events, find_subject, find_traces};
use crate::texts::{Text, write_texts};
use flow_io::Desk;
use lib_core::Library;
use net_core::Module;
use std::alloc::Global;
use std::thread::Threads;

/// A module that is simulated, and its library.
#[derive(Drop)]
pub struct Subject {
    pub library: Library,
    pub module: Module,
}

/// Reads the netlist and the library, and finds the module that is simulated. It writes no file.
fn read_subject<D: Desk>(
    alloc: Global,
    command: SimCommand<'_>,
    desk: &mut D,
) -> Result<Subject, Status>
    ensures found { IfOk result (SimFound (sim_files_of command.entry) (D.files desk.old)) }
    ensures stopped { IfErr result (SimStopped (sim_files_of command.entry) (D.files desk.old) (D.read_faults desk.old) (D.read_faults desk.new)) }
    ensures files_stay { D.files desk.new ≡ D.files desk.old }
    ensures reads_later { D.read_faults desk.old ≤ D.read_faults desk.new }
    ensures writes_later { D.write_faults desk.old ≤ D.write_faults desk.new }
{
    let netlist = read(alloc, command.netlist, desk)?;
    let doc = read_text(alloc, netlist.as_slice())?;
    let text = read(alloc, command.library, desk)?;
    let library = read_ram_text(alloc, text.as_slice())?;
    let module = find_subject(alloc, &doc, &library)?;
    Ok(Subject { library, module })
}

/// Reads the netlist, the library and the stimulus, and makes the text of the traces. It writes no file.
fn make_trace<D: Desk, R: Threads + Sync>(
    rt: &R,
    alloc: Global,
    command: SimCommand<'_>,
    desk: &mut D,
) -> Result<Vec<u8>, Status>
    ensures made { IfOk result (λ text. SimWrites (sim_files_of command.entry) (D.files desk.old) ((command.entry.trace.now, text.items) ∷ [])) }
    ensures stopped { IfErr result (SimStopped (sim_files_of command.entry) (D.files desk.old) (D.read_faults desk.old) (D.read_faults desk.new)) }
    ensures files_stay { D.files desk.new ≡ D.files desk.old }
    ensures reads_later { D.read_faults desk.old ≤ D.read_faults desk.new }
    ensures writes_later { D.write_faults desk.old ≤ D.write_faults desk.new }
{
    let subject = read_subject(alloc, command, desk)?;
    let stimulus = read(alloc, command.stimulus, desk)?;
    let events = find_events(alloc, stimulus.as_slice(), &subject.module)?;
    let text = find_traces(
        rt,
        alloc,
        &subject.module,
        &subject.library,
        &events,
        command.seeds,
    )?;
    Ok(text)
}

/// Simulates a netlist: reads the netlist, the library and the stimulus, and writes the traces.
pub fn simulate<D: Desk, R: Threads + Sync>(
    rt: &R,
    alloc: Global,
    command: SimCommand<'_>,
    desk: &mut D,
) -> Status
    ensures { Outcome (AskedSim (sim_files_of command.entry)) (look_of D.files D.read_faults D.write_faults desk.old) (look_of D.files D.read_faults D.write_faults desk.new) result }
{
    let text = match make_trace(rt, alloc, command, desk) {
        Ok(text) => text,
        Err(status) => return status,
    };
    let texts = [Text {
        name: command.trace,
        bytes: text.as_slice(),
    }];
    match write_texts(alloc, desk, &texts) {
        Ok(()) => Status::Ok,
        Err(fault) => write_status(fault),
    }
}
