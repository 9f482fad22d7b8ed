//! The top call.
ghost use Rattle.std.specs.Prelude.{◌≡◌, ◌↔◌, map, string_bytes, None, MatchOption, IfSome};
ghost use Rattle.flow_io.specs.Causes.{Rose};
ghost use Rattle.flow_top.specs.Asked.{asked_of};
ghost use Rattle.flow_top.specs.Command.{asked_by};
ghost use Rattle.flow_top.specs.Outcome.{Outcome, look_of, HasLimitCause, HasRefusalCause, StopsAtLongFile, FilesAfter, IsComplete};

use crate::command::{Command, parse};
use crate::formatting::format_text;
use crate::mapping::map;
use crate::simulating::simulate;
use crate::status::Status;
use flow_io::Desk;
use std::alloc::Global;
use std::thread::Threads;

/// Does what the words of a command line ask, without the program's name:
///
/// `map DESIGN LIBRARY INFERRED NETLIST REPORT WORKERS` reads a design and a RAM library and writes
/// the inferred design, the netlist and the report. A refusal leaves its line in REPORT. WORKERS is
/// a number from 1 to 64.
///
/// `fmt DESIGN OUT` reads a design's text and writes the printed text of the same document.
///
/// `sim NETLIST LIBRARY STIMULUS TRACE SEEDS` reads a netlist, its RAM library and a stimulus, and
/// writes the traces of the netlist's top module for the seeds from 0 on. SEEDS is a number from 1 to 16.
///
/// Any other list of words is `Usage`.
pub fn run<D: Desk, R: Threads + Sync>(
    rt: &R,
    alloc: Global,
    words: &[String],
    desk: &mut D,
) -> Status
    ensures usage { (result ≡ Status.Usage) ↔ (asked_of (map string_bytes words.now) ≡ None) }
    ensures read_fault { result ≡ Status.ReadFault → Rose (D.read_faults desk.old) (D.read_faults desk.new) }
    ensures write_fault { result ≡ Status.WriteFault → Rose (D.write_faults desk.old) (D.write_faults desk.new) }
    ensures limit { IfSome (asked_of (map string_bytes words.now)) (λ asked. HasLimitCause asked (D.files desk.old) result) }

    // A file that is too long stops a command whose turn for it comes.
    ensures long_file { IfSome (asked_of (map string_bytes words.now)) (λ asked. StopsAtLongFile asked
        (look_of D.files D.read_faults D.write_faults desk.old) result) }
    ensures refusal { IfSome (asked_of (map string_bytes words.now)) (λ asked. HasRefusalCause asked (D.files desk.old) result) }

    // What the files hold, at each status.
    ensures files { MatchOption (asked_of (map string_bytes words.now)) (D.files desk.new ≡ D.files desk.old)
        (λ asked. FilesAfter asked (look_of D.files D.read_faults D.write_faults desk.old) (look_of D.files D.read_faults D.write_faults desk.new) result) }

    // Where nothing is in the way, the command does its work or wants memory.
    ensures complete { IfSome (asked_of (map string_bytes words.now)) (λ asked. IsComplete asked
        (look_of D.files D.read_faults D.write_faults desk.old) (look_of D.files D.read_faults D.write_faults desk.new) result) }
{
    match parse(words) {
        None => Status::Usage,
        Some(command) => perform(rt, alloc, command, desk),
    }
}

/// Does a command.
fn perform<D: Desk, R: Threads + Sync>(
    rt: &R,
    alloc: Global,
    command: Command<'_>,
    desk: &mut D,
) -> Status
    ensures { Outcome (asked_by command.entry) (look_of D.files D.read_faults D.write_faults desk.old) (look_of D.files D.read_faults D.write_faults desk.new) result }
{
    match command {
        Command::Map(command) => map(alloc, command, desk),
        Command::Fmt(command) => format_text(alloc, command, desk),
        Command::Sim(command) => simulate(rt, alloc, command, desk),
    }
}
