//! Running the commands of a row.
use crate::plans::plan;
use crate::row::Seen;
use flow_io::MemDesk;
use flow_top::{Status, refusal_line, run};
use lib_core::{List, Memory};
use std::alloc::Global;
use std::thread::Threads;

/// The line that a command's status leaves on standard error.
fn error_line(alloc: Global, status: &Status) -> Result<List<u8>, Memory> {
    if status.exit_status() == 0 {
        return Ok(List::from_vec(Vec::new(alloc)));
    }
    Ok(List::from_vec(refusal_line(alloc, status)?))
}

/// What a command ends as: `plan` is one of this program, all others are those of ramflow.
fn end_of<R: Threads + Sync>(
    rt: &R,
    alloc: Global,
    words: &[String],
    desk: &mut MemDesk,
) -> Status {
    match words {
        [first, design, library, plans] if first.as_str() == "plan" => {
            match plan(
                alloc,
                design.as_str(),
                library.as_str(),
                plans.as_str(),
                desk,
            ) {
                Ok(()) => Status::Ok,
                Err(status) => status,
            }
        }
        _ => run(rt, alloc, words, desk),
    }
}

/// Runs commands one after the other, up to the first that is refused or fails.
pub fn run_all<R: Threads + Sync>(
    rt: &R,
    alloc: Global,
    commands: &[Vec<String>],
    desk: &mut MemDesk,
) -> Result<Seen, Memory> {
    let mut left = commands.len() as u64;
    let mut status = Status::Ok;
    for command in commands {
        left = left.saturating_sub(1);
        status = end_of(rt, alloc, command.as_slice(), desk);
        if status.exit_status() != 0 {
            break;
        }
    }
    Ok(Seen {
        left,
        status: status.exit_status(),
        line: error_line(alloc, &status)?,
    })
}
