//! Runs the rows of its files: commands over a desk in memory, and what they leave.
#![tactic(auto)]

mod comparing;
mod draft;
mod fault;
mod line;
mod planning;
mod plans;
mod reading;
mod row;
mod running;
mod tally;
mod telling;

use crate::fault::Halt;
use crate::reading::read_rows;
use crate::row::Row;
use crate::tally::{append_fault, append_last, run_rows};
use flow_io::{Desk, HostDesk};
use std::alloc::{AllocError, Global};
use std::env::Args;
use std::io::Write;
use std::process::ExitCode;
use std::rt::Files;
use std::{env, io};

/// The greatest number of bytes of a file of rows.
const FILE_BYTES: u64 = 16_777_216;

/// The words after the program's name.
fn words_of(alloc: Global, args: Args) -> Result<Vec<String>, AllocError> {
    let mut words = Vec::new(alloc);
    for word in args.skip(1) {
        words.push(word)?;
    }
    Ok(words)
}

/// Reads the rows of all files. The answer is false, and what is wrong is told, where one can't be taken.
fn read_files<R: Files>(
    rt: &R,
    alloc: Global,
    files: &[String],
    rows: &mut Vec<Row>,
    report: &mut Vec<u8>,
) -> Result<bool, AllocError> {
    let mut desk = HostDesk::new(rt);
    let mut texts = Vec::new(alloc);
    for file in files {
        let Ok(bytes) = desk.read_file(alloc, file.as_str(), FILE_BYTES) else {
            append_fault(alloc, report, file.as_str(), 0, "it can't be read")?;
            return Ok(false);
        };
        match read_rows(alloc, bytes.as_slice(), &mut texts, rows) {
            Ok(()) => {}
            Err(Halt::Memory) => return Err(AllocError),
            Err(Halt::Wrong { line, wrong }) => {
                append_fault(alloc, report, file.as_str(), line, wrong.words())?;
                return Ok(false);
            }
        }
    }
    Ok(true)
}

fn main(rt: HostRuntime) -> io::Result<ExitCode> {
    let alloc = rt.alloc();
    let files = words_of(alloc, env::args(&rt)?)?;
    let mut report = Vec::new(alloc);
    let mut rows = Vec::new(alloc);
    let taken = read_files(&rt, alloc, files.as_slice(), &mut rows, &mut report)?;
    let tally = run_rows(&rt, alloc, rows, &mut report)?;
    append_last(alloc, &mut report, tally)?;
    rt.stdout().write_all(report.as_slice())?;
    let held = taken && tally.failed == 0;
    Ok(ExitCode::from(if held { 0 } else { 1 }))
}
