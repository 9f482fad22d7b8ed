//! The program: the files of the host, one command, and its exit status.
#![tactic(auto)]

use flow_io::HostDesk;
use flow_top::{Status, refusal_line, run};
use std::alloc::{AllocError, Global};
use std::env;
use std::env::Args;
use std::io::{ErrorKind, Write};
use std::process::ExitCode;

fn main(rt: HostRuntime) -> ExitCode {
    let alloc = rt.alloc();
    let status = match env::args(&rt) {
        Ok(args) => match words_of(alloc, args) {
            Ok(words) => run(&rt, alloc, words.as_slice(), &mut HostDesk::new(&rt)),
            Err(_) => Status::Memory,
        },
        Err(error) => {
            if error.kind() == ErrorKind::OutOfMemory {
                Status::Memory
            } else {
                Status::Usage
            }
        }
    };
    let exit = status.exit_status();
    if exit != 0 {
        let mut errors = rt.stderr();
        let _ = match refusal_line(alloc, &status) {
            Ok(line) => errors.write_all(line.as_slice()),
            Err(_) => errors.write_all(b"refused 9 0 0 -\n"),
        };
    }
    ExitCode::from(exit)
}

/// The words after the program's name.
fn words_of(alloc: Global, args: Args) -> Result<Vec<String>, AllocError> {
    let mut words = Vec::new(alloc);
    for word in args.skip(1) {
        words.push(word)?;
    }
    Ok(words)
}
