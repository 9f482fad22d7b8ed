//! Running rows, and counting those that hold.
use crate::comparing::holds;
use crate::row::Row;
use crate::running::run_all;
use crate::telling::append_row;
use flow_io::MemDesk;
use std::alloc::{AllocError, Global};
use std::thread::Threads;

/// How many rows held, and how many did not.
#[derive(Clone, Copy)]
pub struct Tally {
    pub held: u64,
    pub failed: u64,
}

impl Tally {
    /// One more that held.
    pub fn with_held(self) -> Tally {
        Tally {
            held: self.held.saturating_add(1),
            failed: self.failed,
        }
    }

    /// One more that did not hold.
    pub fn with_failed(self) -> Tally {
        Tally {
            held: self.held,
            failed: self.failed.saturating_add(1),
        }
    }
}

/// Runs a row. Where it does not hold, appends what differs first.
fn run_row<R: Threads + Sync>(
    rt: &R,
    alloc: Global,
    row: Row,
    tally: Tally,
    report: &mut Vec<u8>,
) -> Result<Tally, AllocError> {
    let Row {
        name,
        commands,
        before,
        fails,
        told,
    } = row;
    let mut desk = MemDesk::new(before, fails);
    let Ok(seen) = run_all(rt, alloc, commands.as_slice(), &mut desk) else {
        return Err(AllocError);
    };
    if holds(&told, &seen, &desk) {
        return Ok(tally.with_held());
    }
    append_row(alloc, report, &name, &told, &seen, &desk)?;
    Ok(tally.with_failed())
}

/// Runs rows in their order.
pub fn run_rows<R: Threads + Sync>(
    rt: &R,
    alloc: Global,
    rows: Vec<Row>,
    report: &mut Vec<u8>,
) -> Result<Tally, AllocError> {
    let mut tally = Tally { held: 0, failed: 0 };
    for row in rows {
        tally = run_row(rt, alloc, row, tally, report)?;
    }
    Ok(tally)
}

/// Appends what is wrong with a file of rows.
pub fn append_fault(
    alloc: Global,
    report: &mut Vec<u8>,
    file: &str,
    line: u64,
    words: &str,
) -> Result<(), AllocError> {
    let text = format!(in alloc; "{file}, line {line}: {words}\n")?;
    report.extend_from_slice(text.as_bytes())
}

/// Appends the last line.
pub fn append_last(alloc: Global, report: &mut Vec<u8>, tally: Tally) -> Result<(), AllocError> {
    let Tally { held, failed } = tally;
    let text = if failed == 0 {
        format!(in alloc; "{held} rows held\n")?
    } else {
        format!(in alloc; "{held} rows held, {failed} did not\n")?
    };
    report.extend_from_slice(text.as_bytes())
}
