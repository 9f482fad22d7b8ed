//! The first difference of a row, in words.
use crate::comparing::{is_absent, stands};
use crate::row::{Seen, Told, ToldFile};
use flow_io::MemDesk;
use lib_core::Name;
use std::alloc::{AllocError, Global};

/// Appends the name of a file.
fn append_name(text: &mut Vec<u8>, name: &[u8]) -> Result<(), AllocError> {
    text.extend_from_slice(b"file ")?;
    text.extend_from_slice(name)
}

/// Appends a line that was wanted and one that was seen.
fn append_pair(text: &mut Vec<u8>, wanted: &[u8], seen: &[u8]) -> Result<(), AllocError> {
    text.extend_from_slice(b"\n  wanted: ")?;
    text.extend_from_slice(wanted)?;
    text.extend_from_slice(b"\n  seen: ")?;
    text.extend_from_slice(seen)?;
    text.extend_from_slice(b"\n")
}

/// Appends the number of the first line that differs, and the line of both.
fn append_difference(
    alloc: Global,
    text: &mut Vec<u8>,
    told: &[u8],
    seen: &[u8],
) -> Result<(), AllocError> {
    let mut number = 1u64;
    let mut found = seen.split(|byte| *byte == b'\n');
    for want in told.split(|byte| *byte == b'\n') {
        let find = found.next().unwrap_or(b"(no line)");
        if want != find {
            let place = format!(in alloc; " line {number}")?;
            text.extend_from_slice(place.as_bytes())?;
            return append_pair(text, want, find);
        }
        number = number.saturating_add(1);
    }
    text.extend_from_slice(b" is longer than wanted\n")
}

/// What differs in a file that is told of.
fn append_file(
    alloc: Global,
    text: &mut Vec<u8>,
    file: &ToldFile,
    seen: Option<&[u8]>,
) -> Result<(), AllocError> {
    append_name(text, file.name.as_bytes())?;
    match seen {
        Some(seen) => append_difference(alloc, text, file.bytes.as_slice(), seen),
        None => text.extend_from_slice(b" is missing\n"),
    }
}

/// A line on standard error without its line feed; `(none)` for none.
fn shown_line(line: &[u8]) -> &[u8] {
    if line.is_empty() {
        return b"(none)";
    }
    line.strip_suffix(b"\n".as_slice()).unwrap_or(line)
}

/// What differs in the status.
fn append_status(
    alloc: Global,
    text: &mut Vec<u8>,
    told: &Told,
    seen: &Seen,
) -> Result<(), AllocError> {
    let Seen { left, status, .. } = seen;
    let wanted = told.status;
    let statuses = format!(in alloc;
        "status wanted {wanted} seen {status}, {left} commands did not run, standard error "
    )?;
    text.extend_from_slice(statuses.as_bytes())?;
    text.extend_from_slice(shown_line(seen.line.as_slice()))?;
    text.extend_from_slice(b"\n")
}

/// What differs in the files.
fn append_files(
    alloc: Global,
    text: &mut Vec<u8>,
    told: &Told,
    desk: &MemDesk,
) -> Result<(), AllocError> {
    for file in told.files.as_slice() {
        if !stands(desk, file) {
            return append_file(alloc, text, file, desk.file(file.name.as_str()));
        }
    }
    for name in told.absent.as_slice() {
        if !is_absent(desk, name.as_str()) {
            append_name(text, name.as_bytes())?;
            return text.extend_from_slice(b" must not be there\n");
        }
    }
    Ok(())
}

/// Appends what a row that does not hold prints: its name and the first difference.
pub fn append_row(
    alloc: Global,
    text: &mut Vec<u8>,
    name: &Name,
    told: &Told,
    seen: &Seen,
    desk: &MemDesk,
) -> Result<(), AllocError> {
    text.extend_from_slice(name.as_slice())?;
    text.extend_from_slice(b": ")?;
    if seen.left != 0 || seen.status != told.status {
        return append_status(alloc, text, told, seen);
    }
    if seen.line != told.line {
        text.extend_from_slice(b"standard error")?;
        let wanted = shown_line(told.line.as_slice());
        return append_pair(text, wanted, shown_line(seen.line.as_slice()));
    }
    append_files(alloc, text, told, desk)
}
