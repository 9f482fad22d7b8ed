//! A row: commands, the files before them, and what is told of their end.
use flow_io::DeskFile;
use lib_core::{List, Name};

/// A file and what it is to hold.
#[derive(Drop)]
pub struct ToldFile {
    pub name: String,
    pub bytes: List<u8>,
}

/// What is told of the end of a row: the exit status, the line on standard error, the files that are
/// there, and names of files that are not.
#[derive(Drop)]
pub struct Told {
    pub status: u8,
    pub line: List<u8>,
    pub files: List<ToldFile>,
    pub absent: List<String>,
}

/// What is seen of the last command that ran.
#[derive(Drop)]
pub struct Seen {
    /// How many commands stood behind it and did not run.
    pub left: u64,
    pub status: u8,
    /// The line on standard error.
    pub line: List<u8>,
}

/// A row.
#[derive(Drop)]
pub struct Row {
    pub name: Name,
    pub commands: Vec<Vec<String>>,
    pub before: List<DeskFile>,
    pub fails: List<u64>,
    pub told: Told,
}
