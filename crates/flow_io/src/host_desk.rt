//! The desk of the host's own files. It tells nothing of them.
ghost use Rattle.std.specs.Prelude.{◌≡◌, ◌≤◌, ◌<◌, None, IfOk, IfErr, OnOk, length};
ghost use Rattle.std.specs.Bool.{OnTrue, OnFalse};
ghost use Rattle.std.specs.Io.KnownBytes.{Consumes, IsAtEnd, Appends};
ghost use Rattle.flow_io.specs.Causes.{PassesLimit, ReadCause, WriteCause};
ghost use Rattle.flow_io.specs.Counts.{Counts, after_host_read, after_host_write};
ghost use Rattle.flow_io.specs.Files.{Tells, put, FilesAre};
ghost use Rattle.flow_io.specs.Known.{AppendsPart};

use crate::desk::{Desk, DeskFault};
use lib_core::Memory;
use std::alloc::Global;
use std::fs::File;
use std::io::{Read, Write};
use std::marker::Model;
use std::rt::Files;

/// Reads and writes files by a runtime, and counts what failed. Contracts see the two counts.
#[derive(Drop)]
pub struct HostDesk<'a, R> {
    rt: &'a R,
    read_faults: u64,
    write_faults: u64,
}

impl<'a, R> Model for HostDesk<'a, R> {
    ghost use Rattle.flow_io.specs.Counts.{Counts};

    ghost Value = { Counts };

    ghost view = { λ a. record { read_faults = a.read_faults; write_faults = a.write_faults } };
}

impl<'a, R: Files> HostDesk<'a, R> {
    /// A desk over a runtime, at which nothing failed yet. It takes no memory.
    pub fn new(rt: &'a R) -> HostDesk<'a, R>
        ensures { result ≡ record { read_faults = 0; write_faults = 0 } }
    {
        HostDesk {
            rt,
            read_faults: 0,
            write_faults: 0,
        }
    }
}

impl<'a, R: Files> Desk for HostDesk<'a, R> {
    ghost files = { λ _. None };

    ghost read_faults = { λ desk. desk.read_faults };

    ghost write_faults = { λ desk. desk.write_faults };

    /// Reads a file to its end or past the limit. A name that can't be opened and a read that
    /// fails are `Failed`.
    fn read_file(&mut self, alloc: Global, name: &str, limit: u64) -> Result<Vec<u8>, DeskFault>
        ensures within { IfOk result (λ bytes. length bytes.items ≤ limit) }
        ensures told { IfOk result (λ bytes. Tells None name.now bytes.items) }
        ensures cause { IfErr result (ReadCause None name.now limit self.old.read_faults self.new.read_faults) }
        ensures files_stay { FilesAre None None }
        ensures counts { self.new ≡ after_host_read self.old result }
        ensures reads_later { self.old.read_faults ≤ self.new.read_faults }
        ensures writes_later { self.old.write_faults ≤ self.new.write_faults }
    {
        let mut piece = zeros(alloc, PIECE)?;
        let answer = match File::open(self.rt, name) {
            Ok(mut file) => read_all(alloc, &mut file, piece.as_mut_slice(), limit),
            Err(_) => Err(DeskFault::Failed),
        };
        if matches!(&answer, Err(DeskFault::Failed)) {
            self.read_faults = self.read_faults.saturating_add(1);
        }
        answer
    }

    /// Makes the file, or empties it, and writes all bytes. It takes no memory.
    fn write_file(&mut self, _alloc: Global, name: &str, bytes: &[u8]) -> Result<(), DeskFault>
        ensures written { OnOk result (FilesAre None (put None name.now bytes.now)) }
        ensures cause { IfErr result (WriteCause None None name.now bytes.now self.old.write_faults self.new.write_faults) }
        ensures counts { self.new ≡ after_host_write self.old result }
        ensures reads_later { self.old.read_faults ≤ self.new.read_faults }
        ensures writes_later { self.old.write_faults ≤ self.new.write_faults }
    {
        let done = match File::create(self.rt, name) {
            Ok(mut file) => write_whole(&mut file, bytes),
            Err(_) => false,
        };
        if done {
            return Ok(());
        }
        self.write_faults = self.write_faults.saturating_add(1);
        Err(DeskFault::Failed)
    }
}

/// How many bytes are asked for at a time.
const PIECE: usize = 65_536;

/// Bytes of 0.
fn zeros(alloc: Global, count: usize) -> Result<Vec<u8>, Memory>
    ensures { IfOk result (λ zeros. length zeros.items ≡ count) }
{
    Ok(vec![in alloc; 0u8; count]?)
}

/// Reads to the end, or past the limit, a piece at a time.
#[tactic(auto, using(crate::proofs::KnownLemmas::known))]
fn read_all<F: Read>(
    alloc: Global,
    file: &mut F,
    piece: &mut [u8],
    limit: u64,
) -> Result<Vec<u8>, DeskFault>
    requires { 0 < length piece.old }
    ensures within { IfOk result (λ bytes. length bytes.items ≤ limit) }
    ensures too_long { IfErr result (PassesLimit limit) }
    ensures bytes { IfOk result (λ bytes. Consumes (F.remaining file.old) (F.remaining file.new) bytes.items) }
    ensures end { OnOk result (IsAtEnd (F.remaining file.new)) }
{
    let mut bytes = Vec::new(alloc);
    loop {
        let Ok(count) = file.read(piece) else {
            return Err(DeskFault::Failed);
        };
        if count == 0 {
            return Ok(bytes);
        }
        let seen = (bytes.len() + count) as u64;
        if seen > limit {
            return Err(DeskFault::TooLong { seen });
        }
        bytes
            .extend_from_slice(&piece[..count])
            .map_err(|_| DeskFault::Memory)?;
    }
}

/// Whether all the bytes were taken.
#[tactic(auto, using(crate::proofs::KnownLemmas::known))]
fn write_whole<F: Write>(file: &mut F, bytes: &[u8]) -> bool
    ensures whole { OnTrue result (Appends (F.contents file.old) (F.contents file.new) bytes.now) }
    ensures part { OnFalse result (AppendsPart (F.contents file.old) (F.contents file.new) bytes.now) }
{
    let mut rest = bytes;
    while !rest.is_empty() {
        match file.write(rest) {
            Ok(0) => return false,
            Ok(count) => rest = &rest[count..],
            Err(_) => return false,
        }
    }
    file.flush().is_ok()
}
