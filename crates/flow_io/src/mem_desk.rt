//! A desk in memory, which fails at the calls that it is told.
ghost use Rattle.std.specs.Prelude.{◌≡◌, ◌≤◌, ◌<◌, ◌⊎◌, false, length, IfOk, OnOk, OnErr, IfErr, IsErrOf, IsTrue, Some, ◌↔◌};
ghost use Rattle.std.specs.Option.{option_copied};
ghost use Rattle.flow_io.specs.Files.{put, Tells};
ghost use Rattle.flow_io.specs.Answers.{AnswersAs};
ghost use Rattle.flow_io.specs.Causes.{ReadCause, WriteCause, raised};
ghost use Rattle.flow_io.specs.MemState.{MemState, content, files_of, fails_next, read_fails, read_answer, after_read, after_write};

use crate::desk::{Desk, DeskFault};
use crate::mem_files::{content_of, put_file};
use lib_core::{List, Name};
use std::alloc::Global;
use std::marker::Model;

/// A file by its name.
#[derive(Debug, Drop)]
pub struct DeskFile {
    pub name: Name,
    pub bytes: List<u8>,
}

/// Files in a list, and the numbers of the calls that fail.
#[derive(Drop)]
pub struct MemDesk {
    files: Vec<DeskFile>,
    fails: List<u64>,
    calls: u64,
    read_faults: u64,
    write_faults: u64,
}

impl Model for MemDesk {
    ghost use Rattle.flow_io.specs.MemState.{MemState};

    ghost Value = { MemState };

    ghost view = { λ a. record { files = a.files.items; fails = a.fails; calls = a.calls; read_faults = a.read_faults; write_faults = a.write_faults } };
}

impl MemDesk {
    /// A desk of these files whose calls of these numbers fail.
    pub fn new(files: List<DeskFile>, fails: List<u64>) -> MemDesk
        ensures { result ≡ record { files = files; fails = fails; calls = 0; read_faults = 0; write_faults = 0 } }
    {
        MemDesk {
            files: files.into_vec(),
            fails,
            calls: 0,
            read_faults: 0,
            write_faults: 0,
        }
    }

    /// What a name holds.
    pub fn file(&self, name: &str) -> Option<&[u8]>
        ensures { option_copied result ≡ content self.now.files name.now }
    {
        content_of(self.files.as_slice(), name.as_bytes())
    }

    fn fails_next(&self) -> bool
        ensures { result ≡ fails_next self.now }
    {
        let calls = self.calls;
        self.fails.as_slice().iter().any(|call| *call == calls)
    }
}

impl Desk for MemDesk {
    ghost files = { λ desk. Some (files_of desk.files) };

    ghost read_faults = { λ desk. desk.read_faults };

    ghost write_faults = { λ desk. desk.write_faults };

    #[tactic(auto, using(crate::proofs::MemLemmas::entries))]
    fn read_file(&mut self, alloc: Global, name: &str, limit: u64) -> Result<Vec<u8>, DeskFault>
        ensures within { IfOk result (λ bytes. length bytes.items ≤ limit) }
        ensures told { IfOk result (λ bytes. Tells (Some (files_of self.old.files)) name.now bytes.items) }
        ensures cause { IfErr result (ReadCause (Some (files_of self.old.files)) name.now limit self.old.read_faults self.new.read_faults) }
        ensures files_stay { files_of self.new.files ≡ files_of self.old.files }
        ensures reads_later { self.old.read_faults ≤ self.new.read_faults }
        ensures writes_later { self.old.write_faults ≤ self.new.write_faults }

        // The exact answer and the exact desk after it.
        ensures desk { self.new ≡ after_read self.old name.now }
        ensures failed { IsErrOf result DeskFault.Failed ↔ IsTrue (read_fails self.old name.now) }
        ensures answer { AnswersAs (read_answer self.old name.now limit) result }
    {
        let fails = self.fails_next();
        self.calls = self.calls.saturating_add(1);
        if !fails {
            if let Some(bytes) = content_of(self.files.as_slice(), name.as_bytes()) {
                return bounded(alloc, bytes, limit);
            }
        }
        self.read_faults = self.read_faults.saturating_add(1);
        Err(DeskFault::Failed)
    }

    #[tactic(auto, using(crate::proofs::MemLemmas::entries))]
    fn write_file(&mut self, alloc: Global, name: &str, bytes: &[u8]) -> Result<(), DeskFault>
        ensures written { OnOk result (Some (files_of self.new.files) ≡ put (Some (files_of self.old.files)) name.now bytes.now) }
        ensures cause { IfErr result (WriteCause (Some (files_of self.old.files)) (Some (files_of self.new.files)) name.now bytes.now self.old.write_faults self.new.write_faults) }
        ensures reads_later { self.old.read_faults ≤ self.new.read_faults }
        ensures writes_later { self.old.write_faults ≤ self.new.write_faults }

        // The exact answer and the exact desk after it.
        ensures failed { IsErrOf result DeskFault.Failed → IsTrue (fails_next self.old) }
        ensures ok { OnOk result (fails_next self.old ≡ false) }
        ensures desk { IsErrOf result DeskFault.Memory ⊎ (self.new ≡ after_write self.old name.now bytes.now) }
        ensures memory { IsErrOf result DeskFault.Memory → self.new ≡ record self.old { calls = raised self.old.calls } }
    {
        let fails = self.fails_next();
        self.calls = self.calls.saturating_add(1);
        let kept = if fails {
            &bytes[..bytes.len() / 2]
        } else {
            bytes
        };
        put_file(alloc, &mut self.files, name.as_bytes(), kept)?;
        if fails {
            self.write_faults = self.write_faults.saturating_add(1);
            return Err(DeskFault::Failed);
        }
        Ok(())
    }
}

fn bounded(alloc: Global, bytes: &[u8], limit: u64) -> Result<Vec<u8>, DeskFault>
    ensures ok { IfOk result (λ copy. (copy.items ≡ bytes.now) × (length bytes.now ≤ limit)) }
    ensures cause { IfErr result (λ fault. (fault ≡ DeskFault.Memory) ⊎ ((limit < length bytes.now) × (fault ≡ DeskFault.TooLong (length bytes.now)))) }
{
    let seen = bytes.len() as u64;
    if seen > limit {
        return Err(DeskFault::TooLong { seen });
    }
    Ok(Vec::from_slice(alloc, bytes).map_err(|_| DeskFault::Memory)?)
}
