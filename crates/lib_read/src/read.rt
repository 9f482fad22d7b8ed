//! From a text to the library that it reads as.
ghost use Rattle.std.specs.Prelude.{List as Seq, ℕ, ◌≡◌, ◌≤◌, [], length, IfErr, IfOk, Ok};
ghost use Rattle.lib_core.specs.declared.library.Library.{Library};
ghost use Rattle.lib_judge.specs.Raw.{rams_of};
ghost use Rattle.lib_tree.specs.Lexical.{AreTokens};
ghost use Rattle.lib_tree.specs.Reading.{GivesRead};
ghost use Rattle.lib_read.specs.Limits.{IsWithinLimits};
ghost use Rattle.lib_read.specs.Reading.{fault_at, read_kinds, read_rams};
ghost use Rattle.lib_read.specs.Reads.{IsFault, LibReads};

use crate::kinds::kind_of;
use lib_core::{Library, List, Name, RamKind};
use lib_judge::{RamFault, RawRam, ram_fault, rams_of};
use lib_tree::{LibFault, Statement, read_statements};
use std::alloc::Global;

fn fault_at(line: u32, fault: RamFault) -> LibFault
    ensures { result ≡ fault_at line fault }
{
    LibFault {
        line,
        code: fault.code,
        seen: fault.seen,
    }
}

/// The kinds that the RAMs are, as long as none of them has a fault.
#[tactic(auto, unfolding(crate::specs::Reading::read_kinds))]
fn read_kinds(alloc: Global, rams: &[RawRam]) -> Result<List<RamKind>, LibFault>
    ensures { GivesRead result (read_kinds [] rams.now) }
{
    let mut names: List<Name> = List::from_vec(Vec::new(alloc));
    let mut kinds: List<RamKind> = List::from_vec(Vec::new(alloc));
    let mut rest = rams;
    while let [ram, tail @ ..] = rest {
        if let Some(fault) = ram_fault(alloc, names.as_slice(), ram)? {
            return Err(fault_at(ram.line, fault));
        }
        kinds.push(kind_of(alloc, ram)?)?;
        names.push(ram.name.copy(alloc)?)?;
        rest = tail;
    }
    Ok(kinds)
}

/// The library of a text's statements.
#[tactic(auto, unfolding(crate::specs::Reading::read_rams))]
fn read_rams(alloc: Global, statements: &[Statement]) -> Result<Library, LibFault>
    ensures { GivesRead result (read_rams (rams_of statements.now)) }
{
    let rams = rams_of(alloc, statements)?;
    Ok(Library {
        rams: read_kinds(alloc, rams.as_slice())?,
        budget: None,
    })
}

/// The library that a text reads as. The line of a fault is counted from 1; the fault of a RAM stands
/// at the line of its word `ram`. Without memory the fault is `Memory`, in line 0.
pub fn read_library(alloc: Global, bytes: &[u8]) -> Result<Library, LibFault>
    requires { length bytes.now ≤ 16777216 }
    // What is read is what the text reads as, and this program takes it.
    ensures found { IfOk result (λ library. LibReads bytes.now library × IsWithinLimits library) }
    // What the text reads as is read where it is within the limits, unless memory runs out.
    ensures only { (library : Library) → LibReads bytes.now library → IsWithinLimits library → GivesRead result (Ok library) }
    // A fault is the first one of the text, or want of memory.
    ensures first { IfErr result (λ fault. IsFault bytes.now fault) }
    // The tokens of a line are those that the cases of the lexical grammar give.
    ensures lexical { (line : ℕ) (bs : Seq ℕ) → AreTokens line bs }
{
    match read_statements(alloc, bytes) {
        Ok(statements) => read_rams(alloc, statements.as_slice()),
        Err(fault) => Err(fault),
    }
}
