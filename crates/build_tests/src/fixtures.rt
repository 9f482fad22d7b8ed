//! Names and documents.
ghost use Rattle.std.specs.Prelude.{IfOk};
ghost use Rattle.rtlil_text.specs.Reads.{Writable};

use lib_core::{Memory, Name};
use rtlil_text::{Doc, read_doc};
use std::alloc::Global;
use std::test::Fail;

pub fn name(alloc: Global, bytes: &[u8]) -> Result<Name, Memory> {
    Ok(Name::from_vec(Vec::from_slice(alloc, bytes)?))
}

/// The document that a text reads as.
pub fn read(alloc: Global, text: &[u8]) -> Result<Doc, Fail>
    ensures { IfOk result Writable }
{
    let doc = read_doc(alloc, &text[..text.len().min(16_777_216)])?;
    Ok(doc)
}
