//! From a design back to a document that means it.
ghost use Rattle.std.specs.Prelude.{◌≡◌, IfOk, true, Bool};
ghost use Rattle.rtlil_text.specs.Reads.{Writable};
ghost use Rattle.net_unbuild.specs.Unbuilds as spec;

use doc_fits::is_writable;
use lib_core::{Library, Memory};
use net_core::Design;
use net_draft::draft;
use net_same::are_same;
use net_whole::whole_design;
use rtlil_text::Doc;
use std::alloc::Global;

/// Whether a document means a design that is the same as this one. Where memory is wanting it is not
/// known.
fn means_same(alloc: Global, design: &Design, library: &Library, doc: &Doc) -> Result<bool, Memory>
    requires { Writable doc.now }
    ensures { IfOk result (λ same. same ≡ true → spec.MeansSame library.now design.now doc.now) }
{
    match whole_design(alloc, doc, library) {
        Ok(whole) => are_same(alloc, design, &whole),
        Err(_) => Err(Memory),
    }
}

/// A document that means the design, with its memories whole, but for the numbers of nets, added wires
/// that are no ports, and the values at the start that wires show. What is written is read again and
/// compared; where it were not the same, the answer would be want of memory.
pub fn unbuild(alloc: Global, design: &Design, library: &Library) -> Result<Doc, Memory>
    ensures { IfOk result (spec.Unbuilds library.now design.now) }
{
    let doc = draft(alloc, design, library)?;
    if !is_writable(alloc, &doc)? || !means_same(alloc, design, library, &doc)? {
        return Err(Memory);
    }
    Ok(doc)
}
