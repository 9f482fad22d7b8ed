//! Laws of the definitions. These calls do nothing: each contract is a law.
ghost use Rattle.rtlil_text.specs.Reads.{Reads, Writable};
ghost use Rattle.rtlil_print.specs.WellFormed.{IsWellFormed};

use rtlil_text::Doc;

/// What a text reads as can be printed.
pub fn what_reads_is_writable(text: &[u8], doc: &Doc)
    requires { Reads text.now doc.now }
    ensures { Writable doc.now }
{}

/// A document that some text reads as is well formed.
pub fn writable_is_well_formed(doc: &Doc)
    requires { Writable doc.now }
    ensures { IsWellFormed doc.now }
{}

/// Some text reads as a well-formed document.
pub fn well_formed_is_writable(doc: &Doc)
    requires { IsWellFormed doc.now }
    ensures { Writable doc.now }
{}
