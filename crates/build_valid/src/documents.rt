//! Documents.
ghost use Rattle.build_valid.specs.Documents.{ReadDocIsWritten};

use net_fits::texts::read_is_written;

/// A document that a text within the limits of a reader reads as is written.
pub fn read_doc_is_written()
    ensures { ReadDocIsWritten }
{
    read_is_written();
}
