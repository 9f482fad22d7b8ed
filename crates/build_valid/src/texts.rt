//! Texts.
ghost use Rattle.build_valid.specs.Texts.{ReadBuildsValid};

use crate::documents::read_doc_is_written;
use crate::libraries::read_library_fits;
use crate::whole::built_is_valid_design;

/// A design that is built of a document and a library, each read of a text within the limits of its
/// reader, is valid, and each of its modules has a combinational order.
pub fn read_builds_valid()
    ensures { ReadBuildsValid }
{
    read_doc_is_written();
    read_library_fits();
    built_is_valid_design();
}
