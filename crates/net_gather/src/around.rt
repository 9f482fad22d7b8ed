//! What stands around the cells of a module.
use crate::faces::Faces;
use cell_rows::Places;
use lib_core::Library;
use net_wires::Names;
use raw_cells::Tied;

/// What stands around a cell.
#[derive(Drop)]
pub(crate) struct Around<'a> {
    pub library: &'a Library,
    /// The wires of its module.
    pub names: Names<'a>,
    /// The memories that its module declares.
    pub memories: Places,
    /// The RAMs of the library, by name.
    pub rams: &'a Places,
    /// The modules of the file.
    pub faces: &'a Faces,
    /// What connects alone tell of the places of wires.
    pub tied: &'a Tied,
}
