//! Where in a library a candidate of RAM cells is.

/// A RAM of a library, one of its variants, a fold and a level. A row of cells has 2 to the power of
/// the fold words of the memory at each of its words; a cell's words have the width of the level.
#[derive(Clone, Copy, Debug, PartialEq, Eq)]
pub struct Spot {
    pub ram: u32,
    pub variant: u32,
    pub fold: u32,
    pub level: u32,
}
