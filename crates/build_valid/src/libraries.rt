//! Libraries.
ghost use Rattle.build_valid.specs.ReadLibraries.{ReadLibraryFits};

/// A library that a text reads as, within the limits of a reader, is such as the laws of RAM cells take
/// it.
pub fn read_library_fits()
    ensures { ReadLibraryFits }
{}
