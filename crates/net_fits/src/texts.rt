//! Modules of a text.
ghost use Rattle.net_fits.specs.Texts.{ReadIsWritten};

/// The modules of a text within the limits of a reader are written.
pub fn read_is_written()
    ensures { ReadIsWritten }
{}
