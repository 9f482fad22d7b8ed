//! Laws of what is written, each the contract of a function that does nothing.
ghost use Rattle.ram_written.specs.Laws.{KnowsWritten, NoStrangeLevel, RowReadsBack};

/// The parameters of a cell say its levels, the ports that are used, their edges, values and contents.
pub fn row_reads_back()
    ensures { RowReadsBack }
{}

/// The levels of a cell are levels of its variant.
pub fn no_strange_level()
    ensures { NoStrangeLevel }
{}

/// The variant knows each parameter that is written.
pub fn knows_written()
    ensures { KnowsWritten }
{}
