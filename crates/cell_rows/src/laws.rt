//! Laws of the rows, each the contract of a function that does nothing.
ghost use Rattle.cell_rows.specs.Laws.{KeptForSigns, CombReadsBack, RegReadsBack};

/// A cell is kept for its signs exactly where a valid design keeps it for them.
pub fn kept_for_signs()
    ensures { KeptForSigns }
{}

/// The parameters by which the row of a logic cell is written say this row.
pub fn comb_reads_back()
    ensures { CombReadsBack }
{}

/// The parameters by which the row of a register is written say this row.
pub fn reg_reads_back()
    ensures { RegReadsBack }
{}
