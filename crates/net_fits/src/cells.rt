//! Cells of all kinds.
ghost use Rattle.net_fits.specs.Cells.{CarriedCellsFit, CombsFit, PartsFit, PinsHaveWidths, RegsFit};

use net_gather::laws::{pins_short, tables_fit};

/// The pin of a name has the width that the table of its cell gives it.
pub fn pins_have_widths()
    ensures { PinsHaveWidths }
{}

/// Logic cells fit.
pub fn combs_fit()
    ensures { CombsFit }
{
    tables_fit();
    pins_short();
}

/// Registers fit.
pub fn regs_fit()
    ensures { RegsFit }
{
    tables_fit();
    pins_short();
}

/// Cells that are kept as they are fit.
pub fn carried_fit()
    ensures { CarriedCellsFit }
{
    tables_fit();
    pins_short();
}

/// Cells that make up memories fit.
pub fn parts_fit()
    ensures { PartsFit }
{
    tables_fit();
    pins_short();
}
