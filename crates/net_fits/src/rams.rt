//! RAM cells.
ghost use Rattle.net_fits.specs.RamParts.{NamedDrivenOnce, RamHasParts, RamShowsOnce};

/// A RAM cell that is made of a gathered cell has nets of the module alone, and its clocks come from
/// roots.
pub fn ram_has_parts()
    ensures { RamHasParts }
{}

/// At driven pins of names that are apart no net stands more often than the cell drives it.
pub fn named_driven_once()
    ensures { NamedDrivenOnce }
{}

/// The slots of a RAM cell show no net more often than the cell drives it, where the names of the pins
/// at which they show what they read are apart.
pub fn ram_shows_once()
    ensures { RamShowsOnce }
{}
