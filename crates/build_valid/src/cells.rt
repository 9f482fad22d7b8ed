//! RAM cells.
ghost use Rattle.build_valid.specs.Cells.{WiredRams};

use net_fits::rams::{ram_has_parts, ram_shows_once};
use net_gather::laws::tables_fit;

/// RAM cells of a module with nothing wrong are made of gathered cells, and their clocks come from
/// roots.
pub fn wired_rams()
    ensures { WiredRams }
{
    tables_fit();
    ram_shows_once();
    ram_has_parts();
}
