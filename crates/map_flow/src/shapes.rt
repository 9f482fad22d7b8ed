//! Whether RAM cells have the shapes of their variants.
ghost use Rattle.std.specs.Prelude.{◌≡◌};
ghost use Rattle.std.specs.List.{list_all};
ghost use Rattle.net_core.specs.Shape.{fits_library};
ghost use Rattle.map_flow.specs.Maps as spec;

use lib_core::Library;
use net_core::{Design, Module, RamCell, cell_fits};

fn cells_fit(library: &Library, cells: &[RamCell]) -> bool
    ensures { result ≡ list_all (fits_library library.now) cells.now }
{
    cells.iter().all(|cell| cell_fits(cell, library))
}

fn has_shapes(library: &Library, module: &Module) -> bool
    ensures { result ≡ spec.has_shapes library.now «module».now }
{
    cells_fit(library, module.rams.as_slice())
}

/// Whether each RAM cell of a design has the shape that its variant in the library gives. It takes no
/// memory.
pub(crate) fn have_shapes(library: &Library, design: &Design) -> bool
    ensures { result ≡ spec.have_shapes library.now design.now }
{
    let modules = design.modules.as_slice();
    modules.iter().all(|module| has_shapes(library, module))
}
