//! The shape of RAM cells.
ghost use Rattle.std.specs.Prelude.{◌≡◌, ◌∷◌, [], IfOk, if◌then◌else◌};
ghost use Rattle.net_wires.specs.Finds.{Finds, breach};
ghost use Rattle.net_wires.specs.declared.breach.BuildCode.TheVariants.{BadRam};
ghost use Rattle.raw_cells.specs.Rows.{variant_of};
ghost use Rattle.raw_cells.specs.Shaped as spec;

use crate::ram::variant_of;
use crate::ram_cell::ram_of;
use crate::raw::{RamUse, RawPin};
use crate::tied::Tied;
use lib_core::{Library, Memory, Name};
use net_core::cell_fits;
use net_wires::{BuildCode, Stop, broken};
use std::alloc::Global;

/// Whether the cell has the shape of its variant, as far as connects alone tell which of its bits
/// are constant.
fn fits_tied(
    alloc: Global,
    library: &Library,
    tied: &Tied,
    name: &Name,
    cell: &RamUse,
    pins: &[RawPin],
) -> Result<bool, Memory>
    ensures { IfOk result (λ fits. fits ≡ spec.fits_tied library.now tied.now name.now cell.now (variant_of library.now cell.now) pins.now) }
{
    let Some(variant) = variant_of(library, cell) else {
        return Ok(false);
    };
    let places = tied.places.as_slice();
    let roots = tied.roots.as_slice();
    let ram = ram_of(alloc, places, roots, name, cell, variant, pins)?;
    Ok(cell_fits(&ram, library))
}

/// Stops where a RAM cell does not have the shape of its variant (`BadRam`), as far as connects
/// alone tell which of its bits are constant.
pub fn has_shape(
    alloc: Global,
    library: &Library,
    tied: &Tied,
    name: &Name,
    cell: &RamUse,
    pins: &[RawPin],
) -> Result<(), Stop>
    ensures { Finds result (if spec.fits_tied library.now tied.now name.now cell.now (variant_of library.now cell.now) pins.now then [] else breach BadRam ∷ []) (λ _. Unit {0}) }
{
    if !fits_tied(alloc, library, tied, name, cell, pins)? {
        return Err(broken(BuildCode::BadRam));
    }
    Ok(())
}
