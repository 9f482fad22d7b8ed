//! Whole modules.
ghost use Rattle.net_fits.specs.Modules.{CellNamesApart, ContextKnows, DrivenNetsAreBelow, NetsAreBelow};

use net_gather::laws::shown_drive;
use net_wires::laws::resolved_in_order;

/// What stands around the cells of a module tells what the interfaces of the file's modules tell.
pub fn context_knows()
    ensures { ContextKnows }
{
    shown_drive();
}

/// No two cells of the module have one name.
pub fn cell_names_apart()
    ensures { CellNamesApart }
{}

/// Each net of the module has a number of the module.
pub fn nets_below()
    ensures { NetsAreBelow }
{
    resolved_in_order();
}

/// And so does each net that a node drives.
pub fn driven_nets_below()
    ensures { DrivenNetsAreBelow }
{
    resolved_in_order();
}
