//! What is driven.
ghost use Rattle.net_fits.specs.Drivers.{SolvedCells, SolvedDrivers, SolvedInputs};

use net_gather::laws::{places_in_order, places_within, tables_fit};
use net_wires::laws::{resolved_in_order, resolved_solves, wires_are_there};

/// Each bit of an input wire is a net.
pub fn solved_inputs()
    ensures { SolvedInputs }
{
    places_within();
    places_in_order();
    wires_are_there();
    resolved_solves();
    resolved_in_order();
}

/// And so is each bit of a pin that a cell drives.
pub fn solved_cells()
    ensures { SolvedCells }
{
    places_within();
    places_in_order();
    wires_are_there();
    resolved_solves();
    resolved_in_order();
}

/// Each net has at most one driver.
pub fn solved_drivers()
    ensures { SolvedDrivers }
{
    tables_fit();
    places_within();
    places_in_order();
    wires_are_there();
    resolved_solves();
    resolved_in_order();
}
