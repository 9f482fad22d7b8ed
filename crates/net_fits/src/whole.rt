//! The whole module.
ghost use Rattle.net_fits.specs.Whole.{BuiltHasPorts, BuiltIsValid};

use crate::cells::{carried_fit, combs_fit, parts_fit, regs_fit};
use crate::clocks::clocks_are_inputs;
use crate::drivers::{solved_cells, solved_drivers, solved_inputs};
use crate::modules::{cell_names_apart, driven_nets_below, nets_below};
use crate::names::head_fits;
use crate::wires::{declared_fit, wire_names_apart, wires_fit};
use net_gather::laws::{places_few, places_in_order};
use net_wires::laws::{resolved_in_order, wires_are_there};

/// The module that is made of gathered cells is valid, where its RAM cells and its inouts are.
pub fn built_is_valid()
    ensures { BuiltIsValid }
{
    head_fits();
    wires_fit();
    declared_fit();
    parts_fit();
    combs_fit();
    regs_fit();
    carried_fit();
    wire_names_apart();
    cell_names_apart();
    nets_below();
    solved_inputs();
    solved_cells();
    solved_drivers();
    driven_nets_below();
    clocks_are_inputs();
    places_few();
    resolved_in_order();
}

/// It has the ports that the document says.
pub fn built_has_ports()
    ensures { BuiltHasPorts }
{
    places_in_order();
    wires_are_there();
}
