//! The whole design.
ghost use Rattle.build_valid.specs.Whole.{BuiltIsValidDesign, BuiltModuleIsValid};

use net_checks::laws::{gathered_is_sound, shown_inouts};
use net_fits::clocks::clocks_lead_to_roots;
use net_fits::drivers::solved_cells;
use net_fits::rams::{ram_has_parts, ram_shows_once};
use net_fits::whole::{built_has_ports, built_is_valid};
use net_gather::laws::{pairs_within, rams_fit, tables_fit};
use net_loops::laws::ranks_agree;

/// A module that is built is valid under the ports that the document says.
pub fn built_module_is_valid()
    ensures { BuiltModuleIsValid }
{
    tables_fit();
    pairs_within();
    rams_fit();
    gathered_is_sound();
    shown_inouts();
    ranks_agree();
    clocks_lead_to_roots();
    solved_cells();
    ram_has_parts();
    ram_shows_once();
    built_is_valid();
    built_has_ports();
}

/// A design that is built is valid, and each of its modules has a combinational order.
pub fn built_is_valid_design()
    ensures { BuiltIsValidDesign }
{
    tables_fit();
    pairs_within();
    rams_fit();
    gathered_is_sound();
    shown_inouts();
    ranks_agree();
    clocks_lead_to_roots();
    solved_cells();
    ram_has_parts();
    ram_shows_once();
    built_is_valid();
    built_has_ports();
}
