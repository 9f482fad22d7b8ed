//! Inouts.
ghost use Rattle.build_valid.specs.Inouts.{WiredInouts};

use net_checks::laws::{gathered_is_sound, shown_inouts};

/// The inouts of a module with nothing wrong touch nothing but cells that are kept as they are.
pub fn wired_inouts()
    ensures { WiredInouts }
{
    gathered_is_sound();
    shown_inouts();
}
