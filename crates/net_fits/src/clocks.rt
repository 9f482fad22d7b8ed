//! Clocks.
ghost use Rattle.net_fits.specs.Clocks.{ClocksAreInputs, ClocksLeadToRoots, PinClocksCome};

/// Clocks lead to the places that are roots.
pub fn clocks_lead_to_roots()
    ensures { ClocksLeadToRoots }
{}

/// The clock at a pin has the net of a root, if it has edges.
pub fn pin_clocks_come()
    ensures { PinClocksCome }
{}

/// Each clock of a module is an input.
pub fn clocks_are_inputs()
    ensures { ClocksAreInputs }
{}
