//! Wires and memories that are declared.
ghost use Rattle.net_fits.specs.Wires.{DeclaredFit, MemNamesApart, WireNamesApart, WiresFit};

/// The wires fit, where the bits of inputs are nets.
pub fn wires_fit()
    ensures { WiresFit }
{}

/// No two wires have one name.
pub fn wire_names_apart()
    ensures { WireNamesApart }
{}

/// The memories that are declared fit, where their sizes are not wrong.
pub fn declared_fit()
    ensures { DeclaredFit }
{}

/// No two memories have one name.
pub fn mem_names_apart()
    ensures { MemNamesApart }
{}
