//! Modules with nothing wrong.
ghost use Rattle.build_valid.specs.Sound.{FaultlessIsSound, MeantIsOrdered, WiredIsSolved, WiredRoots};

use net_checks::laws::gathered_is_sound;
use net_fits::clocks::clocks_lead_to_roots;
use net_loops::laws::ranks_agree;

/// A module of a text with nothing wrong is sound under the ports that the document says.
pub fn faultless_is_sound()
    ensures { FaultlessIsSound }
{}

/// The bits that the places of such a module have by what they have to satisfy are those that following
/// connects gives, and nothing has two drivers.
pub fn wired_is_solved()
    ensures { WiredIsSolved }
{
    gathered_is_sound();
}

/// Clocks of its places lead to inputs, and to what cells drive that are kept as they are.
pub fn wired_roots()
    ensures { WiredRoots }
{
    clocks_lead_to_roots();
}

/// A module that items mean has a combinational order.
pub fn meant_is_ordered()
    ensures { MeantIsOrdered }
{
    ranks_agree();
}
