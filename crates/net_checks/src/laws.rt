//! Laws of the checks, each the contract of a function that does nothing.
ghost use Rattle.net_checks.specs.Laws.{AnswersAreThere, EndsAreEnds, GatheredIsSound, ShownInouts};

/// What is gathered where nothing is wrong can be checked.
pub fn gathered_is_sound()
    ensures { GatheredIsSound }
{
    net_wires::laws::wires_are_there();
    net_gather::laws::places_in_order();
    net_gather::laws::places_within();
    net_gather::laws::places_few();
    net_gather::laws::pairs_within();
}

/// Where the wires of each module have different names, the inout pins are those that the interfaces of
/// the modules have.
pub fn shown_inouts()
    ensures { ShownInouts }
{}

/// Places lead somewhere, and marks of rings are there.
pub fn answers_are_there()
    ensures { AnswersAreThere }
{}

/// What a place leads to is its end, and a place that leads onto a ring has none.
pub fn ends_are_ends()
    ensures { EndsAreEnds }
{}
