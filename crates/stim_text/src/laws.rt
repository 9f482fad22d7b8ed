//! A law about stimulus texts: the contract of a function that does nothing.
ghost use Rattle.stim_text.specs.Whole.{EventsAreWhole};

/// Each event of a text has a value for each input of the module, its edge is one of an input, and there
/// are at most 65,536.
pub fn events_are_whole()
    ensures { EventsAreWhole }
{}
