//! Laws about memories in parts, each the contract of a function that does nothing.
ghost use Rattle.net_whole.specs.Parts.{CollectedRefines};

/// The module with whole memories does only what the module in parts may do.

pub fn collected_refines()
    ensures { CollectedRefines }
{}
