//! Laws on limits and candidates, each the contract of a function that does nothing.
ghost use Rattle.fit_rules.specs.Fits.{FitsIsListed};
ghost use Rattle.fit_rules.specs.Limits.{ValidIsWithin};

/// Every memory of a valid module is within the limits under which candidates are judged.
pub fn valid_is_within()
    ensures { ValidIsWithin }
{}

/// What fits is one of the memory's candidates.
pub fn fits_is_listed()
    ensures { FitsIsListed }
{}
