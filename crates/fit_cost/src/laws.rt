//! A law on points, the contract of a function that does nothing.
ghost use Rattle.fit_cost.specs.Laws.{RiseWithPlaces, RiseWithGroups};

/// The points of a choice never fall as it grows.
pub fn points_rise()
    ensures places { RiseWithPlaces }
    ensures groups { RiseWithGroups }
{}
