//! Laws about plain plans, each the contract of a function that does nothing.
ghost use Rattle.plain_plan.specs.Laws.{ScoredIsPlain, LeastIsChosen, PlannedArePlain};

/// Exactly the candidates that are plain and fit with the style have points.
pub fn scored_is_plain()
    ensures { ScoredIsPlain }
{}

/// The least plain candidate is one of the list, each earlier one that is plain and fits costs more,
/// and each later one as much. There is none exactly where no candidate is plain and fits.
pub fn least_is_chosen()
    ensures { LeastIsChosen }
{}

/// Each of the plans of a design is plain for its memory.
pub fn planned_are_plain()
    ensures { PlannedArePlain }
{}
