//! Laws about the best plan, each the contract of a function that does nothing.
ghost use Rattle.plan_search.specs.Chosen.{BestIsChosen, ChosenIsBest};

/// The best of a memory's candidates fits, each earlier one that fits costs more, and each later one as
/// much. There is none exactly where no candidate fits.
#[tactic(auto, using(crate::proofs::Choices::best_is_chosen))]
pub fn best_is_chosen()
    ensures { BestIsChosen }
{}

/// A plan that is so chosen is the best.
#[tactic(auto, using(crate::proofs::Choices::chosen_is_best))]
pub fn chosen_is_best()
    ensures { ChosenIsBest }
{}
