//! A candidate with its points.
ghost use Rattle.std.specs.Prelude.{◌≡◌, IfOk};

use geom_core::Candidate;
use lib_core::{Duplicate, Memory};
use std::alloc::Global;

/// What a memory becomes, and what that costs.
#[derive(Debug, PartialEq, Eq, Drop)]
pub struct Plan {
    pub candidate: Candidate,
    pub points: u64,
}

impl Plan {
    /// An equal plan.
    pub fn copy(&self, alloc: Global) -> Result<Plan, Memory>
        ensures { IfOk result (λ copy. copy ≡ self.now) }
    {
        Ok(Plan {
            candidate: self.candidate.duplicate(alloc)?,
            points: self.points,
        })
    }
}
