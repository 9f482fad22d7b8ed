//! Which selectors of a cell are set.
ghost use Rattle.std.specs.Prelude.{◌≡◌};
ghost use Rattle.net_core.specs.Logic.{set_places};
ghost use Rattle.cell_table.specs.Selection.{selection_of};

use crate::operand::Operand;

/// Which selectors are set.
#[derive(Clone, Copy, Debug, PartialEq, Eq)]
pub enum Selection {
    Nothing,
    /// The one at this place alone.
    One(usize),
    Several,
}

impl Selection {
    ghost use Rattle.cell_table.specs.Selection.{with_place};

    /// What is selected once one more is set.
    fn with(self, place: usize) -> Selection
        ensures { result ≡ with_place self place }
    {
        match self {
            Selection::Nothing => Selection::One(place),
            Selection::One(_) | Selection::Several => Selection::Several,
        }
    }
}

/// Looks at the selectors once, from the low end.
pub fn select(selectors: &Operand<'_>) -> Selection
    ensures { result ≡ selection_of (set_places selectors.now 0) }
{
    let mut selection = Selection::Nothing;
    for place in 0..selectors.len() {
        if selectors.bit(place) {
            selection = selection.with(place);
        }
    }
    selection
}
