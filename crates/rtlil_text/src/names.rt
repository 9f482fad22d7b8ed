//! Names that were taken so far.
ghost use Rattle.std.specs.Prelude.{◌≡◌, [], OnOk};
ghost use Rattle.rtlil_text.specs.Grammar.{has};
ghost use Rattle.rtlil_text.specs.Read.{with_name};

use indexmap::IndexSet;
use lib_core::{Memory, Name};
use std::alloc::Global;
use std::marker::Model;

/// Names in order, none of them twice.
pub struct Names {
    seen: IndexSet<Name>,
}

/// By a function of its own, so that whatever holds names drops them by one call.
impl Drop for Names {
    fn drop(self) {
        let Names { seen: _seen } = self;
    }
}

impl Model for Names {
    ghost use Rattle.std.specs.Prelude.{List, ℕ};

    ghost Value = { List (List ℕ) };

    ghost view = { λ s. s.seen.keys };
}

impl Names {
    pub fn new(alloc: Global) -> Names
        ensures { result ≡ [] }
    {
        Names {
            seen: IndexSet::new(alloc),
        }
    }

    #[tactic(auto, unfolding(crate::specs::Grammar::has))]
    pub fn has(&self, name: &Name) -> bool
        ensures { result ≡ has self.now name.now }
    {
        self.seen.contains(name)
    }

    /// Puts a name at the end, if it is not there yet.
    #[tactic(auto, unfolding(crate::specs::Read::with_name, crate::specs::Grammar::has))]
    pub fn add(&mut self, alloc: Global, name: &Name) -> Result<(), Memory>
        ensures { OnOk result (self.new ≡ with_name self.old name.now) }
    {
        self.seen.insert(name.copy(alloc)?)?;
        Ok(())
    }
}
