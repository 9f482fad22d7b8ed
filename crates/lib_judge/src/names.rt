//! Names that are looked up.
ghost use Rattle.std.specs.Prelude.{◌≡◌, [], IfOk, OnOk};
ghost use Rattle.lib_judge.specs.Names.{distinct_from, place_of, with_name};
ghost use Rattle.lib_judge.specs.Variants.{has_name};

use indexmap::IndexSet;
use lib_core::{Memory, Name};
use std::alloc::Global;
use std::marker::Model;

/// Names in order, none of them twice.
pub struct Names {
    found: IndexSet<Name>,
}

/// By a function of its own, so that whatever holds names drops them by one call.
impl Drop for Names {
    fn drop(self) {
        let Names { found: _found } = self;
    }
}

impl Model for Names {
    ghost use Rattle.std.specs.Prelude.{List, ℕ};

    ghost Value = { List (List ℕ) };

    ghost view = { λ s. s.found.keys };
}

impl Names {
    pub fn new(alloc: Global) -> Names
        ensures { result ≡ [] }
    {
        Names {
            found: IndexSet::new(alloc),
        }
    }

    #[tactic(auto, using(crate::proofs::Looked::has_is))]
    pub fn has(&self, name: &Name) -> bool
        ensures { result ≡ has_name self.now name.now }
    {
        self.found.contains(name)
    }

    /// Puts a name at the end, if it is not there yet. The answer is its place.
    #[tactic(auto, unfolding(crate::specs::Names::with_name), using(crate::proofs::Looked::has_is, crate::proofs::Looked::place_is))]
    pub fn add(&mut self, alloc: Global, name: &Name) -> Result<usize, Memory>
        ensures names { OnOk result (self.new ≡ with_name self.old name.now) }
        ensures place { IfOk result (λ place. place ≡ place_of self.old name.now) }
    {
        let (place, _) = self.found.insert_full(name.copy(alloc)?)?;
        Ok(place)
    }
}

/// The names to look up, if none of them stands twice.
#[tactic(auto, unfolding(crate::specs::Names::distinct_from))]
pub fn distinct(alloc: Global, names: &[Name]) -> Result<Option<Names>, Memory>
    ensures { IfOk result (λ found. found ≡ distinct_from [] names.now) }
{
    let mut seen = Names::new(alloc);
    let mut rest = names;
    while let [name, tail @ ..] = rest {
        if seen.has(name) {
            return Ok(None);
        }
        seen.add(alloc, name)?;
        rest = tail;
    }
    Ok(Some(seen))
}
