//! New names.
ghost use Rattle.std.specs.Prelude.{◌≡◌, ◌++◌, ◌∷◌, [], IfOk, OnOk};
ghost use Rattle.net_draft.specs.Naming as spec;

use indexmap::IndexSet;
use lib_core::{Memory, Name};
use std::alloc::Global;
use std::marker::Model;

/// Names that are taken, none of them twice.
#[derive(Drop)]
pub struct Taken {
    names: IndexSet<Name>,
}

impl Model for Taken {
    ghost use Rattle.std.specs.Prelude.{List, ℕ};

    ghost Value = { List (List ℕ) };

    ghost view = { λ s. s.names.keys };
}

/// The name with one `_` more behind it.
fn longer(name: Name) -> Result<Name, Memory>
    ensures { IfOk result (λ longer. longer ≡ name ++ 95 ∷ []) }
{
    let mut bytes = name.into_vec();
    bytes.push(b'_')?;
    Ok(Name::from_vec(bytes))
}

impl Taken {
    /// None.
    pub fn new(alloc: Global) -> Taken
        ensures { result ≡ [] }
    {
        Taken {
            names: IndexSet::new(alloc),
        }
    }

    #[tactic(auto, unfolding(crate::specs::Naming::has))]
    fn has(&self, name: &Name) -> bool
        ensures { result ≡ spec.has self.now name.now }
    {
        self.names.contains(name)
    }

    /// Takes a name.
    #[tactic(auto, unfolding(crate::specs::Naming::with_name, crate::specs::Naming::has))]
    pub fn add(&mut self, alloc: Global, name: &Name) -> Result<(), Memory>
        ensures { OnOk result (self.new ≡ spec.with_name self.old name.now) }
    {
        self.names.insert(name.copy(alloc)?)?;
        Ok(())
    }

    /// A name that is not taken. Where so many tries as there are names find none, it counts as want
    /// of memory.
    #[tactic(auto, using(crate::proofs::Longer::begins, crate::proofs::Longer::goes_on))]
    fn free_name(&self, alloc: Global, wanted: &[u8]) -> Result<Name, Memory>
        ensures { IfOk result (spec.IsFresh self.now wanted.now) }
    {
        let mut name = Name::from_vec(Vec::from_slice(alloc, wanted)?);
        let mut left = self.names.len();
        while self.has(&name) {
            if left == 0 {
                return Err(Memory);
            }
            left -= 1;
            name = longer(name)?;
        }
        Ok(name)
    }

    /// Takes a name that is not taken: the one that is wanted, with `_` behind it as often as is
    /// needed.
    pub fn fresh(&mut self, alloc: Global, wanted: &[u8]) -> Result<Name, Memory>
        ensures fresh { IfOk result (spec.IsFresh self.old wanted.now) }
        ensures taken { IfOk result (λ name. self.new ≡ spec.with_name self.old name) }
    {
        let name = self.free_name(alloc, wanted)?;
        self.add(alloc, &name)?;
        Ok(name)
    }
}
