//! Names of their own for memories.
ghost use Rattle.std.specs.Prelude.{◌≡◌, ◌++◌, ◌∷◌, [], filter, length, IfOk};
ghost use Rattle.net_collect.specs.Collected.{is_read};
ghost use Rattle.net_collect.specs.Naming as spec;
ghost use Rattle.part_faults.specs.Parts.{names_of};

use indexmap::IndexSet;
use lib_core::{List, Memory, Name};
use net_core::Mem;
use std::alloc::Global;
use std::marker::Model;

/// Names that are taken.
#[derive(Drop)]
pub struct Taken {
    names: IndexSet<Name>,
}

impl Model for Taken {
    ghost use Rattle.std.specs.Prelude.{List, ℕ};

    ghost Value = { List (List ℕ) };

    ghost view = { λ s. s.names.keys };
}

/// The name with `_` behind it.
fn longer(name: Name) -> Result<Name, Memory>
    ensures { IfOk result (λ next. next ≡ name ++ 95 ∷ []) }
{
    let mut bytes = name.into_vec();
    bytes.push(b'_')?;
    Ok(Name::from_vec(bytes))
}

impl Taken {
    fn new(alloc: Global) -> Taken
        ensures { result ≡ [] }
    {
        Taken {
            names: IndexSet::new(alloc),
        }
    }

    #[tactic(auto, unfolding(crate::specs::Naming::is_among))]
    fn has(&self, name: &Name) -> bool
        ensures { result ≡ spec.is_among name.now self.now }
    {
        self.names.contains(name)
    }

    fn count(&self) -> usize
        ensures { result ≡ length self.now }
    {
        self.names.len()
    }

    /// With a name more, if it is new.
    #[tactic(auto, unfolding(crate::specs::Naming::with_name, crate::specs::Naming::is_among))]
    fn with(mut self, alloc: Global, name: &Name) -> Result<Taken, Memory>
        ensures { IfOk result (λ next. next ≡ spec.with_name self name.now) }
    {
        self.names.insert(name.copy(alloc)?)?;
        Ok(self)
    }

    /// The name, with `_` behind it as often as it is taken.
    #[tactic(auto, using(crate::proofs::Names::free_at_once, crate::proofs::Names::longer_name, crate::proofs::Names::longest_name))]
    fn free_name(&self, name: Name) -> Result<Name, Memory>
        ensures { IfOk result (λ free. free ≡ spec.free_name self.now name) }
    {
        let mut name = name;
        for _ in 0..self.count() {
            if !self.has(&name) {
                return Ok(name);
            }
            name = longer(name)?;
        }
        Ok(name)
    }
}

/// The names of these memories.
#[tactic(auto, unfolding(crate::specs::Naming::with_names))]
pub fn taken_by(alloc: Global, mems: &[Mem]) -> Result<Taken, Memory>
    ensures { IfOk result (λ taken. taken ≡ spec.with_names [] (names_of mems.now)) }
{
    let mut taken = Taken::new(alloc);
    let mut rest = mems;
    while let [mem, tail @ ..] = rest {
        taken = taken.with(alloc, &mem.name)?;
        rest = tail;
    }
    Ok(taken)
}

/// The memory under another name.
#[tactic(auto, unfolding(crate::specs::Naming::renamed))]
fn renamed(mem: Mem, name: Name, origin: Name) -> Mem
    requires { origin ≡ name }
    ensures { result ≡ spec.renamed mem name }
{
    Mem {
        name,
        origin,
        ..mem
    }
}

/// The memory under a name that is free, and that name.
fn with_free_name(alloc: Global, taken: &Taken, mem: Mem) -> Result<Mem, Memory>
    ensures { IfOk result (λ next. next ≡ spec.renamed mem (spec.free_name taken.now mem.name)) }
{
    let name = taken.free_name(mem.name.copy(alloc)?)?;
    let origin = name.copy(alloc)?;
    Ok(renamed(mem, name, origin))
}

/// With a memory at the end, if something reads it.
fn with_read(mut kept: List<Mem>, mem: Mem) -> Result<List<Mem>, Memory>
    ensures { IfOk result (λ next. next ≡ kept ++ filter is_read (mem ∷ [])) }
{
    if !mem.reads.as_slice().is_empty() {
        kept.push(mem)?;
    }
    Ok(kept)
}

/// Puts those of these memories that are read behind others, each under a name of its own.
#[tactic(auto, unfolding(crate::specs::Naming::named_from, crate::specs::Naming::renamed))]
pub fn kept_behind(
    alloc: Global,
    there: List<Mem>,
    taken: Taken,
    mems: List<Mem>,
) -> Result<List<Mem>, Memory>
    ensures { IfOk result (λ kept. kept ≡ there ++ filter is_read (spec.named_from taken mems)) }
{
    let mut kept = there;
    let mut taken = taken;
    for mem in mems.into_vec() {
        let mem = with_free_name(alloc, &taken, mem)?;
        taken = taken.with(alloc, &mem.name)?;
        kept = with_read(kept, mem)?;
    }
    Ok(kept)
}
