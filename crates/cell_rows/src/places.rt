//! Where names stand among others.
ghost use Rattle.std.specs.Prelude.{◌≡◌, ℕ, List, IfOk, OnOk};
ghost use Rattle.cell_rows.specs.Kinds.{found, first_of, place_alone, place_of};

use indexmap::IndexMap;
use lib_core::{Memory, Name};
use std::alloc::Global;
use std::marker::Model;

/// The places of names in a list, which contracts see as names with places.
#[derive(Drop)]
pub struct Places {
    places: IndexMap<Name, u32>,
}

impl Model for Places {
    ghost use Rattle.std.specs.Prelude.{List, ℕ};

    ghost Value = { List (List ℕ × ℕ) };

    ghost view = { λ p. p.places.entries };
}

/// Notes a name with its place, unless the name is there already.
fn note(
    alloc: Global,
    places: &mut IndexMap<Name, u32>,
    name: &Name,
    place: u32,
) -> Result<(), Memory>
    ensures { OnOk result ((q : List ℕ) → found places.new.entries q ≡ first_of (found places.old.entries q) (place_alone name.now place q)) }
{
    if places.contains_key(name) {
        return Ok(());
    }
    places.insert(name.copy(alloc)?, place)?;
    Ok(())
}

impl Places {
    /// The places of these names, the first of a name that stands twice. More names than numbers of
    /// 32 bits can place count as want of memory.
    pub fn new(alloc: Global, names: &[Name]) -> Result<Places, Memory>
        ensures { IfOk result (λ places. (name : List ℕ) → found places name ≡ place_of names.now name) }
    {
        let mut places = IndexMap::new(alloc);
        let mut place: u32 = 0;
        for name in names {
            note(alloc, &mut places, name, place)?;
            let Some(next) = place.checked_add(1) else {
                return Err(Memory);
            };
            place = next;
        }
        Ok(Places { places })
    }

    /// The place of a name. It takes no memory.
    pub fn place(&self, name: &Name) -> Option<u32>
        ensures { result ≡ found self.now name.now }
    {
        self.places.get(name).copied()
    }
}
