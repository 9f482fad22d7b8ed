//! Equal copies.
ghost use Rattle.std.specs.Prelude.{◌≡◌, IfOk};

use crate::library::{Choice, Tri, Value};
use crate::list::List;
use crate::memory::Memory;
use crate::name::Name;
use std::alloc::Global;

/// What can be copied, where memory is found.
pub trait Duplicate: Sized {
    /// An equal value.
    fn duplicate(&self, alloc: Global) -> Result<Self, Memory>
        ensures { IfOk result (λ copy. copy ≡ self.now) };
}

impl Duplicate for u32 {
    fn duplicate(&self, _alloc: Global) -> Result<u32, Memory> {
        Ok(*self)
    }
}

impl Duplicate for bool {
    fn duplicate(&self, _alloc: Global) -> Result<bool, Memory> {
        Ok(*self)
    }
}

impl Duplicate for Tri {
    fn duplicate(&self, _alloc: Global) -> Result<Tri, Memory> {
        Ok(*self)
    }
}

impl Duplicate for Name {
    fn duplicate(&self, alloc: Global) -> Result<Name, Memory> {
        self.copy(alloc)
    }
}

impl<T: Duplicate + Drop> Duplicate for List<T> {
    fn duplicate(&self, alloc: Global) -> Result<List<T>, Memory> {
        Ok(List::from_vec(duplicates(alloc, self.as_slice())?))
    }
}

/// Equal copies of items, in their order.
fn duplicates<T: Duplicate + Drop>(alloc: Global, items: &[T]) -> Result<Vec<T>, Memory>
    ensures { IfOk result (λ copies. copies.items ≡ items.now) }
{
    let mut copies = Vec::with_capacity(alloc, items.len())?;
    for item in items {
        copies.push(item.duplicate(alloc)?)?;
    }
    Ok(copies)
}

impl Duplicate for Value {
    fn duplicate(&self, alloc: Global) -> Result<Value, Memory> {
        Ok(match self {
            Value::Number(number) => Value::Number(*number),
            Value::Text(text) => Value::Text(text.copy(alloc)?),
        })
    }
}

impl Duplicate for Choice {
    fn duplicate(&self, alloc: Global) -> Result<Choice, Memory> {
        Ok(Choice {
            name: self.name.copy(alloc)?,
            value: self.value.duplicate(alloc)?,
        })
    }
}
