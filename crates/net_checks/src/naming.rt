//! The names that faults of the gathering show.
ghost use Rattle.std.specs.Prelude.{◌≡◌, IfOk};
ghost use Rattle.net_checks.specs.Names as spec;

use crate::fault::{ModuleFault, shown};
use lib_core::{Memory, Name};
use net_gather::Fault;
use rtlil_text::{Item, Part};
use std::alloc::Global;

/// The first wire that a signal names.
fn first_name(alloc: Global, parts: &[Part]) -> Result<Option<Name>, Memory>
    ensures { IfOk result (λ name. name ≡ spec.first_name parts.now) }
{
    let mut rest = parts;
    while let [part, tail @ ..] = rest {
        if let Part::Wire(name) = part {
            return Ok(Some(name.copy(alloc)?));
        }
        rest = tail;
    }
    Ok(None)
}

/// The first wire that a connect names, the left side first; empty where it names none.
pub(crate) fn connect_name(alloc: Global, left: &[Part], right: &[Part]) -> Result<Name, Memory>
    ensures { IfOk result (λ name. name ≡ spec.connect_name left.now right.now) }
{
    if let Some(name) = first_name(alloc, left)? {
        return Ok(name);
    }
    let name = first_name(alloc, right)?;
    Ok(shown(alloc, name))
}

fn item_name(alloc: Global, item: &Item) -> Result<Name, Memory>
    ensures { IfOk result (λ name. name ≡ spec.item_name item.now) }
{
    match item {
        Item::Param(_) => Ok(Name::from_vec(Vec::new(alloc))),
        Item::Wire(wire) => wire.name.copy(alloc),
        Item::Mem(memory) => memory.name.copy(alloc),
        Item::Cell(cell) => cell.name.copy(alloc),
        Item::Connect { left, right } => connect_name(alloc, left.as_slice(), right.as_slice()),
    }
}

/// The name that a fault among these items shows: the wire, the memory or the cell; of a connect the
/// first wire that it names, the left side first; empty where there is none.
pub fn fault_name(alloc: Global, items: &[Item], fault: Fault) -> Result<Name, Memory>
    ensures { IfOk result (λ name. name ≡ spec.fault_name items.now fault) }
{
    match items.get(fault.item) {
        Some(item) => item_name(alloc, item),
        None => Ok(Name::from_vec(Vec::new(alloc))),
    }
}

/// A fault among these items, with the name that it shows.
pub fn module_fault(alloc: Global, items: &[Item], fault: Fault) -> Result<ModuleFault, Memory>
    ensures { IfOk result (λ made. made ≡ spec.fault_of items.now fault) }
{
    Ok(ModuleFault {
        code: fault.breach.code,
        name: fault_name(alloc, items, fault)?,
        seen: fault.breach.seen,
    })
}
