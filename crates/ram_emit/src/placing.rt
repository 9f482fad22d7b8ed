//! The cell in the place of the memory.
ghost use Rattle.std.specs.Prelude.{◌≡◌, ◌+◌, ◌<◌, ◌≤◌, ◌^◌, length, slice_get, IfOk, IfSome};
ghost use Rattle.fit_rules.specs.Limits.{LibraryLimits, MemLimits};
ghost use Rattle.ram_emit.specs.Placing as spec;

use crate::cell::{PlainCell, plain_cell};
use geom_core::RamChoice;
use lib_core::{Library, List, Memory, Name};
use net_core::{Mem, Module, RamCell};
use std::alloc::Global;

/// The memories without the one of a number. It takes no memory.
fn without(mems: List<Mem>, index: usize) -> List<Mem>
    requires { index < length mems }
    ensures { result ≡ spec.without mems index }
{
    let mut mems = mems.into_vec();
    mems.remove(index);
    List::from_vec(mems)
}

/// The module with the memory of a number taken out and a cell put behind the others, which has so
/// many new nets.
pub fn put_in_place(
    module: Module,
    index: usize,
    cell: RamCell,
    nets: u32,
) -> Result<Module, Memory>
    requires there { index < length «module».mems }
    requires room { «module».nets + nets < 2 ^ 32 }
    ensures { IfOk result (λ new. new ≡ spec.placed_in «module» index cell nets) }
{
    let Module {
        name,
        attrs,
        nets: old,
        wires,
        declared,
        parts,
        mems,
        combs,
        regs,
        mut rams,
        carried,
    } = module;
    rams.push(cell)?;
    Ok(Module {
        name,
        attrs,
        nets: old + nets,
        wires,
        declared,
        parts,
        mems: without(mems, index),
        combs,
        regs,
        rams,
        carried,
    })
}

/// The module with the cell of a choice that is plain, of this name, in the place of the memory of a
/// number.
pub fn place_plain(
    alloc: Global,
    lib: &Library,
    module: Module,
    index: usize,
    choice: &RamChoice,
    name: Name,
) -> Result<Module, Memory>
    requires library { LibraryLimits lib.now }
    requires memory { IfSome (slice_get «module».mems index) MemLimits }
    requires there { index < length «module».mems }
    requires nets { «module».nets ≤ 67108864 }
    ensures { IfOk result (λ new. IfSome (slice_get «module».mems index) (λ x. new ≡ spec.in_place lib.now «module» index x choice.now name)) }
{
    let mem = &module.mems.as_slice()[index];
    let PlainCell { cell, nets } = plain_cell(alloc, lib, mem, choice, name, module.nets)?;
    put_in_place(module, index, cell, nets)
}
