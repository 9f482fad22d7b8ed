//! The cells of a module in the lists of their kinds.
ghost use Rattle.std.specs.Prelude.{[], OnOk, IfOk};
ghost use Rattle.net_module.specs.Bodies.{AreBehind, AreOf};

use crate::made::Made;
use lib_core::Memory;
use net_core::{Carried, Comb, MemPart, RamCell, Reg};
use std::alloc::Global;

/// The cells of a module, each in the list of its kind, in file order.
#[derive(Drop)]
pub(crate) struct Bodies {
    pub combs: Vec<Comb>,
    pub regs: Vec<Reg>,
    pub rams: Vec<RamCell>,
    pub carried: Vec<Carried>,
    pub parts: Vec<MemPart>,
}

fn none(alloc: Global) -> Bodies
    ensures { AreOf [] result }
{
    Bodies {
        combs: Vec::new(alloc),
        regs: Vec::new(alloc),
        rams: Vec::new(alloc),
        carried: Vec::new(alloc),
        parts: Vec::new(alloc),
    }
}

/// Puts a cell behind those of its kind.
fn put(bodies: &mut Bodies, made: Made) -> Result<(), Memory>
    ensures { OnOk result (AreBehind made bodies.old bodies.new) }
{
    match made {
        Made::Comb(comb) => bodies.combs.push(comb)?,
        Made::Reg(reg) => bodies.regs.push(reg)?,
        Made::Ram(ram) => bodies.rams.push(ram)?,
        Made::Carried(cell) => bodies.carried.push(cell)?,
        Made::Part(part) => bodies.parts.push(part)?,
    }
    Ok(())
}

/// The lists of these cells.
pub(crate) fn bodies_of(alloc: Global, cells: Vec<Made>) -> Result<Bodies, Memory>
    ensures { IfOk result (AreOf cells.items) }
{
    let mut bodies = none(alloc);
    for cell in cells {
        put(&mut bodies, cell)?;
    }
    Ok(bodies)
}
