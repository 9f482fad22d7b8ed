//! What is looked up of a module while its memory cells are checked.
ghost use Rattle.std.specs.Prelude.{◌≡◌, IfOk};
ghost use Rattle.part_faults.specs.Driven.{is_driven};
ghost use Rattle.part_faults.specs.Tables.{Tells, module_of};

use crate::driven::driven_nets;
use crate::parts::memories_of;
use crate::writes::write_ids;
use cell_rows::Places;
use lib_core::{List, Memory};
use net_core::Module;
use std::alloc::Global;

/// Tables of a module, each made once.
#[derive(Drop)]
pub(crate) struct Tables<'a> {
    pub whole: &'a Module,
    /// The places of the declared memories, by name.
    pub memories: Places,
    /// The numbers of the write ports of each declared memory.
    pub writes: Vec<List<u32>>,
    /// For each net whether it is driven.
    pub driven: Vec<bool>,
}

pub(crate) fn tables_of(alloc: Global, module: &Module) -> Result<Tables<'_>, Memory>
    ensures { IfOk result (λ t. (module_of t ≡ «module».now) × Tells t) }
{
    let memories = memories_of(alloc, module)?;
    let writes = write_ids(alloc, &memories, module)?;
    Ok(Tables {
        whole: module,
        memories,
        writes,
        driven: driven_nets(alloc, module)?,
    })
}

/// Whether a net is driven. A net that is none of the module's counts as want of memory.
pub(crate) fn driven_at(tables: &Tables<'_>, net: u32) -> Result<bool, Memory>
    requires { Tells tables.now }
    ensures { IfOk result (λ driven. driven ≡ is_driven (module_of tables.now) net) }
{
    match tables.driven.as_slice().get(net as usize) {
        Some(driven) => Ok(*driven),
        None => Err(Memory),
    }
}
