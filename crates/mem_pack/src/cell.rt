//! The cell that holds a memory.
ghost use Rattle.std.specs.Prelude.{◌≡◌, IfOk};
ghost use Rattle.mem_pack.specs.Laws.{IsPackable, IsSmall};
ghost use Rattle.mem_pack.specs.Packed as packed;

use crate::params::packed_params;
use crate::pins::packed_pins;
use lib_core::{Duplicate, Memory, Name};
use net_core::{Mem, MemPart};
use std::alloc::Global;

#[tactic(auto, unfolding(crate::specs::Packed::packed))]
pub(crate) fn packed(alloc: Global, mem: &Mem) -> Result<MemPart, Memory>
    requires { IsSmall mem.now }
    ensures { IfOk result (λ part. part ≡ packed.packed mem.now) }
{
    Ok(MemPart {
        name: mem.name.copy(alloc)?,
        kind: Name::from_vec(Vec::from_slice(alloc, b"$mem_v2")?),
        attrs: mem.attrs.duplicate(alloc)?,
        params: packed_params(alloc, mem)?,
        pins: packed_pins(alloc, mem)?,
    })
}

/// One cell `$mem_v2` that holds a whole memory, with the memory's name and attributes. Nets keep their
/// numbers. A port of several words is written as so many port numbers, and a side without ports
/// has pins without bits.
pub fn pack(alloc: Global, mem: &Mem) -> Result<MemPart, Memory>
    requires { IsPackable mem.now }
    ensures { IfOk result (λ part. part ≡ packed.packed mem.now) }
{
    packed(alloc, mem)
}
