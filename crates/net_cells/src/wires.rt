//! The wires and the declared memories of a module.
ghost use Rattle.std.specs.Prelude.{◌≡◌, ◌++◌, length, IfOk, OnOk};
ghost use Rattle.net_cells.specs.Wires as spec;

use doc_params::attrs_of;
use lib_core::{List, Memory};
use net_core::{Bit, Mem, Place, Wire};
use rtlil_text::{DocMem, DocWire, Item};
use std::alloc::Global;

#[tactic(auto, unfolding(crate::specs::Wires::wire_of))]
fn wire_of(alloc: Global, bits: &[Bit], wire: &DocWire) -> Result<Wire, Memory>
    ensures { IfOk result (λ kept. kept ≡ spec.wire_of bits.now wire.now) }
{
    Ok(Wire {
        name: wire.name.copy(alloc)?,
        attrs: attrs_of(alloc, wire.attrs.as_slice())?,
        port: wire.port,
        input: wire.input,
        output: wire.output,
        offset: wire.offset,
        upto: wire.upto,
        signed: wire.signed,
        bits: List::from_vec(Vec::from_slice(alloc, bits)?),
    })
}

/// The wires among these items. The bits of wires stand first among the places.
#[tactic(auto, unfolding(crate::specs::Wires::wires_from))]
pub fn wires_from(alloc: Global, places: &[Bit], items: &[Item]) -> Result<List<Wire>, Memory>
    ensures { IfOk result (λ wires. wires ≡ spec.wires_from places.now items.now) }
{
    let mut wires = Vec::new(alloc);
    let mut left = places;
    let mut rest = items;
    while let [item, tail @ ..] = rest {
        if let Item::Wire(wire) = item {
            let count = left.len().min(wire.width as usize);
            wires.push(wire_of(alloc, &left[..count], wire)?)?;
            left = &left[count..];
        }
        rest = tail;
    }
    Ok(List::from_vec(wires))
}

#[tactic(auto, unfolding(crate::specs::Wires::declared_of))]
fn declared_of(alloc: Global, memory: &DocMem) -> Result<Mem, Memory>
    ensures { IfOk result (λ mem. mem ≡ spec.declared_of memory.now) }
{
    Ok(Mem {
        name: memory.name.copy(alloc)?,
        attrs: attrs_of(alloc, memory.attrs.as_slice())?,
        width: memory.width,
        size: memory.size,
        offset: memory.offset,
        abits: 0,
        init: List::from_vec(Vec::new(alloc)),
        reads: List::from_vec(Vec::new(alloc)),
        writes: List::from_vec(Vec::new(alloc)),
        origin: memory.name.copy(alloc)?,
        place: Place {
            copy: 0,
            row: 0,
            column: 0,
        },
    })
}

fn push_declared(alloc: Global, mems: &mut Vec<Mem>, item: &Item) -> Result<(), Memory>
    ensures { OnOk result (mems.new.items ≡ mems.old.items ++ spec.declared_in item.now) }
{
    if let Item::Mem(memory) = item {
        mems.push(declared_of(alloc, memory)?)?;
    }
    Ok(())
}

/// The memories that these items declare.
pub fn declared(alloc: Global, items: &[Item]) -> Result<List<Mem>, Memory>
    ensures { IfOk result (λ mems. mems ≡ spec.declared items.now) }
{
    let mut mems = Vec::new(alloc);
    let mut rest = items;
    while let [item, tail @ ..] = rest {
        push_declared(alloc, &mut mems, item)?;
        rest = tail;
    }
    Ok(List::from_vec(mems))
}
