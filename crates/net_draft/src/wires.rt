//! The wires of a document.
ghost use Rattle.std.specs.Prelude.{◌≡◌, ◌++◌, map, IfOk, OnOk};
ghost use Rattle.net_draft.specs.Wires as spec;

use crate::counts::count_of;
use crate::signals::Face;
use crate::starts::{Start, any_defined, is_init, net_starts, wire_starts};
use cell_consts::bits_attr;
use doc_params::doc_attr;
use lib_core::{List, Memory, Name, Tri};
use net_core::{Attr, Wire};
use rtlil_text::{DocAttr, DocWire, Item};
use std::alloc::Global;

fn face_of(alloc: Global, wire: &Wire) -> Result<Face, Memory>
    ensures { IfOk result (λ face. face ≡ spec.face_of wire.now) }
{
    Ok(Face {
        name: wire.name.copy(alloc)?,
        width: count_of(wire.bits.as_slice().len())?,
    })
}

/// The wires as signals name them.
pub fn faces_of(alloc: Global, wires: &[Wire]) -> Result<Vec<Face>, Memory>
    ensures { IfOk result (λ faces. faces.items ≡ map (λ w. spec.face_of w) wires.now) }
{
    let mut faces = Vec::with_capacity(alloc, wires.len())?;
    let mut rest = wires;
    while let [wire, tail @ ..] = rest {
        faces.push(face_of(alloc, wire)?)?;
        rest = tail;
    }
    Ok(faces)
}

/// The attributes of a module or a cell.
pub fn doc_attrs(alloc: Global, attrs: &[Attr]) -> Result<List<DocAttr>, Memory>
    ensures { IfOk result (λ list. list ≡ spec.doc_attrs attrs.now) }
{
    let mut list = Vec::with_capacity(alloc, attrs.len())?;
    let mut rest = attrs;
    while let [attr, tail @ ..] = rest {
        list.push(doc_attr(alloc, attr)?)?;
        rest = tail;
    }
    Ok(List::from_vec(list))
}

/// Puts the attribute `\init` at the end, where it says anything.
#[tactic(auto, unfolding(crate::specs::Wires::init_attrs))]
fn push_init(alloc: Global, list: &mut Vec<DocAttr>, values: Vec<Tri>) -> Result<(), Memory>
    ensures { OnOk result (list.new.items ≡ list.old.items ++ spec.init_attrs values.items) }
{
    if any_defined(values.as_slice()) {
        let init = bits_attr(alloc, b"\\init", &List::from_vec(values))?;
        list.push(doc_attr(alloc, &init)?)?;
    }
    Ok(())
}

/// The attributes other than `\init`.
#[tactic(auto, unfolding(crate::specs::Wires::other_attrs))]
fn other_attrs(alloc: Global, attrs: &[Attr]) -> Result<Vec<DocAttr>, Memory>
    ensures { IfOk result (λ list. list.items ≡ spec.other_attrs attrs.now) }
{
    let mut list = Vec::new(alloc);
    let mut rest = attrs;
    while let [attr, tail @ ..] = rest {
        if !is_init(attr) {
            list.push(doc_attr(alloc, attr)?)?;
        }
        rest = tail;
    }
    Ok(list)
}

/// The attributes of a wire, with these values at the start.
fn wire_attrs(alloc: Global, attrs: &[Attr], values: Vec<Tri>) -> Result<List<DocAttr>, Memory>
    ensures { IfOk result (λ list. list ≡ spec.wire_attrs attrs.now values.items) }
{
    let mut list = other_attrs(alloc, attrs)?;
    push_init(alloc, &mut list, values)?;
    Ok(List::from_vec(list))
}

#[tactic(auto, unfolding(crate::specs::Wires::doc_wire))]
fn doc_wire(alloc: Global, starts: &[Start], wire: &Wire) -> Result<DocWire, Memory>
    ensures { IfOk result (λ written. written ≡ spec.doc_wire starts.now wire.now) }
{
    let values = wire_starts(alloc, starts, wire)?;
    Ok(DocWire {
        attrs: wire_attrs(alloc, wire.attrs.as_slice(), values)?,
        name: wire.name.copy(alloc)?,
        width: count_of(wire.bits.as_slice().len())?,
        offset: wire.offset,
        port: wire.port,
        input: wire.input,
        output: wire.output,
        upto: wire.upto,
        signed: wire.signed,
    })
}

/// Puts wires at the end.
pub fn push_wires(
    alloc: Global,
    items: &mut Vec<Item>,
    starts: &[Start],
    wires: &[Wire],
) -> Result<(), Memory>
    ensures { OnOk result (items.new.items ≡ items.old.items ++ spec.wire_items starts.now wires.now) }
{
    let mut rest = wires;
    while let [wire, tail @ ..] = rest {
        items.push(Item::Wire(doc_wire(alloc, starts, wire)?))?;
        rest = tail;
    }
    Ok(())
}

/// A wire of these nets that is no port.
#[tactic(auto, unfolding(crate::specs::Wires::added_wire))]
fn added_wire(alloc: Global, starts: &[Start], name: &Name, nets: &[u32]) -> Result<DocWire, Memory>
    ensures { IfOk result (λ written. written ≡ spec.added_wire starts.now name.now nets.now) }
{
    let mut attrs = Vec::new(alloc);
    push_init(alloc, &mut attrs, net_starts(alloc, starts, nets)?)?;
    Ok(DocWire {
        attrs: List::from_vec(attrs),
        name: name.copy(alloc)?,
        width: count_of(nets.len())?,
        offset: 0,
        port: 0,
        input: false,
        output: false,
        upto: false,
        signed: false,
    })
}

/// Puts the wire of these nets at the end, if there are any.
pub fn push_added(
    alloc: Global,
    items: &mut Vec<Item>,
    starts: &[Start],
    name: &Name,
    nets: &[u32],
) -> Result<(), Memory>
    ensures { OnOk result (items.new.items ≡ items.old.items ++ spec.added_items starts.now name.now nets.now) }
{
    if let [_, ..] = nets {
        items.push(Item::Wire(added_wire(alloc, starts, name, nets)?))?;
    }
    Ok(())
}
