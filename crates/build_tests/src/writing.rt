//! Documents that have a text, and those that have none.
use crate::fixtures::name;
use doc_fits::is_writable;
use lib_core::{List, Memory};
use rtlil_text::{Doc, DocModule, DocWire, Item};
use std::alloc::Global;
use std::test::Fail;

fn wire(alloc: Global, bytes: &[u8]) -> Result<Item, Memory> {
    Ok(Item::Wire(DocWire {
        attrs: List::from_vec(Vec::new(alloc)),
        name: name(alloc, bytes)?,
        width: 1,
        offset: 0,
        port: 0,
        input: false,
        output: false,
        upto: false,
        signed: false,
    }))
}

/// A module with a wire `\a` and another wire.
fn two_wires(alloc: Global, second: &[u8]) -> Result<Doc, Memory> {
    let mut items = Vec::new(alloc);
    items.push(wire(alloc, b"\\a")?)?;
    items.push(wire(alloc, second)?)?;
    let mut modules = Vec::new(alloc);
    modules.push(DocModule {
        attrs: List::from_vec(Vec::new(alloc)),
        name: name(alloc, b"\\m")?,
        items: List::from_vec(items),
    })?;
    Ok(Doc {
        modules: List::from_vec(modules),
    })
}

#[test]
fn a_wire_stands_once(rt: HostRuntime) -> Result<(), Fail> {
    let alloc = rt.alloc();
    let other = is_writable(alloc, &two_wires(alloc, b"\\b")?)?;
    assert!(rt; other);
    let twice = is_writable(alloc, &two_wires(alloc, b"\\a")?)?;
    assert!(rt; !twice);
    Ok(())
}
