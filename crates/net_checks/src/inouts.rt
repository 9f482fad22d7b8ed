//! The inouts of the modules of a file, by which inout pins of instances are known.
ghost use Rattle.std.specs.Prelude.{◌≡◌, ◌++◌, IfOk, OnOk, map};
ghost use Rattle.std.specs.List.{flat_map};
ghost use Rattle.rtlil_text.specs.Grammar.{module_name};
ghost use Rattle.net_checks.specs.Inouts as spec;

use cell_rows::Places;
use lib_core::{Memory, Name};
use rtlil_text::{DocModule, Item};
use std::alloc::Global;

/// The modules of a file: their places by name, and the names of their inouts.
#[derive(Drop)]
pub struct Inouts {
    pub(crate) modules: Places,
    pub(crate) ports: Vec<Places>,
}

/// The names of modules.
fn module_names(alloc: Global, modules: &[DocModule]) -> Result<Vec<Name>, Memory>
    ensures { IfOk result (λ names. names.items ≡ map module_name modules.now) }
{
    let mut names = Vec::with_capacity(alloc, modules.len())?;
    for doc in modules {
        names.push(doc.name.copy(alloc)?)?;
    }
    Ok(names)
}

/// Puts the name of an item behind the others, if it is an inout.
fn push_inout(alloc: Global, names: &mut Vec<Name>, item: &Item) -> Result<(), Memory>
    ensures { OnOk result (names.new.items ≡ names.old.items ++ spec.inout_name item.now) }
{
    if let Item::Wire(wire) = item {
        if wire.input && wire.output {
            names.push(wire.name.copy(alloc)?)?;
        }
    }
    Ok(())
}

fn inout_names(alloc: Global, items: &[Item]) -> Result<Vec<Name>, Memory>
    ensures { IfOk result (λ names. names.items ≡ flat_map spec.inout_name items.now) }
{
    let mut names = Vec::new(alloc);
    for item in items {
        push_inout(alloc, &mut names, item)?;
    }
    Ok(names)
}

fn inouts_of(alloc: Global, doc: &DocModule) -> Result<Places, Memory>
    ensures { IfOk result (λ places. spec.AreInouts doc.now places) }
{
    let names = inout_names(alloc, doc.items.as_slice())?;
    Places::new(alloc, names.as_slice())
}

fn all_inouts(alloc: Global, modules: &[DocModule]) -> Result<Vec<Places>, Memory>
    ensures { IfOk result (λ ports. spec.AllInouts modules.now ports.items) }
{
    let mut ports = Vec::with_capacity(alloc, modules.len())?;
    let mut rest = modules;
    while let [doc, tail @ ..] = rest {
        ports.push(inouts_of(alloc, doc)?)?;
        rest = tail;
    }
    Ok(ports)
}

fn inout_at(ports: &[Places], pin: &Name, place: Option<u32>) -> bool
    ensures { result ≡ spec.module_has ports.now pin.now place }
{
    match place {
        None => false,
        Some(place) => match ports.get(place as usize) {
            None => false,
            Some(places) => places.place(pin).is_some(),
        },
    }
}

impl Inouts {
    /// The inouts of these modules.
    pub fn new(alloc: Global, modules: &[DocModule]) -> Result<Inouts, Memory>
        ensures { IfOk result (λ shown. spec.ShowsInouts modules.now shown) }
    {
        let names = module_names(alloc, modules)?;
        Ok(Inouts {
            modules: Places::new(alloc, names.as_slice())?,
            ports: all_inouts(alloc, modules)?,
        })
    }

    /// Whether the type is a module and the pin is an inout of it. It takes no memory.
    pub(crate) fn has(&self, kind: &Name, pin: &Name) -> bool
        ensures { result ≡ spec.has_inout self.now kind.now pin.now }
    {
        let place = self.modules.place(kind);
        inout_at(self.ports.as_slice(), pin, place)
    }
}
