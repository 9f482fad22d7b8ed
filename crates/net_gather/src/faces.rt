//! The modules of a file, by which instances of them are known.
ghost use Rattle.std.specs.Prelude.{◌≡◌, ◌++◌, IfOk, OnOk, map};
ghost use Rattle.std.specs.List.{flat_map};
ghost use Rattle.cell_rows.specs.Kinds as kinds;
ghost use Rattle.rtlil_text.specs.Grammar.{module_name};
ghost use Rattle.net_gather.specs.Faces as faces;

use cell_rows::{Places, drives};
use cell_table::is_carried;
use lib_core::{Memory, Name};
use rtlil_text::{DocModule, Item};
use std::alloc::Global;

/// The modules of a file: their places by name, and the names of their outputs that are no inouts.
#[derive(Drop)]
pub struct Faces {
    pub(crate) modules: Places,
    pub(crate) outputs: Vec<Places>,
}

/// The names of modules.
fn module_names(alloc: Global, modules: &[DocModule]) -> Result<Vec<Name>, Memory>
    ensures { IfOk result (λ names. names.items ≡ map module_name modules.now) }
{
    let mut names = Vec::with_capacity(alloc, modules.len())?;
    for doc in modules {
        names.push(doc.name.copy(alloc)?)?;
    }
    Ok(names)
}

/// Puts the name of an item behind the others, if it is an output that is no inout.
fn push_output(alloc: Global, names: &mut Vec<Name>, item: &Item) -> Result<(), Memory>
    ensures { OnOk result (names.new.items ≡ names.old.items ++ faces.output_name item.now) }
{
    if let Item::Wire(wire) = item {
        if wire.output && !wire.input {
            names.push(wire.name.copy(alloc)?)?;
        }
    }
    Ok(())
}

fn output_names(alloc: Global, items: &[Item]) -> Result<Vec<Name>, Memory>
    ensures { IfOk result (λ names. names.items ≡ flat_map faces.output_name items.now) }
{
    let mut names = Vec::new(alloc);
    for item in items {
        push_output(alloc, &mut names, item)?;
    }
    Ok(names)
}

fn outputs_of(alloc: Global, doc: &DocModule) -> Result<Places, Memory>
    ensures { IfOk result (λ places. faces.AreOutputs doc.now places) }
{
    let names = output_names(alloc, doc.items.as_slice())?;
    Places::new(alloc, names.as_slice())
}

fn all_outputs(alloc: Global, modules: &[DocModule]) -> Result<Vec<Places>, Memory>
    ensures { IfOk result (λ outputs. faces.AllOutputs modules.now outputs.items) }
{
    let mut outputs = Vec::with_capacity(alloc, modules.len())?;
    let mut rest = modules;
    while let [doc, tail @ ..] = rest {
        outputs.push(outputs_of(alloc, doc)?)?;
        rest = tail;
    }
    Ok(outputs)
}

/// Whether an instance of the module at this place has the pin as an output; without a place the
/// type tells it.
fn instance_drives(outputs: &[Places], kind: &Name, pin: &Name, place: Option<u32>) -> bool
    ensures { result ≡ faces.instance_drives outputs.now kind.now pin.now place }
{
    match place {
        None => drives(kind.as_slice(), pin.as_slice()),
        Some(place) => match outputs.get(place as usize) {
            None => false,
            Some(places) => places.place(pin).is_some(),
        },
    }
}

fn is_carried_type(kind: &Name) -> bool
    ensures { result ≡ kinds.is_carried kind.now }
{
    is_carried(kind)
}

impl Faces {
    /// The faces of these modules.
    pub fn new(alloc: Global, modules: &[DocModule]) -> Result<Faces, Memory>
        ensures { IfOk result (λ shown. faces.Shows modules.now shown) }
    {
        let names = module_names(alloc, modules)?;
        Ok(Faces {
            modules: Places::new(alloc, names.as_slice())?,
            outputs: all_outputs(alloc, modules)?,
        })
    }

    /// Whether a kept cell of this type drives the pin. It takes no memory.
    pub(crate) fn drives(&self, kind: &Name, pin: &Name) -> bool
        ensures { result ≡ faces.faces_drive self.now kind.now pin.now }
    {
        if is_carried_type(kind) {
            return drives(kind.as_slice(), pin.as_slice());
        }
        let place = self.modules.place(kind);
        instance_drives(self.outputs.as_slice(), kind, pin, place)
    }
}
