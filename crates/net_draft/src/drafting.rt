//! Designs and their modules as documents.
ghost use Rattle.std.specs.Prelude.{◌≡◌, ◌++◌, codes, map, IfOk, OnOk};
ghost use Rattle.net_draft.specs.Cells as drafted;
ghost use Rattle.net_draft.specs.Connects.{connects};
ghost use Rattle.net_draft.specs.Drafts as spec;
ghost use Rattle.net_draft.specs.Naming as naming;
ghost use Rattle.net_draft.specs.Taking as taking;

use crate::cells::{cells_of, push_cells};
use crate::connects::push_connects;
use crate::counts::count_of;
use crate::homes::{Home, mark_cells, others, settle_nets, wire_homes};
use crate::naming::Taken;
use crate::signals::{Face, Sheet};
use crate::starts::{Start, starts_of};
use crate::taking::{take_mems, taken_names};
use crate::wires::{doc_attrs, faces_of, push_added, push_wires};
use lib_core::{Library, List, Memory, Name};
use net_core::{Carried, Design, Mem, Module, Wire};
use net_live::is_sound;
use rtlil_text::{Doc, DocModule, Item};
use std::alloc::Global;

/// A name for the added wire.
fn added_name(alloc: Global, taken: &mut Taken, mems: &[Mem]) -> Result<Name, Memory>
    ensures { IfOk result (naming.IsFresh (taking.with_mems taken.old mems.now) (codes "$net")) }
{
    take_mems(alloc, taken, mems)?;
    let name = taken.fresh(alloc, b"$net")?;
    Ok(name)
}

/// The nets at the pins of these cells and of those that the module carries.
fn marks_of(alloc: Global, module: &Module, cells: &[Carried]) -> Result<Vec<bool>, Memory>
    ensures { IfOk result (λ marks. marks.items ≡ spec.marks_of «module».now cells.now) }
{
    let mut marks = Vec::from_elem(alloc, false, module.nets as usize)?;
    mark_cells(&mut marks, cells);
    mark_cells(&mut marks, module.carried.as_slice());
    Ok(marks)
}

/// The nets that some cell has and no wire.
#[tactic(auto, unfolding(crate::specs::Drafts::added_nets))]
fn added_nets(alloc: Global, module: &Module, cells: &[Carried]) -> Result<Vec<u32>, Memory>
    ensures { IfOk result (λ nets. nets.items ≡ spec.added_nets «module».now cells.now) }
{
    let homes = wire_homes(alloc, module.nets, module.wires.as_slice())?;
    let marks = marks_of(alloc, module, cells)?;
    others(alloc, homes.as_slice(), marks.as_slice())
}

/// The home of each net, where these ones are at home in the added wire.
fn homes_of(alloc: Global, module: &Module, nets: &[u32]) -> Result<List<Option<Home>>, Memory>
    ensures { IfOk result (λ homes. homes ≡ spec.homes_of «module».now nets.now) }
{
    let wires = module.wires.as_slice();
    let place = count_of(wires.len())?;
    let mut homes = wire_homes(alloc, module.nets, wires)?;
    settle_nets(&mut homes, place, nets)?;
    Ok(List::from_vec(homes))
}

fn all_faces(alloc: Global, wires: &[Wire], name: &Name, nets: &[u32]) -> Result<List<Face>, Memory>
    ensures { IfOk result (λ faces. faces ≡ spec.all_faces wires.now name.now nets.now) }
{
    let added = Face {
        name: name.copy(alloc)?,
        width: count_of(nets.len())?,
    };
    let mut faces = faces_of(alloc, wires)?;
    faces.push(added)?;
    Ok(List::from_vec(faces))
}

/// The wires of a module, and behind them one of this name and these nets, with the homes of all nets.
#[tactic(auto, unfolding(crate::specs::Drafts::sheet_of))]
fn sheet_of(alloc: Global, module: &Module, name: &Name, nets: &[u32]) -> Result<Sheet, Memory>
    ensures { IfOk result (λ sheet. sheet ≡ spec.sheet_of «module».now name.now nets.now) }
{
    Ok(Sheet {
        faces: all_faces(alloc, module.wires.as_slice(), name, nets)?,
        homes: homes_of(alloc, module, nets)?,
    })
}

/// Puts the wires of a module and the added one at the end.
fn push_all_wires(
    alloc: Global,
    items: &mut Vec<Item>,
    module: &Module,
    name: &Name,
    nets: &[u32],
) -> Result<(), Memory>
    ensures { OnOk result (items.new.items ≡ items.old.items ++ spec.all_wires «module».now name.now nets.now) }
{
    let starts = starts_of(
        alloc,
        module.nets,
        module.regs.as_slice(),
        module.carried.as_slice(),
    )?;
    push_wires(alloc, items, starts.as_slice(), module.wires.as_slice())?;
    push_added(alloc, items, starts.as_slice(), name, nets)?;
    Ok(())
}

/// Puts these cells, those that a module carries, and its connects at the end.
fn push_cells_and_connects(
    alloc: Global,
    items: &mut Vec<Item>,
    module: &Module,
    sheet: &Sheet,
    cells: &[Carried],
) -> Result<(), Memory>
    ensures { OnOk result (items.new.items ≡ ((items.old.items ++ drafted.cell_items sheet.now cells.now) ++ drafted.cell_items sheet.now «module».now.carried) ++ connects sheet.now 0 «module».now.wires) }
{
    push_cells(alloc, items, sheet, cells)?;
    push_cells(alloc, items, sheet, module.carried.as_slice())?;
    push_connects(alloc, items, sheet, module.wires.as_slice())?;
    Ok(())
}

/// Wires, cells and connects, with the nets of the added wire.
fn items_on(
    alloc: Global,
    module: &Module,
    sheet: &Sheet,
    name: &Name,
    nets: &[u32],
    cells: &[Carried],
) -> Result<List<Item>, Memory>
    ensures { IfOk result (λ items. items ≡ spec.items_on «module».now sheet.now name.now nets.now cells.now) }
{
    let mut items = Vec::new(alloc);
    push_all_wires(alloc, &mut items, module, name, nets)?;
    push_cells_and_connects(alloc, &mut items, module, sheet, cells)?;
    Ok(List::from_vec(items))
}

/// What stands in the document of a module: wires, cells and connects.
#[tactic(auto, unfolding(crate::specs::Drafts::items_of))]
fn items_of(
    alloc: Global,
    module: &Module,
    name: &Name,
    cells: &[Carried],
) -> Result<List<Item>, Memory>
    ensures { IfOk result (λ items. items ≡ spec.items_of «module».now name.now cells.now) }
{
    let nets = added_nets(alloc, module, cells)?;
    let sheet = sheet_of(alloc, module, name, nets.as_slice())?;
    items_on(alloc, module, &sheet, name, nets.as_slice(), cells)
}

/// A module, with these cells beside those that it carries, as a document.
fn doc_module(
    alloc: Global,
    module: &Module,
    name: &Name,
    cells: &[Carried],
) -> Result<DocModule, Memory>
    ensures { IfOk result (λ written. written ≡ spec.doc_module «module».now name.now cells.now) }
{
    Ok(DocModule {
        attrs: doc_attrs(alloc, module.attrs.as_slice())?,
        name: module.name.copy(alloc)?,
        items: items_of(alloc, module, name, cells)?,
    })
}

/// A module whose memories fit as a document.
fn draft_fitting(alloc: Global, module: &Module, lib: &Library) -> Result<DocModule, Memory>
    requires { drafted.AllFit «module».now.mems }
    ensures { IfOk result (spec.IsDrafted lib.now «module».now) }
{
    let mut taken = taken_names(alloc, module)?;
    let cells = cells_of(alloc, module, lib, &mut taken)?;
    let added = added_name(alloc, &mut taken, module.mems.as_slice())?;
    doc_module(alloc, module, &added, cells.as_slice())
}

/// A module as a document. One that is not sound counts as want of memory.
#[tactic(auto, using(crate::proofs::Fitting::sound_fits))]
fn draft_module(alloc: Global, module: &Module, lib: &Library) -> Result<DocModule, Memory>
    ensures { IfOk result (spec.IsDrafted lib.now «module».now) }
{
    if !is_sound(alloc, lib, module)? {
        return Err(Memory);
    }
    draft_fitting(alloc, module, lib)
}

/// A document that says the design, module by module. The document of a module has its wires, then the
/// added wire `$net` for nets that no wire has, logic cells, registers, memories, RAM cells and carried
/// cells, and last the connects. A module that is not sound, as one with memories in parts, a memory
/// that was cut from another, and a RAM cell whose variant the library lacks count as want of memory.
pub fn draft(alloc: Global, design: &Design, lib: &Library) -> Result<Doc, Memory>
    ensures { IfOk result (λ doc. spec.AreDrafted lib.now design.now.modules doc.modules) }
{
    Ok(Doc {
        modules: List::from_vec(drafts(alloc, design.modules.as_slice(), lib)?),
    })
}

/// Modules as documents, one by one.
#[tactic(auto, using(crate::proofs::Joining::begin, crate::proofs::Joining::next, crate::proofs::Joining::end))]
fn drafts(alloc: Global, modules: &[Module], lib: &Library) -> Result<Vec<DocModule>, Memory>
    ensures { IfOk result (λ written. spec.AreDrafted lib.now modules.now written.items) }
{
    let mut written = Vec::with_capacity(alloc, modules.len())?;
    let mut rest = modules;
    while let [module, tail @ ..] = rest {
        written.push(draft_module(alloc, module, lib)?)?;
        rest = tail;
    }
    Ok(written)
}
