//! One module of a document.
ghost use Rattle.std.specs.Prelude.{◌≡◌, ◌<◌, ◌^◌, ◌∷◌, [], map, length, get_or, slice_get, IfOk};
ghost use Rattle.std.specs.List.{flat_map};
ghost use Rattle.rtlil_text.specs.Grammar.{AreDistinct, wire_name};
ghost use Rattle.net_checks.specs.Checks.{IsSound};
ghost use Rattle.net_checks.specs.Names.{fault_of};
ghost use Rattle.net_loops.specs.Loops.{IsLoopAnswer, nodes_in};
ghost use Rattle.net_checks.specs.Checks.{IsChecked};
ghost use Rattle.net_build.specs.Builds.{BuildsModule};
ghost use Rattle.net_build.specs.Faults as faults;
ghost use Rattle.net_build.specs.Means.{context_in, gathered_in};
ghost use Rattle.net_build.specs.Steps as steps;

use crate::fault::{Refusal, Refused, broken_by};
use crate::limits::{are_below, are_within};
use cell_rows::Places;
use lib_core::{Library, List, Memory, Name};
use net_checks::{Checked, Inouts, ModuleHalt, check, laws, module_fault};
use net_core::Module;
use net_gather::{Faces, Fault, Gathered, Halt, gather};
use net_loops::{NetNode, first_loop};
use net_module::{Assembled, assemble};
use net_wires::BuildCode;
use raw_cells::RawCell;
use rtlil_text::{DocModule, Item};
use std::alloc::Global;

/// What stands around the modules of a document.
#[derive(Drop)]
pub(crate) struct Around<'a> {
    pub library: &'a Library,
    pub modules: &'a [DocModule],
    /// The RAMs of the library, by name.
    pub rams: &'a Places,
    pub faces: &'a Faces,
    pub inouts: &'a Inouts,
}

fn refuse_at(alloc: Global, items: &[Item], fault: Fault) -> Refusal
    ensures { steps.RefusesAt (fault_of items.now fault) result }
{
    match module_fault(alloc, items, fault) {
        Ok(named) => Refusal::Broken(broken_by(alloc, named)),
        Err(_) => Refusal::Memory,
    }
}

fn refuse_halt(alloc: Global, items: &[Item], halt: Halt) -> Refusal
    ensures { steps.RefusesHalt items.now halt result }
{
    match halt {
        Halt::Memory => Refusal::Memory,
        Halt::Broken(fault) => refuse_at(alloc, items, fault),
    }
}

fn refuse_module(alloc: Global, halt: ModuleHalt) -> Refusal
    ensures { steps.RefusesModule halt result }
{
    match halt {
        ModuleHalt::Memory => Refusal::Memory,
        ModuleHalt::Broken(fault) => Refusal::Broken(broken_by(alloc, fault)),
    }
}

/// The cells, their pins and the connects of a module.
fn gather_module(alloc: Global, around: &Around<'_>, doc: &DocModule) -> Result<Gathered, Refusal>
    requires around { steps.IsAround around.now }
    requires new { AreDistinct (flat_map wire_name doc.now.items) }
    ensures { steps.Gathers around.now.library.now around.now.modules.now doc.now result }
{
    let items = doc.items.as_slice();
    match gather(alloc, around.library, around.rams, around.faces, items) {
        Ok(gathered) => Ok(gathered),
        Err(halt) => Err(refuse_halt(alloc, items, halt)),
    }
}

/// The bits and the clocks of the places of a module.
fn check_module(
    alloc: Global,
    inouts: &Inouts,
    doc: &DocModule,
    gathered: &Gathered,
) -> Result<Checked, Refusal>
    requires new { AreDistinct (flat_map wire_name doc.now.items) }
    requires sound { IsSound doc.now.items gathered.now }
    ensures { steps.Checks inouts.now doc.now gathered.now result }
{
    laws::answers_are_there();
    match check(alloc, inouts, doc.items.as_slice(), gathered) {
        Ok(checked) => Ok(checked),
        Err(halt) => Err(refuse_module(alloc, halt)),
    }
}

fn cell_name(alloc: Global, cells: &[RawCell], cell: u32) -> Result<Name, Memory>
    ensures { IfOk result (λ name. name ≡ faults.cell_name (slice_get cells.now cell)) }
{
    match cells.get(cell as usize) {
        Some(cell) => cell.name.copy(alloc),
        None => Ok(Name::from_vec(Vec::new(alloc))),
    }
}

fn owner_of(owners: &[u32], node: u32) -> u32
    ensures { result ≡ get_or owners.now node 0 }
{
    match owners.get(node as usize) {
        Some(owner) => *owner,
        None => 0,
    }
}

/// The names of the cells to which the nodes of a loop belong.
fn loop_names(
    alloc: Global,
    cells: &[RawCell],
    owners: &[u32],
    cycle: &[u32],
) -> Result<List<Name>, Memory>
    ensures { IfOk result (λ names. names ≡ faults.loop_names cells.now owners.now cycle.now) }
{
    let mut names = Vec::with_capacity(alloc, cycle.len())?;
    let mut rest = cycle;
    while let [node, tail @ ..] = rest {
        names.push(cell_name(alloc, cells, owner_of(owners, *node))?)?;
        rest = tail;
    }
    Ok(List::from_vec(names))
}

fn first_name(alloc: Global, names: &[Name]) -> Result<Name, Memory>
    ensures { IfOk result (λ name. name ≡ faults.first_name names.now) }
{
    match names {
        [] => Ok(Name::from_vec(Vec::new(alloc))),
        [first, ..] => first.copy(alloc),
    }
}

/// A loop through these cells.
fn looped(alloc: Global, names: List<Name>) -> Result<Refused, Memory>
    ensures { IfOk result (λ broken. broken ≡ faults.looped names) }
{
    Ok(Refused {
        name: first_name(alloc, names.as_slice())?,
        code: BuildCode::CombLoop,
        cells: names,
        seen: 0,
    })
}

fn loop_of(
    alloc: Global,
    cells: &[RawCell],
    owners: &[u32],
    cycle: &[u32],
) -> Result<Refused, Memory>
    ensures { IfOk result (λ broken. broken ≡ faults.looped (faults.loop_names cells.now owners.now cycle.now)) }
{
    let names = loop_names(alloc, cells, owners, cycle)?;
    looped(alloc, names)
}

/// A refusal for this loop.
fn refuse_loop(alloc: Global, cells: &[RawCell], owners: &[u32], cycle: &[u32]) -> Refusal
    ensures { steps.RefusesLoop (faults.looped (faults.loop_names cells.now owners.now cycle.now)) result }
{
    match loop_of(alloc, cells, owners, cycle) {
        Ok(broken) => Refusal::Broken(broken),
        Err(_) => Refusal::Memory,
    }
}

/// The first loop of nodes that number fewer than numbers of 32 bits can name.
fn first_ring(alloc: Global, nets: u32, nodes: &[NetNode]) -> Result<Option<List<u32>>, Memory>
    ensures { IfOk result (IsLoopAnswer (nodes_in nodes.now)) }
{
    if nodes.len() >= 4_294_967_296 || !are_below(nets, nodes) {
        return Err(Memory);
    }
    let found = first_loop(alloc, nets, nodes)?;
    Ok(found)
}

/// The module, where its nodes have an order.
fn order_module(alloc: Global, cells: &[RawCell], assembled: Assembled) -> Result<Module, Refusal>
    ensures { steps.Orders cells.now assembled result }
{
    let Assembled {
        module,
        nodes,
        owners,
    } = assembled;
    match first_ring(alloc, module.nets, nodes.as_slice()) {
        Err(_) => Err(Refusal::Memory),
        Ok(None) => Ok(module),
        Ok(Some(cycle)) => Err(refuse_loop(alloc, cells, owners.as_slice(), cycle.as_slice())),
    }
}

/// A module whose places have their bits and clocks.
fn build_checked(
    alloc: Global,
    around: &Around<'_>,
    doc: &DocModule,
    gathered: &Gathered,
    checked: &Checked,
) -> Result<Module, Refusal>
    requires { steps.IsSoFar around.now doc.now gathered.now checked.now }
    ensures { BuildsModule around.now.library.now around.now.modules.now doc.now result }
{
    let cells = gathered.cells.as_slice();
    if !are_within(cells) {
        return Err(Refusal::Memory);
    }
    match assemble(
        alloc,
        around.library,
        &checked.places,
        checked.roots.as_slice(),
        doc,
        cells,
    ) {
        Err(_) => Err(Refusal::Memory),
        Ok(assembled) => order_module(alloc, cells, assembled),
    }
}

/// A module with which nothing is wrong but perhaps its drivers, inouts, clocks and loops.
#[tactic(auto, using(crate::proofs::Built::refused_checked))]
fn build_gathered(
    alloc: Global,
    around: &Around<'_>,
    doc: &DocModule,
    gathered: &Gathered,
) -> Result<Module, Refusal>
    requires around { steps.IsAround around.now }
    requires new { AreDistinct (flat_map wire_name doc.now.items) }
    requires sound { faults.gather_faults around.now.library.now around.now.modules.now doc.now ≡ [] }
    requires gathered { gathered.now ≡ gathered_in around.now.library.now around.now.modules.now doc.now }
    ensures { BuildsModule around.now.library.now around.now.modules.now doc.now result }
{
    laws::gathered_is_sound();
    match check_module(alloc, around.inouts, doc, gathered) {
        Err(refusal) => Err(refusal),
        Ok(checked) => build_checked(alloc, around, doc, gathered, &checked),
    }
}

/// What a module of a document means, or the first rule that it breaks.
#[tactic(auto, using(crate::proofs::Built::refused_first))]
pub(crate) fn build_module(
    alloc: Global,
    around: &Around<'_>,
    doc: &DocModule,
) -> Result<Module, Refusal>
    requires around { steps.IsAround around.now }
    requires new { AreDistinct (flat_map wire_name doc.now.items) }
    ensures { BuildsModule around.now.library.now around.now.modules.now doc.now result }
{
    match gather_module(alloc, around, doc) {
        Err(refusal) => Err(refusal),
        Ok(gathered) => build_gathered(alloc, around, doc, &gathered),
    }
}
