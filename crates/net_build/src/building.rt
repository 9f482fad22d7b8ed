//! The modules of a document, one after the other.
ghost use Rattle.std.specs.Prelude.{◌≡◌, ◌∷◌, [], ◌++◌, ℕ, List as Seq, IfOk, IfErr, OnOk};
ghost use Rattle.rtlil_text.specs.Grammar.{All};
ghost use Rattle.rtlil_text.specs.Reads.{Writable};
ghost use Rattle.cell_rows.specs.Kinds.{found, place_of};
ghost use Rattle.net_build.specs.Builds as spec;
ghost use Rattle.net_build.specs.Means.{ram_names};
ghost use Rattle.net_build.specs.Steps.{HasNewWires, IsAround};

use crate::fault::{BuildFault, Refusal, fault_in};
use crate::module::{Around, build_module};
use cell_rows::Places;
use lib_core::{Library, List, Memory, Name, RamKind};
use net_checks::Inouts;
use net_core::{Design, Module};
use net_gather::Faces;
use net_wires::BuildCode;
use rtlil_text::{Doc, DocModule};
use std::alloc::Global;

/// Want of memory.
fn no_memory(alloc: Global) -> BuildFault
    ensures { spec.IsWant result }
{
    BuildFault {
        module: Name::from_vec(Vec::new(alloc)),
        name: Name::from_vec(Vec::new(alloc)),
        code: BuildCode::Memory,
        cells: List::from_vec(Vec::new(alloc)),
        seen: 0,
    }
}

fn ram_names(alloc: Global, rams: &[RamKind]) -> Result<Vec<Name>, Memory>
    ensures { IfOk result (λ names. names.items ≡ spec.names_of_rams rams.now) }
{
    let mut names = Vec::with_capacity(alloc, rams.len())?;
    let mut rest = rams;
    while let [kind, tail @ ..] = rest {
        names.push(kind.name.copy(alloc)?)?;
        rest = tail;
    }
    Ok(names)
}

/// The places of the RAMs of a library by their names.
fn rams_of(alloc: Global, library: &Library) -> Result<Places, Memory>
    ensures { IfOk result (λ places. (name : Seq ℕ) → found places name ≡ place_of (ram_names library.now) name) }
{
    let names = ram_names(alloc, library.rams.as_slice())?;
    Places::new(alloc, names.as_slice())
}

/// The fault of a module that is refused.
fn refused(alloc: Global, doc: &DocModule, refusal: Refusal) -> BuildFault
    ensures { spec.IsFaultOf doc.now refusal result }
{
    let Refusal::Broken(broken) = refusal else {
        return no_memory(alloc);
    };
    match doc.name.copy(alloc) {
        Ok(name) => fault_in(name, broken),
        Err(_) => no_memory(alloc),
    }
}

/// Puts a module behind the others.
fn put(alloc: Global, built: &mut Vec<Module>, module: Module) -> Result<(), BuildFault>
    ensures pushed { OnOk result (built.new.items ≡ built.old.items ++ «module» ∷ []) }
    ensures want { IfErr result spec.IsWant }
{
    match built.push(module) {
        Ok(()) => Ok(()),
        Err(_) => Err(no_memory(alloc)),
    }
}

/// What these modules mean, or the fault of the first that is refused.
fn build_modules(
    alloc: Global,
    around: &Around<'_>,
    modules: &[DocModule],
) -> Result<Vec<Module>, BuildFault>
    requires around { IsAround around.now }
    requires new { All HasNewWires modules.now }
    ensures { spec.BuildsAll around.now.library.now around.now.modules.now modules.now result }
{
    let mut built = Vec::new(alloc);
    let mut rest = modules;
    while let [doc, tail @ ..] = rest {
        let module = match build_module(alloc, around, doc) {
            Err(refusal) => return Err(refused(alloc, doc, refusal)),
            Ok(module) => module,
        };
        if let Err(fault) = put(alloc, &mut built, module) {
            return Err(fault);
        }
        rest = tail;
    }
    Ok(built)
}

/// What the modules are looked up in.
#[derive(Drop)]
struct Tables {
    rams: Places,
    faces: Faces,
    inouts: Inouts,
}

fn tables_of(alloc: Global, library: &Library, modules: &[DocModule]) -> Result<Tables, Memory>
    ensures { IfOk result (spec.AreTables library.now modules.now) }
{
    Ok(Tables {
        rams: rams_of(alloc, library)?,
        faces: Faces::new(alloc, modules)?,
        inouts: Inouts::new(alloc, modules)?,
    })
}

/// The design that a document means under a library: Ok exactly where no rule is broken, with that
/// design; else the first breach, module by module in file order. In a module wires and memories are
/// looked at first, then cells, then connects, each in file order; then drivers, inouts, clocks, rings
/// of connects, and loops of cells. Want of memory is the code `Memory`. The document is one that some
/// text reads as.
#[tactic(auto, using(crate::proofs::Many::writable_new))]
pub fn build(alloc: Global, doc: &Doc, library: &Library) -> Result<Design, BuildFault>
    requires { Writable doc.now }
    ensures { spec.Builds doc.now library.now result }
{
    let modules = doc.modules.as_slice();
    let Ok(tables) = tables_of(alloc, library, modules) else {
        return Err(no_memory(alloc));
    };
    let around = Around {
        library,
        modules,
        rams: &tables.rams,
        faces: &tables.faces,
        inouts: &tables.inouts,
    };
    match build_modules(alloc, &around, modules) {
        Err(fault) => Err(fault),
        Ok(built) => Ok(Design {
            modules: List::from_vec(built),
        }),
    }
}
