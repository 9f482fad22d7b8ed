//! Names that have to be new: none may be equal to one before it.
ghost use Rattle.std.specs.Prelude.{◌≡◌, ◌++◌, ◌∷◌, [], true, not, map, IfOk};
ghost use Rattle.rtlil_text.specs.Grammar.{has, module_name};
ghost use Rattle.doc_fits.specs.Tests.{are_new, name_of_item, items_are_new, name_of_line, lines_are_new};

use indexmap::IndexSet;
use lib_core::{Memory, Name};
use rtlil_text::{CellLine, DocModule, Item};
use std::alloc::Global;
use std::marker::Model;

/// The items of a module that must not share a name.
#[derive(Clone, Copy)]
pub enum ItemKind {
    Wire,
    Memory,
    Cell,
}

/// The lines of a cell that must not share a name.
#[derive(Clone, Copy)]
pub enum LineKind {
    Parameter,
    Pin,
}

/// Names in order, none of them twice.
#[derive(Drop)]
struct Names<'a> {
    seen: IndexSet<&'a [u8]>,
}

impl<'a> Model for Names<'a> {
    ghost use Rattle.std.specs.Prelude.{List, ℕ, map};

    ghost Value = { List (List ℕ) };

    ghost view = { λ s. map (λ k. k.now) s.seen.keys };
}

impl<'a> Names<'a> {
    fn new(alloc: Global) -> Names<'a>
        ensures { result ≡ [] }
    {
        Names {
            seen: IndexSet::new(alloc),
        }
    }

    /// Notes a name. The answer is whether it is new.
    fn add(&mut self, name: &'a Name) -> Result<bool, Memory>
        ensures new { IfOk result (λ new. new ≡ not (has self.old name.now)) }
        ensures names { IfOk result (λ new. new ≡ true → self.new ≡ self.old ++ name.now ∷ []) }
    {
        Ok(self.seen.insert(name.as_slice())?)
    }
}

/// Notes the name of an item of this kind. The answer is whether it is new, or there is none.
#[tactic(auto, using(crate::proofs::Taking::one_is, crate::proofs::Taking::none_is))]
fn add_item<'a>(names: &mut Names<'a>, kind: ItemKind, item: &'a Item) -> Result<bool, Memory>
    ensures new { IfOk result (λ new. new ≡ are_new names.old (name_of_item kind item.now)) }
    ensures names { IfOk result (λ new. new ≡ true → names.new ≡ names.old ++ name_of_item kind item.now) }
{
    match (kind, item) {
        (ItemKind::Wire, Item::Wire(wire)) => names.add(&wire.name),
        (ItemKind::Memory, Item::Mem(memory)) => names.add(&memory.name),
        (ItemKind::Cell, Item::Cell(cell)) => names.add(&cell.name),
        _ => Ok(true),
    }
}

/// Whether no two items of this kind have one name.
#[tactic(auto, using(crate::proofs::Taking::none_is))]
pub fn items_are_new(alloc: Global, kind: ItemKind, items: &[Item]) -> Result<bool, Memory>
    ensures { IfOk result (λ new. new ≡ items_are_new kind items.now) }
{
    let mut names = Names::new(alloc);
    let mut rest = items;
    while let [item, tail @ ..] = rest {
        if !add_item(&mut names, kind, item)? {
            return Ok(false);
        }
        rest = tail;
    }
    Ok(true)
}

/// Notes the name on a line of this kind. The answer is whether it is new, or there is none.
#[tactic(auto, using(crate::proofs::Taking::one_is, crate::proofs::Taking::none_is))]
fn add_line<'a>(names: &mut Names<'a>, kind: LineKind, line: &'a CellLine) -> Result<bool, Memory>
    ensures new { IfOk result (λ new. new ≡ are_new names.old (name_of_line kind line.now)) }
    ensures names { IfOk result (λ new. new ≡ true → names.new ≡ names.old ++ name_of_line kind line.now) }
{
    match (kind, line) {
        (LineKind::Parameter, CellLine::Param(parameter)) => names.add(&parameter.name),
        (LineKind::Pin, CellLine::Pin { name, value: _ }) => names.add(name),
        _ => Ok(true),
    }
}

/// Whether no two lines of this kind have one name.
#[tactic(auto, using(crate::proofs::Taking::none_is))]
pub fn lines_are_new(alloc: Global, kind: LineKind, lines: &[CellLine]) -> Result<bool, Memory>
    ensures { IfOk result (λ new. new ≡ lines_are_new kind lines.now) }
{
    let mut names = Names::new(alloc);
    let mut rest = lines;
    while let [line, tail @ ..] = rest {
        if !add_line(&mut names, kind, line)? {
            return Ok(false);
        }
        rest = tail;
    }
    Ok(true)
}

/// Whether no two modules have one name.
#[tactic(auto, using(crate::proofs::Taking::none_is))]
pub fn modules_are_new(alloc: Global, modules: &[DocModule]) -> Result<bool, Memory>
    ensures { IfOk result (λ new. new ≡ are_new [] (map module_name modules.now)) }
{
    let mut names = Names::new(alloc);
    let mut rest = modules;
    while let [within, tail @ ..] = rest {
        if !names.add(&within.name)? {
            return Ok(false);
        }
        rest = tail;
    }
    Ok(true)
}
