//! Whether two modules, and two designs, are the same but for the numbers of nets, added wires and `\init`.
ghost use Rattle.std.specs.Prelude.{◌≡◌, true, IfOk};
ghost use Rattle.net_same.specs.Nets.{sent};
ghost use Rattle.std.specs.List.{AllByRecursion};
ghost use Rattle.net_same.specs.Same.{HeadsSame, CellsSame, IsSame, AllSame, AreSame};
ghost use Rattle.net_same.specs.Own.{NetsAreOwn, DesignNetsAreOwn};
ghost use Rattle.net_same.specs.Learning.{ModulesTeach, AreCellsSeen, IsModuleSeen};

use crate::alike::Alike;
use crate::nets::Wired;
use crate::tables::Tables;
use crate::wires::{learn_wires, wires_are_same};
use lib_core::Memory;
use net_core::{Design, Module};
use std::alloc::Global;

/// Enters which nets of one module stand where those of the other do.
fn learn(old: &Module, new: &Module, tables: &mut Tables)
    ensures { ModulesTeach old.now new.now tables.old tables.new }
{
    learn_wires(old.wires.as_slice(), new.wires.as_slice(), tables);
    old.mems.learn(&new.mems, tables);
    old.combs.learn(&new.combs, tables);
    old.regs.learn(&new.regs, tables);
    old.rams.learn(&new.rams, tables);
    old.carried.learn(&new.carried, tables);
}

/// Whether name and attributes are equal, and memories are gathered in both.
fn heads_are_same(old: &Module, new: &Module) -> bool
    ensures sound { result ≡ true → HeadsSame old.now new.now }
    ensures complete { HeadsSame old.now new.now → result ≡ true }
{
    old.name.is_alike(&new.name)
        & old.attrs.is_alike(&new.attrs)
        & old.declared.as_slice().is_empty()
        & new.declared.as_slice().is_empty()
        & old.parts.as_slice().is_empty()
        & new.parts.as_slice().is_empty()
}

/// Whether memories and cells are others with the nets that the tables say.
fn cells_are_same(old: &Module, new: &Module, tables: &Tables) -> bool
    ensures sound { result ≡ true → CellsSame (sent tables.now) old.now new.now }
    ensures complete { AreCellsSeen old.now new.now tables.now result }
{
    old.mems.is_renamed(&new.mems, tables)
        & old.combs.is_renamed(&new.combs, tables)
        & old.regs.is_renamed(&new.regs, tables)
        & old.rams.is_renamed(&new.rams, tables)
        & old.carried.is_renamed(&new.carried, tables)
}

/// Whether two modules are the same with the nets that the tables say.
#[tactic(auto, using(crate::proofs::Joining::same_by))]
fn is_same_under(old: &Module, new: &Module, tables: &Tables) -> bool
    ensures sound { result ≡ true → IsSame old.now new.now }
    ensures complete { IsModuleSeen old.now new.now tables.now result }
{
    heads_are_same(old, new)
        & tables.are_told()
        & wires_are_same(old.wires.as_slice(), new.wires.as_slice(), tables)
        & cells_are_same(old, new, tables)
}

/// Whether a module is another, but for the numbers of its nets, added wires that are no ports, and the
/// attributes `\init` of wires. Modules with declared memories or with parts of memories are never the
/// same. Where each net that the two mention is one of their own, all that are the same are answered yes.
/// It takes memory for a number for each net of both, and fails for want of it alone.
pub fn is_same(alloc: Global, old: &Module, new: &Module) -> Result<bool, Memory>
    ensures sound { IfOk result (λ same. same ≡ true → IsSame old.now new.now) }
    ensures complete { IfOk result (λ same. NetsAreOwn old.now → NetsAreOwn new.now → IsSame old.now new.now → same ≡ true) }
{
    let mut tables = Tables::new(alloc, old.nets, new.nets)?;
    learn(old, new, &mut tables);
    Ok(is_same_under(old, new, &tables))
}

/// Whether modules are others, in order.
fn all_same(alloc: Global, olds: &[Module], news: &[Module]) -> Result<bool, Memory>
    ensures sound { IfOk result (λ same. same ≡ true → AllSame olds.now news.now) }
    ensures complete { IfOk result (λ same. AllByRecursion NetsAreOwn olds.now → AllByRecursion NetsAreOwn news.now → AllSame olds.now news.now → same ≡ true) }
{
    let mut lefts = olds;
    let mut rights = news;
    while let [old, tail @ ..] = lefts {
        let [new, more @ ..] = rights else {
            return Ok(false);
        };
        if !is_same(alloc, old, new)? {
            return Ok(false);
        }
        lefts = tail;
        rights = more;
    }
    Ok(rights.is_empty())
}

/// Whether a design has the modules of another, each the same; yes for all that are, where nets are their
/// own. It fails for want of memory alone.
pub fn are_same(alloc: Global, old: &Design, new: &Design) -> Result<bool, Memory>
    ensures sound { IfOk result (λ same. same ≡ true → AreSame old.now new.now) }
    ensures complete { IfOk result (λ same. DesignNetsAreOwn old.now → DesignNetsAreOwn new.now → AreSame old.now new.now → same ≡ true) }
{
    all_same(alloc, old.modules.as_slice(), new.modules.as_slice())
}
