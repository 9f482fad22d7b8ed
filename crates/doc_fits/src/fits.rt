//! From a document to the answer.
ghost use Rattle.std.specs.Prelude.{◌≡◌, IfOk};
ghost use Rattle.std.specs.Bool.{Decides};
ghost use Rattle.std.specs.List.{list_all};
ghost use Rattle.rtlil_text.specs.Reads.{Writable};
ghost use Rattle.doc_fits.specs.Tests.{attribute_fits, attributes_fit, is_plain, parameter_fits, cell_parameter_fits, port_fits, wire_numbers_fit, wire_fits, memory_numbers_fit, memory_fits, line_fits, head_fits, lines_fit, item_fits, items_fit, module_fits, doc_fits};

use crate::names::{ItemKind, LineKind, items_are_new, lines_are_new, modules_are_new};
use crate::signal::is_signal;
use crate::tokens::{const_fits, int_fits, is_count, is_identifier, value_fits};
use lib_core::{List, Memory};
use rtlil_text::{
    CellLine, Doc, DocAttr, DocCell, DocFlag, DocMem, DocModule, DocParam, DocWire, Item,
};
use std::alloc::Global;

#[tactic(auto, unfolding(crate::specs::Tests::attribute_fits))]
fn attribute_fits(attribute: &DocAttr) -> bool
    ensures { result ≡ attribute_fits attribute.now }
{
    is_identifier(attribute.name.as_slice()) && const_fits(&attribute.value)
}

fn attributes_fit(attributes: &List<DocAttr>) -> bool
    ensures { result ≡ attributes_fit attributes.now }
{
    attributes
        .as_slice()
        .iter()
        .all(|attribute| attribute_fits(attribute))
}

fn is_plain(flag: DocFlag) -> bool
    ensures { result ≡ is_plain flag }
{
    match flag {
        DocFlag::Plain => true,
        DocFlag::Signed | DocFlag::Real => false,
    }
}

/// A parameter of a module: it is not marked, and may have no value.
#[tactic(auto, unfolding(crate::specs::Tests::parameter_fits))]
fn parameter_fits(parameter: &DocParam) -> bool
    ensures { result ≡ parameter_fits parameter.now }
{
    is_plain(parameter.flag)
        && is_identifier(parameter.name.as_slice())
        && value_fits(true, &parameter.value)
}

/// A parameter of a cell: it has a value.
#[tactic(auto, unfolding(crate::specs::Tests::cell_parameter_fits))]
fn cell_parameter_fits(parameter: &DocParam) -> bool
    ensures { result ≡ cell_parameter_fits parameter.now }
{
    is_identifier(parameter.name.as_slice()) && value_fits(false, &parameter.value)
}

/// The port's number, which is 0 where the wire is no port.
fn port_fits(wire: &DocWire) -> bool
    ensures { result ≡ port_fits wire.now }
{
    is_count(wire.port) && (wire.input || wire.output || wire.port == 0)
}

fn wire_numbers_fit(wire: &DocWire) -> bool
    ensures { result ≡ wire_numbers_fit wire.now }
{
    is_count(wire.width) && int_fits(wire.offset) && port_fits(wire)
}

#[tactic(auto, unfolding(crate::specs::Tests::wire_fits))]
fn wire_fits(wire: &DocWire) -> bool
    ensures { result ≡ wire_fits wire.now }
{
    attributes_fit(&wire.attrs) && is_identifier(wire.name.as_slice()) && wire_numbers_fit(wire)
}

fn memory_numbers_fit(memory: &DocMem) -> bool
    ensures { result ≡ memory_numbers_fit memory.now }
{
    is_count(memory.width) && is_count(memory.size) && is_count(memory.offset)
}

#[tactic(auto, unfolding(crate::specs::Tests::memory_fits))]
fn memory_fits(memory: &DocMem) -> bool
    ensures { result ≡ memory_fits memory.now }
{
    attributes_fit(&memory.attrs)
        && is_identifier(memory.name.as_slice())
        && memory_numbers_fit(memory)
}

#[tactic(auto, unfolding(crate::specs::Tests::line_fits))]
fn line_fits(line: &CellLine) -> bool
    ensures { result ≡ line_fits line.now }
{
    match line {
        CellLine::Param(parameter) => cell_parameter_fits(parameter),
        CellLine::Pin { name, value } => {
            is_identifier(name.as_slice()) && is_signal(value.as_slice())
        }
    }
}

fn each_line_fits(lines: &[CellLine]) -> bool
    ensures { result ≡ list_all (λ l. line_fits l) lines.now }
{
    lines.iter().all(|line| line_fits(line))
}

/// The lines of a cell, and that their names are new.
#[tactic(auto, unfolding(crate::specs::Tests::lines_fit))]
fn lines_fit(alloc: Global, lines: &[CellLine]) -> Result<bool, Memory>
    ensures { IfOk result (λ fits. fits ≡ lines_fit lines.now) }
{
    Ok(
        each_line_fits(lines)
            && lines_are_new(alloc, LineKind::Parameter, lines)?
            && lines_are_new(alloc, LineKind::Pin, lines)?,
    )
}

/// A cell without its lines.
#[tactic(auto, unfolding(crate::specs::Tests::head_fits))]
fn head_fits(cell: &DocCell) -> bool
    ensures { result ≡ head_fits cell.now }
{
    attributes_fit(&cell.attrs)
        && is_identifier(cell.kind.as_slice())
        && is_identifier(cell.name.as_slice())
}

#[tactic(auto, unfolding(crate::specs::Tests::item_fits))]
fn item_fits(alloc: Global, item: &Item) -> Result<bool, Memory>
    ensures { IfOk result (λ fits. fits ≡ item_fits item.now) }
{
    match item {
        Item::Param(parameter) => Ok(parameter_fits(parameter)),
        Item::Wire(wire) => Ok(wire_fits(wire)),
        Item::Mem(memory) => Ok(memory_fits(memory)),
        Item::Cell(cell) => Ok(head_fits(cell) && lines_fit(alloc, cell.lines.as_slice())?),
        Item::Connect { left, right } => {
            Ok(is_signal(left.as_slice()) && is_signal(right.as_slice()))
        }
    }
}

fn each_item_fits(alloc: Global, items: &[Item]) -> Result<bool, Memory>
    ensures { IfOk result (λ fits. fits ≡ list_all (λ i. item_fits i) items.now) }
{
    let mut rest = items;
    while let [item, tail @ ..] = rest {
        if !item_fits(alloc, item)? {
            return Ok(false);
        }
        rest = tail;
    }
    Ok(true)
}

/// The items of a module, and that their names are new.
#[tactic(auto, unfolding(crate::specs::Tests::items_fit))]
fn items_fit(alloc: Global, items: &[Item]) -> Result<bool, Memory>
    ensures { IfOk result (λ fits. fits ≡ items_fit items.now) }
{
    Ok(
        each_item_fits(alloc, items)?
            && items_are_new(alloc, ItemKind::Wire, items)?
            && items_are_new(alloc, ItemKind::Memory, items)?
            && items_are_new(alloc, ItemKind::Cell, items)?,
    )
}

#[tactic(auto, unfolding(crate::specs::Tests::module_fits))]
fn module_fits(alloc: Global, within: &DocModule) -> Result<bool, Memory>
    ensures { IfOk result (λ fits. fits ≡ module_fits within.now) }
{
    Ok(
        attributes_fit(&within.attrs)
            && is_identifier(within.name.as_slice())
            && items_fit(alloc, within.items.as_slice())?,
    )
}

fn each_module_fits(alloc: Global, modules: &[DocModule]) -> Result<bool, Memory>
    ensures { IfOk result (λ fits. fits ≡ list_all (λ m. module_fits m) modules.now) }
{
    let mut rest = modules;
    while let [within, tail @ ..] = rest {
        if !module_fits(alloc, within)? {
            return Ok(false);
        }
        rest = tail;
    }
    Ok(true)
}

#[tactic(auto, unfolding(crate::specs::Tests::doc_fits))]
fn doc_fits(alloc: Global, doc: &Doc) -> Result<bool, Memory>
    ensures { IfOk result (λ fits. fits ≡ doc_fits doc.now) }
{
    let modules = doc.modules.as_slice();
    Ok(each_module_fits(alloc, modules)? && modules_are_new(alloc, modules)?)
}

/// Whether some text reads as the document, so that it can be printed. The one error is want of memory.
#[tactic(auto, using(crate::proofs::Documents::decided))]
pub fn is_writable(alloc: Global, doc: &Doc) -> Result<bool, Memory>
    ensures { IfOk result (λ fits. Decides fits (Writable doc.now)) }
{
    doc_fits(alloc, doc)
}
