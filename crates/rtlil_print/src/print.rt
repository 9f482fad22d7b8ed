//! From a document to its text.
ghost use Rattle.std.specs.Prelude.{◌≡◌, ◌++◌, OnOk, IfOk};
ghost use Rattle.std.specs.List.{flat_map};
ghost use Rattle.rtlil_lex.specs.declared.token.Word.TheVariants as word;
ghost use Rattle.rtlil_text.specs.Reads.{Reads, Writable};
ghost use Rattle.rtlil_print.specs.declared.line.Depth.TheVariants as depth;
ghost use Rattle.rtlil_print.specs.Print.{line, signal_text, wire_options, memory_options, name_text, attribute_text, attributes_text, flag_text, parameter_text, cell_line_text, cell_text, item_text, module_text, printed};

use crate::line::{
    Depth, push_begin, push_const, push_end, push_lone_word, push_name, push_spaced_word,
    push_value,
};
use crate::options::{push_memory_options, push_wire_options};
use crate::signal::push_signal;
use lib_core::{Memory, Name};
use rtlil_lex::Word;
use rtlil_text::{
    CellLine, Doc, DocAttr, DocCell, DocFlag, DocMem, DocModule, DocParam, DocWire, Item, Part,
};
use std::alloc::Global;

#[tactic(auto, unfolding(crate::specs::Print::line))]
fn push_attribute(text: &mut Vec<u8>, depth: Depth, attribute: &DocAttr) -> Result<(), Memory>
    ensures { OnOk result (text.new.items ≡ text.old.items ++ attribute_text depth attribute.now) }
{
    push_begin(text, depth, Word::Attribute)?;
    push_name(text, &attribute.name)?;
    push_const(text, &attribute.value)?;
    push_end(text)
}

fn push_attributes(text: &mut Vec<u8>, depth: Depth, attributes: &[DocAttr]) -> Result<(), Memory>
    ensures { OnOk result (text.new.items ≡ text.old.items ++ attributes_text depth attributes.now) }
{
    for attribute in attributes {
        push_attribute(text, depth, attribute)?;
    }
    Ok(())
}

fn push_flag(text: &mut Vec<u8>, flag: DocFlag) -> Result<(), Memory>
    ensures { OnOk result (text.new.items ≡ text.old.items ++ flag_text flag) }
{
    match flag {
        DocFlag::Plain => Ok(()),
        DocFlag::Signed => push_spaced_word(text, Word::Signed),
        DocFlag::Real => push_spaced_word(text, Word::Real),
    }
}

#[tactic(auto, unfolding(crate::specs::Print::line))]
fn push_parameter(text: &mut Vec<u8>, depth: Depth, parameter: &DocParam) -> Result<(), Memory>
    ensures { OnOk result (text.new.items ≡ text.old.items ++ parameter_text depth parameter.now) }
{
    push_begin(text, depth, Word::Parameter)?;
    push_flag(text, parameter.flag)?;
    push_name(text, &parameter.name)?;
    push_value(text, &parameter.value)?;
    push_end(text)
}

#[tactic(auto, unfolding(crate::specs::Print::line))]
fn push_wire(text: &mut Vec<u8>, wire: &DocWire) -> Result<(), Memory>
    ensures { OnOk result (text.new.items ≡ text.old.items ++ line depth.Module word.Wire (wire_options wire.now ++ name_text wire.now.name)) }
{
    push_begin(text, Depth::Module, Word::Wire)?;
    push_wire_options(text, wire)?;
    push_name(text, &wire.name)?;
    push_end(text)
}

#[tactic(auto, unfolding(crate::specs::Print::line))]
fn push_memory(text: &mut Vec<u8>, memory: &DocMem) -> Result<(), Memory>
    ensures { OnOk result (text.new.items ≡ text.old.items ++ line depth.Module word.Memory (memory_options memory.now ++ name_text memory.now.name)) }
{
    push_begin(text, Depth::Module, Word::Memory)?;
    push_memory_options(text, memory)?;
    push_name(text, &memory.name)?;
    push_end(text)
}

#[tactic(auto, unfolding(crate::specs::Print::line))]
fn push_pin(text: &mut Vec<u8>, name: &Name, value: &[Part]) -> Result<(), Memory>
    ensures { OnOk result (text.new.items ≡ text.old.items ++ line depth.Cell word.Connect (name_text name.now ++ signal_text value.now)) }
{
    push_begin(text, Depth::Cell, Word::Connect)?;
    push_name(text, name)?;
    push_signal(text, value)?;
    push_end(text)
}

#[tactic(auto, unfolding(crate::specs::Print::line))]
fn push_connect(text: &mut Vec<u8>, left: &[Part], right: &[Part]) -> Result<(), Memory>
    ensures { OnOk result (text.new.items ≡ text.old.items ++ line depth.Module word.Connect (signal_text left.now ++ signal_text right.now)) }
{
    push_begin(text, Depth::Module, Word::Connect)?;
    push_signal(text, left)?;
    push_signal(text, right)?;
    push_end(text)
}

fn push_cell_line(text: &mut Vec<u8>, line: &CellLine) -> Result<(), Memory>
    ensures { OnOk result (text.new.items ≡ text.old.items ++ cell_line_text line.now) }
{
    match line {
        CellLine::Param(parameter) => push_parameter(text, Depth::Cell, parameter),
        CellLine::Pin { name, value } => push_pin(text, name, value.as_slice()),
    }
}

fn push_cell_lines(text: &mut Vec<u8>, lines: &[CellLine]) -> Result<(), Memory>
    ensures { OnOk result (text.new.items ≡ text.old.items ++ flat_map cell_line_text lines.now) }
{
    for line in lines {
        push_cell_line(text, line)?;
    }
    Ok(())
}

#[tactic(auto, unfolding(crate::specs::Print::line))]
fn push_cell_begin(text: &mut Vec<u8>, cell: &DocCell) -> Result<(), Memory>
    ensures { OnOk result (text.new.items ≡ text.old.items ++ line depth.Module word.Cell (name_text cell.now.kind ++ name_text cell.now.name)) }
{
    push_begin(text, Depth::Module, Word::Cell)?;
    push_name(text, &cell.kind)?;
    push_name(text, &cell.name)?;
    push_end(text)
}

fn push_cell(text: &mut Vec<u8>, cell: &DocCell) -> Result<(), Memory>
    ensures { OnOk result (text.new.items ≡ text.old.items ++ cell_text cell.now) }
{
    push_attributes(text, Depth::Module, cell.attrs.as_slice())?;
    push_cell_begin(text, cell)?;
    push_cell_lines(text, cell.lines.as_slice())?;
    push_lone_word(text, Depth::Module, Word::End)
}

fn push_item(text: &mut Vec<u8>, item: &Item) -> Result<(), Memory>
    ensures { OnOk result (text.new.items ≡ text.old.items ++ item_text item.now) }
{
    match item {
        Item::Param(parameter) => push_parameter(text, Depth::Module, parameter),
        Item::Wire(wire) => {
            push_attributes(text, Depth::Module, wire.attrs.as_slice())?;
            push_wire(text, wire)
        }
        Item::Mem(memory) => {
            push_attributes(text, Depth::Module, memory.attrs.as_slice())?;
            push_memory(text, memory)
        }
        Item::Cell(cell) => push_cell(text, cell),
        Item::Connect { left, right } => push_connect(text, left.as_slice(), right.as_slice()),
    }
}

fn push_items(text: &mut Vec<u8>, items: &[Item]) -> Result<(), Memory>
    ensures { OnOk result (text.new.items ≡ text.old.items ++ flat_map item_text items.now) }
{
    for item in items {
        push_item(text, item)?;
    }
    Ok(())
}

#[tactic(auto, unfolding(crate::specs::Print::line))]
fn push_module_begin(text: &mut Vec<u8>, name: &Name) -> Result<(), Memory>
    ensures { OnOk result (text.new.items ≡ text.old.items ++ line depth.File word.Module (name_text name.now)) }
{
    push_begin(text, Depth::File, Word::Module)?;
    push_name(text, name)?;
    push_end(text)
}

fn push_module(text: &mut Vec<u8>, doc: &DocModule) -> Result<(), Memory>
    ensures { OnOk result (text.new.items ≡ text.old.items ++ module_text doc.now) }
{
    push_attributes(text, Depth::File, doc.attrs.as_slice())?;
    push_module_begin(text, &doc.name)?;
    push_items(text, doc.items.as_slice())?;
    push_lone_word(text, Depth::File, Word::End)
}

/// The text of any document.
#[tactic(auto, unfolding(crate::specs::Print::printed))]
pub fn document_text(alloc: Global, doc: &Doc) -> Result<Vec<u8>, Memory>
    ensures { IfOk result (λ text. text.items ≡ printed doc.now) }
{
    let mut text = Vec::new(alloc);
    for each in doc.modules.as_slice() {
        push_module(&mut text, each)?;
    }
    Ok(text)
}

/// The text of a document that some text reads as.
pub fn print_doc(alloc: Global, doc: &Doc) -> Result<Vec<u8>, Memory>
    requires { Writable doc.now }
    ensures text { IfOk result (λ text. text.items ≡ printed doc.now) }
    // The text reads as the document.
    ensures back { IfOk result (λ text. Reads text.items doc.now) }
{
    document_text(alloc, doc)
}
