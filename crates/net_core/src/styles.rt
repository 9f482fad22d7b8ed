//! What a memory asks to be mapped to.
ghost use Rattle.std.specs.Prelude.{◌≡◌, ◌++◌, IfOk};
ghost use Rattle.std.specs.Option.{option_copied};
ghost use Rattle.std.specs.List.{find};
ghost use Rattle.std.specs.Str.{bytes_eq};
ghost use Rattle.net_core.specs.Style.{first_attr, ram_names, rom_names, style_names, word_style, style_of_mem};

use crate::mems::{Attr, Mem, Style};
use lib_core::{Memory, Name, RamClass};
use std::alloc::Global;

/// What a memory asks to be mapped to, by its attributes.
pub fn style_of(alloc: Global, mem: &Mem) -> Result<Style, Memory>
    ensures { IfOk result (λ style. style ≡ style_of_mem mem.now) }
{
    match style_attr(mem) {
        Some(attr) if attr.is_text => word_style(alloc, &attr.value),
        _ => Ok(Style::Auto),
    }
}

/// The attribute that says what a memory asks for.
fn style_attr(mem: &Mem) -> Option<&Attr>
    ensures { option_copied result ≡ first_attr (style_names mem.now.writes) mem.now.attrs }
{
    let attrs = mem.attrs.as_slice();
    match mem.writes.as_slice() {
        [] => rom_or_ram_attr(attrs),
        [_, ..] => ram_attr(attrs),
    }
}

/// The attribute that says what a memory without writes asks for.
#[tactic(auto, using(crate::proofs::StyleLemmas::first_attr_joined))]
fn rom_or_ram_attr(attrs: &[Attr]) -> Option<&Attr>
    ensures { option_copied result ≡ first_attr (rom_names ++ ram_names) attrs.now }
{
    if let Some(attr) = rom_attr(attrs) {
        return Some(attr);
    }
    ram_attr(attrs)
}

/// The attribute that says what a memory without writes asks for first.
fn rom_attr(attrs: &[Attr]) -> Option<&Attr>
    ensures { option_copied result ≡ first_attr rom_names attrs.now }
{
    if let Some(attr) = named(attrs, b"\\rom_style") {
        return Some(attr);
    }
    if let Some(attr) = named(attrs, b"\\romstyle") {
        return Some(attr);
    }
    named(attrs, b"\\syn_romstyle")
}

/// The attribute that says what any memory asks for.
fn ram_attr(attrs: &[Attr]) -> Option<&Attr>
    ensures { option_copied result ≡ first_attr ram_names attrs.now }
{
    if let Some(attr) = named(attrs, b"\\ram_style") {
        return Some(attr);
    }
    if let Some(attr) = named(attrs, b"\\ramstyle") {
        return Some(attr);
    }
    named(attrs, b"\\syn_ramstyle")
}

/// The first attribute of a name.
fn named<'a>(attrs: &'a [Attr], name: &[u8]) -> Option<&'a Attr>
    ensures { option_copied result ≡ find (λ a. bytes_eq a.name name.now) attrs.now }
{
    attrs.iter().find(|attr| attr.name.as_slice() == name)
}

/// What the value of such an attribute asks for.
fn word_style(alloc: Global, word: &Name) -> Result<Style, Memory>
    ensures { IfOk result (λ style. style ≡ word_style word.now) }
{
    let text = word.as_slice();
    if text.eq_ignore_ascii_case(b"auto") || text.is_empty() {
        Ok(Style::Auto)
    } else if text.eq_ignore_ascii_case(b"logic") || text.eq_ignore_ascii_case(b"registers") {
        Ok(Style::Registers)
    } else if text.eq_ignore_ascii_case(b"distributed") {
        Ok(Style::Class(RamClass::Distributed))
    } else if text.eq_ignore_ascii_case(b"block") {
        Ok(Style::Class(RamClass::Block))
    } else if text.eq_ignore_ascii_case(b"huge") {
        Ok(Style::Class(RamClass::Huge))
    } else {
        Ok(Style::Word(word.copy(alloc)?))
    }
}
