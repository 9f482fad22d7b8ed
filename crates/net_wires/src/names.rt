//! The wires of a module by their names.
ghost use Rattle.std.specs.Prelude.{◌≡◌, ◌<◌, ◌≤◌, ◌+◌, ◌^◌, ℕ, List, [], ◌∷◌, ◌++◌, map, None, IfOk, OnOk};
ghost use Rattle.std.specs.List.{flat_map};
ghost use Rattle.rtlil_text.specs.Grammar.{AreDistinct, wire_name};
ghost use Rattle.net_wires.specs.Spans.{look, spans, There, wire_bits};
ghost use Rattle.net_wires.specs.declared.names.Span.{Span as Spans};

use indexmap::IndexMap;
use lib_core::Memory;
use rtlil_text::Item;
use std::alloc::Global;
use std::marker::Model;

/// Where the bits of a wire lie in the list of all bits.
#[derive(Clone, Copy, Debug, PartialEq, Eq)]
pub struct Span {
    /// The place of its lowest bit.
    pub base: u32,
    pub width: u32,
}

/// Wires by their names, in file order.
#[derive(Drop)]
pub struct Names<'a> {
    table: IndexMap<&'a [u8], Span>,
}

impl<'a> Model for Names<'a> {
    ghost Value = { List (List ℕ × Spans) };

    ghost view = { λ s. map (λ e. (e.0.now, e.1)) s.table.entries };
}

impl<'a> Names<'a> {
    fn new(alloc: Global) -> Names<'a>
        ensures { result ≡ [] }
    {
        Names {
            table: IndexMap::new(alloc),
        }
    }

    /// Where the wire of a name lies, if there is one.
    pub fn find(&self, name: &[u8]) -> Option<Span>
        ensures { result ≡ look self.now name.now }
    {
        self.table.get(name).copied()
    }

    fn add(&mut self, name: &'a [u8], span: Span) -> Result<(), Memory>
        requires { look self.old name.now ≡ None }
        ensures { OnOk result (self.new ≡ self.old ++ (name.now, span) ∷ []) }
    {
        self.table.insert(name, span)?;
        Ok(())
    }
}

fn with_wires<'a>(alloc: Global, items: &'a [Item]) -> Result<Names<'a>, Memory>
    requires new { AreDistinct (flat_map wire_name items.now) }
    requires room { wire_bits items.now < 2 ^ 31 }
    ensures { IfOk result (λ names. names ≡ spans 0 items.now) }
{
    let mut names = Names::new(alloc);
    let mut base = 0u32;
    let mut rest = items;
    while let [item, tail @ ..] = rest {
        if let Item::Wire(wire) = item {
            names.add(
                wire.name.as_slice(),
                Span {
                    base,
                    width: wire.width,
                },
            )?;
            base += wire.width;
        }
        rest = tail;
    }
    Ok(names)
}

/// The wires among these items. Their bits stand one behind the other, in file order.
pub fn names_of<'a>(alloc: Global, items: &'a [Item]) -> Result<Names<'a>, Memory>
    requires new { AreDistinct (flat_map wire_name items.now) }
    requires room { wire_bits items.now < 2 ^ 31 }
    ensures spans { IfOk result (λ names. names ≡ spans 0 items.now) }
    ensures there { IfOk result (There (wire_bits items.now)) }
    ensures near { IfOk result (There 4294967295) }
{
    let names = with_wires(alloc, items)?;
    Ok(names)
}
