//! Inputs by their names.
ghost use Rattle.std.specs.Prelude.{◌≡◌, OnOk, []};
ghost use Rattle.stim_text.specs.Inputs as inputs;

use indexmap::IndexMap;
use lib_core::Memory;
use std::alloc::Global;
use std::marker::Model;

/// Where the bits of an input stand among those of all inputs.
#[derive(Clone, Copy, Debug, PartialEq, Eq)]
pub struct Span {
    /// The place of its lowest bit.
    pub start: usize,
    pub width: usize,
}

/// Wires by their names.
#[derive(Drop)]
pub struct Wires<'a> {
    table: IndexMap<&'a [u8], Span>,
}

impl<'a> Model for Wires<'a> {
    ghost use Rattle.std.specs.Prelude.{List, ℕ, map};
    ghost use Rattle.stim_text.specs.declared.names.Span.{Span as Place};

    ghost Value = { List (List ℕ × Place) };

    ghost view = { λ s. map (λ e. (e.0.now, e.1)) s.table.entries };
}

impl<'a> Wires<'a> {
    pub fn new(alloc: Global) -> Wires<'a>
        ensures { result ≡ [] }
    {
        Wires {
            table: IndexMap::new(alloc),
        }
    }

    /// Where the wire of a name stands.

    pub fn find(&self, name: &[u8]) -> Option<Span>
        ensures { result ≡ inputs.wire_at self.now name.now }
    {
        self.table.get(name).copied()
    }

    /// Notes a wire, unless there is one of its name.
    #[tactic(auto, unfolding(crate::specs::Inputs::with_wire))]
    pub fn add(&mut self, name: &'a [u8], span: Span) -> Result<(), Memory>
        ensures { OnOk result (self.new ≡ inputs.with_wire self.old name.now span) }
    {
        if self.find(name).is_none() {
            self.table.insert(name, span)?;
        }
        Ok(())
    }
}

/// Pins by the names of their cells and their own.
#[derive(Drop)]
pub struct Pins<'a> {
    table: IndexMap<(&'a [u8], &'a [u8]), Span>,
}

impl<'a> Model for Pins<'a> {
    ghost use Rattle.std.specs.Prelude.{List, ℕ, map};
    ghost use Rattle.stim_text.specs.declared.names.Span.{Span as Place};

    ghost Value = { List ((List ℕ × List ℕ) × Place) };

    ghost view = { λ s. map (λ e. ((e.0.0.now, e.0.1.now), e.1)) s.table.entries };
}

impl<'a> Pins<'a> {
    pub fn new(alloc: Global) -> Pins<'a>
        ensures { result ≡ [] }
    {
        Pins {
            table: IndexMap::new(alloc),
        }
    }

    /// Where the pin of a name of the cell of a name stands.

    pub fn find(&self, cell: &[u8], pin: &[u8]) -> Option<Span>
        ensures { result ≡ inputs.pin_at self.now cell.now pin.now }
    {
        self.table.get(&(cell, pin)).copied()
    }

    /// Notes a pin, unless there is one of its names.
    #[tactic(auto, unfolding(crate::specs::Inputs::with_pin))]
    pub fn add(&mut self, cell: &'a [u8], pin: &'a [u8], span: Span) -> Result<(), Memory>
        ensures { OnOk result (self.new ≡ inputs.with_pin self.old cell.now pin.now span) }
    {
        if self.find(cell, pin).is_none() {
            self.table.insert((cell, pin), span)?;
        }
        Ok(())
    }
}
