//! The slots of a cell with the groups in which they stand.
ghost use Rattle.std.specs.Prelude.{◌≡◌, ℕ, ◌+◌, ◌/◌, ◌-◌, ◌^◌, ◌<◌, ◌≤◌, ◌&&◌, Some, true, length, slice_get};
ghost use Rattle.lib_core.specs.Rams.{last_width, last_words, lies, lane_width};
ghost use Rattle.geom_core.specs.Places.{IsSized};
ghost use Rattle.lib_core.specs.Rams as rams;
ghost use Rattle.net_core.specs.Ram as ram;
ghost use Rattle.net_core.specs.Values as net;
ghost use Rattle.net_core.specs.Shape as shape;
ghost use Rattle.ram_step.specs.Owners.{owners_of};
ghost use Rattle.ram_step.specs.Ports.{slot_of, BeginsAt};
ghost use Rattle.ram_step.specs.Moments.{edge_nets, edge_alone, valuation};

use crate::pins::{has_edge, has_fill, number_of, pin_bit, value_of};
use geom_core::{BasePlace, Geometry};
use lib_core::{Group, SrstGate, Variant};
use net_core::{Edge, RamCell, SlotUse};
use std::marker::Model;

/// A slot, its number in the cell, and its group.
#[derive(Clone, Copy)]
pub(crate) struct Port<'a> {
    pub number: u32,
    pub group: u32,
    pub kind: &'a Group,
    pub pins: &'a SlotUse,
}

/// The slots of a cell. Contracts see the variant and the list of slots.
#[derive(Drop)]
pub(crate) struct Ports<'a, const LEVELS: usize> {
    variant: &'a Variant,
    geometry: &'a Geometry<LEVELS>,
    owners: &'a [u32],
    cell: &'a RamCell,
}

impl<'a, const LEVELS: usize> Model for Ports<'a, LEVELS> {
    ghost use Rattle.std.specs.Prelude.{◌≡◌, ◌-◌, ◌^◌, ◌<◌, ◌≤◌, Some, true, length};
    ghost use Rattle.net_core.specs.Ram.{slots_of};
    ghost use Rattle.net_core.specs.Shape.{fits_variant};
    ghost use Rattle.geom_core.specs.Places.{IsSized};
    ghost use Rattle.ram_step.specs.Owners.{owners_of, SlotList};

    ghost Value = { SlotList };

    ghost view = { λ p. record { variant = p.variant.now; all = slots_of p.variant.now p.cell.now } };

    ghost invariant = { λ p. (p.geometry.now.widths ≡ p.variant.now.widths) × (p.geometry.now.abits ≡ p.variant.now.abits) × IsSized p.variant.now × (fits_variant p.cell.now (Some p.variant.now) ≡ true) × (p.owners.now ≡ owners_of p.variant.now.groups) × (length p.cell.now.slots < 2 ^ 32 - 1) × (length p.geometry.now.widths ≡ LEVELS) × (LEVELS ≤ 21) };
}

impl<'a, const LEVELS: usize> Ports<'a, LEVELS> {
    /// The slots of a cell that fits the variant.
    pub fn new(
        variant: &'a Variant,
        geometry: &'a Geometry<LEVELS>,
        owners: &'a [u32],
        cell: &'a RamCell,
    ) -> Ports<'a, LEVELS>
        requires widths { geometry.now.widths ≡ variant.now.widths }
        requires abits { geometry.now.abits ≡ variant.now.abits }
        requires levels { length variant.now.widths ≡ LEVELS }
        requires sized { IsSized variant.now }
        requires fits { shape.fits_variant cell.now (Some variant.now) ≡ true }
        requires owners { owners.now ≡ owners_of variant.now.groups }
        requires few_slots { length cell.now.slots < 2 ^ 32 - 1 }
        ensures variant { result.variant ≡ variant.now }
        ensures slots { result.all ≡ ram.slots_of variant.now cell.now }
    {
        Ports {
            variant,
            geometry,
            owners,
            cell,
        }
    }

    /// How many slots there are.
    pub fn len(&self) -> u32
        ensures { result ≡ length self.now.all }
    {
        self.cell.slots.as_slice().len() as u32
    }

    /// The slot of a number.
    pub fn get(&self, number: u32) -> Port<'a>
        requires { number < length self.now.all }
        ensures found { slice_get self.now.all number ≡ Some (slot_of result) }
        ensures number { result.number ≡ number }
        ensures few { number < 2 ^ 32 - 1 }
        ensures fits { shape.slot_fits self.now.variant result.kind.now result.pins.now ≡ true }
    {
        let group = self.owners[number as usize];
        Port {
            number,
            group,
            kind: &self.variant.groups.as_slice()[group as usize],
            pins: &self.cell.slots.as_slice()[number as usize],
        }
    }

    /// The width of a slot.
    pub fn width(&self, port: &Port<'_>) -> u32
        ensures { result ≡ ram.slot_width self.now.variant (slot_of port.now) }
    {
        width_at(self.variant.widths.as_slice(), port.pins.level)
    }

    /// The width of a slot, which is at most the last.
    pub fn bounded_width(&self, port: &Port<'_>) -> u32
        ensures value { result ≡ ram.slot_width self.now.variant (slot_of port.now) }
        ensures bound { result ≤ last_width self.now.variant }
    {
        width_at(self.variant.widths.as_slice(), port.pins.level)
    }

    /// Where a bit of a slot's word lies.
    pub fn place(&self, port: &Port<'_>, values: &[bool], bit: u32) -> BasePlace
        requires fits { shape.slot_fits self.now.variant port.now.kind.now port.now.pins.now ≡ true }
        requires bit { bit < ram.slot_width self.now.variant (slot_of port.now) }
        ensures word { result.word ≡ (lies self.now.variant port.now.pins.now.level (ram.word_of (valuation values.now) (slot_of port.now)) bit).0 }
        ensures bit { result.bit ≡ (lies self.now.variant port.now.pins.now.level (ram.word_of (valuation values.now) (slot_of port.now)) bit).1 }
        ensures words { result.word < last_words self.now.variant }
        ensures width { result.bit < last_width self.now.variant }
    {
        let geometry = self.geometry;
        let address = number_of(port.pins.addr.as_slice(), values);
        geometry.place(port.pins.level, address >> port.pins.level, bit)
    }

    /// Where a slot's word begins.
    pub fn start(&self, port: &Port<'_>, values: &[bool]) -> BasePlace
        requires fits { shape.slot_fits self.now.variant port.now.kind.now port.now.pins.now ≡ true }
        requires some_bits { 0 < ram.slot_width self.now.variant (slot_of port.now) }
        ensures bits { (k : ℕ) → BeginsAt result k (lies self.now.variant port.now.pins.now.level (ram.word_of (valuation values.now) (slot_of port.now)) k) }
        ensures words { result.word < last_words self.now.variant }
        ensures room { result.bit + ram.slot_width self.now.variant (slot_of port.now) ≤ last_width self.now.variant }
    {
        let high = self.width(port) - 1;
        let last = self.place(port, values, high);
        BasePlace {
            word: last.word,
            bit: last.bit - high,
        }
    }

    /// The lane of a bit of a word of this width.
    pub fn lane(&self, width: u32, place: u32) -> u32
        ensures { result ≡ place / lane_width self.now.variant.byte width }
    {
        let lane = lane_bits(self.variant.byte, width);
        if lane == 0 { 0 } else { place / lane }
    }
}

/// The width of a level, 0 past the last.
#[tactic(auto, using(crate::proofs::PinReads::width_read, crate::proofs::PinReads::width_past))]
fn width_at(widths: &[u32], level: u32) -> u32
    ensures { result ≡ rams.width_at widths.now level }
{
    match widths.get(level as usize) {
        Some(width) => *width,
        None => 0,
    }
}

/// How many bits one enable serves in a word of this width.
fn lane_bits(byte: Option<u32>, width: u32) -> u32
    ensures { result ≡ lane_width byte width }
{
    match byte {
        None => width,
        Some(byte) => { if width <= byte { width } else { byte } }
    }
}

/// Whether the slot's clock has its edge.
pub(crate) fn at_edge(port: &Port<'_>, edge: Option<Edge>) -> bool
    ensures { result ≡ (port.now.pins.now.used && net.has_edge (edge_nets edge) (edge_alone edge) port.now.pins.now.clock) }
{
    port.pins.used && has_edge(edge, port.pins.clock)
}

/// Whether the slot's clock enable lets an edge count.
pub(crate) fn is_enabled(port: &Port<'_>, values: &[bool]) -> bool
    ensures { result ≡ ram.slot_enabled (valuation values.now) (slot_of port.now) }
{
    !port.kind.clken || value_of(port.pins.clken, values)
}

/// Whether the slot's read enable lets it read.
pub(crate) fn is_reading(port: &Port<'_>, values: &[bool]) -> bool
    ensures { result ≡ ram.slot_reading (valuation values.now) (slot_of port.now) }
{
    !port.kind.rden || value_of(port.pins.rden, values)
}

/// Whether the slot is in its asynchronous reset.
pub(crate) fn in_arst(port: &Port<'_>, values: &[bool]) -> bool
    ensures { result ≡ ram.slot_in_arst (valuation values.now) (slot_of port.now) }
{
    has_fill(port.kind.arst) && value_of(port.pins.arst, values)
}

/// Whether the slot's synchronous reset counts.
pub(crate) fn in_srst(port: &Port<'_>, values: &[bool]) -> bool
    ensures { result ≡ ram.slot_in_srst (valuation values.now) (slot_of port.now) }
{
    has_fill(port.kind.srst)
        && value_of(port.pins.srst, values)
        && reset_counts(
            port.kind.srst_gate,
            is_enabled(port, values),
            is_reading(port, values),
        )
}

fn reset_counts(gate: SrstGate, enabled: bool, reading: bool) -> bool
    ensures { result ≡ rams.reset_counts gate enabled reading }
{
    match gate {
        SrstGate::Ungated => true,
        SrstGate::Clken => enabled,
        SrstGate::Rden => enabled && reading,
    }
}

/// Whether a lane of the slot is enabled.
pub(crate) fn lane_enabled(port: &Port<'_>, values: &[bool], lane: u32) -> bool
    ensures { result ≡ ram.lane_enabled (valuation values.now) (slot_of port.now) lane }
{
    let wren = port.pins.wren.as_slice();
    if port.kind.separate {
        pin_bit(wren, 0, values) && pin_bit(port.pins.wrbe.as_slice(), lane, values)
    } else {
        pin_bit(wren, lane, values)
    }
}
