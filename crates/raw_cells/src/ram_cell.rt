//! RAM cells.
ghost use Rattle.std.specs.Prelude.{◌≡◌, ◌++◌, IfOk, OnOk, drop, length};
ghost use Rattle.lib_core.specs.Rams.{reads_now};
ghost use Rattle.net_core.specs.Ports.{nets_of};
ghost use Rattle.ram_rows.specs.RamNames.{slot_name};
ghost use Rattle.ram_rows.specs.RamPins.{suffix};
ghost use Rattle.raw_cells.specs.RamCells as spec;

use crate::bits::{bit_at, bits_at, nets_at};
use crate::clocks::clock_at;
use crate::ram::behind;
use crate::raw::{RamUse, RawPin};
use lib_core::{Duplicate, Group, List, Memory, Name, PortKind, Variant};
use net_core::{Bit, Clock, RamCell, SlotUse};
use net_wires::ClockRoot;
use ram_rows::{SlotPin, SlotRow, slot_name, suffix};
use std::alloc::Global;

/// The pins of one bit of a port.
#[derive(Debug, Drop)]
pub struct Controls {
    pub clock: Clock,
    pub clken: Bit,
    pub rden: Bit,
    pub srst: Bit,
    pub arst: Bit,
}

/// The pins of several bits of a port.
#[derive(Debug, Drop)]
pub struct Words {
    pub addr: List<Bit>,
    pub out: List<u32>,
    pub value: List<Bit>,
    pub wren: List<Bit>,
    pub wrbe: List<Bit>,
}

/// A place in a list as RAM cells have it.
pub fn narrow(place: usize) -> u32
    ensures { result ≡ spec.narrow place }
{
    place.min(4_294_967_295) as u32
}

fn is_at_once(kind: PortKind) -> bool
    ensures { result ≡ reads_now kind }
{
    match kind {
        PortKind::Ar | PortKind::Arsw => true,
        PortKind::Sr | PortKind::Sw | PortKind::Srsw => false,
    }
}

fn slot_clock(
    alloc: Global,
    places: &[Bit],
    roots: &[ClockRoot],
    pins: &[RawPin],
    slot: &Name,
    rising: bool,
) -> Result<Clock, Memory>
    ensures { IfOk result (λ clock. clock ≡ spec.slot_clock places.now roots.now pins.now slot.now rising) }
{
    let name = slot_name(alloc, slot.as_slice(), suffix(SlotPin::Clk))?;
    Ok(clock_at(places, roots, pins, name.as_slice(), rising))
}

fn slot_bit(
    alloc: Global,
    places: &[Bit],
    pins: &[RawPin],
    slot: &Name,
    pin: SlotPin,
) -> Result<Bit, Memory>
    ensures { IfOk result (λ bit. bit ≡ spec.slot_bit places.now pins.now slot.now pin) }
{
    let name = slot_name(alloc, slot.as_slice(), suffix(pin))?;
    Ok(bit_at(places, pins, name.as_slice()))
}

fn slot_bits(
    alloc: Global,
    places: &[Bit],
    pins: &[RawPin],
    slot: &Name,
    pin: SlotPin,
) -> Result<List<Bit>, Memory>
    ensures { IfOk result (λ bits. bits ≡ spec.slot_bits places.now pins.now slot.now pin) }
{
    let name = slot_name(alloc, slot.as_slice(), suffix(pin))?;
    bits_at(alloc, places, pins, name.as_slice())
}

fn slot_nets(
    alloc: Global,
    places: &[Bit],
    pins: &[RawPin],
    slot: &Name,
    pin: SlotPin,
) -> Result<List<u32>, Memory>
    ensures { IfOk result (λ nets. nets ≡ nets_of (spec.slot_bits places.now pins.now slot.now pin)) }
{
    let name = slot_name(alloc, slot.as_slice(), suffix(pin))?;
    nets_at(alloc, places, pins, name.as_slice())
}

fn controls_of(
    alloc: Global,
    places: &[Bit],
    roots: &[ClockRoot],
    pins: &[RawPin],
    slot: &Name,
    rising: bool,
) -> Result<Controls, Memory>
    ensures { IfOk result (λ controls. controls ≡ spec.controls_of places.now roots.now pins.now slot.now rising) }
{
    Ok(Controls {
        clock: slot_clock(alloc, places, roots, pins, slot, rising)?,
        clken: slot_bit(alloc, places, pins, slot, SlotPin::ClkEn)?,
        rden: slot_bit(alloc, places, pins, slot, SlotPin::RdEn)?,
        srst: slot_bit(alloc, places, pins, slot, SlotPin::RdSrst)?,
        arst: slot_bit(alloc, places, pins, slot, SlotPin::RdArst)?,
    })
}

fn words_of(alloc: Global, places: &[Bit], pins: &[RawPin], slot: &Name) -> Result<Words, Memory>
    ensures { IfOk result (λ words. words ≡ spec.words_of places.now pins.now slot.now) }
{
    Ok(Words {
        addr: slot_bits(alloc, places, pins, slot, SlotPin::Addr)?,
        out: slot_nets(alloc, places, pins, slot, SlotPin::RdData)?,
        value: slot_bits(alloc, places, pins, slot, SlotPin::WrData)?,
        wren: slot_bits(alloc, places, pins, slot, SlotPin::WrEn)?,
        wrbe: slot_bits(alloc, places, pins, slot, SlotPin::WrBe)?,
    })
}

fn slot_with(
    alloc: Global,
    group: &Group,
    row: &SlotRow,
    controls: Controls,
    words: Words,
) -> Result<SlotUse, Memory>
    ensures { IfOk result (λ slot. slot ≡ spec.slot_with group.now row.now controls words) }
{
    let Words {
        addr,
        out,
        value,
        wren,
        wrbe,
    } = words;
    Ok(SlotUse {
        used: row.used,
        reads_now: is_at_once(group.kind),
        level: narrow(row.level),
        clock: controls.clock,
        clken: controls.clken,
        addr,
        rden: controls.rden,
        srst: controls.srst,
        arst: controls.arst,
        out,
        value,
        wren,
        wrbe,
        srst_value: row.values.srst.duplicate(alloc)?,
        arst_value: row.values.arst.duplicate(alloc)?,
        init_value: row.values.start.duplicate(alloc)?,
    })
}

#[tactic(auto, unfolding(crate::specs::RamCells::slot_of))]
fn slot_of(
    alloc: Global,
    places: &[Bit],
    roots: &[ClockRoot],
    pins: &[RawPin],
    group: &Group,
    slot: &Name,
    row: &SlotRow,
) -> Result<SlotUse, Memory>
    ensures { IfOk result (λ made. made ≡ spec.slot_of places.now roots.now pins.now group.now slot.now row.now) }
{
    let controls = controls_of(alloc, places, roots, pins, slot, row.rising)?;
    let words = words_of(alloc, places, pins, slot)?;
    slot_with(alloc, group, row, controls, words)
}

/// Puts the slots of a group behind the others.
fn push_slots(
    alloc: Global,
    places: &[Bit],
    roots: &[ClockRoot],
    pins: &[RawPin],
    slots: &mut Vec<SlotUse>,
    group: &Group,
    rows: &[SlotRow],
) -> Result<(), Memory>
    ensures { OnOk result (slots.new.items ≡ slots.old.items ++ spec.names_slots places.now roots.now pins.now group.now group.now.names rows.now) }
{
    let mut names = group.names.as_slice();
    let mut rows = rows;
    while let [name, name_tail @ ..] = names {
        let [row, row_tail @ ..] = rows else {
            return Ok(());
        };
        slots.push(slot_of(alloc, places, roots, pins, group, name, row)?)?;
        names = name_tail;
        rows = row_tail;
    }
    Ok(())
}

fn groups_slots(
    alloc: Global,
    places: &[Bit],
    roots: &[ClockRoot],
    pins: &[RawPin],
    groups: &[Group],
    rows: &[SlotRow],
) -> Result<List<SlotUse>, Memory>
    ensures { IfOk result (λ slots. slots ≡ spec.groups_slots places.now roots.now pins.now groups.now rows.now) }
{
    let mut slots = Vec::new(alloc);
    let mut left = rows;
    let mut rest = groups;
    while let [group, tail @ ..] = rest {
        push_slots(alloc, places, roots, pins, &mut slots, group, left)?;
        left = behind(left, group);
        rest = tail;
    }
    Ok(List::from_vec(slots))
}

/// The RAM cell of a cell of this name, of this variant and with these pins, where the places of the
/// module have these bits and lead to these clocks.
#[tactic(auto, unfolding(crate::specs::RamCells::ram_of))]
pub fn ram_of(
    alloc: Global,
    places: &[Bit],
    roots: &[ClockRoot],
    name: &Name,
    cell: &RamUse,
    variant: &Variant,
    pins: &[RawPin],
) -> Result<RamCell, Memory>
    ensures { IfOk result (λ ram. ram ≡ spec.ram_of places.now roots.now name.now cell.now variant.now pins.now) }
{
    let groups = variant.groups.as_slice();
    let rows = cell.row.slots.as_slice();
    Ok(RamCell {
        name: name.copy(alloc)?,
        ram: cell.ram,
        variant: narrow(cell.variant),
        slots: groups_slots(alloc, places, roots, pins, groups, rows)?,
        init: cell.row.init.duplicate(alloc)?,
    })
}
