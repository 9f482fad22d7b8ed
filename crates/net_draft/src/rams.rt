//! RAM cells by their types, parameters and pins.
ghost use Rattle.std.specs.Prelude.{◌≡◌, ◌++◌, drop, slice_get, Some, IfOk, OnOk};
ghost use Rattle.ram_rows.specs.RamPins as table;
ghost use Rattle.net_draft.specs.Rams as spec;

use crate::pins::{nets_as_bits, no_attrs, one_bit};
use crate::registers::root_bit;
use lib_core::{Duplicate, EdgeKind, Group, Library, List, Memory, Name, Variant};
use net_core::shapes::variant_of;
use net_core::{Bit, Carried, Clock, Comb, CombKind, Pin, RamCell, SlotUse};
use ram_rows::{SlotPin, pin_width, slot_name, suffix};
use ram_written::ram_params;
use std::alloc::Global;

const PINS: [SlotPin; 10] = [
    SlotPin::Clk,
    SlotPin::ClkEn,
    SlotPin::Addr,
    SlotPin::RdData,
    SlotPin::RdEn,
    SlotPin::RdSrst,
    SlotPin::RdArst,
    SlotPin::WrData,
    SlotPin::WrEn,
    SlotPin::WrBe,
];

fn first_inverse(found: Option<u32>, inverse: u32) -> Option<u32>
    ensures { result ≡ spec.first_inverse found inverse }
{
    match found {
        Some(found) => Some(found),
        None => Some(inverse),
    }
}

/// Notes the net that is the inverse of a bit, unless one is noted.
fn note(inverses: &mut Vec<Option<u32>>, bit: Bit, inverse: u32)
    ensures { inverses.new.items ≡ spec.note inverses.old.items bit inverse }
{
    if let Bit::Net(net) = bit {
        let at = net as usize;
        if at < inverses.len() {
            inverses[at] = first_inverse(inverses[at], inverse);
        }
    }
}

/// Notes the inverses of bits, one by one.
#[tactic(auto, unfolding(crate::specs::Rams::note_bits))]
fn note_bits(inverses: &mut Vec<Option<u32>>, bits: &[Bit], nets: &[u32])
    ensures { inverses.new.items ≡ spec.note_bits inverses.old.items bits.now nets.now }
{
    let mut left = nets;
    let mut rest = bits;
    while let [bit, tail @ ..] = rest {
        let [net, more @ ..] = left else {
            return;
        };
        note(inverses, *bit, *net);
        left = more;
        rest = tail;
    }
}

fn is_inverter(kind: CombKind) -> bool
    ensures { result ≡ spec.is_inverter kind }
{
    matches!(kind, CombKind::Not)
}

fn note_comb(inverses: &mut Vec<Option<u32>>, comb: &Comb)
    ensures { inverses.new.items ≡ spec.note_comb inverses.old.items comb.now }
{
    if is_inverter(comb.kind) {
        note_bits(inverses, comb.a.as_slice(), comb.y.as_slice());
    }
}

#[tactic(auto, unfolding(crate::specs::Rams::note_combs))]
fn note_combs(inverses: &mut Vec<Option<u32>>, combs: &[Comb])
    ensures { inverses.new.items ≡ spec.note_combs inverses.old.items combs.now }
{
    let mut rest = combs;
    while let [comb, tail @ ..] = rest {
        note_comb(inverses, comb);
        rest = tail;
    }
}

/// For each net the first one that a `$not` cell makes of it.
pub fn inverses_of(alloc: Global, nets: u32, combs: &[Comb]) -> Result<Vec<Option<u32>>, Memory>
    ensures { IfOk result (λ inverses. inverses.items ≡ spec.inverses_of nets combs.now) }
{
    let mut inverses = Vec::from_elem(alloc, None, nets as usize)?;
    note_combs(&mut inverses, combs);
    Ok(inverses)
}

fn inverse_or(found: Option<u32>, net: u32) -> Bit
    ensures { result ≡ spec.inverse_or (Some found) net }
{
    match found {
        Some(inverse) => Bit::Net(inverse),
        None => Bit::Net(net),
    }
}

/// The inverse of a net, and the net itself where it has none.
fn inverse_of(inverses: &[Option<u32>], net: u32) -> Bit
    ensures { result ≡ spec.inverse_or (slice_get inverses.now net) net }
{
    match inverses.get(net as usize) {
        Some(found) => inverse_or(*found, net),
        None => Bit::Net(net),
    }
}

/// The bit whose rising edges, or falling ones, are those of the clock.
fn bit_by_edge(inverses: &[Option<u32>], rising: bool, clock: Clock) -> Bit
    ensures { result ≡ spec.bit_by_edge inverses.now rising clock }
{
    match clock {
        Clock::Never => Bit::Zero,
        Clock::Root {
            net,
            rising: wanted,
        } => {
            if wanted == rising {
                Bit::Net(net)
            } else {
                inverse_of(inverses, net)
            }
        }
    }
}

/// The bit at the clock pin of a port, by the edges at which it works.
fn clock_bit(inverses: &[Option<u32>], edge: Option<EdgeKind>, clock: Clock) -> Bit
    ensures { result ≡ spec.clock_bit inverses.now edge clock }
{
    match edge {
        Some(EdgeKind::Pos) => bit_by_edge(inverses, true, clock),
        Some(EdgeKind::Neg) => bit_by_edge(inverses, false, clock),
        Some(EdgeKind::Either) | None => root_bit(clock),
    }
}

/// The bits at a pin of a port.
fn slot_bits(
    alloc: Global,
    inverses: &[Option<u32>],
    group: &Group,
    slot: &SlotUse,
    pin: SlotPin,
) -> Result<List<Bit>, Memory>
    ensures { IfOk result (λ bits. bits ≡ spec.slot_bits inverses.now group.now slot.now pin) }
{
    match pin {
        SlotPin::Clk => one_bit(alloc, clock_bit(inverses, group.edge, slot.clock)),
        SlotPin::ClkEn => one_bit(alloc, slot.clken),
        SlotPin::Addr => slot.addr.duplicate(alloc),
        SlotPin::RdData => nets_as_bits(alloc, slot.out.as_slice()),
        SlotPin::RdEn => one_bit(alloc, slot.rden),
        SlotPin::RdSrst => one_bit(alloc, slot.srst),
        SlotPin::RdArst => one_bit(alloc, slot.arst),
        SlotPin::WrData => slot.value.duplicate(alloc),
        SlotPin::WrEn => slot.wren.duplicate(alloc),
        SlotPin::WrBe => slot.wrbe.duplicate(alloc),
    }
}

fn is_output(pin: SlotPin) -> bool
    ensures { result ≡ table.is_output pin }
{
    matches!(pin, SlotPin::RdData)
}

/// Puts a pin of a port at the end, if the group has it.
#[tactic(auto, unfolding(crate::specs::Rams::slot_pin))]
fn push_pin(
    alloc: Global,
    pins: &mut Vec<Pin>,
    inverses: &[Option<u32>],
    variant: &Variant,
    group: &Group,
    name: &Name,
    slot: &SlotUse,
    pin: SlotPin,
) -> Result<(), Memory>
    ensures { OnOk result (pins.new.items ≡ pins.old.items ++ spec.slot_pin inverses.now variant.now group.now name.now slot.now pin) }
{
    if let Some(_) = pin_width(variant, group, slot.level as usize, pin) {
        pins.push(Pin {
            name: slot_name(alloc, name.as_slice(), suffix(pin))?,
            drives: is_output(pin),
            bits: slot_bits(alloc, inverses, group, slot, pin)?,
        })?;
    }
    Ok(())
}

/// Puts these pins of a port at the end.
#[tactic(auto, unfolding(crate::specs::Rams::some_pins))]
fn push_pins(
    alloc: Global,
    pins: &mut Vec<Pin>,
    inverses: &[Option<u32>],
    variant: &Variant,
    group: &Group,
    name: &Name,
    slot: &SlotUse,
    wanted: &[SlotPin],
) -> Result<(), Memory>
    ensures { OnOk result (pins.new.items ≡ pins.old.items ++ spec.some_pins inverses.now variant.now group.now name.now slot.now wanted.now) }
{
    let mut rest = wanted;
    while let [pin, tail @ ..] = rest {
        push_pin(alloc, pins, inverses, variant, group, name, slot, *pin)?;
        rest = tail;
    }
    Ok(())
}

/// Puts the pins of a port at the end.
#[tactic(auto, unfolding(crate::specs::Rams::all_pins))]
fn push_slot(
    alloc: Global,
    pins: &mut Vec<Pin>,
    inverses: &[Option<u32>],
    variant: &Variant,
    group: &Group,
    name: &Name,
    slot: &SlotUse,
) -> Result<(), Memory>
    ensures { OnOk result (pins.new.items ≡ pins.old.items ++ spec.slot_pins inverses.now variant.now group.now name.now slot.now) }
{
    push_pins(
        alloc,
        pins,
        inverses,
        variant,
        group,
        name,
        slot,
        PINS.as_slice(),
    )?;
    Ok(())
}

/// Puts the pins of the ports of a group at the end.
#[tactic(auto, unfolding(crate::specs::Rams::names_pins))]
fn push_names(
    alloc: Global,
    pins: &mut Vec<Pin>,
    inverses: &[Option<u32>],
    variant: &Variant,
    group: &Group,
    slots: &[SlotUse],
) -> Result<(), Memory>
    ensures { OnOk result (pins.new.items ≡ pins.old.items ++ spec.names_pins inverses.now variant.now group.now group.now.names slots.now) }
{
    let mut rest = group.names.as_slice();
    let mut left = slots;
    while let [name, tail @ ..] = rest {
        let [slot, behind @ ..] = left else {
            return Ok(());
        };
        push_slot(alloc, pins, inverses, variant, group, name, slot)?;
        rest = tail;
        left = behind;
    }
    Ok(())
}

/// The ports behind so many.
fn behind(slots: &[SlotUse], count: usize) -> &[SlotUse]
    ensures { result.now ≡ drop count slots.now }
{
    &slots[slots.len().min(count)..]
}

/// The pins of a RAM cell, port by port.
#[tactic(auto, unfolding(crate::specs::Rams::groups_pins))]
fn groups_pins(
    alloc: Global,
    inverses: &[Option<u32>],
    variant: &Variant,
    slots: &[SlotUse],
) -> Result<List<Pin>, Memory>
    ensures { IfOk result (λ pins. pins ≡ spec.groups_pins inverses.now variant.now variant.now.groups slots.now) }
{
    let mut pins = Vec::new(alloc);
    let mut rest = variant.groups.as_slice();
    let mut left = slots;
    while let [group, tail @ ..] = rest {
        push_names(alloc, &mut pins, inverses, variant, group, left)?;
        left = behind(left, group.names.as_slice().len());
        rest = tail;
    }
    Ok(List::from_vec(pins))
}

/// A cell of a variant of a RAM by its type, its parameters and its pins.
#[tactic(auto, unfolding(crate::specs::Rams::variant_cell))]
fn variant_cell(
    alloc: Global,
    ram: &Name,
    variant: &Variant,
    inverses: &[Option<u32>],
    cell: &RamCell,
) -> Result<Carried, Memory>
    ensures { IfOk result (λ made. made ≡ spec.variant_cell ram.now variant.now inverses.now cell.now) }
{
    Ok(Carried {
        name: cell.name.copy(alloc)?,
        kind: ram.copy(alloc)?,
        params: ram_params(alloc, variant, cell)?,
        pins: groups_pins(alloc, inverses, variant, cell.slots.as_slice())?,
        attrs: no_attrs(alloc),
    })
}

/// A RAM cell by its type, its parameters and its pins. One whose RAM or variant the library lacks
/// counts as want of memory.
#[tactic(auto, unfolding(crate::specs::Rams::IsRamCell))]
pub fn ram_cell(
    alloc: Global,
    lib: &Library,
    inverses: &[Option<u32>],
    cell: &RamCell,
) -> Result<Carried, Memory>
    ensures { IfOk result (spec.IsRamCell lib.now inverses.now cell.now) }
{
    let Some(ram) = lib.rams.as_slice().get(cell.ram as usize) else {
        return Err(Memory);
    };
    let Some(variant) = variant_of(lib, cell) else {
        return Err(Memory);
    };
    variant_cell(alloc, &ram.name, variant, inverses, cell)
}
