//! Where the nets of a module are at home: one bit of one wire of the document for each.
ghost use Rattle.std.specs.Prelude.{◌≡◌, IfOk, OnOk};
ghost use Rattle.net_draft.specs.Homes as spec;

use crate::counts::after;
use lib_core::Memory;
use net_core::{Bit, Carried, Pin, Wire};
use std::alloc::Global;

/// A bit of a wire, by the place of the wire in the document.
#[derive(Clone, Copy)]
pub struct Home {
    pub wire: u32,
    pub bit: u32,
}

fn first_home(found: Option<Home>, home: Home) -> Option<Home>
    ensures { result ≡ spec.first_home found home }
{
    match found {
        Some(found) => Some(found),
        None => Some(home),
    }
}

/// Gives a net its home, unless it has one.
fn settle(homes: &mut Vec<Option<Home>>, bit: Bit, home: Home)
    ensures { homes.new.items ≡ spec.settle homes.old.items bit home }
{
    if let Bit::Net(net) = bit {
        let at = net as usize;
        if at < homes.len() {
            homes[at] = first_home(homes[at], home);
        }
    }
}

/// Gives the nets of a wire their homes there, unless they have others.
#[tactic(auto, unfolding(crate::specs::Homes::settle_bits))]
fn settle_bits(homes: &mut Vec<Option<Home>>, wire: u32, bits: &[Bit]) -> Result<(), Memory>
    ensures { OnOk result (homes.new.items ≡ spec.settle_bits homes.old.items wire 0 bits.now) }
{
    let mut place: u32 = 0;
    let mut rest = bits;
    while let [bit, tail @ ..] = rest {
        settle(homes, *bit, Home { wire, bit: place });
        place = after(place)?;
        rest = tail;
    }
    Ok(())
}

/// Gives the nets of a wire their homes there, if it is an input or all wires count.
fn settle_wire(
    homes: &mut Vec<Option<Home>>,
    place: u32,
    inputs_alone: bool,
    wire: &Wire,
) -> Result<(), Memory>
    ensures { OnOk result (homes.new.items ≡ spec.settle_wire homes.old.items place inputs_alone wire.now) }
{
    if wire.input || !inputs_alone {
        settle_bits(homes, place, wire.bits.as_slice())?;
    }
    Ok(())
}

/// Gives the nets of wires their homes, of input wires alone or of all.
#[tactic(auto, unfolding(crate::specs::Homes::settle_wires))]
fn settle_wires(
    homes: &mut Vec<Option<Home>>,
    wires: &[Wire],
    inputs_alone: bool,
) -> Result<(), Memory>
    ensures { OnOk result (homes.new.items ≡ spec.settle_wires homes.old.items 0 inputs_alone wires.now) }
{
    let mut place: u32 = 0;
    let mut rest = wires;
    while let [wire, tail @ ..] = rest {
        settle_wire(homes, place, inputs_alone, wire)?;
        place = after(place)?;
        rest = tail;
    }
    Ok(())
}

/// The home of each net that a wire has: the bit of the first input wire that has it, else of the
/// first wire.
pub fn wire_homes(alloc: Global, nets: u32, wires: &[Wire]) -> Result<Vec<Option<Home>>, Memory>
    ensures { IfOk result (λ homes. homes.items ≡ spec.wire_homes nets wires.now) }
{
    let mut homes = Vec::from_elem(alloc, None, nets as usize)?;
    settle_wires(&mut homes, wires, true)?;
    settle_wires(&mut homes, wires, false)?;
    Ok(homes)
}

fn mark(marks: &mut Vec<bool>, bit: Bit)
    ensures { marks.new.items ≡ spec.mark marks.old.items bit }
{
    if let Bit::Net(net) = bit {
        let at = net as usize;
        if at < marks.len() {
            marks[at] = true;
        }
    }
}

/// Marks the nets among these bits.
#[tactic(auto, unfolding(crate::specs::Homes::mark_bits))]
fn mark_bits(marks: &mut Vec<bool>, bits: &[Bit])
    ensures { marks.new.items ≡ spec.mark_bits marks.old.items bits.now }
{
    let mut rest = bits;
    while let [bit, tail @ ..] = rest {
        mark(marks, *bit);
        rest = tail;
    }
}

#[tactic(auto, unfolding(crate::specs::Homes::mark_pins))]
fn mark_pins(marks: &mut Vec<bool>, pins: &[Pin])
    ensures { marks.new.items ≡ spec.mark_pins marks.old.items pins.now }
{
    let mut rest = pins;
    while let [pin, tail @ ..] = rest {
        mark_bits(marks, pin.bits.as_slice());
        rest = tail;
    }
}

/// Marks the nets at the pins of cells.
#[tactic(auto, unfolding(crate::specs::Homes::mark_cells))]
pub fn mark_cells(marks: &mut Vec<bool>, cells: &[Carried])
    ensures { marks.new.items ≡ spec.mark_cells marks.old.items cells.now }
{
    let mut rest = cells;
    while let [cell, tail @ ..] = rest {
        mark_pins(marks, cell.pins.as_slice());
        rest = tail;
    }
}

/// Whether a net has no home.
fn is_homeless(homes: &[Option<Home>], marked: bool, net: u32) -> bool
    ensures { result ≡ spec.is_homeless homes.now marked net }
{
    match homes.get(net as usize) {
        Some(home) => marked && home.is_none(),
        None => false,
    }
}

/// The marked nets without a home, in order.
#[tactic(auto, unfolding(crate::specs::Homes::others))]
pub fn others(alloc: Global, homes: &[Option<Home>], marks: &[bool]) -> Result<Vec<u32>, Memory>
    ensures { IfOk result (λ nets. nets.items ≡ spec.others homes.now 0 marks.now) }
{
    let mut nets = Vec::new(alloc);
    let mut net: u32 = 0;
    let mut rest = marks;
    while let [marked, tail @ ..] = rest {
        if is_homeless(homes, *marked, net) {
            nets.push(net)?;
        }
        net = after(net)?;
        rest = tail;
    }
    Ok(nets)
}

/// Gives nets their homes in a wire, one bit after the other.
#[tactic(auto, unfolding(crate::specs::Homes::settle_nets))]
pub fn settle_nets(homes: &mut Vec<Option<Home>>, wire: u32, nets: &[u32]) -> Result<(), Memory>
    ensures { OnOk result (homes.new.items ≡ spec.settle_nets homes.old.items wire 0 nets.now) }
{
    let mut place: u32 = 0;
    let mut rest = nets;
    while let [net, tail @ ..] = rest {
        settle(homes, Bit::Net(*net), Home { wire, bit: place });
        place = after(place)?;
        rest = tail;
    }
    Ok(())
}
