//! The connects of a document: bits of wires that are not the homes of their nets.
ghost use Rattle.std.specs.Prelude.{◌≡◌, ◌-◌, ◌++◌, [], slice_get, Some, IfOk, OnOk};
ghost use Rattle.net_draft.specs.Connects as spec;
ghost use Rattle.net_draft.specs.Signals as signals;

use crate::counts::after;
use crate::homes::Home;
use crate::signals::{Face, Sheet, signal, slice_parts};
use lib_core::{List, Memory};
use net_core::{Bit, Wire};
use rtlil_text::{Item, Part};
use std::alloc::Global;

fn is_there(found: Option<Home>, home: Home) -> bool
    ensures { result ≡ spec.found_there (Some found) home }
{
    match found {
        Some(found) => found.wire == home.wire && found.bit == home.bit,
        None => false,
    }
}

/// Whether the bit is a net that is at home there.
fn is_at_home(homes: &[Option<Home>], bit: Bit, home: Home) -> bool
    ensures { result ≡ spec.is_at_home homes.now bit home }
{
    match bit {
        Bit::Zero | Bit::One => false,
        Bit::Net(net) => match homes.get(net as usize) {
            Some(found) => is_there(*found, home),
            None => false,
        },
    }
}

/// The bits of a wire from one on, below another.
fn left_side(alloc: Global, faces: &[Face], home: Home, to: u32) -> Result<List<Part>, Memory>
    ensures { IfOk result (λ parts. parts ≡ signals.wire_parts (slice_get faces.now home.wire) (to - 1) home.bit) }
{
    let Some(high) = to.checked_sub(1) else {
        return Err(Memory);
    };
    match faces.get(home.wire as usize) {
        Some(face) => Ok(List::from_vec(slice_parts(alloc, face, high, home.bit)?)),
        None => Err(Memory),
    }
}

/// Puts the connect of a run of bits at the end, which begins at a bit of a wire and ends below
/// another. No bits need none.
fn push_connect(
    alloc: Global,
    items: &mut Vec<Item>,
    sheet: &Sheet,
    home: Home,
    to: u32,
    run: &[Bit],
) -> Result<(), Memory>
    ensures { OnOk result (items.new.items ≡ items.old.items ++ spec.connect sheet.now home to run.now) }
{
    if let [_, ..] = run {
        let left = left_side(alloc, sheet.faces.as_slice(), home, to)?;
        let right = signal(alloc, sheet, run)?;
        items.push(Item::Connect { left, right })?;
    }
    Ok(())
}

/// Puts the connects of the bits of a wire at the end: one for each run of bits that are elsewhere at
/// home.
#[tactic(auto, unfolding(crate::specs::Connects::connects_from))]
fn push_runs(
    alloc: Global,
    items: &mut Vec<Item>,
    sheet: &Sheet,
    wire: u32,
    bits: &[Bit],
) -> Result<(), Memory>
    ensures { OnOk result (items.new.items ≡ items.old.items ++ spec.connects_from sheet.now wire 0 0 [] bits.now) }
{
    let mut run: Vec<Bit> = Vec::new(alloc);
    let mut from: u32 = 0;
    let mut place: u32 = 0;
    let mut rest = bits;
    while let [bit, tail @ ..] = rest {
        let next = after(place)?;
        if is_at_home(sheet.homes.as_slice(), *bit, Home { wire, bit: place }) {
            push_connect(
                alloc,
                items,
                sheet,
                Home { wire, bit: from },
                place,
                run.as_slice(),
            )?;
            run = Vec::new(alloc);
            from = next;
        } else {
            run.push(*bit)?;
        }
        place = next;
        rest = tail;
    }
    push_connect(
        alloc,
        items,
        sheet,
        Home { wire, bit: from },
        place,
        run.as_slice(),
    )?;
    Ok(())
}

fn push_wire_connects(
    alloc: Global,
    items: &mut Vec<Item>,
    sheet: &Sheet,
    place: u32,
    wire: &Wire,
) -> Result<(), Memory>
    ensures { OnOk result (items.new.items ≡ items.old.items ++ spec.wire_connects sheet.now place wire.now) }
{
    if !wire.input {
        push_runs(alloc, items, sheet, place, wire.bits.as_slice())?;
    }
    Ok(())
}

/// Puts the connects of wires at the end. No connect drives an input.
#[tactic(auto, unfolding(crate::specs::Connects::connects))]
pub fn push_connects(
    alloc: Global,
    items: &mut Vec<Item>,
    sheet: &Sheet,
    wires: &[Wire],
) -> Result<(), Memory>
    ensures { OnOk result (items.new.items ≡ items.old.items ++ spec.connects sheet.now 0 wires.now) }
{
    let mut place: u32 = 0;
    let mut rest = wires;
    while let [wire, tail @ ..] = rest {
        push_wire_connects(alloc, items, sheet, place, wire)?;
        place = after(place)?;
        rest = tail;
    }
    Ok(())
}
