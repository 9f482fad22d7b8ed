//! Inverters.
ghost use Rattle.std.specs.Prelude.{◌≡◌, ◌++◌, IfOk, OnOk};
ghost use Rattle.std.specs.List.{flat_map};
ghost use Rattle.std.specs.Option.{option_copied};
ghost use Rattle.net_checks.specs.ClockPins as spec;

use cell_rows::CombRow;
use lib_core::Memory;
use net_core::CombKind;
use net_wires::{Inverter, Source};
use raw_cells::{CellShape, RawCell, RawPin};
use std::alloc::Global;

fn pin_named<'a>(pins: &'a [RawPin], name: &[u8]) -> Option<&'a RawPin>
    ensures { option_copied result ≡ spec.pin_named pins.now name.now }
{
    pins.iter().find(|pin| pin.name.as_slice() == name)
}

/// What stands at the pin of a name; nothing where the cell has no such pin.
fn bits_at<'a>(pins: &'a [RawPin], name: &[u8]) -> &'a [Source]
    ensures { result.now ≡ spec.bits_at pins.now name.now }
{
    match pin_named(pins, name) {
        Some(pin) => pin.bits.as_slice(),
        None => &[],
    }
}

/// The last of these bits, the other one where there is none.
fn last_bit(other: Source, bits: &[Source]) -> Source
    ensures { result ≡ spec.last_bit other bits.now }
{
    let mut last = other;
    let mut rest = bits;
    while let [bit, tail @ ..] = rest {
        last = *bit;
        rest = tail;
    }
    last
}

/// What stands above an operand.
fn bit_above(signed: bool, bits: &[Source]) -> Source
    ensures { result ≡ spec.bit_above signed bits.now }
{
    if signed {
        last_bit(Source::Zero, bits)
    } else {
        Source::Zero
    }
}

fn push_inverter(found: &mut Vec<Inverter>, from: Source, to: Source) -> Result<(), Memory>
    ensures { OnOk result (found.new.items ≡ found.old.items ++ spec.inverter from to) }
{
    if let Source::At(to) = to {
        found.push(Inverter { from, to })?;
    }
    Ok(())
}

/// Puts inverters behind others: each bit of `to` inverts that of `from`, or the one above it.
fn push_between(
    found: &mut Vec<Inverter>,
    above: Source,
    from: &[Source],
    to: &[Source],
) -> Result<(), Memory>
    ensures { OnOk result (found.new.items ≡ found.old.items ++ spec.inverters_between above from.now to.now) }
{
    let mut left = from;
    let mut rest = to;
    while let [bit, tail @ ..] = rest {
        if let [first, more @ ..] = left {
            push_inverter(found, *first, *bit)?;
            left = more;
        } else {
            push_inverter(found, above, *bit)?;
        }
        rest = tail;
    }
    Ok(())
}

#[tactic(auto, unfolding(crate::specs::ClockPins::not_inverters))]
fn push_not(found: &mut Vec<Inverter>, signed: bool, pins: &[RawPin]) -> Result<(), Memory>
    ensures { OnOk result (found.new.items ≡ found.old.items ++ spec.not_inverters signed pins.now) }
{
    let from = bits_at(pins, b"\\A");
    let to = bits_at(pins, b"\\Y");
    push_between(found, bit_above(signed, from), from, to)
}

fn is_not(kind: CombKind) -> bool
    ensures { result ≡ spec.is_not kind }
{
    matches!(kind, CombKind::Not)
}

fn push_comb(found: &mut Vec<Inverter>, row: &CombRow, pins: &[RawPin]) -> Result<(), Memory>
    ensures { OnOk result (found.new.items ≡ found.old.items ++ spec.comb_inverters row.now pins.now) }
{
    if is_not(row.kind) {
        push_not(found, row.a_signed, pins)?;
    }
    Ok(())
}

fn push_cell(found: &mut Vec<Inverter>, cell: &RawCell) -> Result<(), Memory>
    ensures { OnOk result (found.new.items ≡ found.old.items ++ spec.cell_inverters cell.now) }
{
    if let CellShape::Comb(row) = &cell.shape {
        push_comb(found, row, cell.pins.as_slice())?;
    }
    Ok(())
}

/// The inverters among cells.
pub(crate) fn inverters(alloc: Global, cells: &[RawCell]) -> Result<Vec<Inverter>, Memory>
    ensures { IfOk result (λ found. found.items ≡ flat_map spec.cell_inverters cells.now) }
{
    let mut found = Vec::new(alloc);
    for cell in cells {
        push_cell(&mut found, cell)?;
    }
    Ok(found)
}
