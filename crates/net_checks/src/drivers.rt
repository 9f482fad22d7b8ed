//! What is driven in a module, and what is driven twice.
ghost use Rattle.std.specs.Prelude.{◌≡◌, ◌≤◌, ◌<◌, ◌++◌, ℕ, length, map, IfOk, OnOk, List as Seq};
ghost use Rattle.std.specs.List.{flat_map, list_any, range_with_len};
ghost use Rattle.net_wires.specs.Drivers.{is_constant, is_doubly_driven, Tally};
ghost use Rattle.net_wires.specs.Spans.{wire_bits};
ghost use Rattle.net_checks.specs.Driven as spec;
ghost use Rattle.net_checks.specs.Joined as joining;
ghost use Rattle.net_checks.specs.Checks as checks;
ghost use Rattle.net_checks.specs.Finds.{FindsFirst};
ghost use Rattle.net_checks.specs.Marks.{wire_with};
ghost use Rattle.net_wires.specs.declared.source.Source.{Source as Sources};

use crate::fault::{ModuleHalt, broken, shown};
use crate::joined::joined;
use crate::marking::{Port, port_bits, wire_with};
use crate::sources::push_driven;
use lib_core::{Memory, Name};
use net_gather::Gathered;
use net_wires::{BuildCode, Drivers, Link, Pair, Source, Stop};
use raw_cells::{RawCell, RawPin};
use rtlil_text::Item;
use std::alloc::Global;

fn push_lefts(bits: &mut Vec<Source>, pairs: &[Pair]) -> Result<(), Memory>
    ensures { OnOk result (bits.new.items ≡ bits.old.items ++ map spec.left_of pairs.now) }
{
    for pair in pairs {
        bits.push(pair.left)?;
    }
    Ok(())
}

fn push_cells(bits: &mut Vec<Source>, cells: &[RawCell]) -> Result<(), Memory>
    ensures { OnOk result (bits.new.items ≡ bits.old.items ++ flat_map spec.cell_drives cells.now) }
{
    for cell in cells {
        push_driven(bits, cell)?;
    }
    Ok(())
}

/// What is driven, with an entry for each driver.
fn driven(alloc: Global, items: &[Item], gathered: &Gathered) -> Result<Vec<Source>, Memory>
    requires { wire_bits items.now ≤ 4294967295 }
    ensures { IfOk result (λ bits. bits.items ≡ spec.driven items.now gathered.now) }
{
    let mut bits = port_bits(alloc, Port::Input, items)?;
    push_lefts(&mut bits, gathered.pairs.as_slice())?;
    push_cells(&mut bits, gathered.cells.as_slice())?;
    Ok(bits)
}

/// Of each of so many places whether it is driven twice.
fn doubles(alloc: Global, drivers: &Drivers, count: u32) -> Result<Vec<bool>, Memory>
    ensures { (driven : Seq Sources) → Tally count driven drivers.now → IfOk result (λ marks. marks.items ≡ map (is_doubly_driven driven) (range_with_len 0 count)) }
{
    let mut marks = Vec::with_capacity(alloc, count as usize)?;
    for place in 0..count {
        marks.push(drivers.is_double(place))?;
    }
    Ok(marks)
}

/// The first wire with a bit that is joined with one that is driven twice, where connects lead to
/// these ends.
fn contested_wire(
    alloc: Global,
    items: &[Item],
    gathered: &Gathered,
    drivers: &Drivers,
    ends: &[Link],
) -> Result<Option<Name>, Memory>
    requires sound { checks.IsSound items.now gathered.now }
    requires ends { joining.HasEnds (checks.module_links gathered.now) ends.now }
    requires tally { Tally gathered.now.places (spec.driven items.now gathered.now) drivers.now }
    ensures { IfOk result (λ name. name ≡ wire_with (spec.is_contested items.now gathered.now) 0 items.now) }
{
    let doubles = doubles(alloc, drivers, gathered.places)?;
    let joined = joined(alloc, doubles.as_slice(), ends)?;
    wire_with(alloc, joined.as_slice(), items)
}

fn is_constant(source: Source) -> bool
    ensures { result ≡ is_constant source }
{
    !matches!(source, Source::At(_))
}

fn any_constant(sources: &[Source]) -> bool
    ensures { result ≡ list_any is_constant sources.now }
{
    sources.iter().any(|source| is_constant(*source))
}

fn pin_drives_constant(pin: &RawPin) -> bool
    ensures { result ≡ spec.pin_drives_constant pin.now }
{
    if pin.drives {
        return any_constant(pin.bits.as_slice());
    }
    false
}

fn drives_constant(cell: &RawCell) -> bool
    ensures { result ≡ spec.drives_constant cell.now }
{
    cell.pins
        .as_slice()
        .iter()
        .any(|pin| pin_drives_constant(pin))
}

/// The first cell that drives a constant.
fn constant_driver(alloc: Global, cells: &[RawCell]) -> Result<Option<Name>, Memory>
    ensures { IfOk result (λ name. name ≡ spec.constant_driver cells.now) }
{
    let mut rest = cells;
    while let [cell, tail @ ..] = rest {
        if drives_constant(cell) {
            return Ok(Some(cell.name.copy(alloc)?));
        }
        rest = tail;
    }
    Ok(None)
}

/// The wire or the cell that shows two drivers.
fn driver_name(
    alloc: Global,
    items: &[Item],
    gathered: &Gathered,
    drivers: &Drivers,
    ends: &[Link],
) -> Result<Name, Memory>
    requires sound { checks.IsSound items.now gathered.now }
    requires ends { joining.HasEnds (checks.module_links gathered.now) ends.now }
    requires tally { Tally gathered.now.places (spec.driven items.now gathered.now) drivers.now }
    ensures { IfOk result (λ name. name ≡ spec.driver_name items.now gathered.now) }
{
    if let Some(name) = contested_wire(alloc, items, gathered, drivers, ends)? {
        return Ok(name);
    }
    let name = constant_driver(alloc, gathered.cells.as_slice())?;
    Ok(shown(alloc, name))
}

/// What drives the places of a module, counted.
fn tally(alloc: Global, items: &[Item], gathered: &Gathered) -> Result<Drivers, Memory>
    requires { wire_bits items.now ≤ 4294967295 }
    ensures { IfOk result (λ drivers. Tally gathered.now.places (spec.driven items.now gathered.now) drivers) }
{
    let driven = driven(alloc, items, gathered)?;
    let mut drivers = Drivers::none(alloc, gathered.places)?;
    drivers.drive(driven.as_slice());
    Ok(drivers)
}

/// Stops where a place is driven twice, or an input or a constant is driven (`TwoDrivers`), where
/// connects lead to these ends.
pub(crate) fn check_drivers(
    alloc: Global,
    items: &[Item],
    gathered: &Gathered,
    ends: &[Link],
) -> Result<(), ModuleHalt>
    requires sound { checks.IsSound items.now gathered.now }
    requires ends { joining.HasEnds (checks.module_links gathered.now) ends.now }
    ensures { FindsFirst result (spec.driver_faults items.now gathered.now) (λ _. Unit {0}) }
{
    let drivers = tally(alloc, items, gathered)?;
    match drivers.check() {
        Ok(()) => Ok(()),
        Err(Stop::Memory) => Err(ModuleHalt::Memory),
        Err(Stop::Broken(_)) => {
            let name = driver_name(alloc, items, gathered, &drivers, ends)?;
            Err(broken(BuildCode::TwoDrivers, name))
        }
    }
}
