//! The inputs of a module, as a stimulus names them.
ghost use Rattle.std.specs.Prelude.{◌≡◌, ◌++◌, ◌∷◌, [], map, filter, length, IfOk, OnOk};
ghost use Rattle.std.specs.List.{flat_map};
ghost use Rattle.net_core.specs.Ports.{is_input_wire, by_port, wire_bits, bits_of_pins, driving_bits, read_clock, mem_clocks, ram_clocks, clocks_of};
ghost use Rattle.stim_text.specs.Inputs as inputs;

use crate::names::{Pins, Span, Wires};
use crate::roots::Roots;
use lib_core::{List, Memory};
use net_core::{Bit, Carried, Module, Pin, Wire};
use std::alloc::Global;

/// What lines of a stimulus look up.
#[derive(Drop)]
pub struct Tables<'a> {
    /// The bits of all inputs: those of input wires by port number, then those that carried cells
    /// drive.
    pub bits: List<Bit>,
    pub wires: Wires<'a>,
    pub pins: Pins<'a>,
    pub roots: Roots,
}

/// The input wires in file order.
fn input_wires(alloc: Global, wires: &[Wire]) -> Result<Vec<&Wire>, Memory>
    ensures { IfOk result (λ refs. map (λ r. r.now) refs.items ≡ filter is_input_wire wires.now) }
{
    let mut inputs = Vec::new(alloc);
    for wire in wires {
        if wire.input && !wire.output {
            inputs.push(wire)?;
        }
    }
    Ok(inputs)
}

/// The input wires by port number.
fn inputs_by_port(alloc: Global, wires: &[Wire]) -> Result<Vec<&Wire>, Memory>
    ensures { IfOk result (λ refs. map (λ r. r.now) refs.items ≡ by_port (filter is_input_wire wires.now)) }
{
    let mut inputs = input_wires(alloc, wires)?;
    inputs.sort_by_key(|wire| wire.port)?;
    Ok(inputs)
}

/// Puts bits at the end. The answer is where they stand.
fn push_bits(all: &mut Vec<Bit>, bits: &[Bit]) -> Result<Span, Memory>
    ensures bits { OnOk result (all.new.items ≡ all.old.items ++ bits.now) }
    ensures span { IfOk result (λ span. span ≡ inputs.span (length all.old.items) (length bits.now)) }
{
    let span = Span {
        start: all.len(),
        width: bits.len(),
    };
    all.extend_from_slice(bits)?;
    Ok(span)
}

/// Puts the bits of wires at the end, and notes where each stands.
#[tactic(auto, unfolding(crate::specs::Inputs::with_wires))]
fn add_wires<'a>(
    bits: &mut Vec<Bit>,
    wires: &mut Wires<'a>,
    ports: &[&'a Wire],
) -> Result<(), Memory>
    ensures bits { OnOk result (bits.new.items ≡ bits.old.items ++ wire_bits (map (λ r. r.now) ports.now)) }
    ensures wires { OnOk result (wires.new ≡ inputs.with_wires (length bits.old.items) wires.old (map (λ r. r.now) ports.now)) }
{
    let mut rest = ports;
    while let [wire, tail @ ..] = rest {
        let span = push_bits(bits, wire.bits.as_slice())?;
        wires.add(wire.name.as_slice(), span)?;
        rest = tail;
    }
    Ok(())
}

/// Puts the bits that a cell drives at the end, and notes where each of its pins stands.
#[tactic(auto, unfolding(crate::specs::Inputs::with_pins))]
fn add_pins<'a>(
    bits: &mut Vec<Bit>,
    pins: &mut Pins<'a>,
    cell: &'a [u8],
    of_cell: &'a [Pin],
) -> Result<(), Memory>
    ensures bits { OnOk result (bits.new.items ≡ bits.old.items ++ bits_of_pins (filter (λ p. p.drives) of_cell.now)) }
    ensures pins { OnOk result (pins.new ≡ inputs.with_pins (length bits.old.items) pins.old cell.now of_cell.now) }
{
    let mut rest = of_cell;
    while let [pin, tail @ ..] = rest {
        if pin.drives {
            let span = push_bits(bits, pin.bits.as_slice())?;
            pins.add(cell, pin.name.as_slice(), span)?;
        }
        rest = tail;
    }
    Ok(())
}

/// Puts the bits that cells drive at the end, and notes where each of their pins stands.
#[tactic(auto, unfolding(crate::specs::Inputs::with_cells))]
fn add_cells<'a>(
    bits: &mut Vec<Bit>,
    pins: &mut Pins<'a>,
    cells: &'a [Carried],
) -> Result<(), Memory>
    ensures bits { OnOk result (bits.new.items ≡ bits.old.items ++ flat_map driving_bits cells.now) }
    ensures pins { OnOk result (pins.new ≡ inputs.with_cells (length bits.old.items) pins.old cells.now) }
{
    let mut rest = cells;
    while let [cell, tail @ ..] = rest {
        add_pins(bits, pins, cell.name.as_slice(), cell.pins.as_slice())?;
        rest = tail;
    }
    Ok(())
}

/// The tables of a module.
#[tactic(auto, unfolding(crate::specs::Inputs::tables_of))]
pub fn tables_of<'a>(alloc: Global, module: &'a Module) -> Result<Tables<'a>, Memory>
    ensures { IfOk result (λ found. found ≡ inputs.tables_of «module».now) }
{
    let ports = inputs_by_port(alloc, module.wires.as_slice())?;
    let mut bits = Vec::new(alloc);
    let mut wires = Wires::new(alloc);
    add_wires(&mut bits, &mut wires, ports.as_slice())?;
    let mut pins = Pins::new(alloc);
    add_cells(&mut bits, &mut pins, module.carried.as_slice())?;
    Ok(Tables {
        bits: List::from_vec(bits),
        wires,
        pins,
        roots: Roots::of(alloc, module)?,
    })
}
