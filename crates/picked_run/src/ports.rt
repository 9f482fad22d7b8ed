//! The outputs of a module in their order.
ghost use Rattle.std.specs.Prelude.{◌≡◌, ◌++◌, ◌∷◌, [], not, IfOk, OnOk, filter, map};
ghost use Rattle.std.specs.List.{flat_map};
ghost use Rattle.net_core.specs.Ports.{is_output_wire, by_port, wire_bits, bits_of_pins, reading_bits, outputs_of};

use lib_core::Memory;
use net_core::{Bit, Carried, Module, Pin, Wire};
use std::alloc::Global;

/// The bits of a module's outputs: those of output wires by port number, of equal numbers the earlier wire
/// first, low bit first, and then those of the pins that carried cells do not drive, in cell order, the pins
/// of a cell in file order.
pub fn outputs(alloc: Global, module: &Module) -> Result<Vec<Bit>, Memory>
    ensures { IfOk result (λ bits. bits.items ≡ outputs_of «module».now) }
{
    let wires = outputs_by_port(alloc, module.wires.as_slice())?;
    let mut bits = Vec::new(alloc);
    push_wires(&mut bits, wires.as_slice())?;
    push_cells(&mut bits, module.carried.as_slice())?;
    Ok(bits)
}

/// The output wires by port number.
fn outputs_by_port(alloc: Global, wires: &[Wire]) -> Result<Vec<&Wire>, Memory>
    ensures { IfOk result (λ refs. map (λ r. r.now) refs.items ≡ by_port (filter is_output_wire wires.now)) }
{
    let mut outputs = output_wires(alloc, wires)?;
    outputs.sort_by_key(|wire| wire.port)?;
    Ok(outputs)
}

/// The output wires in file order.
fn output_wires(alloc: Global, wires: &[Wire]) -> Result<Vec<&Wire>, Memory>
    ensures { IfOk result (λ refs. map (λ r. r.now) refs.items ≡ filter is_output_wire wires.now) }
{
    let mut outputs = Vec::new(alloc);
    for wire in wires {
        if wire.output && !wire.input {
            outputs.push(wire)?;
        }
    }
    Ok(outputs)
}

/// Puts the bits of wires at the end.
fn push_wires(bits: &mut Vec<Bit>, wires: &[&Wire]) -> Result<(), Memory>
    ensures { OnOk result (bits.new.items ≡ bits.old.items ++ wire_bits (map (λ r. r.now) wires.now)) }
{
    for wire in wires {
        bits.extend_from_slice(wire.bits.as_slice())?;
    }
    Ok(())
}

/// Puts the bits that carried cells read at the end.
fn push_cells(bits: &mut Vec<Bit>, cells: &[Carried]) -> Result<(), Memory>
    ensures { OnOk result (bits.new.items ≡ bits.old.items ++ flat_map reading_bits cells.now) }
{
    for cell in cells {
        push_pins(bits, cell.pins.as_slice())?;
    }
    Ok(())
}

/// Puts the bits of pins that the cell does not drive at the end.
fn push_pins(bits: &mut Vec<Bit>, pins: &[Pin]) -> Result<(), Memory>
    ensures { OnOk result (bits.new.items ≡ bits.old.items ++ bits_of_pins (filter (λ p. not p.drives) pins.now)) }
{
    let mut rest = pins;
    while let [pin, tail @ ..] = rest {
        push_pin(bits, pin)?;
        rest = tail;
    }
    Ok(())
}

/// Puts the bits of a pin at the end, where the cell does not drive it.
fn push_pin(bits: &mut Vec<Bit>, pin: &Pin) -> Result<(), Memory>
    ensures { OnOk result (bits.new.items ≡ bits.old.items ++ bits_of_pins (filter (λ p. not p.drives) (pin.now ∷ []))) }
{
    if !pin.drives {
        bits.extend_from_slice(pin.bits.as_slice())?;
    }
    Ok(())
}
