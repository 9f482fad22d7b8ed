//! The inputs of a module in their order.
ghost use Rattle.std.specs.Prelude.{◌≡◌, ◌++◌, IfOk, OnOk, filter, map};
ghost use Rattle.std.specs.List.{flat_map};
ghost use Rattle.net_core.specs.Ports.{is_input_wire, by_port, wire_bits, bits_of_pins, driving_bits, nets_of, inputs_of};

use crate::bits::Bit;
use crate::cells::{Carried, Pin};
use crate::modules::{Module, Wire};
use lib_core::{List, Memory};
use std::alloc::Global;

/// The nets of a module's inputs, in the order in which an event gives their values: those of input
/// wires by port number, of equal numbers the earlier wire first, low bit first, and then those that
/// carried cells drive, in cell order, the pins of a cell in file order. An inout is no input.
pub fn inputs(alloc: Global, module: &Module) -> Result<List<u32>, Memory>
    ensures { IfOk result (λ nets. nets ≡ inputs_of «module».now) }
{
    let wires = inputs_by_port(alloc, module.wires.as_slice())?;
    let mut nets = Vec::new(alloc);
    push_wires(&mut nets, wires.as_slice())?;
    push_cells(&mut nets, module.carried.as_slice())?;
    Ok(List::from_vec(nets))
}

/// The input wires by port number.
fn inputs_by_port(alloc: Global, wires: &[Wire]) -> Result<Vec<&Wire>, Memory>
    ensures { IfOk result (λ refs. map (λ r. r.now) refs.items ≡ by_port (filter is_input_wire wires.now)) }
{
    let mut inputs = input_wires(alloc, wires)?;
    inputs.sort_by_key(|wire| wire.port)?;
    Ok(inputs)
}

/// The input wires in file order.
fn input_wires(alloc: Global, wires: &[Wire]) -> Result<Vec<&Wire>, Memory>
    ensures { IfOk result (λ refs. map (λ r. r.now) refs.items ≡ filter is_input_wire wires.now) }
{
    let mut inputs = Vec::new(alloc);
    for wire in wires {
        if wire.input && !wire.output {
            inputs.push(wire)?;
        }
    }
    Ok(inputs)
}

/// Puts the nets of wires at the end.
fn push_wires(nets: &mut Vec<u32>, wires: &[&Wire]) -> Result<(), Memory>
    ensures { OnOk result (nets.new.items ≡ nets.old.items ++ nets_of (wire_bits (map (λ r. r.now) wires.now))) }
{
    for wire in wires {
        push_nets(nets, wire.bits.as_slice())?;
    }
    Ok(())
}

/// Puts the nets that carried cells drive at the end.
fn push_cells(nets: &mut Vec<u32>, cells: &[Carried]) -> Result<(), Memory>
    ensures { OnOk result (nets.new.items ≡ nets.old.items ++ nets_of (flat_map driving_bits cells.now)) }
{
    for cell in cells {
        push_pins(nets, cell.pins.as_slice())?;
    }
    Ok(())
}

/// Puts the nets of driving pins at the end.
fn push_pins(nets: &mut Vec<u32>, pins: &[Pin]) -> Result<(), Memory>
    ensures { OnOk result (nets.new.items ≡ nets.old.items ++ nets_of (bits_of_pins (filter (λ p. p.drives) pins.now))) }
{
    for pin in pins {
        if pin.drives {
            push_nets(nets, pin.bits.as_slice())?;
        }
    }
    Ok(())
}

/// Puts the nets among these bits at the end.
pub fn push_nets(nets: &mut Vec<u32>, bits: &[Bit]) -> Result<(), Memory>
    ensures { OnOk result (nets.new.items ≡ nets.old.items ++ nets_of bits.now) }
{
    for bit in bits {
        if let Bit::Net(net) = bit {
            nets.push(*net)?;
        }
    }
    Ok(())
}
