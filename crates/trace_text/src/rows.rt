//! What is printed of each event.
ghost use Rattle.std.specs.Prelude.{◌≡◌, ◌++◌, ◌∷◌, map, filter, IfOk, OnOk};
ghost use Rattle.std.specs.List.{flat_map};
ghost use Rattle.net_core.specs.Ports.{is_output_wire, by_port};
ghost use Rattle.trace_text.specs.Trace as trace;

use lib_core::{Memory, Name};
use net_core::{Carried, Module, Pin, Wire};
use std::alloc::Global;

/// An output.
#[derive(Drop)]
pub struct Row {
    /// What stands before its constant: a wire's name, or those of a cell and a pin.
    pub label: Name,
    pub width: usize,
}

/// The output wires in file order.
fn output_wires(alloc: Global, wires: &[Wire]) -> Result<Vec<&Wire>, Memory>
    ensures { IfOk result (λ refs. map (λ r. r.now) refs.items ≡ filter is_output_wire wires.now) }
{
    let mut outputs = Vec::new(alloc);
    for wire in wires {
        if wire.output && !wire.input {
            outputs.push(wire)?;
        }
    }
    Ok(outputs)
}

/// The output wires by port number.
fn outputs_by_port(alloc: Global, wires: &[Wire]) -> Result<Vec<&Wire>, Memory>
    ensures { IfOk result (λ refs. map (λ r. r.now) refs.items ≡ by_port (filter is_output_wire wires.now)) }
{
    let mut outputs = output_wires(alloc, wires)?;
    outputs.sort_by_key(|wire| wire.port)?;
    Ok(outputs)
}

fn wire_row(alloc: Global, wire: &Wire) -> Result<Row, Memory>
    ensures { IfOk result (λ row. row ≡ trace.wire_row wire.now) }
{
    Ok(Row {
        label: wire.name.copy(alloc)?,
        width: wire.bits.as_slice().len(),
    })
}

fn pin_row(alloc: Global, cell: &Name, pin: &Pin) -> Result<Row, Memory>
    ensures { IfOk result (λ row. row ≡ trace.pin_row cell.now pin.now) }
{
    let mut label = Vec::from_slice(alloc, cell.as_slice())?;
    label.push(b' ')?;
    label.extend_from_slice(pin.name.as_slice())?;
    Ok(Row {
        label: Name::from_vec(label),
        width: pin.bits.as_slice().len(),
    })
}

fn push_wires(alloc: Global, rows: &mut Vec<Row>, wires: &[&Wire]) -> Result<(), Memory>
    ensures { OnOk result (rows.new.items ≡ rows.old.items ++ map (λ w. trace.wire_row w) (map (λ r. r.now) wires.now)) }
{
    let mut rest = wires;
    while let [wire, tail @ ..] = rest {
        rows.push(wire_row(alloc, wire)?)?;
        rest = tail;
    }
    Ok(())
}

/// The pins that a cell reads.
fn push_pins(alloc: Global, rows: &mut Vec<Row>, cell: &Name, pins: &[Pin]) -> Result<(), Memory>
    ensures { OnOk result (rows.new.items ≡ rows.old.items ++ map (λ p. trace.pin_row cell.now p) (trace.reading pins.now)) }
{
    let mut rest = pins;
    while let [pin, tail @ ..] = rest {
        if !pin.drives {
            rows.push(pin_row(alloc, cell, pin)?)?;
        }
        rest = tail;
    }
    Ok(())
}

fn push_cells(alloc: Global, rows: &mut Vec<Row>, cells: &[Carried]) -> Result<(), Memory>
    ensures { OnOk result (rows.new.items ≡ rows.old.items ++ flat_map trace.cell_rows cells.now) }
{
    let mut rest = cells;
    while let [cell, tail @ ..] = rest {
        push_pins(alloc, rows, &cell.name, cell.pins.as_slice())?;
        rest = tail;
    }
    Ok(())
}

/// What is printed of each event of a module.
#[tactic(auto, unfolding(crate::specs::Trace::rows_of))]
pub fn rows_of(alloc: Global, module: &Module) -> Result<Vec<Row>, Memory>
    ensures { IfOk result (λ rows. rows.items ≡ trace.rows_of «module».now) }
{
    let wires = outputs_by_port(alloc, module.wires.as_slice())?;
    let mut rows = Vec::new(alloc);
    push_wires(alloc, &mut rows, wires.as_slice())?;
    push_cells(alloc, &mut rows, module.carried.as_slice())?;
    Ok(rows)
}
