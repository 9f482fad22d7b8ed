//! How many bytes the text of traces has. Numbers that 64 bits do not hold stand for the greatest one.
ghost use Rattle.std.specs.Prelude.{◌≡◌, ◌+◌, ◌*◌, length, decimal, map, filter};
ghost use Rattle.std.specs.List.{flat_map};
ghost use Rattle.net_core.specs.Ports.{is_output_wire};
ghost use Rattle.trace_text.specs.Trace as trace;
ghost use Rattle.trace_text.specs.Lengths as spec;

use lib_core::Name;
use net_core::{Carried, Module, Pin, Wire};

/// The lines of an event: how many there are, and their bytes but for the event's number.
#[derive(Clone, Copy)]
pub struct Lines {
    pub count: u64,
    pub bytes: u64,
}

/// The digits of a number.
fn digit_count(number: u64) -> u64
    ensures { result ≡ length (decimal number) }
{
    let mut count = 1;
    let mut rest = number;
    while rest >= 10 {
        rest /= 10;
        count += 1;
    }
    count
}

/// The digits of all numbers below a limit: one for each number, and one more for each power of ten
/// that it reaches.
fn digits_below(limit: u64) -> u64
    ensures { result ≡ spec.capped (spec.digits_below limit) }
{
    let mut digits = limit;
    let mut power: u128 = 10;
    while power < u128::from(limit) {
        digits = digits.saturating_add(limit - power as u64);
        power *= 10;
    }
    digits
}

/// The lines with one more, of an output with this width and what is printed before its constant.
fn with_line(lines: Lines, label: u64, width: usize) -> Lines
    ensures count { result.count ≡ spec.capped (lines.count + 1) }
    ensures bytes { result.bytes ≡ spec.capped (lines.bytes + (label + length (decimal width) + width + 4)) }
{
    let constant = digit_count(width as u64).saturating_add(width as u64);
    let line = label.saturating_add(constant).saturating_add(4);
    Lines {
        count: lines.count.saturating_add(1),
        bytes: lines.bytes.saturating_add(line),
    }
}

/// The lines with those of output wires.
#[tactic(auto, unfolding(crate::specs::Lengths::all_bytes, crate::specs::Lengths::line_bytes))]
fn with_wires(start: Lines, wires: &[Wire]) -> Lines
    ensures count { result.count ≡ spec.capped (start.count + length (map (λ w. trace.wire_row w) (filter is_output_wire wires.now))) }
    ensures bytes { result.bytes ≡ spec.capped (start.bytes + spec.all_bytes (map (λ w. trace.wire_row w) (filter is_output_wire wires.now))) }
{
    let mut lines = start;
    let mut rest = wires;
    while let [wire, tail @ ..] = rest {
        if wire.output && !wire.input {
            let label = wire.name.as_slice().len() as u64;
            lines = with_line(lines, label, wire.bits.as_slice().len());
        }
        rest = tail;
    }
    lines
}

/// The bytes of the names of a cell and a pin, with a space between.
fn label_bytes(cell: &Name, pin: &Pin) -> u64
    ensures { result ≡ spec.capped (length (trace.pin_row cell.now pin.now).label) }
{
    let names = (cell.as_slice().len() as u64).saturating_add(pin.name.as_slice().len() as u64);
    names.saturating_add(1)
}

/// The lines with those of the pins that a cell reads.
#[tactic(auto, unfolding(crate::specs::Lengths::all_bytes, crate::specs::Lengths::line_bytes))]
fn with_pins(start: Lines, cell: &Name, pins: &[Pin]) -> Lines
    ensures count { result.count ≡ spec.capped (start.count + length (map (λ p. trace.pin_row cell.now p) (trace.reading pins.now))) }
    ensures bytes { result.bytes ≡ spec.capped (start.bytes + spec.all_bytes (map (λ p. trace.pin_row cell.now p) (trace.reading pins.now))) }
{
    let mut lines = start;
    let mut rest = pins;
    while let [pin, tail @ ..] = rest {
        if !pin.drives {
            lines = with_line(lines, label_bytes(cell, pin), pin.bits.as_slice().len());
        }
        rest = tail;
    }
    lines
}

/// The lines with those of the pins that cells read.
#[tactic(auto, unfolding(crate::specs::Lengths::all_bytes))]
fn with_cells(start: Lines, cells: &[Carried]) -> Lines
    ensures count { result.count ≡ spec.capped (start.count + length (flat_map trace.cell_rows cells.now)) }
    ensures bytes { result.bytes ≡ spec.capped (start.bytes + spec.all_bytes (flat_map trace.cell_rows cells.now)) }
{
    let mut lines = start;
    let mut rest = cells;
    while let [cell, tail @ ..] = rest {
        lines = with_pins(lines, &cell.name, cell.pins.as_slice());
        rest = tail;
    }
    lines
}

/// The lines of an event of a module.
fn lines_of(module: &Module) -> Lines
    ensures count { result.count ≡ spec.capped (length (trace.rows_of «module».now)) }
    ensures bytes { result.bytes ≡ spec.capped (spec.all_bytes (trace.rows_of «module».now)) }
{
    let none = Lines { count: 0, bytes: 0 };
    let wires = with_wires(none, module.wires.as_slice());
    with_cells(wires, module.carried.as_slice())
}

/// The bytes of the lines of so many events.
fn events_bytes(module: &Module, events: u64) -> u64
    ensures { result ≡ spec.capped (spec.events_bytes (trace.rows_of «module».now) events) }
{
    let lines = lines_of(module);
    let numbers = lines.count.saturating_mul(digits_below(events));
    numbers.saturating_add(events.saturating_mul(lines.bytes))
}

/// The bytes of the text of traces of a module, with so many events for each of so many seeds, or the
/// greatest number where there are more. Its time goes by the outputs of the module. It takes no memory.
pub fn trace_length(module: &Module, events: u64, seeds: u64) -> u64
    ensures { result ≡ spec.capped (spec.text_bytes «module».now events seeds) }
{
    let run = events_bytes(module, events).saturating_add(6);
    digits_below(seeds).saturating_add(seeds.saturating_mul(run))
}
