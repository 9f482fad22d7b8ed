//! Marks on places, and the wires that have them.
ghost use Rattle.std.specs.Prelude.{◌≡◌, ◌≤◌, ◌+◌, ◌++◌, length, replicate, false, IfOk, OnOk};
ghost use Rattle.std.specs.List.{list_any, range_with_len};
ghost use Rattle.net_wires.specs.Signals.{run_bits};
ghost use Rattle.net_wires.specs.Spans.{wire_bits};
ghost use Rattle.net_checks.specs.Marks as spec;

use lib_core::{Memory, Name};
use net_wires::Source;
use rtlil_text::{DocWire, Item};
use std::alloc::Global;

/// Ports that are looked for.
#[derive(Clone, Copy)]
pub enum Port {
    /// Inputs that are no outputs.
    Input,
    /// Inputs that are outputs too.
    Inout,
}

/// Marks for so many places, of which none is marked.
pub(crate) fn unmarked(alloc: Global, count: usize) -> Result<Vec<bool>, Memory>
    ensures { IfOk result (λ marks. marks.items ≡ replicate count false) }
{
    Ok(Vec::from_elem(alloc, false, count)?)
}

/// Whether a place is marked.
pub(crate) fn is_marked(marks: &[bool], place: usize) -> bool
    ensures { result ≡ spec.is_marked marks.now place }
{
    match marks.get(place) {
        Some(mark) => *mark,
        None => false,
    }
}

/// Whether a bit is at a marked place.
pub(crate) fn is_source_marked(marks: &[bool], source: Source) -> bool
    ensures { result ≡ spec.is_source_marked marks.now source }
{
    match source {
        Source::At(place) => is_marked(marks, place as usize),
        Source::Zero | Source::One | Source::Loose => false,
    }
}

fn mark_source(marks: &mut Vec<bool>, source: Source)
    ensures { marks.new.items ≡ spec.mark_source marks.old.items source }
{
    if let Source::At(place) = source {
        let at = place as usize;
        if at < marks.len() {
            marks[at] = true;
        }
    }
}

/// Marks the places of these bits.
pub(crate) fn mark_sources(marks: &mut Vec<bool>, sources: &[Source])
    ensures { marks.new.items ≡ spec.mark_sources marks.old.items sources.now }
{
    let mut rest = sources;
    while let [source, tail @ ..] = rest {
        mark_source(marks, *source);
        rest = tail;
    }
}

/// Whether one of so many places from `from` on is marked.
#[tactic(auto, using(crate::proofs::Ranges::any_turn, crate::proofs::Ranges::any_none))]
fn any_marked(marks: &[bool], from: usize, count: usize) -> bool
    requires { from + count ≤ length marks.now }
    ensures { result ≡ list_any (spec.is_marked marks.now) (range_with_len from count) }
{
    let mut place = from;
    let mut left = count;
    while left > 0 {
        if is_marked(marks, place) {
            return true;
        }
        place += 1;
        left -= 1;
    }
    false
}

/// The first wire with a marked bit.
pub(crate) fn wire_with(
    alloc: Global,
    marks: &[bool],
    items: &[Item],
) -> Result<Option<Name>, Memory>
    requires { wire_bits items.now ≤ length marks.now }
    ensures { IfOk result (λ name. name ≡ spec.wire_with (spec.is_marked marks.now) 0 items.now) }
{
    let mut from = 0usize;
    let mut rest = items;
    while let [item, tail @ ..] = rest {
        if let Item::Wire(wire) = item {
            let width = wire.width as usize;
            if any_marked(marks, from, width) {
                return Ok(Some(wire.name.copy(alloc)?));
            }
            from += width;
        }
        rest = tail;
    }
    Ok(None)
}

fn is_port(port: Port, wire: &DocWire) -> bool
    ensures { result ≡ spec.is_port port wire.now }
{
    match port {
        Port::Input => wire.input && !wire.output,
        Port::Inout => wire.input && wire.output,
    }
}

/// Puts the bits of a wire behind the others.
fn push_run(bits: &mut Vec<Source>, from: u32, width: u32) -> Result<(), Memory>
    requires { from + width ≤ 4294967295 }
    ensures { OnOk result (bits.new.items ≡ bits.old.items ++ run_bits from width) }
{
    for k in 0..width {
        bits.push(Source::At(from + k))?;
    }
    Ok(())
}

/// The bits of the wires that are such ports.
pub(crate) fn port_bits(alloc: Global, port: Port, items: &[Item]) -> Result<Vec<Source>, Memory>
    requires { wire_bits items.now ≤ 4294967295 }
    ensures { IfOk result (λ bits. bits.items ≡ spec.port_bits port 0 items.now) }
{
    let mut bits = Vec::new(alloc);
    let mut from = 0u32;
    let mut rest = items;
    while let [item, tail @ ..] = rest {
        if let Item::Wire(wire) = item {
            if is_port(port, wire) {
                push_run(&mut bits, from, wire.width)?;
            }
            from += wire.width;
        }
        rest = tail;
    }
    Ok(bits)
}
