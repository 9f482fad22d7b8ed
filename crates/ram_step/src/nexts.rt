//! What a slot that reads into a register keeps next.
ghost use Rattle.std.specs.Prelude.{◌≡◌, ℕ, ◌+◌, ◌*◌, ◌-◌, ◌^◌, ◌<◌, ◌≤◌, true, Bool, length, map, slice_index};
ghost use Rattle.std.specs.List.{list_any, range_with_len};
ghost use Rattle.lib_core.specs.Rams.{last_width, lies};
ghost use Rattle.net_core.specs.Ram as ram;
ghost use Rattle.net_core.specs.Shape as shape;
ghost use Rattle.net_core.specs.Values as net;
ghost use Rattle.net_core.specs.Values.{bit_at};
ghost use Rattle.row_store.specs.Rows.{bit_of, tri_in};
ghost use Rattle.ram_step.specs.Ports.{slot_of};
ghost use Rattle.ram_step.specs.Hits.{hit_bits};
ghost use Rattle.ram_step.specs.Picks.{resolved};
ghost use Rattle.ram_step.specs.Moments.{inputs_alone, moment_of, valuation};
ghost use Rattle.ram_step.specs.Nexts as nexts;
ghost use Rattle.ram_step.specs.Nexts.{tri_next, HasRoom, takes, AreHits, AreWords};

use crate::gathers::{Choice, gather, loaded};
use crate::hits::Hit;
use crate::picks::{PickKey, resolve};
use crate::pins::{filled, net_value};
use crate::ports::{Port, Ports, at_edge, in_arst, in_srst, is_enabled, is_reading, lane_enabled};
use lib_core::{OwnWrite, Tri};
use net_core::Event;
use row_store::{Bits, Row, Rows, and};

/// What a slot keeps next.
#[derive(Clone, Copy)]
pub(crate) enum Next<const LIMBS: usize> {
    /// What it keeps.
    Same,
    /// What its outputs show.
    Shown,
    /// What its synchronous reset resets to.
    Reset,
    /// Any value.
    Open,
    /// What stands in this row from a place on.
    Loaded { row: Row<LIMBS>, from: u32 },
}

/// What a slot keeps next.
pub(crate) fn next_of<const LIMBS: usize, const LEVELS: usize>(
    ports: &Ports<'_, LEVELS>,
    hits: &[Option<Hit<LIMBS>>],
    rows: &Rows<LIMBS>,
    port: &Port<'_>,
    values: &[bool],
    event: &Event,
) -> Next<LIMBS>
    requires fits { shape.slot_fits ports.now.variant port.now.kind.now port.now.pins.now ≡ true }
    requires hits { AreHits ports.now (valuation values.now) event.now hits.now }
    requires words { AreWords ports.now.variant rows.now }
    requires few_bits { last_width ports.now.variant ≤ 64 * LIMBS }
    ensures bits { (kept : ℕ → Bool) (k : ℕ) → k < ram.slot_width ports.now.variant (slot_of port.now) → tri_next (valuation values.now) (slot_of port.now) kept k result ≡ nexts.next_of ports.now (valuation values.now) event.now rows.now (slot_of port.now) kept k }
    ensures room { HasRoom (ram.slot_width ports.now.variant (slot_of port.now)) result }
{
    if in_arst(port, values) {
        return Next::Shown;
    }
    if !at_edge(port, event.edge) {
        return Next::Same;
    }
    if in_srst(port, values) {
        return Next::Reset;
    }
    if !is_enabled(port, values) {
        return Next::Same;
    }
    if !is_reading(port, values) {
        return Next::Same;
    }
    if !writes_itself(ports, port, values, event) {
        return load(ports, hits, rows, port, values, false);
    }
    match port.kind.own {
        OwnWrite::Undefined => Next::Open,
        OwnWrite::NoChange => Next::Same,
        OwnWrite::Old | OwnWrite::New => load(ports, hits, rows, port, values, false),
        OwnWrite::NewOnly => load(ports, hits, rows, port, values, true),
    }
}

/// Whether the slot writes at least one bit of its word.
fn writes_itself<const LEVELS: usize>(
    ports: &Ports<'_, LEVELS>,
    port: &Port<'_>,
    values: &[bool],
    event: &Event,
) -> bool
    ensures { result ≡ ram.writes_itself (inputs_alone event.now) ports.now.variant (moment_of event.now) (valuation values.now) (slot_of port.now) }
{
    (at_edge(port, event.edge) && is_enabled(port, values)) && has_lane(ports, port, values)
}

/// Whether a lane of the slot is enabled.
fn has_lane<const LEVELS: usize>(
    ports: &Ports<'_, LEVELS>,
    port: &Port<'_>,
    values: &[bool],
) -> bool
    ensures { result ≡ list_any (nexts.lane_at ports.now.variant (valuation values.now) (slot_of port.now)) (range_with_len 0 (ram.slot_width ports.now.variant (slot_of port.now))) }
{
    let width = ports.width(port);
    for place in 0..width {
        if lane_enabled(port, values, ports.lane(width, place)) {
            return true;
        }
    }
    false
}

/// What the slot loads, or, where asked, only where its own write is.
fn load<const LIMBS: usize, const LEVELS: usize>(
    ports: &Ports<'_, LEVELS>,
    hits: &[Option<Hit<LIMBS>>],
    rows: &Rows<LIMBS>,
    port: &Port<'_>,
    values: &[bool],
    only: bool,
) -> Next<LIMBS>
    requires fits { shape.slot_fits ports.now.variant port.now.kind.now port.now.pins.now ≡ true }
    requires hits { length hits.now ≡ length ports.now.all }
    requires words { AreWords ports.now.variant rows.now }
    requires few_bits { last_width ports.now.variant ≤ 64 * LIMBS }
    ensures bits { (kept : ℕ → Bool) (k : ℕ) → k < ram.slot_width ports.now.variant (slot_of port.now) → let at = lies ports.now.variant port.now.pins.now.level (ram.word_of (valuation values.now) (slot_of port.now)) k in tri_next (valuation values.now) (slot_of port.now) kept k result ≡ takes only (slot_of port.now) ports.now.all (hit_bits hits.now at.0 at.1) (bit_of rows.now at.0 at.1) }
    ensures room { HasRoom (ram.slot_width ports.now.variant (slot_of port.now)) result }
{
    if ports.width(port) == 0 {
        return Next::Open;
    }
    let start = ports.start(port, values);
    let row = taken(ports, hits, start.word, &rows.row(start.word), port, only);
    Next::Loaded {
        row,
        from: start.bit,
    }
}

/// What the slot takes of a row.
fn taken<const LIMBS: usize, const LEVELS: usize>(
    ports: &Ports<'_, LEVELS>,
    hits: &[Option<Hit<LIMBS>>],
    row: u32,
    old: &Row<LIMBS>,
    port: &Port<'_>,
    only: bool,
) -> Row<LIMBS>
    requires { length hits.now ≡ length ports.now.all }
    ensures { (k : ℕ) → tri_in result.values result.known k ≡ takes only (slot_of port.now) ports.now.all (hit_bits hits.now row k) (tri_in old.now.values old.now.known k) }
{
    let seen = loaded(ports, hits, row, old, port);
    if only {
        let own = gather(ports, hits, row, Choice::Itself, port);
        Row {
            values: seen.values,
            known: and(&seen.known, &own),
        }
    } else {
        seen
    }
}

/// What is kept of a place of a slot next.
fn next_tri<const LIMBS: usize>(
    next: &Next<LIMBS>,
    port: &Port<'_>,
    values: &[bool],
    old: bool,
    place: u32,
    width: u32,
) -> Tri
    requires room { HasRoom width next.now }
    requires place { place < width }
    requires few_limbs { 64 * LIMBS < 2 ^ 32 }
    ensures { result ≡ tri_next (valuation values.now) (slot_of port.now) (λ _. old) place next.now }
{
    match next {
        Next::Same => tri_of(old),
        Next::Shown => tri_of(net_value(values, net_at(port.pins.out.as_slice(), place))),
        Next::Reset => filled(port.kind.srst, port.pins.srst_value.as_slice(), place),
        Next::Open => Tri::Any,
        Next::Loaded { row, from } => row.bit(from + place),
    }
}

/// A defined bit.
pub(crate) fn tri_of(bit: bool) -> Tri
    ensures { result ≡ net.tri_of bit }
{
    if bit { Tri::One } else { Tri::Zero }
}

/// The net at a place, 0 past the end.
fn net_at(nets: &[u32], place: u32) -> u32
    ensures { result ≡ slice_index nets.now place }
{
    match nets.get(place as usize) {
        Some(net) => *net,
        None => 0,
    }
}

/// Keeps what comes next, with a value picked for each bit that may have any.
pub(crate) fn keep<const LIMBS: usize>(
    kept: &mut Bits<LIMBS>,
    next: &Next<LIMBS>,
    port: &Port<'_>,
    values: &[bool],
    key: PickKey,
)
    requires number { port.now.number < 2 ^ 32 - 1 }
    requires room { HasRoom (length kept.old) next.now }
    requires few_limbs { 64 * LIMBS < 2 ^ 32 }
    ensures { kept.new ≡ map (λ k. resolved key port.now.number k (tri_next (valuation values.now) (slot_of port.now) (bit_at kept.old) k next.now)) (range_with_len 0 (length kept.old)) }
{
    let width = kept.len();
    for place in 0..width {
        let tri = next_tri(next, port, values, kept.get(place), place, width);
        kept.put(place, resolve(key, port.number, place, tri));
    }
}
