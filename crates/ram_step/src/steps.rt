//! A step of a RAM cell, part by part: the hits, what the read registers keep, and the writes.
ghost use Rattle.std.specs.Prelude.{◌≡◌, ℕ, ◌*◌, ◌^◌, ◌<◌, ◌≤◌, Some, cond, length, slice_get};
ghost use Rattle.lib_core.specs.Rams.{last_width, last_words};
ghost use Rattle.net_core.specs.Ram.{Slot, slots_written, slot_winner};
ghost use Rattle.net_core.specs.Memory.{is_hit, tri_or_any};
ghost use Rattle.net_core.specs.Values.{bit_at};
ghost use Rattle.row_store.specs.Rows.{bit_of};
ghost use Rattle.ram_step.specs.Ports.{slot_of};
ghost use Rattle.ram_step.specs.Hits.{hit_bit, hit_bits, InRow};
ghost use Rattle.ram_step.specs.Picks.{resolved};
ghost use Rattle.ram_step.specs.Moments.{valuation};
ghost use Rattle.ram_step.specs.Nexts as nexts;
ghost use Rattle.ram_step.specs.Nexts.{AreHits, AreWords};
ghost use Rattle.ram_step.specs.States as states;
ghost use Rattle.ram_step.specs.Steps.{KeptAt, IsKept, AreRows};

use crate::gathers::winning;
use crate::hits::{Hit, hit_of};
use crate::nexts::{keep, next_of};
use crate::picks::PickKey;
use crate::ports::{Port, Ports};
use fit_pairs::reads_later;
use net_core::Event;
use row_store::{Bits, Rows};

/// Puts what each slot writes in its place.
pub(crate) fn find_hits<const LIMBS: usize, const LEVELS: usize>(
    hits: &mut [Option<Hit<LIMBS>>],
    ports: &Ports<'_, LEVELS>,
    values: &[bool],
    event: &Event,
)
    requires count { length hits.old ≡ length ports.now.all }
    requires few_bits { last_width ports.now.variant ≤ 64 * LIMBS }
    requires few_limbs { 64 * LIMBS < 2 ^ 32 }
    ensures hits { AreHits ports.now (valuation values.now) event.now hits.new }
    ensures rows { AreRows (last_words ports.now.variant) hits.new }
{
    for number in 0..ports.len() {
        let port = ports.get(number);
        hits[number as usize] = hit_of(ports, &port, values, event);
    }
}

/// Whether the slot has a read register in use.
pub(crate) fn keeps(port: &Port<'_>) -> bool
    ensures { result ≡ states.keeps (slot_of port.now) }
{
    port.pins.used && reads_later(port.kind.kind)
}

/// Keeps what comes next in each read register.
pub(crate) fn keep_all<const LIMBS: usize, const LEVELS: usize>(
    kept: &mut [Bits<LIMBS>],
    ports: &Ports<'_, LEVELS>,
    hits: &[Option<Hit<LIMBS>>],
    rows: &Rows<LIMBS>,
    values: &[bool],
    event: &Event,
    key: PickKey,
)
    requires count { length kept.old ≡ length ports.now.all }
    requires room { (i : ℕ) (s : Slot) → slice_get ports.now.all i ≡ Some s → KeptAt ports.now.variant s kept.old i }
    requires hits { AreHits ports.now (valuation values.now) event.now hits.now }
    requires words { AreWords ports.now.variant rows.now }
    requires few_bits { last_width ports.now.variant ≤ 64 * LIMBS }
    requires few_limbs { 64 * LIMBS < 2 ^ 32 }
    ensures count { length kept.new ≡ length kept.old }
    ensures bits { (i : ℕ) (s : Slot) → slice_get ports.now.all i ≡ Some s → IsKept ports.now (valuation values.now) event.now rows.now key s i kept.old kept.new }
{
    for number in 0..ports.len() {
        keep_slot(
            &mut kept[number as usize],
            ports,
            hits,
            rows,
            number,
            values,
            event,
            key,
        );
    }
}

/// Keeps what comes next in the read register of a slot, if it has one.
fn keep_slot<const LIMBS: usize, const LEVELS: usize>(
    kept: &mut Bits<LIMBS>,
    ports: &Ports<'_, LEVELS>,
    hits: &[Option<Hit<LIMBS>>],
    rows: &Rows<LIMBS>,
    number: u32,
    values: &[bool],
    event: &Event,
    key: PickKey,
)
    requires number { number < length ports.now.all }
    requires room { (s : Slot) → slice_get ports.now.all number ≡ Some s → length kept.old ≡ states.kept_width ports.now.variant s }
    requires hits { AreHits ports.now (valuation values.now) event.now hits.now }
    requires words { AreWords ports.now.variant rows.now }
    requires few_bits { last_width ports.now.variant ≤ 64 * LIMBS }
    requires few_limbs { 64 * LIMBS < 2 ^ 32 }
    ensures { (s : Slot) → slice_get ports.now.all number ≡ Some s → kept.new ≡ states.kept_by ports.now.variant s (λ k. resolved key s.number k (nexts.next_of ports.now (valuation values.now) event.now rows.now s (bit_at kept.old) k)) }
{
    let port = ports.get(number);
    if !keeps(&port) {
        return;
    }
    let next = next_of(ports, hits, rows, &port, values, event);
    keep(kept, &next, &port, values, key);
}

/// Writes what the hits come to.
pub(crate) fn write_all<const LIMBS: usize, const LEVELS: usize>(
    rows: &mut Rows<LIMBS>,
    ports: &Ports<'_, LEVELS>,
    hits: &[Option<Hit<LIMBS>>],
)
    requires count { length hits.now ≡ length ports.now.all }
    requires words { AreWords ports.now.variant rows.old }
    requires rows { AreRows (last_words ports.now.variant) hits.now }
    ensures words { AreWords ports.now.variant rows.new }
    ensures bits { (word k : ℕ) → word < last_words ports.now.variant → k < last_width ports.now.variant → bit_of rows.new word k ≡ slots_written ports.now.all (hit_bits hits.now word k) (bit_of rows.old word k) }
{
    for number in 0..hits.len() {
        write_hit(rows, ports, hits, &hits[number]);
    }
}

/// Writes what the hits come to where one of them is.
fn write_hit<const LIMBS: usize, const LEVELS: usize>(
    rows: &mut Rows<LIMBS>,
    ports: &Ports<'_, LEVELS>,
    hits: &[Option<Hit<LIMBS>>],
    hit: &Option<Hit<LIMBS>>,
)
    requires count { length hits.now ≡ length ports.now.all }
    requires words { AreWords ports.now.variant rows.old }
    requires row { InRow (last_words ports.now.variant) hit.now }
    ensures words { AreWords ports.now.variant rows.new }
    ensures bits { (word k : ℕ) → word < last_words ports.now.variant → k < last_width ports.now.variant → bit_of rows.new word k ≡ cond (is_hit (hit_bit word k hit.now)) (tri_or_any (slot_winner ports.now.all (hit_bits hits.now word k) ports.now.all (hit_bits hits.now word k))) (bit_of rows.old word k) }
{
    match hit {
        None => {}
        Some(hit) => {
            let won = winning(ports, hits, hit.row);
            rows.set_lanes(hit.row, &hit.mask, &won.values, &won.known);
        }
    }
}
