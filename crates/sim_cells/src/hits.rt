//! Where the writes of a memory reach, and what they put there.
ghost use Rattle.std.specs.Prelude.{◌≡◌, ℕ, ◌+◌, ◌*◌, ◌^◌, ◌<◌, ◌≤◌, ◌&&◌, Some, None, cond, nat_eq, map, length, slice_get, slice_index_or};
ghost use Rattle.lib_core.specs.Rams as rams;
ghost use Rattle.net_core.specs.Memory as memory;
ghost use Rattle.net_core.specs.Valid.{MemSizes, MemFits};
ghost use Rattle.ram_step.specs.Moments.{valuation};
ghost use Rattle.sim_cells.specs.Places as places;
ghost use Rattle.sim_cells.specs.Places.{AreBases, base_hits};
ghost use Rattle.sim_cells.specs.Writes.{own_hit, won_at};

use crate::pins::{has_edge, pin_bit};
use crate::places::{first_bit, group_bits, place_of, start_bit};
use crate::winners::won;
use lib_core::Tri;
use net_core::{Event, Mem, WrPort};

/// The first bit that a write reaches, at its edge.
fn write_base(mem: &Mem, write: &WrPort, values: &[bool], event: &Event) -> Option<u64>
    requires sizes { MemSizes mem.now }
    requires few { length write.now.addr ≤ 32 }
    ensures value { result ≡ places.write_base mem.now (valuation values.now) event.now write.now }
    ensures bound { (b : ℕ) → result ≡ Some b → b ≤ 2 ^ 48 }
{
    if has_edge(event.edge, write.clock) {
        Some(first_bit(write.addr.as_slice(), mem, values))
    } else {
        None
    }
}

/// Puts for each write the first bit that it reaches in its place. It takes no memory.
pub fn find_bases(bases: &mut [Option<u64>], mem: &Mem, values: &[bool], event: &Event)
    requires fits { MemFits mem.now }
    requires count { length bases.old ≡ length mem.now.writes }
    ensures value { bases.new ≡ map (places.write_base mem.now (valuation values.now) event.now) mem.now.writes }
    ensures bases { AreBases mem.now bases.new }
{
    let writes = mem.writes.as_slice();
    for own in 0..writes.len() {
        bases[own] = write_base(mem, &writes[own], values, event);
    }
}

/// What a write that reaches bits from here on puts at a place of the words.
fn base_hit(
    mem: &Mem,
    write: &WrPort,
    base: Option<u64>,
    place: u64,
    values: &[bool],
) -> Option<bool>
    requires sizes { MemSizes mem.now }
    requires wide { write.now.wide ≤ 6 }
    requires place { place ≤ 2 ^ 23 }
    requires base { (b : ℕ) → base ≡ Some b → b ≤ 2 ^ 48 }
    ensures { result ≡ places.base_hit mem.now (valuation values.now) place write.now base }
{
    match base {
        None => None,
        Some(base) => {
            let bit = start_bit(mem) + place;
            let end = base + group_bits(mem, write.wide);
            if base <= bit && bit < end {
                let lane = (bit - base) as usize;
                if pin_bit(write.en.as_slice(), lane, values) {
                    Some(pin_bit(write.value.as_slice(), lane, values))
                } else {
                    None
                }
            } else {
                None
            }
        }
    }
}

/// Puts for each write what it writes at a place of the words in its place. It takes no memory.
pub fn find_hits(
    hits: &mut [Option<bool>],
    bases: &[Option<u64>],
    mem: &Mem,
    place: u64,
    values: &[bool],
)
    requires fits { MemFits mem.now }
    requires count { length hits.old ≡ length mem.now.writes }
    requires bases { AreBases mem.now bases.now }
    requires place { place ≤ 2 ^ 23 }
    ensures { hits.new ≡ base_hits mem.now (valuation values.now) place mem.now.writes bases.now }
{
    let writes = mem.writes.as_slice();
    for own in 0..writes.len() {
        hits[own] = base_hit(mem, &writes[own], bases[own], place, values);
    }
}

/// Writes a bit of the group of a write, where it stands in the words and the write is enabled there.
fn write_bit(
    words: &mut [Tri],
    hits: &mut [Option<bool>],
    bases: &[Option<u64>],
    mem: &Mem,
    own: usize,
    bit: u64,
    values: &[bool],
)
    requires fits { MemFits mem.now }
    requires words { length words.old ≡ mem.now.size * mem.now.width }
    requires hits { length hits.old ≡ length mem.now.writes }
    requires bases { AreBases mem.now bases.now }
    requires own { own < length mem.now.writes }
    ensures words { length words.new ≡ length words.old }
    ensures hits { length hits.new ≡ length hits.old }
    ensures bits { (p : ℕ) → p < length words.new → rams.tri_at words.new p ≡ cond (nat_eq (mem.now.offset * mem.now.width + p) bit && memory.is_hit (own_hit mem.now (valuation values.now) p bases.now own)) (won_at mem.now (valuation values.now) p bases.now) (rams.tri_at words.old p) }
{
    match place_of(mem, bit) {
        None => {}
        Some(place) => {
            find_hits(hits, bases, mem, place, values);
            if let Some(_) = hits[own] {
                words[place as usize] = won(hits, mem.writes.as_slice());
            }
        }
    }
}

/// Writes what one of the writes reaches.
fn write_port(
    words: &mut [Tri],
    hits: &mut [Option<bool>],
    bases: &[Option<u64>],
    mem: &Mem,
    own: usize,
    values: &[bool],
)
    requires fits { MemFits mem.now }
    requires words { length words.old ≡ mem.now.size * mem.now.width }
    requires hits { length hits.old ≡ length mem.now.writes }
    requires bases { AreBases mem.now bases.now }
    requires own { own < length mem.now.writes }
    ensures words { length words.new ≡ length words.old }
    ensures hits { length hits.new ≡ length hits.old }
    ensures bits { (p : ℕ) → p < length words.new → rams.tri_at words.new p ≡ cond (memory.is_hit (own_hit mem.now (valuation values.now) p bases.now own)) (won_at mem.now (valuation values.now) p bases.now) (rams.tri_at words.old p) }
{
    match bases[own] {
        None => {}
        Some(base) => {
            let write = &mem.writes.as_slice()[own];
            for lane in 0..write.en.as_slice().len() {
                write_bit(words, hits, bases, mem, own, base + lane as u64, values);
            }
        }
    }
}

/// Writes what all writes reach. It takes no memory.
pub fn write_all(
    words: &mut [Tri],
    hits: &mut [Option<bool>],
    bases: &[Option<u64>],
    mem: &Mem,
    values: &[bool],
)
    requires fits { MemFits mem.now }
    requires words { length words.old ≡ mem.now.size * mem.now.width }
    requires hits { length hits.old ≡ length mem.now.writes }
    requires bases { AreBases mem.now bases.now }
    ensures words { length words.new ≡ length words.old }
    ensures hits { length hits.new ≡ length hits.old }
    ensures bits { (p : ℕ) → p < length words.new → rams.tri_at words.new p ≡ memory.written mem.now.writes (base_hits mem.now (valuation values.now) p mem.now.writes bases.now) (rams.tri_at words.old p) }
{
    for own in 0..mem.writes.as_slice().len() {
        write_port(words, hits, bases, mem, own, values);
    }
}
