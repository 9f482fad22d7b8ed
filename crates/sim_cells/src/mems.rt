//! Memories: the contents and registers that they start with, what their read ports show, and what an event
//! makes of them.
ghost use Rattle.std.specs.Prelude.{◌≡◌, ℕ, ◌+◌, ◌*◌, ◌^◌, ◌<◌, ◌≤◌, Some, IfOk, cond, map, length, slice_get, slice_index};
ghost use Rattle.std.specs.List.{range_with_len};
ghost use Rattle.lib_core.specs.Rams as rams;
ghost use Rattle.net_core.specs.Memory as memory;
ghost use Rattle.net_core.specs.Memory.{frame_of, base_of};
ghost use Rattle.net_core.specs.Values as bits;
ghost use Rattle.net_core.specs.Valid.{MemFits};
ghost use Rattle.net_core.specs.declared.mems.RdPort.{RdPort};
ghost use Rattle.ram_step.specs.Moments.{inputs_alone, moment_of, valuation};
ghost use Rattle.sim_cells.specs.Memories as mems;
ghost use Rattle.sim_cells.specs.Memories.{IsMemState, kept_width, contents, read_start};
ghost use Rattle.sim_cells.specs.Places as places;
ghost use Rattle.sim_cells.specs.Places.{AreBases, write_base, base_hits, at_place};
ghost use Rattle.sim_cells.specs.KeptBits.{bit_lists};

use crate::hits::{find_bases, find_hits, write_all};
use crate::picks::{start_key, take};
use crate::pins::{bit_at, has_edge, net_at, tri_at, tri_of, value_of};
use crate::places::{first_bit, pick_number, place_of};
use crate::winners::loaded;
use lib_core::{Memory, Tri};
use net_core::{Clock, Event, Mem, RdPort};
use ram_step::PickKey;
use std::alloc::Global;
use std::marker::Model;

/// The state of a memory in a simulation. Contracts see the bits of its words, what the registers of its
/// read ports keep, and the number of its write ports.
#[derive(Drop)]
pub struct MemState {
    words: Vec<Tri>,
    kept: Vec<Vec<bool>>,
    /// Room for the first bit that each write reaches in a step.
    bases: Vec<Option<u64>>,
    /// Room for what each write puts at a bit.
    hits: Vec<Option<bool>>,
}

impl Model for MemState {
    ghost use Rattle.std.specs.Prelude.{◌≡◌, length};
    ghost use Rattle.sim_cells.specs.Memories.{MemLook};
    ghost use Rattle.sim_cells.specs.KeptBits.{bit_lists};

    ghost Value = { MemLook };

    ghost view = { λ s. record { words = s.words.items; kept = bit_lists s.kept.items; ports = length s.hits.items } };

    ghost invariant = { λ s. length s.bases.items ≡ length s.hits.items };
}

impl MemState {
    /// The state at the start.
    pub fn new(alloc: Global, mem: &Mem, key: &PickKey) -> Result<MemState, Memory>
        requires { MemFits mem.now }
        ensures value { IfOk result (λ state. state ≡ mems.mem_start mem.now key.now) }
        ensures state { IfOk result (λ state. IsMemState state mem.now) }
    {
        let words = Vec::from_slice(alloc, mem.init.as_slice())?;
        let kept = start_reads(alloc, mem, key)?;
        let count = mem.writes.as_slice().len();
        let bases = no_bases(alloc, count)?;
        let hits = no_hits(alloc, count)?;
        Ok(MemState {
            words,
            kept,
            bases,
            hits,
        })
    }

    /// The state after an event, at these values of the nets. It takes no memory.
    pub fn step(&mut self, mem: &Mem, values: &[bool], event: &Event, key: &PickKey)
        requires fits { MemFits mem.now }
        requires state { IsMemState self.old mem.now }
        ensures value { self.new ≡ mems.mem_stepped self.old mem.now (valuation values.now) event.now key.now }
        ensures state { IsMemState self.new mem.now }
    {
        step_parts(
            self.words.as_mut_slice(),
            self.kept.as_mut_slice(),
            self.bases.as_mut_slice(),
            self.hits.as_mut_slice(),
            mem,
            values,
            event,
            key,
        );
    }

    /// What a read port shows at each place. It takes no memory.
    pub fn show(&self, mem: &Mem, port: usize, values: &[bool], key: &PickKey, out: &mut [bool])
        requires fits { MemFits mem.now }
        requires state { IsMemState self.now mem.now }
        requires port { port < length mem.now.reads }
        requires out { length out.old ≤ 2 ^ 22 }
        ensures len { length out.new ≡ length out.old }
        ensures bits { (r : RdPort) → slice_get mem.now.reads port ≡ Some r → (k : ℕ) → k < length out.new → bits.bit_at out.new k ≡ mems.read_shown self.now mem.now (valuation values.now) key.now port r k }
    {
        let read = &mem.reads.as_slice()[port];
        show_read(
            self.words.as_slice(),
            self.kept[port].as_slice(),
            mem,
            read,
            port,
            values,
            key,
            out,
        );
    }
}

/// What an event makes of the words, and of what the registers of the read ports keep.
fn step_parts(
    words: &mut [Tri],
    kept: &mut [Vec<bool>],
    bases: &mut [Option<u64>],
    hits: &mut [Option<bool>],
    mem: &Mem,
    values: &[bool],
    event: &Event,
    key: &PickKey,
)
    requires fits { MemFits mem.now }
    requires words { length words.old ≡ mem.now.size * mem.now.width }
    requires count { length kept.old ≡ length mem.now.reads }
    requires room { (port : ℕ) (r : RdPort) → slice_get mem.now.reads port ≡ Some r → length (mems.kept_at (bit_lists kept.old) port) ≡ kept_width r }
    requires bases { length bases.old ≡ length mem.now.writes }
    requires hits { length hits.old ≡ length mem.now.writes }
    ensures word_count { length words.new ≡ length words.old }
    ensures count { length kept.new ≡ length kept.old }
    ensures bases { length bases.new ≡ length bases.old }
    ensures hits { length hits.new ≡ length hits.old }
    ensures words { words.new ≡ map (λ p. memory.written mem.now.writes (mems.place_hits mem.now (valuation values.now) event.now p) (rams.tri_at words.old p)) (range_with_len 0 (mem.now.size * mem.now.width)) }
    ensures kept { bit_lists kept.new ≡ mems.each_read (λ port r. mems.port_bits key.now port r (mems.next_tri words.old mem.now (valuation values.now) event.now (mems.kept_at (bit_lists kept.old) port) r)) 0 mem.now.reads }
{
    find_bases(bases, mem, values, event);
    keep_all(kept, hits, words, bases, mem, values, event, key);
    write_all(words, hits, bases, mem, values);
}

/// Room for the first bit that each write reaches.
fn no_bases(alloc: Global, count: usize) -> Result<Vec<Option<u64>>, Memory>
    ensures { IfOk result (λ list. length list.items ≡ count) }
{
    let mut list = Vec::with_capacity(alloc, count)?;
    for _ in 0..count {
        list.push(None)?;
    }
    Ok(list)
}

/// Room for what each write puts at a bit.
fn no_hits(alloc: Global, count: usize) -> Result<Vec<Option<bool>>, Memory>
    ensures { IfOk result (λ list. length list.items ≡ count) }
{
    let mut list = Vec::with_capacity(alloc, count)?;
    for _ in 0..count {
        list.push(None)?;
    }
    Ok(list)
}

/// Whether there is a clock.
fn is_clocked(clock: Option<Clock>) -> bool
    ensures { result ≡ mems.is_clocked clock }
{
    match clock {
        None => false,
        Some(_) => true,
    }
}

/// The clock of a read port, one without edges where there is none.
fn clock_of(clock: Option<Clock>) -> Clock
    ensures { result ≡ mems.clock_of clock }
{
    match clock {
        None => Clock::Never,
        Some(clock) => clock,
    }
}

/// How many bits a read port keeps.
fn kept_width(read: &RdPort) -> usize
    ensures { result ≡ kept_width read.now }
{
    if is_clocked(read.clock) {
        read.out.as_slice().len()
    } else {
        0
    }
}

/// What the register of each read port starts with.
fn start_reads(alloc: Global, mem: &Mem, key: &PickKey) -> Result<Vec<Vec<bool>>, Memory>
    requires { MemFits mem.now }
    ensures { IfOk result (λ kept. bit_lists kept.items ≡ mems.each_read (read_start key.now) 0 mem.now.reads) }
{
    let start = start_key(key);
    let count = mem.reads.as_slice().len();
    let mut kept = Vec::with_capacity(alloc, count)?;
    for port in 0..count {
        kept.push(start_read(alloc, mem, port, &start)?)?;
    }
    Ok(kept)
}

/// What the register of a read port starts with.
fn start_read(alloc: Global, mem: &Mem, port: usize, start: &PickKey) -> Result<Vec<bool>, Memory>
    requires fits { MemFits mem.now }
    requires port { port < length mem.now.reads }
    ensures { IfOk result (λ kept. (r : RdPort) → slice_get mem.now.reads port ≡ Some r → kept.items ≡ mems.port_bits start.now port r (rams.tri_at r.init_value)) }
{
    let read = &mem.reads.as_slice()[port];
    start_bits(alloc, read, port, start)
}

/// The bits that a read port starts with.
fn start_bits(
    alloc: Global,
    read: &RdPort,
    port: usize,
    start: &PickKey,
) -> Result<Vec<bool>, Memory>
    requires port { port < 2 ^ 31 }
    requires out { length read.now.out ≤ 2 ^ 22 }
    ensures { IfOk result (λ kept. kept.items ≡ mems.port_bits start.now port read.now (rams.tri_at read.now.init_value)) }
{
    let width = kept_width(read);
    let mut kept = Vec::with_capacity(alloc, width)?;
    for place in 0..width {
        kept.push(start_bit(read, port, start, place))?;
    }
    Ok(kept)
}

/// The bit that a read port starts with at a place.
fn start_bit(read: &RdPort, port: usize, start: &PickKey, place: usize) -> bool
    requires port { port < 2 ^ 31 }
    requires place { place < 2 ^ 32 }
    ensures { result ≡ mems.picked_bit start.now port (rams.tri_at read.now.init_value) place }
{
    let tri = tri_at(read.init_value.as_slice(), place);
    take(start, pick_number(port, place), tri)
}

/// What a read port shows at each place.
fn show_read(
    words: &[Tri],
    kept: &[bool],
    mem: &Mem,
    read: &RdPort,
    port: usize,
    values: &[bool],
    key: &PickKey,
    out: &mut [bool],
)
    requires fits { MemFits mem.now }
    requires words { length words.now ≡ mem.now.size * mem.now.width }
    requires addr { length read.now.addr ≤ 32 }
    requires port { port < 2 ^ 31 }
    requires out { length out.old ≤ 2 ^ 22 }
    ensures len { length out.new ≡ length out.old }
    ensures bits { (k : ℕ) → k < length out.new → bits.bit_at out.new k ≡ mems.picked_bit key.now port (mems.shown_tri words.now mem.now (valuation values.now) kept.now read.now) k }
{
    let base = first_bit(read.addr.as_slice(), mem, values);
    for (place, here) in out.iter_mut().enumerate() {
        let tri = shown_tri(words, kept, mem, read, base, values, place);
        *here = take(key, pick_number(port, place), tri);
    }
}

/// What a read port shows at a place, where it may be undefined.
fn shown_tri(
    words: &[Tri],
    kept: &[bool],
    mem: &Mem,
    read: &RdPort,
    base: u64,
    values: &[bool],
    place: usize,
) -> Tri
    requires fits { MemFits mem.now }
    requires words { length words.now ≡ mem.now.size * mem.now.width }
    requires base { base ≡ base_of (valuation values.now) read.now.addr * mem.now.width }
    requires small { base ≤ 2 ^ 48 }
    requires place { place < 2 ^ 32 }
    ensures { result ≡ mems.shown_tri words.now mem.now (valuation values.now) kept.now read.now place }
{
    if is_clocked(read.clock) {
        if value_of(read.arst, values) {
            tri_at(read.arst_value.as_slice(), place)
        } else {
            tri_of(bit_at(kept, place))
        }
    } else {
        content(words, mem, base + place as u64)
    }
}

/// What stands at a bit that is counted from address 0, any where no word is.
fn content(words: &[Tri], mem: &Mem, bit: u64) -> Tri
    requires fits { MemFits mem.now }
    requires words { length words.now ≡ mem.now.size * mem.now.width }
    ensures { result ≡ at_place (places.place_of mem.now bit) (λ p. rams.tri_at words.now p) }
{
    match place_of(mem, bit) {
        None => Tri::Any,
        Some(place) => tri_at(words, place as usize),
    }
}

/// Keeps what comes next in the register of each read port. It takes no memory.
fn keep_all(
    kept: &mut [Vec<bool>],
    hits: &mut [Option<bool>],
    words: &[Tri],
    bases: &[Option<u64>],
    mem: &Mem,
    values: &[bool],
    event: &Event,
    key: &PickKey,
)
    requires fits { MemFits mem.now }
    requires count { length kept.old ≡ length mem.now.reads }
    requires room { (port : ℕ) (r : RdPort) → slice_get mem.now.reads port ≡ Some r → length (mems.kept_at (bit_lists kept.old) port) ≡ kept_width r }
    requires hits { length hits.old ≡ length mem.now.writes }
    requires words { length words.now ≡ mem.now.size * mem.now.width }
    requires bases { bases.now ≡ map (write_base mem.now (valuation values.now) event.now) mem.now.writes }
    requires small { AreBases mem.now bases.now }
    ensures hits { length hits.new ≡ length hits.old }
    ensures count { length kept.new ≡ length kept.old }
    ensures bits { bit_lists kept.new ≡ mems.each_read (λ port r. mems.port_bits key.now port r (mems.next_tri words.now mem.now (valuation values.now) event.now (mems.kept_at (bit_lists kept.old) port) r)) 0 mem.now.reads }
{
    for port in 0..mem.reads.as_slice().len() {
        keep_read(
            &mut kept[port],
            hits,
            words,
            bases,
            mem,
            port,
            values,
            event,
            key,
        );
    }
}

/// Keeps what comes next in the register of a read port.
fn keep_read(
    kept: &mut Vec<bool>,
    hits: &mut [Option<bool>],
    words: &[Tri],
    bases: &[Option<u64>],
    mem: &Mem,
    port: usize,
    values: &[bool],
    event: &Event,
    key: &PickKey,
)
    requires fits { MemFits mem.now }
    requires port { port < length mem.now.reads }
    requires room { (r : RdPort) → slice_get mem.now.reads port ≡ Some r → length kept.old.items ≡ kept_width r }
    requires hits { length hits.old ≡ length mem.now.writes }
    requires words { length words.now ≡ mem.now.size * mem.now.width }
    requires bases { bases.now ≡ map (write_base mem.now (valuation values.now) event.now) mem.now.writes }
    requires small { AreBases mem.now bases.now }
    ensures hits { length hits.new ≡ length hits.old }
    ensures bits { (r : RdPort) → slice_get mem.now.reads port ≡ Some r → kept.new.items ≡ mems.port_bits key.now port r (mems.next_tri words.now mem.now (valuation values.now) event.now kept.old.items r) }
{
    let read = &mem.reads.as_slice()[port];
    keep_bits(
        kept.as_mut_slice(),
        hits,
        words,
        bases,
        mem,
        read,
        port,
        values,
        event,
        key,
    );
}

/// Keeps what comes next at each place of a register.
fn keep_bits(
    kept: &mut [bool],
    hits: &mut [Option<bool>],
    words: &[Tri],
    bases: &[Option<u64>],
    mem: &Mem,
    read: &RdPort,
    port: usize,
    values: &[bool],
    event: &Event,
    key: &PickKey,
)
    requires fits { MemFits mem.now }
    requires port { port < 2 ^ 31 }
    requires addr { length read.now.addr ≤ 32 }
    requires room { length kept.old ≡ kept_width read.now }
    requires few { length kept.old ≤ 2 ^ 22 }
    requires hits { length hits.old ≡ length mem.now.writes }
    requires words { length words.now ≡ mem.now.size * mem.now.width }
    requires bases { bases.now ≡ map (write_base mem.now (valuation values.now) event.now) mem.now.writes }
    requires small { AreBases mem.now bases.now }
    ensures hits { length hits.new ≡ length hits.old }
    ensures count { length kept.new ≡ length kept.old }
    ensures bits { kept.new ≡ mems.port_bits key.now port read.now (mems.next_tri words.now mem.now (valuation values.now) event.now kept.old read.now) }
{
    let base = first_bit(read.addr.as_slice(), mem, values);
    for (place, here) in kept.iter_mut().enumerate() {
        let tri = next_tri(
            hits, words, bases, mem, read, base, place, *here, values, event,
        );
        *here = take(key, pick_number(port, place), tri);
    }
}

/// What a read port keeps next at a place where it keeps this.
fn next_tri(
    hits: &mut [Option<bool>],
    words: &[Tri],
    bases: &[Option<u64>],
    mem: &Mem,
    read: &RdPort,
    base: u64,
    place: usize,
    kept: bool,
    values: &[bool],
    event: &Event,
) -> Tri
    requires fits { MemFits mem.now }
    requires base { base ≡ base_of (valuation values.now) read.now.addr * mem.now.width }
    requires low { base ≤ 2 ^ 48 }
    requires place { place < 2 ^ 32 }
    requires hits { length hits.old ≡ length mem.now.writes }
    requires words { length words.now ≡ mem.now.size * mem.now.width }
    requires bases { bases.now ≡ map (write_base mem.now (valuation values.now) event.now) mem.now.writes }
    requires small { AreBases mem.now bases.now }
    ensures hits { length hits.new ≡ length hits.old }
    ensures tri { result ≡ memory.read_next (inputs_alone event.now) (frame_of mem.now) mem.now.writes (mems.clock_of read.now.clock) read.now (moment_of event.now) (valuation values.now) (contents mem.now words.now) (λ k. kept) place (slice_index read.now.out place) }
{
    if value_of(read.arst, values) {
        tri_of(bit_at(values, net_at(read.out.as_slice(), place) as usize))
    } else if !has_edge(event.edge, clock_of(read.clock)) {
        tri_of(kept)
    } else if resets(read, values) {
        tri_at(read.srst_value.as_slice(), place)
    } else if value_of(read.en, values) {
        load(hits, words, bases, mem, read, base + place as u64, values)
    } else {
        tri_of(kept)
    }
}

/// Whether the synchronous reset of a read port counts.
fn resets(read: &RdPort, values: &[bool]) -> bool
    ensures { result ≡ memory.read_resets read.now (valuation values.now) }
{
    value_of(read.srst, values) && (!read.ce_over_srst || value_of(read.en, values))
}

/// What a loading read port takes of a bit that is counted from address 0.
fn load(
    hits: &mut [Option<bool>],
    words: &[Tri],
    bases: &[Option<u64>],
    mem: &Mem,
    read: &RdPort,
    bit: u64,
    values: &[bool],
) -> Tri
    requires fits { MemFits mem.now }
    requires hits { length hits.old ≡ length mem.now.writes }
    requires words { length words.now ≡ mem.now.size * mem.now.width }
    requires small { AreBases mem.now bases.now }
    ensures hits { length hits.new ≡ length hits.old }
    ensures tri { result ≡ at_place (places.place_of mem.now bit) (λ p. memory.loaded read.now.trans read.now.coll mem.now.writes (base_hits mem.now (valuation values.now) p mem.now.writes bases.now) (rams.tri_at words.now p)) }
{
    match place_of(mem, bit) {
        None => Tri::Any,
        Some(place) => {
            find_hits(hits, bases, mem, place, values);
            loaded(
                read.trans.as_slice(),
                read.coll.as_slice(),
                mem.writes.as_slice(),
                hits,
                tri_at(words, place as usize),
            )
        }
    }
}
