//! Tests of the ports of memories.
ghost use Rattle.std.specs.Prelude.{◌≡◌, ◌^◌, ◌≤◌, take, drop};
ghost use Rattle.std.specs.List.{list_all};
ghost use Rattle.net_core.specs.Shape as shape;
ghost use Rattle.net_core.specs.Valid.{data_width};
ghost use Rattle.net_live.specs.Fitting as fitting;

use lib_core::Tri;
use net_core::{Bit, Mem, RdPort, WrPort};

/// Whether each port of a memory fits it.
pub fn ports_fit(mem: &Mem) -> bool
    ensures { result ≡ fitting.ports_fit mem.now }
{
    reads_fit(mem)
        && writes_fit(mem)
        && read_words_fit(mem.reads.as_slice())
        && write_words_fit(mem.writes.as_slice())
}

fn reads_fit(mem: &Mem) -> bool
    ensures { result ≡ list_all (fitting.read_fits mem.now) mem.now.reads }
{
    mem.reads.as_slice().iter().all(|read| read_fits(mem, read))
}

#[tactic(auto, using(crate::proofs::Fits::writes_step))]
fn writes_fit(mem: &Mem) -> bool
    ensures { result ≡ fitting.writes_fit_from mem.now 0 mem.now.writes }
{
    for (own, write) in mem.writes.as_slice().iter().enumerate() {
        if !write_fits(mem, own, write) {
            return false;
        }
    }
    true
}

/// Whether a read port fits its memory.
fn read_fits(mem: &Mem, read: &RdPort) -> bool
    ensures { result ≡ fitting.read_fits mem.now read.now }
{
    read.wide <= 6
        && address_fits(mem, read.wide, read.addr.as_slice())
        && read_values_fit(mem, read)
        && masks_fit(mem, read)
        && (read.clock.is_some() || (pins_at_once(read) && values_at_once(read)))
}

/// Whether the write port of this number fits its memory.
fn write_fits(mem: &Mem, own: usize, write: &WrPort) -> bool
    ensures { result ≡ fitting.write_fits mem.now own write.now }
{
    write.wide <= 6
        && address_fits(mem, write.wide, write.addr.as_slice())
        && write_values_fit(mem, write)
        && priorities_fit(mem, own, write)
}

fn address_fits(mem: &Mem, wide: u32, addr: &[Bit]) -> bool
    ensures { result ≡ fitting.address_fits mem.now wide addr.now }
{
    addr.len() == mem.abits as usize && begins_with_zeros(addr, wide as usize)
}

/// Whether the lowest bits are 0.
fn begins_with_zeros(addr: &[Bit], count: usize) -> bool
    ensures { result ≡ list_all shape.is_zero (take count addr.now) }
{
    are_zero(&addr[..count.min(addr.len())])
}

fn are_zero(bits: &[Bit]) -> bool
    ensures { result ≡ list_all shape.is_zero bits.now }
{
    bits.iter().all(|bit| is_zero(*bit))
}

fn is_zero(bit: Bit) -> bool
    ensures { result ≡ shape.is_zero bit }
{
    match bit {
        Bit::Zero => true,
        Bit::One | Bit::Net(_) => false,
    }
}

fn is_one(bit: Bit) -> bool
    ensures { result ≡ shape.is_one bit }
{
    match bit {
        Bit::One => true,
        Bit::Zero | Bit::Net(_) => false,
    }
}

/// How many words a port of 2 to this power words has.
#[tactic(auto, using(crate::proofs::Sizes::power_is, crate::proofs::Sizes::small_power))]
fn words(wide: u32) -> u32
    requires { wide ≤ 6 }
    ensures value { result ≡ 2 ^ wide }
    ensures few { result ≤ 64 }
{
    1 << wide
}

/// How many words a port of 2 to this power words has, or 65 where it has more than 64.
#[tactic(auto, using(crate::proofs::Sizes::high_power))]
fn counted_words(wide: u32) -> u32
    ensures all { result ≤ 64 → result ≡ 2 ^ wide }
    ensures least { result ≤ 2 ^ wide }
{
    if wide <= 6 { words(wide) } else { 65 }
}

/// The bits of the data of a port.
#[tactic(auto, using(crate::proofs::Sizes::data_few))]
fn data_width(mem: &Mem, wide: u32) -> u64
    requires { wide ≤ 6 }
    ensures { result ≡ data_width mem.now wide }
{
    u64::from(mem.width) * u64::from(words(wide))
}

fn read_values_fit(mem: &Mem, read: &RdPort) -> bool
    requires { read.now.wide ≤ 6 }
    ensures { result ≡ fitting.read_values_fit mem.now read.now }
{
    let width = data_width(mem, read.wide);
    read.out.as_slice().len() as u64 == width
        && read.arst_value.as_slice().len() as u64 == width
        && read.srst_value.as_slice().len() as u64 == width
        && read.init_value.as_slice().len() as u64 == width
}

fn write_values_fit(mem: &Mem, write: &WrPort) -> bool
    requires { write.now.wide ≤ 6 }
    ensures { result ≡ fitting.write_values_fit mem.now write.now }
{
    let width = data_width(mem, write.wide);
    write.en.as_slice().len() as u64 == width && write.value.as_slice().len() as u64 == width
}

fn masks_fit(mem: &Mem, read: &RdPort) -> bool
    ensures { result ≡ fitting.masks_fit mem.now read.now }
{
    let writes = mem.writes.as_slice().len();
    let trans = read.trans.as_slice();
    let coll = read.coll.as_slice();
    trans.len() == writes && coll.len() == writes && none_both(trans, coll)
}

/// Whether there is no place at which both lists have true.
fn none_both(left: &[bool], right: &[bool]) -> bool
    ensures { result ≡ fitting.none_both left.now right.now }
{
    let mut ones = left;
    let mut others = right;
    while let [one, more @ ..] = ones {
        let [other, after @ ..] = others else {
            return true;
        };
        if *one && *other {
            return false;
        }
        ones = more;
        others = after;
    }
    true
}

fn none_set(flags: &[bool]) -> bool
    ensures { result ≡ fitting.none_set flags.now }
{
    flags.iter().all(|flag| !*flag)
}

fn pins_at_once(read: &RdPort) -> bool
    ensures { result ≡ fitting.pins_at_once read.now }
{
    is_one(read.en)
        && is_zero(read.arst)
        && is_zero(read.srst)
        && !read.ce_over_srst
        && none_set(read.trans.as_slice())
        && none_set(read.coll.as_slice())
}

fn values_at_once(read: &RdPort) -> bool
    ensures { result ≡ fitting.values_at_once read.now }
{
    none_defined(read.arst_value.as_slice())
        && none_defined(read.srst_value.as_slice())
        && none_defined(read.init_value.as_slice())
}

fn none_defined(value: &[Tri]) -> bool
    ensures { result ≡ fitting.none_defined value.now }
{
    value.iter().all(|bit| is_any(*bit))
}

fn is_any(bit: Tri) -> bool
    ensures { result ≡ fitting.is_any bit }
{
    match bit {
        Tri::Any => true,
        Tri::Zero | Tri::One => false,
    }
}

/// Whether the write wins over none from its own number on.
fn priorities_fit(mem: &Mem, own: usize, write: &WrPort) -> bool
    ensures { result ≡ fitting.priorities_fit mem.now own write.now }
{
    let prio = write.prio.as_slice();
    prio.len() == mem.writes.as_slice().len() && none_set(&prio[own.min(prio.len())..])
}

/// Whether the read ports are 64 ports of single words at most.
#[tactic(auto, using(crate::proofs::Sizes::read_words_more))]
fn read_words_fit(reads: &[RdPort]) -> bool
    ensures { result ≡ fitting.read_words_fit reads.now }
{
    let mut left = 64;
    let mut rest = reads;
    while let [read, tail @ ..] = rest {
        let here = counted_words(read.wide);
        if here > left {
            return false;
        }
        left -= here;
        rest = tail;
    }
    true
}

/// Whether the write ports are 64 ports of single words at most.
#[tactic(auto, using(crate::proofs::Sizes::write_words_more))]
fn write_words_fit(writes: &[WrPort]) -> bool
    ensures { result ≡ fitting.write_words_fit writes.now }
{
    let mut left = 64;
    let mut rest = writes;
    while let [write, tail @ ..] = rest {
        let here = counted_words(write.wide);
        if here > left {
            return false;
        }
        left -= here;
        rest = tail;
    }
    true
}
