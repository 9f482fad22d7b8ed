//! The memories: one of twelve ports, and many of mixed forms.
ghost use Rattle.std.specs.Prelude.{◌<◌, ◌≤◌};

use crate::draw::Draw;
use lib_core::{List, Memory, Name};
use net_core::{Bit, Clock, Mem, MemJob, Place, RdPort, WrPort};
use std::alloc::Global;

const CLOCK: Clock = Clock::Root {
    net: 0,
    rising: true,
};

/// The first net of the address that ports share.
const SHARED: u32 = 1000;

/// So many nets from a number on.
fn nets(alloc: Global, first: u32, count: u32) -> Result<List<Bit>, Memory>
    requires first { first < 1000000 }
    requires count { count ≤ 32 }
{
    let mut bits = List::from_vec(Vec::new(alloc));
    for place in 0..count {
        bits.push(Bit::Net(first + place))?;
    }
    Ok(bits)
}

/// Four flags, of which about so many are true.
fn flags(alloc: Global, draw: &mut Draw, some: u32) -> Result<List<bool>, Memory> {
    let mut flags = List::from_vec(Vec::new(alloc));
    for _ in 0..4 {
        flags.push(draw.below(4) < some)?;
    }
    Ok(flags)
}

fn read_port(
    alloc: Global,
    draw: &mut Draw,
    clock: Option<Clock>,
    addr: List<Bit>,
    coll: u32,
) -> Result<RdPort, Memory> {
    let coll = flags(alloc, draw, coll)?;
    let trans = flags(alloc, draw, 0)?;
    Ok(RdPort {
        wide: 0,
        clock,
        en: if draw.below(2) == 0 {
            Bit::One
        } else {
            Bit::Net(7)
        },
        addr,
        out: List::from_vec(Vec::new(alloc)),
        arst: Bit::Zero,
        srst: Bit::Zero,
        arst_value: List::from_vec(Vec::new(alloc)),
        srst_value: List::from_vec(Vec::new(alloc)),
        init_value: List::from_vec(Vec::new(alloc)),
        ce_over_srst: false,
        trans,
        coll,
    })
}

/// The enables of a write: one for each byte, or one for the word.
fn enables(alloc: Global, width: u32, by_byte: bool) -> Result<List<Bit>, Memory> {
    let mut enables = List::from_vec(Vec::new(alloc));
    for bit in 0..width {
        enables.push(Bit::Net(10 + if by_byte { bit / 8 } else { 0 }))?;
    }
    Ok(enables)
}

fn write_port(alloc: Global, width: u32, by_byte: bool, addr: List<Bit>) -> Result<WrPort, Memory> {
    let mut prio = List::from_vec(Vec::new(alloc));
    for _ in 0..4 {
        prio.push(false)?;
    }
    Ok(WrPort {
        wide: 0,
        clock: CLOCK,
        en: enables(alloc, width, by_byte)?,
        addr,
        value: List::from_vec(Vec::new(alloc)),
        prio,
    })
}

fn memory(
    alloc: Global,
    width: u32,
    size: u32,
    abits: u32,
    reads: List<RdPort>,
    writes: List<WrPort>,
) -> MemJob {
    MemJob {
        mem: Mem {
            name: Name::from_vec(Vec::new(alloc)),
            attrs: List::from_vec(Vec::new(alloc)),
            width,
            size,
            offset: 0,
            abits,
            init: List::from_vec(Vec::new(alloc)),
            reads,
            writes,
            origin: Name::from_vec(Vec::new(alloc)),
            place: Place {
                copy: 0,
                row: 0,
                column: 0,
            },
        },
        quiet: List::from_vec(Vec::new(alloc)),
    }
}

/// 512 x 8 with eight reads and four writes, each at an address of its own.
pub fn twelve_ports(alloc: Global) -> Result<List<MemJob>, Memory> {
    let mut draw = Draw::new(1);
    let mut reads = List::from_vec(Vec::new(alloc));
    for first in [200, 250, 300, 350, 400, 450, 500, 550] {
        let addr = nets(alloc, first, 9)?;
        reads.push(read_port(alloc, &mut draw, Some(CLOCK), addr, 4)?)?;
    }
    let mut writes = List::from_vec(Vec::new(alloc));
    for first in [1000, 1050, 1100, 1150] {
        writes.push(write_port(alloc, 8, false, nets(alloc, first, 9)?)?)?;
    }
    let mut jobs = List::from_vec(Vec::new(alloc));
    jobs.push(memory(alloc, 8, 512, 9, reads, writes))?;
    Ok(jobs)
}

/// An address that ports share, now and then, or one of its own.
fn first_net(draw: &mut Draw) -> u32
    ensures { result < 1000000 }
{
    if draw.below(4) == 0 {
        SHARED
    } else {
        draw.below(1_000_000)
    }
}

/// One to four reads.
fn some_reads(
    alloc: Global,
    draw: &mut Draw,
    clock: Option<Clock>,
    abits: u32,
) -> Result<List<RdPort>, Memory>
    requires { abits ≤ 32 }
{
    let mut reads = List::from_vec(Vec::new(alloc));
    for _ in 0..1 + draw.below(4) {
        let addr = nets(alloc, first_net(draw), abits)?;
        let coll = draw.below(5);
        reads.push(read_port(alloc, draw, clock, addr, coll)?)?;
    }
    Ok(reads)
}

/// No, one or two writes.
fn some_writes(
    alloc: Global,
    draw: &mut Draw,
    width: u32,
    abits: u32,
) -> Result<List<WrPort>, Memory>
    requires { abits ≤ 32 }
{
    let by_byte = draw.below(2) == 0;
    let mut writes = List::from_vec(Vec::new(alloc));
    for _ in 0..draw.below(3) {
        let addr = nets(alloc, first_net(draw), abits)?;
        writes.push(write_port(alloc, width, by_byte, addr)?)?;
    }
    Ok(writes)
}

/// 1 to 64 bits, and now and then more than that.
fn some_width(draw: &mut Draw) -> u32 {
    if draw.below(16) == 0 {
        65 + draw.below(448)
    } else {
        1 + draw.below(64)
    }
}

/// 16 to 4096 words of 1 to 512 bits, whose reads are clocked or, in a small one, at once.
fn drawn_memory(alloc: Global, draw: &mut Draw) -> Result<MemJob, Memory> {
    let abits = 4 + draw.below(9);
    let width = some_width(draw);
    let at_once = abits < 8 && draw.below(2) == 0;
    let clock = if at_once { None } else { Some(CLOCK) };
    let reads = some_reads(alloc, draw, clock, abits)?;
    let writes = some_writes(alloc, draw, width, abits)?;
    Ok(memory(alloc, width, 1 << abits, abits, reads, writes))
}

/// So many memories of mixed forms, the same ones each time.
pub fn mixed_memories(alloc: Global, count: u32) -> Result<List<MemJob>, Memory> {
    let mut draw = Draw::new(42);
    let mut jobs = List::from_vec(Vec::new(alloc));
    for _ in 0..count {
        jobs.push(drawn_memory(alloc, &mut draw)?)?;
    }
    Ok(jobs)
}
