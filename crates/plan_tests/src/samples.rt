//! Groups, RAMs, libraries, ports and memories that the tests share.
ghost use Rattle.std.specs.Prelude.{◌≡◌, IfOk};

use lib_core::{
    EdgeKind, Fill, Group, Library, List, Memory, Name, OwnWrite, PortKind, SrstGate, Variant,
};
use net_core::{Bit, Clock, Mem, MemJob, Place, RdPort, WrPort};
use std::alloc::Global;

/// Rising edges of net 0.
pub const RISE: Clock = Clock::Root {
    net: 0,
    rising: true,
};

/// The words of a memory, and the bits of a word and of an address.
#[derive(Clone, Copy)]
pub struct Size {
    pub words: u32,
    pub width: u32,
    pub abits: u32,
}

/// A list without items.
pub fn none<T>(alloc: Global) -> List<T> {
    List::from_vec(Vec::new(alloc))
}

/// A list of one item.
pub fn one<T: Drop>(alloc: Global, item: T) -> Result<List<T>, Memory> {
    let mut items = none(alloc);
    items.push(item)?;
    Ok(items)
}

/// A list of these items.
pub fn list<T: Copy>(alloc: Global, items: &[T]) -> Result<List<T>, Memory>
    ensures { IfOk result (λ list. list ≡ items.now) }
{
    Ok(List::from_vec(Vec::from_slice(alloc, items)?))
}

fn names(alloc: Global, count: u32) -> Result<List<Name>, Memory> {
    let mut names = none(alloc);
    for _ in 0..count {
        names.push(Name::from_vec(Vec::new(alloc)))?;
    }
    Ok(names)
}

/// A group of so many names with these levels. It has a read enable where it has a clock.
pub fn group(
    alloc: Global,
    kind: PortKind,
    edge: Option<EdgeKind>,
    count: u32,
    levels: &[u32],
) -> Result<Group, Memory> {
    let names = names(alloc, count)?;
    let levels = list(alloc, levels)?;
    Ok(Group {
        kind,
        names,
        options: none(alloc),
        edge,
        clken: false,
        rden: edge.is_some(),
        own: OwnWrite::Undefined,
        trans: none(alloc),
        prio: none(alloc),
        srst: Fill::Nothing,
        srst_gate: SrstGate::Ungated,
        arst: Fill::Nothing,
        start: Fill::Nothing,
        separate: false,
        levels,
    })
}

/// Groups of these kinds, edges and numbers of names.
pub fn groups(
    alloc: Global,
    kinds: &[(PortKind, Option<EdgeKind>, u32)],
) -> Result<List<Group>, Memory> {
    let mut groups = none(alloc);
    for (kind, edge, count) in kinds {
        groups.push(group(alloc, *kind, *edge, *count, &[0])?)?;
    }
    Ok(groups)
}

/// A variant of a RAM.
pub fn variant(
    alloc: Global,
    abits: u32,
    widths: &[u32],
    byte: Option<u32>,
    cost: u32,
    groups: List<Group>,
) -> Result<Variant, Memory>
    ensures { IfOk result (λ v. (v.abits ≡ abits) × (v.widths ≡ widths.now)) }
{
    let per_port = widths.len() > 1;
    let widths = list(alloc, widths)?;
    Ok(Variant {
        abits,
        widths,
        per_port,
        byte,
        cost,
        fill: Fill::Any,
        options: none(alloc),
        groups,
    })
}

/// A library without RAMs.
pub fn empty(alloc: Global) -> Library {
    Library {
        rams: none(alloc),
        budget: None,
    }
}

/// A read of single words: whether it shows what each of four writes writes, and whether it may show
/// anything of it.
pub fn read(
    alloc: Global,
    clock: Option<Clock>,
    addr: List<Bit>,
    trans: bool,
    coll: bool,
) -> Result<RdPort, Memory> {
    let trans = list(alloc, &[trans; 4])?;
    let coll = list(alloc, &[coll; 4])?;
    Ok(RdPort {
        wide: 0,
        clock,
        en: Bit::One,
        addr,
        out: none(alloc),
        arst: Bit::Zero,
        srst: Bit::Zero,
        arst_value: none(alloc),
        srst_value: none(alloc),
        init_value: none(alloc),
        ce_over_srst: false,
        trans,
        coll,
    })
}

/// A write of single words with these enables.
pub fn write(alloc: Global, en: List<Bit>, addr: List<Bit>) -> WrPort
    ensures { result.en ≡ en }
{
    WrPort {
        wide: 0,
        clock: RISE,
        en,
        addr,
        value: none(alloc),
        prio: none(alloc),
    }
}

/// A memory with these ports.
pub fn memory(alloc: Global, size: Size, reads: List<RdPort>, writes: List<WrPort>) -> MemJob
    ensures { result.mem.width ≡ size.width }
{
    MemJob {
        mem: Mem {
            name: Name::from_vec(Vec::new(alloc)),
            attrs: none(alloc),
            width: size.width,
            size: size.words,
            offset: 0,
            abits: size.abits,
            init: none(alloc),
            reads,
            writes,
            origin: Name::from_vec(Vec::new(alloc)),
            place: Place {
                copy: 0,
                row: 0,
                column: 0,
            },
        },
        quiet: none(alloc),
    }
}
