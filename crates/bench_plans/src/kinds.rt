//! The libraries: one of many equal variants, and one as a family of chips has.
use lib_core::{
    EdgeKind, Fill, Group, Library, List, Memory, Name, OwnWrite, PortKind, RamClass, RamKind,
    SrstGate, Variant,
};
use std::alloc::Global;

fn names(alloc: Global, count: u32) -> Result<List<Name>, Memory> {
    let mut names = List::from_vec(Vec::new(alloc));
    for _ in 0..count {
        names.push(Name::from_vec(Vec::new(alloc)))?;
    }
    Ok(names)
}

fn levels(alloc: Global, count: u32) -> Result<List<u32>, Memory> {
    let mut levels = List::from_vec(Vec::new(alloc));
    for level in 0..count {
        levels.push(level)?;
    }
    Ok(levels)
}

/// A group of so many names, at the first levels. Only a reading group without an edge reads at once.
fn group(
    alloc: Global,
    kind: PortKind,
    edge: Option<EdgeKind>,
    count: u32,
    own: OwnWrite,
    level_count: u32,
) -> Result<Group, Memory> {
    Ok(Group {
        kind,
        names: names(alloc, count)?,
        options: List::from_vec(Vec::new(alloc)),
        edge,
        clken: false,
        rden: edge.is_some(),
        own,
        trans: List::from_vec(Vec::new(alloc)),
        prio: List::from_vec(Vec::new(alloc)),
        srst: Fill::Any,
        srst_gate: SrstGate::Ungated,
        arst: Fill::Nothing,
        start: Fill::Any,
        separate: false,
        levels: levels(alloc, level_count)?,
    })
}

fn variant(
    alloc: Global,
    abits: u32,
    widths: &[u32],
    byte: Option<u32>,
    cost: u32,
    groups: List<Group>,
) -> Result<Variant, Memory> {
    Ok(Variant {
        abits,
        widths: List::from_vec(Vec::from_slice(alloc, widths)?),
        per_port: widths.len() > 1,
        byte,
        cost,
        fill: Fill::Any,
        options: List::from_vec(Vec::new(alloc)),
        groups,
    })
}

fn ram(alloc: Global, class: RamClass, variants: List<Variant>) -> RamKind {
    RamKind {
        name: Name::from_vec(Vec::new(alloc)),
        class,
        style: None,
        variants,
    }
}

fn four_groups(alloc: Global) -> Result<List<Group>, Memory> {
    let mut groups = List::from_vec(Vec::new(alloc));
    for _ in 0..4 {
        let edge = Some(EdgeKind::Either);
        groups.push(group(alloc, PortKind::Srsw, edge, 3, OwnWrite::Undefined, 1)?)?;
    }
    Ok(groups)
}

/// A RAM of 16 variants of 512 x 8, each with four groups of three ports that read and write.
pub fn sixteen_variants(alloc: Global) -> Result<Library, Memory> {
    let mut variants = List::from_vec(Vec::new(alloc));
    for _ in 0..16 {
        variants.push(variant(alloc, 9, &[8], None, 8, four_groups(alloc)?)?)?;
    }
    let mut rams = List::from_vec(Vec::new(alloc));
    rams.push(ram(alloc, RamClass::Block, variants))?;
    Ok(Library { rams, budget: None })
}

/// One port that reads and writes, and so many that read.
fn lut_groups(alloc: Global, reads: u32) -> Result<List<Group>, Memory> {
    let mut groups = List::from_vec(Vec::new(alloc));
    let edge = Some(EdgeKind::Either);
    groups.push(group(alloc, PortKind::Arsw, edge, 1, OwnWrite::Old, 1)?)?;
    groups.push(group(alloc, PortKind::Ar, None, reads, OwnWrite::Undefined, 1)?)?;
    Ok(groups)
}

/// 64 x 1, with one to three more reads.
fn lut_ram(alloc: Global) -> Result<RamKind, Memory> {
    let mut variants = List::from_vec(Vec::new(alloc));
    for (reads, cost) in [(1, 2), (2, 3), (3, 4)] {
        variants.push(variant(alloc, 6, &[1], None, cost, lut_groups(alloc, reads)?)?)?;
    }
    Ok(ram(alloc, RamClass::Distributed, variants))
}

/// The sizes of a block RAM.
#[derive(Clone, Copy)]
struct Block<'a> {
    /// The address bits and the widths of two ports that read and write.
    abits: u32,
    widths: &'a [u32],
    levels: u32,
    /// The width of 512 words with a port that reads and one that writes.
    wide: u32,
    cost: u32,
}

/// Two ports that read and write, each at any of the widths.
fn two_ports(alloc: Global, block: Block<'_>, a: OwnWrite, b: OwnWrite) -> Result<Variant, Memory> {
    let mut groups = List::from_vec(Vec::new(alloc));
    let edge = Some(EdgeKind::Either);
    groups.push(group(alloc, PortKind::Srsw, edge, 1, a, block.levels)?)?;
    groups.push(group(alloc, PortKind::Srsw, edge, 1, b, block.levels)?)?;
    variant(
        alloc,
        block.abits,
        block.widths,
        Some(9),
        block.cost,
        groups,
    )
}

/// A port that reads and one that writes, at the full width.
fn simple_ports(alloc: Global, block: Block<'_>) -> Result<Variant, Memory> {
    let mut groups = List::from_vec(Vec::new(alloc));
    let edge = Some(EdgeKind::Either);
    groups.push(group(alloc, PortKind::Sr, edge, 1, OwnWrite::Undefined, 1)?)?;
    groups.push(group(alloc, PortKind::Sw, edge, 1, OwnWrite::Undefined, 1)?)?;
    variant(alloc, 9, &[block.wide], Some(9), block.cost, groups)
}

/// A block RAM, whose ports show one of four things of their own write.
fn block_ram(alloc: Global, block: Block<'_>) -> Result<RamKind, Memory> {
    let owns = [
        OwnWrite::Undefined,
        OwnWrite::Old,
        OwnWrite::New,
        OwnWrite::NoChange,
    ];
    let mut variants = List::from_vec(Vec::new(alloc));
    for a in owns {
        for b in owns {
            variants.push(two_ports(alloc, block, a, b)?)?;
        }
    }
    variants.push(simple_ports(alloc, block)?)?;
    Ok(ram(alloc, RamClass::Block, variants))
}

const HALF: Block<'static> = Block {
    abits: 13,
    widths: &[1, 2, 4, 9, 18],
    levels: 5,
    wide: 36,
    cost: 65,
};

const WHOLE: Block<'static> = Block {
    abits: 14,
    widths: &[1, 2, 4, 9, 18, 36],
    levels: 6,
    wide: 72,
    cost: 129,
};

/// A RAM of look-up tables and block RAMs of two sizes: 37 variants.
pub fn mixed_library(alloc: Global) -> Result<Library, Memory> {
    let mut rams = List::from_vec(Vec::new(alloc));
    rams.push(lut_ram(alloc)?)?;
    rams.push(block_ram(alloc, HALF)?)?;
    rams.push(block_ram(alloc, WHOLE)?)?;
    Ok(Library { rams, budget: None })
}
