//! What a read sees of a write, and what of it is emulated.
use crate::samples::{self, RISE, groups, list, none};
use fit_pairs::pairs::{native, pair_need};
use fit_pairs::{Need, PlacedRead, PlacedWrite, Relation};
use geom_core::ReadPlace;
use lib_core::{EdgeKind, Memory, PortKind, Variant};
use net_core::{Bit, Pair, RdPort, WrPort};
use std::alloc::Global;
use std::test::Fail;

/// A RAM with a group that reads and one that writes.
fn two_groups(alloc: Global, kind: PortKind) -> Result<Variant, Memory> {
    let any = Some(EdgeKind::Either);
    let groups = groups(alloc, &[(kind, any, 1), (PortKind::Sw, any, 1)])?;
    samples::variant(alloc, 9, &[8], None, 64, groups)
}

/// A read at the rising edge, with the masks of its pair with write 0.
fn read(alloc: Global, trans: bool, coll: bool) -> Result<RdPort, Memory> {
    samples::read(alloc, Some(RISE), none(alloc), trans, coll)
}

/// A write at the rising edge.
fn write(alloc: Global, enables: &[Bit]) -> Result<WrPort, Memory> {
    Ok(samples::write(alloc, list(alloc, enables)?, none(alloc)))
}

/// Read 0 in a group of the RAM.
fn placed<'a>(
    variant: &'a Variant,
    port: &'a RdPort,
    place: ReadPlace,
    group: u32,
) -> Option<PlacedRead<'a>> {
    let kind = variant.groups.as_slice().get(group as usize)?;
    Some(PlacedRead {
        number: 0,
        port,
        place,
        group,
        kind,
    })
}

/// What a read in group 0 and a write in group 1 show and need.
fn relation(
    variant: &Variant,
    quiet: &[Pair],
    port: &RdPort,
    write: &WrPort,
) -> Option<(Relation, Need)> {
    let read = placed(variant, port, ReadPlace::Group(0), 0)?;
    let kind = variant.groups.as_slice().get(1)?;
    let write = PlacedWrite {
        number: 0,
        port: write,
        group: 1,
        kind,
    };
    Some((native(&read, &write), pair_need(quiet, &read, &write)))
}

/// What a read with these masks and a write of a plain RAM show and need.
fn met(
    alloc: Global,
    masks: (bool, bool),
    quiet: &[Pair],
) -> Result<Option<(Relation, Need)>, Memory> {
    let variant = two_groups(alloc, PortKind::Sr)?;
    let write = write(alloc, &[Bit::Net(1)])?;
    let read = read(alloc, masks.0, masks.1)?;
    Ok(relation(&variant, quiet, &read, &write))
}

#[test]
fn pairs_of_a_plain_ram(rt: HostRuntime) -> Result<(), Fail> {
    let alloc = rt.alloc();
    let quiet = [Pair { read: 0, write: 0 }];
    assert_eq!(rt;
        met(alloc, (false, false), &[])?,
        Some((Relation::Any, Need::ReadFirst))
    );
    assert_eq!(rt;
        met(alloc, (true, false), &[])?,
        Some((Relation::Any, Need::Bypass))
    );
    assert_eq!(rt;
        met(alloc, (false, true), &[])?,
        Some((Relation::Any, Need::Nothing))
    );
    assert_eq!(rt;
        met(alloc, (false, false), &quiet)?,
        Some((Relation::Any, Need::Nothing))
    );
    Ok(())
}
