//! Which group a write can stand in, and which place a read.
ghost use Rattle.std.specs.Prelude.{◌≡◌, ◌≤◌, ◌<◌, ◌+◌, ◌-◌, ◌^◌, length, count_by, nat_eq, nat_le, option_map};
ghost use Rattle.std.specs.List.{list_all, list_any};
ghost use Rattle.net_core.specs.Ports as ports;
ghost use Rattle.fit_pairs.specs.Placed.{reader_of, writer_of, writer_has};
ghost use Rattle.fit_rules.specs.Standing as standing;

use crate::spots::Spot;
use fit_pairs::{
    PlacedRead, PlacedWrite, fits_edge, is_single, reads_later, reads_now, ride_met, same_clock,
    stands_even, writes,
};
use geom_core::ReadPlace;
use geom_core::splits::same_bit;
use geom_core::spreads::level_width;
use lib_core::{Group, Variant};
use net_core::{Bit, Clock, RdPort, WrPort};

/// Whether a group has the level of a port of 2 to this power words. It takes no memory.
pub fn level_allowed(variant: &Variant, spot: Spot, wide: u32, group: &Group) -> bool
    ensures { result ≡ standing.level_allowed variant.now spot wide group.now }
{
    has_level(
        group,
        u64::from(spot.level) + u64::from(wide.saturating_sub(spot.fold)),
    ) && (variant.per_port || wide <= spot.fold)
}

fn has_level(group: &Group, level: u64) -> bool
    ensures { result ≡ list_any (nat_eq level) group.now.levels }
{
    group
        .levels
        .as_slice()
        .iter()
        .any(|allowed| level == u64::from(*allowed))
}

/// Whether the group writes at the write's clock, at its level. It takes no memory.
pub fn write_stands(variant: &Variant, spot: Spot, write: &WrPort, group: u32) -> bool
    ensures { result ≡ standing.write_stands variant.now spot write.now group }
{
    match variant.groups.as_slice().get(group as usize) {
        None => false,
        Some(group) => {
            writes(group.kind)
                && fits_edge(group.edge, write.clock)
                && level_allowed(variant, spot, write.wide, group)
        }
    }
}

/// How many names a group has. It takes no memory.
pub fn names_of(variant: &Variant, group: u32) -> usize
    ensures { result ≡ standing.names_of variant.now group }
{
    match variant.groups.as_slice().get(group as usize) {
        None => 0,
        Some(group) => group.names.as_slice().len(),
    }
}

/// How often a number stands among numbers. It takes no memory.
pub fn times(number: u32, numbers: &[u32]) -> usize
    ensures { result ≡ count_by (nat_eq number) numbers.now }
{
    let mut times = 0;
    for item in numbers {
        if number == *item {
            times += 1;
        }
    }
    times
}

/// How many names of a group the writes leave. It takes no memory.
pub fn left(variant: &Variant, groups: &[u32], group: u32) -> usize
    ensures { result ≡ standing.left variant.now groups.now group }
{
    names_of(variant, group).saturating_sub(times(group, groups))
}

/// Whether no group has more writes than names. It takes no memory.
pub fn have_names(variant: &Variant, groups: &[u32]) -> bool
    ensures { result ≡ standing.have_names variant.now groups.now }
{
    all_have_names(variant, groups, groups)
}

fn all_have_names(variant: &Variant, all: &[u32], groups: &[u32]) -> bool
    ensures { result ≡ list_all (λ n. nat_le (count_by (nat_eq n) all.now) (standing.names_of variant.now n)) groups.now }
{
    match groups {
        [] => true,
        [group, groups @ ..] => {
            has_names(variant, all, *group) && all_have_names(variant, all, groups)
        }
    }
}

fn has_names(variant: &Variant, all: &[u32], group: u32) -> bool
    ensures { result ≡ nat_le (count_by (nat_eq group) all.now) (standing.names_of variant.now group) }
{
    times(group, all) <= names_of(variant, group)
}

/// Whether a write has the lanes for the rows that it goes to. It takes no memory.
pub fn lanes_met(
    variant: &Variant,
    spot: Spot,
    writes: &[WrPort],
    groups: &[u32],
    write: &PlacedWrite<'_>,
) -> bool
    requires { length groups.now < 2 ^ 32 }
    ensures { result ≡ standing.lanes_met variant.now spot writes.now groups.now (writer_of write.now) }
{
    write.port.wide <= spot.fold
        || has_bytes(variant.byte, level_width(variant, spot.level))
        || single_met(variant, writes, groups, write)
}

fn single_met(variant: &Variant, writes: &[WrPort], groups: &[u32], write: &PlacedWrite<'_>) -> bool
    requires { length groups.now < 2 ^ 32 }
    ensures { result ≡ standing.single_met variant.now writes.now groups.now (writer_of write.now) }
{
    is_single(write.port.en.as_slice()) && stands_even(variant, writes, groups, write)
}

fn has_bytes(byte: Option<u32>, width: u32) -> bool
    ensures { result ≡ standing.has_bytes byte width }
{
    match byte {
        None => false,
        Some(byte) => byte <= width,
    }
}

/// Whether the group reads as the port does, whose register may stand outside. It takes no memory.
pub fn suits(group: &Group, clock: Option<Clock>) -> bool
    ensures { result ≡ standing.suits group.now clock }
{
    match clock {
        None => reads_now(group.kind),
        Some(clock) => {
            reads_now(group.kind) || reads_later(group.kind) && fits_edge(group.edge, clock)
        }
    }
}

fn same_bits(a: &[Bit], b: &[Bit]) -> bool
    ensures { result ≡ standing.same_bits a.now b.now }
{
    match a {
        [] => b.is_empty(),
        [x, xs @ ..] => match b {
            [] => false,
            [y, ys @ ..] => same_bit(*x, *y) && same_bits(xs, ys),
        },
    }
}

fn clock_agrees(group: &Group, read: Option<Clock>, write: Clock) -> bool
    ensures { result ≡ standing.clock_agrees group.now read write }
{
    match read {
        None => !reads_later(group.kind),
        Some(clock) => !reads_later(group.kind) || same_clock(clock, write),
    }
}

fn carries(group: &Group, read: Option<Clock>, write: Clock) -> bool
    ensures { result ≡ standing.carries group.now read write }
{
    writes(group.kind) && suits(group, read) && clock_agrees(group, read, write)
}

/// Whether the read can stand at the name of the write, which is in this group. It takes no memory.
pub fn can_ride(variant: &Variant, read: &RdPort, write: &WrPort, group: u32) -> bool
    ensures { result ≡ standing.can_ride variant.now read.now write.now group }
{
    write.wide == read.wide
        && same_bits(write.addr.as_slice(), read.addr.as_slice())
        && carried_in(variant, read, write, group)
}

fn carried_in(variant: &Variant, read: &RdPort, write: &WrPort, group: u32) -> bool
    ensures { result ≡ standing.carried_in variant.now read.now write.now group }
{
    match variant.groups.as_slice().get(group as usize) {
        None => false,
        Some(group) => carries(group, read.clock, write.clock),
    }
}

/// The first write at whose name the read can stand, counted from a number. It takes no memory.
pub fn first_ride(
    variant: &Variant,
    read: &RdPort,
    from: u32,
    writes: &[WrPort],
    groups: &[u32],
) -> Option<u32>
    requires { from + length groups.now < 2 ^ 32 }
    ensures { result ≡ standing.first_ride variant.now read.now from writes.now groups.now }
{
    match writes {
        [] => None,
        [write, writes @ ..] => match groups {
            [] => None,
            [group, groups @ ..] => {
                if can_ride(variant, read, write, *group) {
                    Some(from)
                } else {
                    first_ride(variant, read, from + 1, writes, groups)
                }
            }
        },
    }
}

/// Whether the place suits the read. It takes no memory.
pub fn place_suits(
    variant: &Variant,
    writes: &[WrPort],
    groups: &[u32],
    read: &RdPort,
    place: ReadPlace,
) -> bool
    requires { length groups.now < 2 ^ 32 }
    ensures { result ≡ standing.place_suits variant.now writes.now groups.now read.now place }
{
    match place {
        ReadPlace::Group(number) => {
            group_suits(variant, read, number) && 0 < left(variant, groups, number)
        }
        ReadPlace::Ride(write) => match first_ride(variant, read, 0, writes, groups) {
            None => false,
            Some(first) => first == write,
        },
    }
}

fn group_suits(variant: &Variant, read: &RdPort, group: u32) -> bool
    ensures { result ≡ standing.at_group variant.now group (λ g. standing.suits g read.now.clock) }
{
    match variant.groups.as_slice().get(group as usize) {
        None => false,
        Some(group) => suits(group, read.clock),
    }
}

/// The group in which a read stands. It takes no memory.
pub fn group_of(groups: &[u32], place: ReadPlace) -> Option<u32>
    ensures { result ≡ standing.group_of groups.now place }
{
    match place {
        ReadPlace::Group(group) => Some(group),
        ReadPlace::Ride(write) => groups.get(write as usize).copied(),
    }
}

/// A read at its place, where the place is one. It takes no memory.
pub fn placed_read<'a>(
    variant: &'a Variant,
    groups: &[u32],
    number: u32,
    port: &'a RdPort,
    place: ReadPlace,
) -> Option<PlacedRead<'a>>
    ensures { option_map reader_of result ≡ standing.placed_read variant.now groups.now number port.now place }
{
    match group_of(groups, place) {
        None => None,
        Some(group) => match variant.groups.as_slice().get(group as usize) {
            None => None,
            Some(kind) => Some(PlacedRead {
                number,
                port,
                place,
                group,
                kind,
            }),
        },
    }
}

/// Whether a read stands at the level of its group, and has what it needs at the name of a write. It
/// takes no memory.
pub fn reader_stands(
    variant: &Variant,
    spot: Spot,
    writes: &[WrPort],
    groups: &[u32],
    read: &PlacedRead<'_>,
) -> bool
    requires { length groups.now < 2 ^ 32 }
    ensures { result ≡ standing.reader_stands variant.now spot writes.now groups.now (reader_of read.now) }
{
    level_allowed(variant, spot, read.port.wide, read.kind)
        && ride_met(variant, writes, groups, spot.fold, read)
}

/// Whether a read can stand at the place. It takes no memory.
pub fn read_stands(
    variant: &Variant,
    spot: Spot,
    writes: &[WrPort],
    groups: &[u32],
    number: u32,
    read: &RdPort,
    place: ReadPlace,
) -> bool
    requires { length groups.now < 2 ^ 32 }
    ensures { result ≡ standing.read_stands variant.now spot writes.now groups.now number read.now place }
{
    place_suits(variant, writes, groups, read, place)
        && stands_at(variant, spot, writes, groups, number, read, place)
}

fn stands_at(
    variant: &Variant,
    spot: Spot,
    writes: &[WrPort],
    groups: &[u32],
    number: u32,
    read: &RdPort,
    place: ReadPlace,
) -> bool
    requires { length groups.now < 2 ^ 32 }
    ensures { result ≡ standing.stands_at variant.now spot writes.now groups.now number read.now place }
{
    match placed_read(variant, groups, number, read, place) {
        None => false,
        Some(read) => reader_stands(variant, spot, writes, groups, &read),
    }
}
