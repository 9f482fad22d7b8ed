//! What a pair of a clocked read and a write needs.
ghost use Rattle.std.specs.Prelude.{◌≡◌, ◌≤◌, ◌<◌, ◌+◌, ◌^◌, ◌&&◌, length};
ghost use Rattle.lib_core.specs.Rams as rams;
ghost use Rattle.fit_pairs.specs.Pairs as pairs;
ghost use Rattle.fit_pairs.specs.Placed.{reader_of, writer_of, writer_has, some_write, count_writes, is_ridden};

use crate::clocks::in_domain;
use crate::items::enable_emulated;
use crate::kinds::{reads_later, reads_now};
use crate::placed::{PlacedRead, PlacedWrite};
use crate::priorities::{flag_at, is_single, stands_even};
use geom_core::ReadPlace;
use lib_core::{OwnWrite, Seen, Trans, Variant};
use net_core::{Pair, WrPort};

/// What a read shows of a write of the same event, or has to show of it.
#[derive(Clone, Copy, Debug, PartialEq, Eq)]
pub enum Relation {
    /// The word before the write.
    Old,
    /// The word after the write.
    New,
    /// Anything.
    Any,
}

/// What a pair needs outside the RAM.
#[derive(Clone, Copy, Debug, PartialEq, Eq)]
pub enum Need {
    Nothing,
    /// The written word goes round the RAM.
    Bypass,
    /// All reads come before the writes.
    ReadFirst,
}

/// What the read shows of the write by itself. It takes no memory.
pub fn native(read: &PlacedRead<'_>, write: &PlacedWrite<'_>) -> Relation
    ensures { result ≡ pairs.native (reader_of read.now) (writer_of write.now) }
{
    if reads_now(read.kind.kind) {
        return Relation::Old;
    }
    if rides(read.place, write.number) {
        return own_relation(read.kind.own);
    }
    trans_relation(read.group, write.kind.trans.as_slice())
}

/// Whether a read at this place stands at the name of the write. It takes no memory.
pub fn rides(place: ReadPlace, write: u32) -> bool
    ensures { result ≡ is_ridden place write }
{
    match place {
        ReadPlace::Group(_) => false,
        ReadPlace::Ride(ridden) => ridden == write,
    }
}

fn own_relation(own: OwnWrite) -> Relation
    ensures { result ≡ pairs.relation_of (rams.own_view own) }
{
    match own {
        OwnWrite::Old => Relation::Old,
        OwnWrite::New | OwnWrite::NewOnly => Relation::New,
        OwnWrite::Undefined | OwnWrite::NoChange => Relation::Any,
    }
}

fn trans_relation(reading: u32, trans: &[Trans]) -> Relation
    ensures { result ≡ pairs.relation_of (rams.trans_view reading trans.now) }
{
    match trans {
        [] => Relation::Any,
        [first, rest @ ..] => {
            if first.group == reading {
                seen_relation(first.seen)
            } else {
                trans_relation(reading, rest)
            }
        }
    }
}

fn seen_relation(seen: Seen) -> Relation
    ensures { result ≡ pairs.relation_of (rams.view_of seen) }
{
    match seen {
        Seen::Old => Relation::Old,
        Seen::New => Relation::New,
    }
}

/// What the design asks of the pair, where some pairs are never enabled together. It takes no memory.
pub fn asked(quiet: &[Pair], read: &PlacedRead<'_>, write: &PlacedWrite<'_>) -> Relation
    ensures { result ≡ pairs.asked quiet.now (reader_of read.now) (writer_of write.now) }
{
    if flag_at(read.port.coll.as_slice(), write.number)
        || is_quiet(quiet, read.number, write.number) && enable_emulated(read)
    {
        return Relation::Any;
    }
    if flag_at(read.port.trans.as_slice(), write.number) {
        Relation::New
    } else {
        Relation::Old
    }
}

/// Whether the pair is among those that are never enabled together. It takes no memory.
pub fn is_quiet(quiet: &[Pair], read: u32, write: u32) -> bool
    ensures { result ≡ pairs.is_quiet quiet.now read write }
{
    quiet
        .iter()
        .any(|pair| pair.read == read && pair.write == write)
}

/// What is needed where a pair shows one relation and another is asked. It takes no memory.
pub fn need_of(shown: Relation, asked: Relation) -> Need
    ensures { result ≡ pairs.need_of shown asked }
{
    match asked {
        Relation::Any => Need::Nothing,
        Relation::New => match shown {
            Relation::New => Need::Nothing,
            Relation::Old | Relation::Any => Need::Bypass,
        },
        Relation::Old => match shown {
            Relation::Old => Need::Nothing,
            Relation::New | Relation::Any => Need::ReadFirst,
        },
    }
}

/// What a pair needs. It takes no memory.
pub fn pair_need(quiet: &[Pair], read: &PlacedRead<'_>, write: &PlacedWrite<'_>) -> Need
    ensures { result ≡ pairs.pair_need quiet.now (reader_of read.now) (writer_of write.now) }
{
    if in_domain(read.port.clock, write.port.clock) && !is_quiet(quiet, read.number, write.number) {
        need_of(native(read, write), asked(quiet, read, write))
    } else {
        Need::Nothing
    }
}

fn same_need(a: Need, b: Need) -> bool
    ensures { result ≡ pairs.same_need a b }
{
    match a {
        Need::Nothing => match b {
            Need::Nothing => true,
            Need::Bypass | Need::ReadFirst => false,
        },
        Need::Bypass => match b {
            Need::Bypass => true,
            Need::Nothing | Need::ReadFirst => false,
        },
        Need::ReadFirst => match b {
            Need::ReadFirst => true,
            Need::Nothing | Need::Bypass => false,
        },
    }
}

/// Whether some write makes this need of the read. It takes no memory.
pub fn some_need(
    wanted: Need,
    quiet: &[Pair],
    variant: &Variant,
    writes: &[WrPort],
    groups: &[u32],
    read: &PlacedRead<'_>,
) -> bool
    requires { length groups.now < 2 ^ 32 }
    ensures { result ≡ pairs.some_need wanted quiet.now variant.now writes.now groups.now (reader_of read.now) }
{
    some_making(wanted, quiet, variant, read, 0, writes, groups)
}

fn some_making(
    wanted: Need,
    quiet: &[Pair],
    variant: &Variant,
    read: &PlacedRead<'_>,
    number: u32,
    writes: &[WrPort],
    groups: &[u32],
) -> bool
    requires { number + length groups.now < 2 ^ 32 }
    ensures { result ≡ some_write variant.now (pairs.makes wanted quiet.now (reader_of read.now)) number writes.now groups.now }
{
    match writes {
        [] => false,
        [port, writes @ ..] => match groups {
            [] => false,
            [group, groups @ ..] => {
                makes(wanted, quiet, variant, read, number, port, *group)
                    || some_making(wanted, quiet, variant, read, number + 1, writes, groups)
            }
        },
    }
}

fn makes(
    wanted: Need,
    quiet: &[Pair],
    variant: &Variant,
    read: &PlacedRead<'_>,
    number: u32,
    port: &WrPort,
    group: u32,
) -> bool
    ensures { result ≡ writer_has variant.now (pairs.makes wanted quiet.now (reader_of read.now)) number port.now group }
{
    match variant.groups.as_slice().get(group as usize) {
        None => false,
        Some(kind) => {
            let write = PlacedWrite {
                number,
                port,
                group,
                kind,
            };
            same_need(wanted, pair_need(quiet, read, &write))
        }
    }
}

/// How many transparent pairs of the read are emulated. It takes no memory.
pub fn bypasses(
    read_first: bool,
    quiet: &[Pair],
    variant: &Variant,
    writes: &[WrPort],
    groups: &[u32],
    read: &PlacedRead<'_>,
) -> u32
    requires { length groups.now < 2 ^ 32 }
    ensures value { result ≡ pairs.bypasses read_first quiet.now variant.now writes.now groups.now (reader_of read.now) }
    ensures bound { result ≤ length groups.now }
{
    if read_first || some_need(Need::Bypass, quiet, variant, writes, groups, read) {
        count_transparent(quiet, variant, read, 0, writes, groups)
    } else {
        0
    }
}

fn count_transparent(
    quiet: &[Pair],
    variant: &Variant,
    read: &PlacedRead<'_>,
    number: u32,
    writes: &[WrPort],
    groups: &[u32],
) -> u32
    requires { number + length groups.now < 2 ^ 32 }
    ensures value { result ≡ count_writes variant.now (pairs.is_transparent quiet.now (reader_of read.now)) number writes.now groups.now }
    ensures bound { result ≤ length groups.now }
{
    match writes {
        [] => 0,
        [port, writes @ ..] => match groups {
            [] => 0,
            [group, groups @ ..] => {
                let rest = count_transparent(quiet, variant, read, number + 1, writes, groups);
                if is_transparent(quiet, variant, read, number, port, *group) {
                    rest + 1
                } else {
                    rest
                }
            }
        },
    }
}

fn is_transparent(
    quiet: &[Pair],
    variant: &Variant,
    read: &PlacedRead<'_>,
    number: u32,
    port: &WrPort,
    group: u32,
) -> bool
    ensures { result ≡ writer_has variant.now (pairs.is_transparent quiet.now (reader_of read.now)) number port.now group }
{
    match variant.groups.as_slice().get(group as usize) {
        None => false,
        Some(kind) => {
            let write = PlacedWrite {
                number,
                port,
                group,
                kind,
            };
            in_domain(read.port.clock, port.clock) && is_new(asked(quiet, read, &write))
        }
    }
}

fn is_new(relation: Relation) -> bool
    ensures { result ≡ pairs.is_new relation }
{
    match relation {
        Relation::New => true,
        Relation::Old | Relation::Any => false,
    }
}

/// Whether a read at the name of a write has what it needs there. It takes no memory.
pub fn ride_met(
    variant: &Variant,
    writes: &[WrPort],
    groups: &[u32],
    fold: u32,
    read: &PlacedRead<'_>,
) -> bool
    requires { length groups.now < 2 ^ 32 }
    ensures { result ≡ pairs.ride_met variant.now writes.now groups.now fold read.now.place (reader_of read.now) }
{
    match read.place {
        ReadPlace::Group(_) => true,
        ReadPlace::Ride(number) => match writes.get(number as usize) {
            None => false,
            Some(port) => ridden_met(variant, writes, groups, fold, read, number, port),
        },
    }
}

fn ridden_met(
    variant: &Variant,
    writes: &[WrPort],
    groups: &[u32],
    fold: u32,
    read: &PlacedRead<'_>,
    number: u32,
    port: &WrPort,
) -> bool
    requires { length groups.now < 2 ^ 32 }
    ensures { result ≡ pairs.ridden_met variant.now writes.now groups.now fold (reader_of read.now) number port.now }
{
    let write = PlacedWrite {
        number,
        port,
        group: read.group,
        kind: read.kind,
    };
    !asks_whole(read, port) || whole_words(variant, writes, groups, fold, &write)
}

fn asks_whole(read: &PlacedRead<'_>, write: &WrPort) -> bool
    ensures { result ≡ pairs.asks_whole (reader_of read.now) write.now }
{
    in_domain(read.port.clock, write.clock)
        && reads_later(read.kind.kind)
        && shows_whole(read.kind.own)
}

fn shows_whole(own: OwnWrite) -> bool
    ensures { result ≡ pairs.shows_whole own }
{
    match own {
        OwnWrite::Undefined | OwnWrite::NoChange | OwnWrite::NewOnly => true,
        OwnWrite::Old | OwnWrite::New => false,
    }
}

fn whole_words(
    variant: &Variant,
    writes: &[WrPort],
    groups: &[u32],
    fold: u32,
    write: &PlacedWrite<'_>,
) -> bool
    requires { length groups.now < 2 ^ 32 }
    ensures { result ≡ pairs.whole_words variant.now writes.now groups.now fold (writer_of write.now) }
{
    is_single(write.port.en.as_slice()) && stands_even(variant, writes, groups, write) && fold == 0
}
