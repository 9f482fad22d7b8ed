//! Which of two writes wins, where the RAM says so and where it is emulated.
ghost use Rattle.std.specs.Prelude.{◌≡◌, ◌≤◌, ◌<◌, ◌+◌, ◌^◌, length, nat_eq};
ghost use Rattle.std.specs.List.{list_all, list_any};
ghost use Rattle.lib_core.specs.Rams as rams;
ghost use Rattle.net_core.specs.Values.{bit_at};
ghost use Rattle.net_core.specs.Ports.{same_bit};
ghost use Rattle.fit_pairs.specs.Priorities as priorities;
ghost use Rattle.fit_pairs.specs.Placed.{writer_of, writer_has, some_write, count_writes};

use crate::clocks::one_domain;
use crate::placed::PlacedWrite;
use geom_core::splits::same_bit;
use lib_core::{Group, Variant};
use net_core::{Bit, WrPort};

/// Whether the upper write has priority over the lower one in one domain and the RAM does not give it.
/// It takes no memory.
pub fn emulated_over(lower: &PlacedWrite<'_>, upper: &PlacedWrite<'_>) -> bool
    ensures { result ≡ priorities.emulated_over (writer_of lower.now) (writer_of upper.now) }
{
    flag_at(upper.port.prio.as_slice(), lower.number)
        && one_domain(upper.port.clock, lower.port.clock)
        && !wins_over(upper.group, upper.kind, lower.group, lower.kind)
}

/// The flag at a place, false past the end. It takes no memory.
pub fn flag_at(flags: &[bool], place: u32) -> bool
    ensures { result ≡ bit_at flags.now place }
{
    match flags {
        [] => false,
        [first, rest @ ..] => {
            if place == 0 {
                *first
            } else {
                flag_at(rest, place - 1)
            }
        }
    }
}

/// Whether a group wins over another that it names, which does not name it. It takes no memory.
pub fn wins_over(number: u32, group: &Group, other_number: u32, other: &Group) -> bool
    ensures { result ≡ rams.wins_over number group.now other_number other.now }
{
    names(group, other_number) && !names(other, number)
}

fn names(group: &Group, number: u32) -> bool
    ensures { result ≡ rams.names group.now number }
{
    group.prio.as_slice().iter().any(|named| number == *named)
}

/// Whether one bit stands as all enables. It takes no memory.
pub fn is_single(enables: &[Bit]) -> bool
    ensures { result ≡ priorities.is_single enables.now }
{
    match enables {
        [] => true,
        [first, rest @ ..] => all_same(*first, rest),
    }
}

fn all_same(bit: Bit, others: &[Bit]) -> bool
    ensures { result ≡ list_all (same_bit bit) others.now }
{
    others.iter().all(|other| same_bit(bit, *other))
}

fn uneven_over(lower: &PlacedWrite<'_>, upper: &PlacedWrite<'_>) -> bool
    ensures { result ≡ priorities.uneven_over (writer_of lower.now) (writer_of upper.now) }
{
    emulated_over(lower, upper) && !is_even(lower.port, upper.port)
}

fn is_even(lower: &WrPort, upper: &WrPort) -> bool
    ensures { result ≡ priorities.is_even lower.now upper.now }
{
    is_single(upper.en.as_slice()) && lower.wide <= upper.wide
}

/// Whether each write whose priority over this one is emulated has one bit as all its enables, and at
/// least as many words. It takes no memory.
pub fn stands_even(
    variant: &Variant,
    writes: &[WrPort],
    groups: &[u32],
    lower: &PlacedWrite<'_>,
) -> bool
    requires { length groups.now < 2 ^ 32 }
    ensures { result ≡ priorities.stands_even variant.now writes.now groups.now (writer_of lower.now) }
{
    !some_uneven(variant, lower, 0, writes, groups)
}

fn some_uneven(
    variant: &Variant,
    lower: &PlacedWrite<'_>,
    number: u32,
    writes: &[WrPort],
    groups: &[u32],
) -> bool
    requires { number + length groups.now < 2 ^ 32 }
    ensures { result ≡ some_write variant.now (priorities.uneven_over (writer_of lower.now)) number writes.now groups.now }
{
    match writes {
        [] => false,
        [port, writes @ ..] => match groups {
            [] => false,
            [group, groups @ ..] => {
                is_uneven(variant, lower, number, port, *group)
                    || some_uneven(variant, lower, number + 1, writes, groups)
            }
        },
    }
}

fn is_uneven(
    variant: &Variant,
    lower: &PlacedWrite<'_>,
    number: u32,
    port: &WrPort,
    group: u32,
) -> bool
    ensures { result ≡ writer_has variant.now (priorities.uneven_over (writer_of lower.now)) number port.now group }
{
    match variant.groups.as_slice().get(group as usize) {
        None => false,
        Some(kind) => {
            let upper = PlacedWrite {
                number,
                port,
                group,
                kind,
            };
            uneven_over(lower, &upper)
        }
    }
}

/// How many writes have an emulated priority over this one. It takes no memory.
pub fn emulated_count(
    variant: &Variant,
    writes: &[WrPort],
    groups: &[u32],
    lower: &PlacedWrite<'_>,
) -> u32
    requires { length groups.now < 2 ^ 32 }
    ensures value { result ≡ priorities.emulated_count variant.now writes.now groups.now (writer_of lower.now) }
    ensures bound { result ≤ length groups.now }
{
    count_emulated(variant, lower, 0, writes, groups)
}

fn count_emulated(
    variant: &Variant,
    lower: &PlacedWrite<'_>,
    number: u32,
    writes: &[WrPort],
    groups: &[u32],
) -> u32
    requires { number + length groups.now < 2 ^ 32 }
    ensures value { result ≡ count_writes variant.now (priorities.emulated_over (writer_of lower.now)) number writes.now groups.now }
    ensures bound { result ≤ length groups.now }
{
    match writes {
        [] => 0,
        [port, writes @ ..] => match groups {
            [] => 0,
            [group, groups @ ..] => {
                let rest = count_emulated(variant, lower, number + 1, writes, groups);
                if is_emulated(variant, lower, number, port, *group) {
                    rest + 1
                } else {
                    rest
                }
            }
        },
    }
}

fn is_emulated(
    variant: &Variant,
    lower: &PlacedWrite<'_>,
    number: u32,
    port: &WrPort,
    group: u32,
) -> bool
    ensures { result ≡ writer_has variant.now (priorities.emulated_over (writer_of lower.now)) number port.now group }
{
    match variant.groups.as_slice().get(group as usize) {
        None => false,
        Some(kind) => {
            let upper = PlacedWrite {
                number,
                port,
                group,
                kind,
            };
            emulated_over(lower, &upper)
        }
    }
}
