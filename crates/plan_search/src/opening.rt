//! Whether anything can stand at a spot: a quick test before the row is laid out.
ghost use Rattle.std.specs.Prelude.{◌≡◌, ◌≤◌, ◌<◌, ◌+◌, ◌^◌, length, IfOk};
ghost use Rattle.geom_core.specs.declared.candidates.ReadPlace.TheVariants as place;
ghost use Rattle.fit_rules.specs.Candidates as listed;
ghost use Rattle.fit_rules.specs.Standing as standing;
ghost use Rattle.plan_search.specs.Openings as openings;
ghost use Rattle.plan_search.specs.Walks.{walk, branches};

use fit_rules::Spot;
use fit_rules::rules::{lanes_stand, writes_placed};
use fit_rules::standing::{first_ride, read_stands};
use geom_core::ReadPlace;
use lib_core::{Group, List, Memory, Variant};
use net_core::{Mem, RdPort, WrPort};
use std::alloc::Global;

// Whether the read can stand in one of these groups, whose numbers are counted from `first`.
fn in_some_group(
    variant: &Variant,
    spot: Spot,
    writes: &[WrPort],
    groups: &[u32],
    number: u32,
    read: &RdPort,
    first: u32,
    kinds: &[Group],
) -> bool
    requires groups { length groups.now < 2 ^ 32 }
    requires kinds { first + length kinds.now < 2 ^ 32 }
    ensures { result ≡ openings.some_group (λ g. standing.read_stands variant.now spot writes.now groups.now number read.now (place.Group g)) first kinds.now }
{
    match kinds {
        [] => false,
        [_, kinds @ ..] => {
            read_stands(
                variant,
                spot,
                writes,
                groups,
                number,
                read,
                ReadPlace::Group(first),
            ) || in_some_group(
                variant,
                spot,
                writes,
                groups,
                number,
                read,
                first + 1,
                kinds,
            )
        }
    }
}

// Whether the read can stand at the name of a write.
fn at_some_write(
    variant: &Variant,
    spot: Spot,
    writes: &[WrPort],
    groups: &[u32],
    number: u32,
    read: &RdPort,
) -> bool
    requires { length groups.now < 2 ^ 32 }
    ensures { result ≡ openings.some_ride (standing.read_stands variant.now spot writes.now groups.now number read.now) (standing.first_ride variant.now read.now 0 writes.now groups.now) }
{
    match first_ride(variant, read, 0, writes, groups) {
        None => false,
        Some(write) => {
            read_stands(
                variant,
                spot,
                writes,
                groups,
                number,
                read,
                ReadPlace::Ride(write),
            )
        }
    }
}

fn has_place(
    variant: &Variant,
    spot: Spot,
    writes: &[WrPort],
    groups: &[u32],
    number: u32,
    read: &RdPort,
) -> bool
    requires few { length variant.now.groups ≤ 4 }
    requires groups { length groups.now < 2 ^ 32 }
    ensures { result ≡ openings.has_place variant.now spot writes.now groups.now number read.now }
{
    let kinds = variant.groups.as_slice();
    in_some_group(variant, spot, writes, groups, number, read, 0, kinds)
        || at_some_write(variant, spot, writes, groups, number, read)
}

fn have_places(
    variant: &Variant,
    spot: Spot,
    writes: &[WrPort],
    groups: &[u32],
    number: u32,
    reads: &[RdPort],
) -> bool
    requires few { length variant.now.groups ≤ 4 }
    requires groups { length groups.now < 2 ^ 32 }
    requires reads { number + length reads.now < 2 ^ 32 }
    ensures { result ≡ openings.have_places variant.now spot writes.now groups.now number reads.now }
{
    match reads {
        [] => true,
        [read, reads @ ..] => {
            has_place(variant, spot, writes, groups, number, read)
                && have_places(variant, spot, writes, groups, number + 1, reads)
        }
    }
}

// Whether the writes stand in these groups, and each read has a place beside them.
fn opens(mem: &Mem, variant: &Variant, spot: Spot, groups: &[u32]) -> bool
    requires few { length variant.now.groups ≤ 4 }
    requires few_reads { length mem.now.reads ≤ 8 }
    requires few_groups { length groups.now ≤ 4 }
    ensures { result ≡ openings.opens mem.now variant.now spot groups.now }
{
    writes_placed(mem, variant, spot, groups)
        && lanes_stand(mem, variant, spot, groups)
        && have_places(
            variant,
            spot,
            mem.writes.as_slice(),
            groups,
            0,
            mem.reads.as_slice(),
        )
}

// Whether it was open, or groups that begin so open it.
#[cycle(openings)]
fn opens_after(
    mem: &Mem,
    variant: &Variant,
    spot: Spot,
    choices: &[List<u32>],
    so_far: &mut Vec<u32>,
    before: bool,
) -> Result<bool, Memory>
    requires few { length variant.now.groups ≤ 4 }
    requires few_reads { length mem.now.reads ≤ 8 }
    requires few_writes { length so_far.old.items + length choices.now ≤ 4 }
    ensures opened { IfOk result (λ after. after ≡ walk (openings.or_opens mem.now variant.now spot) before so_far.old.items choices.now) }
    ensures kept { IfOk result (λ _. so_far.new.items ≡ so_far.old.items) }
{
    if before {
        return Ok(true);
    }
    match choices {
        [] => Ok(opens(mem, variant, spot, so_far.as_slice())),
        [groups, rest @ ..] => {
            opens_with_each(mem, variant, spot, groups.as_slice(), rest, so_far, before)
        }
    }
}

// Whether it was open, or groups that go on with one of these open it.
#[cycle(openings)]
fn opens_with_each(
    mem: &Mem,
    variant: &Variant,
    spot: Spot,
    groups: &[u32],
    rest: &[List<u32>],
    so_far: &mut Vec<u32>,
    before: bool,
) -> Result<bool, Memory>
    requires few { length variant.now.groups ≤ 4 }
    requires few_reads { length mem.now.reads ≤ 8 }
    requires few_writes { length so_far.old.items + length rest.now < 4 }
    ensures opened { IfOk result (λ after. after ≡ branches (openings.or_opens mem.now variant.now spot) before so_far.old.items groups.now rest.now) }
    ensures kept { IfOk result (λ _. so_far.new.items ≡ so_far.old.items) }
{
    let mut opened = before;
    for group in groups {
        so_far.push(*group)?;
        opened = opens_after(mem, variant, spot, rest, so_far, opened)?;
        so_far.pop();
    }
    Ok(opened)
}

/// Whether anything can stand at the spot, by the groups that each write may have.
pub fn is_open(
    alloc: Global,
    mem: &Mem,
    variant: &Variant,
    spot: Spot,
    choices: &[List<u32>],
) -> Result<bool, Memory>
    requires few { length variant.now.groups ≤ 4 }
    requires few_reads { length mem.now.reads ≤ 8 }
    requires few_writes { length mem.now.writes ≤ 4 }
    requires choices { choices.now ≡ listed.write_choices mem.now variant.now }
    ensures { IfOk result (λ opened. opened ≡ openings.is_open mem.now variant.now spot) }
{
    let mut so_far = Vec::new(alloc);
    opens_after(mem, variant, spot, choices, &mut so_far, false)
}
