//! At which ports of cells the writes and reads of a memory stand.
ghost use Rattle.std.specs.Prelude.{◌≡◌, ◌++◌, ◌%◌, count_by, OnOk};
ghost use Rattle.fit_rules.specs.Shape as shape;
ghost use Rattle.plan_report.specs.Report as spec;

use crate::lines::{push_read_line, push_ride_line, push_write_line};
use fit_rules::shapes::copy_of;
use fit_rules::standing::{left, times};
use geom_core::{RamChoice, ReadPlace};
use lib_core::{Memory, Name, Variant};

/// The lines of all writes and reads.
#[tactic(auto, unfolding(crate::specs::Report::port_lines))]
pub fn push_port_lines(
    text: &mut Vec<u8>,
    choice: &RamChoice,
    variant: &Variant,
) -> Result<(), Memory>
    ensures { OnOk result (text.new.items ≡ text.old.items ++ spec.port_lines choice.now variant.now) }
{
    let groups = choice.writes.as_slice();
    push_write_lines(text, variant, groups)?;
    push_read_lines(text, variant, groups, choice.reads.as_slice())
}

fn push_write_lines(text: &mut Vec<u8>, variant: &Variant, groups: &[u32]) -> Result<(), Memory>
    ensures { OnOk result (text.new.items ≡ text.old.items ++ spec.write_lines variant.now groups.now 0 groups.now) }
{
    for at in 0..groups.len() {
        push_write_line(text, at, write_slot(variant, &groups[..at], groups[at]))?;
    }
    Ok(())
}

/// The name that a write takes, after the writes before it.
fn write_slot<'a>(variant: &'a Variant, before: &[u32], group: u32) -> &'a [u8]
    ensures { result.now ≡ spec.write_slot variant.now before.now group }
{
    name_at(names_in(variant, group), times(group, before))
}

/// The names of the ports of a group.
fn names_in(variant: &Variant, group: u32) -> &[Name]
    ensures { result.now ≡ spec.names_in variant.now group }
{
    match variant.groups.as_slice().get(group as usize) {
        None => &[],
        Some(group) => group.names.as_slice(),
    }
}

/// The name at a place.
fn name_at(names: &[Name], place: usize) -> &[u8]
    ensures { result.now ≡ spec.name_at names.now place }
{
    match names.get(place) {
        None => b"",
        Some(name) => name.as_slice(),
    }
}

fn push_read_lines(
    text: &mut Vec<u8>,
    variant: &Variant,
    groups: &[u32],
    places: &[ReadPlace],
) -> Result<(), Memory>
    ensures { OnOk result (text.new.items ≡ text.old.items ++ spec.read_lines variant.now groups.now places.now 0 places.now) }
{
    for at in 0..places.len() {
        push_read(text, variant, groups, &places[..at], at, places[at])?;
    }
    Ok(())
}

/// The line of a read, after the reads before it.
fn push_read(
    text: &mut Vec<u8>,
    variant: &Variant,
    groups: &[u32],
    before: &[ReadPlace],
    number: usize,
    place: ReadPlace,
) -> Result<(), Memory>
    ensures { OnOk result (text.new.items ≡ text.old.items ++ spec.read_text variant.now groups.now before.now number place) }
{
    let copy = copy_of(variant, groups, before, place);
    match place {
        ReadPlace::Group(group) => {
            push_read_line(
                text,
                number,
                read_slot(variant, groups, before, group),
                copy,
            )
        }
        ReadPlace::Ride(write) => push_ride_line(text, number, write, copy),
    }
}

/// The name that a read takes, after the reads before it.
fn read_slot<'a>(variant: &'a Variant, groups: &[u32], before: &[ReadPlace], group: u32) -> &'a [u8]
    ensures { result.now ≡ spec.read_slot variant.now groups.now before.now group }
{
    let place = remainder(times_in_group(group, before), left(variant, groups, group));
    name_at(free_names(variant, groups, group), place)
}

/// The names of a group that its writes leave.
fn free_names<'a>(variant: &'a Variant, groups: &[u32], group: u32) -> &'a [Name]
    ensures { result.now ≡ spec.free_names variant.now groups.now group }
{
    let names = names_in(variant, group);
    let taken = times(group, groups).min(names.len());
    &names[taken..]
}

fn remainder(a: usize, b: usize) -> usize
    ensures { result ≡ a % b }
{
    a.checked_rem(b).unwrap_or(a)
}

fn in_group(group: u32, place: ReadPlace) -> bool
    ensures { result ≡ shape.in_group group place }
{
    match place {
        ReadPlace::Group(other) => group == other,
        ReadPlace::Ride(_) => false,
    }
}

fn times_in_group(group: u32, places: &[ReadPlace]) -> usize
    ensures { result ≡ count_by (shape.in_group group) places.now }
{
    let mut times = 0;
    for place in places {
        if in_group(group, *place) {
            times += 1;
        }
    }
    times
}
