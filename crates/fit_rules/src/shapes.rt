//! How many copies of cells a candidate has, and how many cells.
ghost use Rattle.std.specs.Prelude.{◌≡◌, ◌≤◌, ◌<◌, ◌*◌, ◌/◌, ◌^◌, length, count_by};
ghost use Rattle.fit_rules.specs.Limits.{MemLimits, VariantLimits, IsSpot};
ghost use Rattle.fit_rules.specs.Shape as shape;

use crate::sizes::{columns, rows};
use crate::spots::Spot;
use crate::standing::left;
use geom_core::{ReadPlace, Shape};
use lib_core::Variant;
use net_core::Mem;

fn in_group(group: u32, place: ReadPlace) -> bool
    ensures { result ≡ shape.in_group group place }
{
    match place {
        ReadPlace::Group(other) => group == other,
        ReadPlace::Ride(_) => false,
    }
}

fn at_write(write: u32, place: ReadPlace) -> bool
    ensures { result ≡ shape.at_write write place }
{
    match place {
        ReadPlace::Group(_) => false,
        ReadPlace::Ride(other) => write == other,
    }
}

fn times_in_group(group: u32, places: &[ReadPlace]) -> usize
    ensures { result ≡ count_by (shape.in_group group) places.now }
{
    let mut times = 0;
    for place in places {
        if in_group(group, *place) {
            times += 1;
        }
    }
    times
}

fn times_at_write(write: u32, places: &[ReadPlace]) -> usize
    ensures { result ≡ count_by (shape.at_write write) places.now }
{
    let mut times = 0;
    for place in places {
        if at_write(write, *place) {
            times += 1;
        }
    }
    times
}

/// The copy of a read, after the reads before it. It takes no memory.
#[tactic(auto, using(crate::proofs::Copies::copy_small))]
pub fn copy_of(variant: &Variant, groups: &[u32], before: &[ReadPlace], place: ReadPlace) -> usize
    ensures value { result ≡ shape.copy_of variant.now groups.now before.now place }
    ensures bound { result ≤ length before.now }
{
    match place {
        ReadPlace::Group(group) => {
            quotient(times_in_group(group, before), left(variant, groups, group))
        }
        ReadPlace::Ride(write) => times_at_write(write, before),
    }
}

fn quotient(a: usize, b: usize) -> usize
    ensures { result ≡ a / b }
{
    a.checked_div(b).unwrap_or(0)
}

/// The least number of copies that covers all reads. It takes no memory.
#[tactic(auto, using(crate::proofs::Copies::copies_small))]
pub fn copies(variant: &Variant, groups: &[u32], places: &[ReadPlace]) -> u32
    requires { length places.now ≤ 8 }
    ensures value { result ≡ shape.copies variant.now groups.now places.now }
    ensures bound { result ≤ 8 }
{
    let mut most = 1;
    for at in 0..places.len() {
        let copies = copy_of(variant, groups, &places[..at], places[at]) as u32 + 1;
        if most < copies {
            most = copies;
        }
    }
    most
}

/// The shape of a candidate. It takes no memory.
pub fn shape_at(
    mem: &Mem,
    variant: &Variant,
    spot: Spot,
    groups: &[u32],
    places: &[ReadPlace],
) -> Shape
    requires memory { MemLimits mem.now }
    requires limits { VariantLimits variant.now }
    requires spot { IsSpot variant.now spot }
    requires few { length places.now ≤ 8 }
    ensures { result ≡ shape.shape_at mem.now variant.now spot groups.now places.now }
{
    Shape {
        copies: copies(variant, groups, places),
        rows: rows(mem, variant, spot),
        columns: columns(mem, variant, spot),
    }
}

/// How many cells a candidate has. It takes no memory.
#[tactic(auto, using(crate::proofs::Bounds::cells_less, crate::proofs::Bounds::part_few))]
pub fn cells(mem: &Mem, variant: &Variant, spot: Spot, groups: &[u32], places: &[ReadPlace]) -> u64
    requires memory { MemLimits mem.now }
    requires limits { VariantLimits variant.now }
    requires spot { IsSpot variant.now spot }
    requires few { length places.now ≤ 8 }
    ensures value { result ≡ shape.cells mem.now variant.now spot groups.now places.now }
    ensures bound { result ≤ 100663296 }
{
    u64::from(copies(variant, groups, places))
        * u64::from(rows(mem, variant, spot))
        * u64::from(columns(mem, variant, spot))
}
