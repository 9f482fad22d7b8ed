//! The parts of the state with which a RAM cell starts.
ghost use Rattle.std.specs.Prelude.{◌≡◌, ◌*◌, ◌-◌, ◌^◌, ◌<◌, ◌≤◌, ◌++◌, Some, true, length, map, replicate, IfOk, OnOk};
ghost use Rattle.std.specs.List.{range_with_len};
ghost use Rattle.lib_core.specs.Rams.{width_at, last_width};
ghost use Rattle.geom_core.specs.Widths.{AreWidths};
ghost use Rattle.row_store.specs.Rows.{row_cut};
ghost use Rattle.geom_core.specs.Places.{IsSized};
ghost use Rattle.net_core.specs.Shape.{fits_variant};
ghost use Rattle.ram_step.specs.Owners as owners;
ghost use Rattle.ram_step.specs.Ports.{slot_of};
ghost use Rattle.ram_step.specs.States as states;

use crate::hits::Hit;
use crate::picks::{PickKey, resolve, start_key};
use crate::pins::filled;
use crate::ports::{Port, Ports};
use crate::steps::keeps;
use geom_core::Geometry;
use lib_core::{Fill, Group, Memory, Tri, Variant};
use net_core::RamCell;
use row_store::{Bits, Rows};
use std::alloc::Global;

/// The number of the group of each slot.
pub(crate) fn owners_of(alloc: Global, groups: &[Group]) -> Result<Vec<u32>, Memory>
    requires { length groups.now < 2 ^ 32 }
    ensures { IfOk result (λ list. list.items ≡ owners.owners_of groups.now) }
{
    let mut list = Vec::new(alloc);
    let mut number = 0u32;
    let mut rest = groups;
    while let [group, tail @ ..] = rest {
        push_owners(&mut list, number, group.names.as_slice().len())?;
        number += 1;
        rest = tail;
    }
    Ok(list)
}

/// Appends the number so many times.
fn push_owners(list: &mut Vec<u32>, number: u32, count: usize) -> Result<(), Memory>
    ensures { OnOk result (list.new.items ≡ list.old.items ++ owners.so_many count number) }
{
    for _ in 0..count {
        list.push(number)?;
    }
    Ok(())
}

/// Room for a hit of each slot.
pub(crate) fn no_hits<const LIMBS: usize>(
    alloc: Global,
    count: usize,
) -> Result<Vec<Option<Hit<LIMBS>>>, Memory>
    ensures { IfOk result (λ list. length list.items ≡ count) }
{
    let mut list = Vec::with_capacity(alloc, count)?;
    for _ in 0..count {
        list.push(None)?;
    }
    Ok(list)
}

/// The words at the start.
pub(crate) fn start_rows<const LIMBS: usize, const LEVELS: usize>(
    alloc: Global,
    variant: &Variant,
    geometry: &Geometry<LEVELS>,
    cell: &RamCell,
) -> Result<Rows<LIMBS>, Memory>
    requires widths { geometry.now.widths ≡ variant.now.widths }
    requires abits { geometry.now.abits ≡ variant.now.abits }
    requires levels { length variant.now.widths ≡ LEVELS }
    requires some_levels { 1 ≤ LEVELS }
    requires sized { IsSized variant.now }
    requires fits { fits_variant cell.now (Some variant.now) ≡ true }
    requires few_bits { last_width variant.now ≤ 64 * LIMBS }
    requires few_limbs { 64 * LIMBS < 2 ^ 32 }
    ensures { IfOk result (λ rows. rows ≡ states.words_by variant.now (states.start_bit variant.now cell.now)) }
{
    let (width, words) = last_level(geometry);
    match variant.fill {
        Fill::Nothing => same_rows(alloc, width, words, Tri::Any),
        Fill::Zero => same_rows(alloc, width, words, Tri::Zero),
        Fill::Any | Fill::NoUndef => given_rows(alloc, width, words, cell.init.as_slice()),
    }
}

/// The width of the last level, and how many words it has.
fn last_level<const LEVELS: usize>(geometry: &Geometry<LEVELS>) -> (u32, u32)
    requires some_levels { 1 ≤ LEVELS }
    requires sized { AreWidths geometry.now.widths }
    requires abits { geometry.now.abits ≤ 20 }
    requires levels { length geometry.now.widths ≡ LEVELS }
    ensures width { result.0 ≡ width_at geometry.now.widths (LEVELS - 1) }
    ensures some_bits { 1 ≤ result.0 }
    ensures few_bits { result.0 ≤ 1024 }
    ensures words { result.1 ≡ 2 ^ (geometry.now.abits - (LEVELS - 1)) }
    ensures few_words { result.1 ≤ 2 ^ 20 }
{
    (
        geometry.widths[LEVELS - 1],
        geometry.rows_of(LEVELS as u32 - 1),
    )
}

/// So many rows of one value.
fn same_rows<const LIMBS: usize>(
    alloc: Global,
    width: u32,
    words: u32,
    tri: Tri,
) -> Result<Rows<LIMBS>, Memory>
    requires some_bits { 1 ≤ width }
    requires bits { width ≤ 64 * LIMBS }
    requires few_limbs { 64 * LIMBS < 2 ^ 32 }
    requires small { words * width < 2 ^ 32 }
    ensures { IfOk result (λ rows. rows ≡ map (λ word. map (λ k. tri) (range_with_len 0 width)) (range_with_len 0 words)) }
{
    let init = copies_of(alloc, tri, words as usize * width as usize)?;
    given_rows(alloc, width, words, init.as_slice())
}

/// So many copies of a value.
fn copies_of(alloc: Global, tri: Tri, count: usize) -> Result<Vec<Tri>, Memory>
    ensures { IfOk result (λ list. list.items ≡ replicate count tri) }
{
    let mut list = Vec::with_capacity(alloc, count)?;
    for _ in 0..count {
        list.push(tri)?;
    }
    Ok(list)
}

/// The rows that are given.
fn given_rows<const LIMBS: usize>(
    alloc: Global,
    width: u32,
    words: u32,
    init: &[Tri],
) -> Result<Rows<LIMBS>, Memory>
    requires some_bits { 1 ≤ width }
    requires bits { width ≤ 64 * LIMBS }
    requires few_limbs { 64 * LIMBS < 2 ^ 32 }
    requires whole { length init.now ≡ words * width }
    ensures { IfOk result (λ rows. rows ≡ map (row_cut init.now width) (range_with_len 0 words)) }
{
    Rows::new(alloc, width, init)
}

/// What the read registers start with.
pub(crate) fn start_kept<const LIMBS: usize, const LEVELS: usize>(
    alloc: Global,
    ports: &Ports<'_, LEVELS>,
    key: PickKey,
) -> Result<Vec<Bits<LIMBS>>, Memory>
    requires few_bits { last_width ports.now.variant ≤ 64 * LIMBS }
    requires few_limbs { 64 * LIMBS < 2 ^ 32 }
    ensures { IfOk result (λ kept. kept.items ≡ map (states.start_kept ports.now.variant key) ports.now.all) }
{
    let mut kept = Vec::with_capacity(alloc, ports.len() as usize)?;
    for number in 0..ports.len() {
        kept.push(start_bits(ports, &ports.get(number), key))?;
    }
    Ok(kept)
}

/// What the read register of a slot starts with.
fn start_bits<const LIMBS: usize, const LEVELS: usize>(
    ports: &Ports<'_, LEVELS>,
    port: &Port<'_>,
    key: PickKey,
) -> Bits<LIMBS>
    requires number { port.now.number < 2 ^ 32 - 1 }
    requires few_bits { last_width ports.now.variant ≤ 64 * LIMBS }
    requires few_limbs { 64 * LIMBS < 2 ^ 32 }
    ensures { result ≡ states.start_kept ports.now.variant key (slot_of port.now) }
{
    let width = kept_width(ports, port);
    let mut bits = Bits::new(width);
    for place in 0..width {
        let tri = filled(port.kind.start, port.pins.init_value.as_slice(), place);
        bits.put(place, resolve(start_key(key), port.number, place, tri));
    }
    bits
}

/// How many bits a slot keeps.
fn kept_width<const LEVELS: usize>(ports: &Ports<'_, LEVELS>, port: &Port<'_>) -> u32
    ensures value { result ≡ states.kept_width ports.now.variant (slot_of port.now) }
    ensures bound { result ≤ last_width ports.now.variant }
{
    if keeps(port) {
        ports.bounded_width(port)
    } else {
        0
    }
}
