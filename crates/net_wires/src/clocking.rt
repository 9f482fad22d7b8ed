//! Clocks followed through connects and inverters.
ghost use Rattle.std.specs.Prelude.{◌≡◌, ◌<◌, ◌*◌, ◌+◌, ◌^◌, ◌∷◌, ◌++◌, length, map, replicate, get_or, slice_set, IfOk};
ghost use Rattle.std.specs.List.{range_with_len};
ghost use Rattle.net_wires.specs.Clocks.{AreClocks, clock_of, drives, driven_by, inverted_by, InvertersWithin, tied_digits};
ghost use Rattle.net_wires.specs.Links.{IsWithin, links_of, PairsWithin};
ghost use Rattle.net_wires.specs.Ties.{AllInside, IsInside};
ghost use Rattle.net_wires.specs.Ways.{constant_at, driven, DrivesWithin, inverted, IsDriveWithin, root_at, through, turned, ways};
ghost use Rattle.net_wires.specs.declared.clock.Drive.TheVariants.{Open};
ghost use Rattle.net_wires.specs.declared.link.Link.TheVariants.{Zero};

use crate::clock::{ClockRoot, Drive, Inverter};
use crate::following::tied;
use crate::link::{Link, links_of};
use crate::source::{Pair, Source};
use lib_core::{List, Memory};
use std::alloc::Global;

fn set(drives: &mut Vec<Drive>, place: u32, drive: Drive)
    ensures { drives.new.items ≡ slice_set drives.old.items place drive }
{
    let at = place as usize;
    if at < drives.len() {
        drives[at] = drive;
    }
}

fn set_all(drives: &mut Vec<Drive>, places: &[u32], drive: Drive)
    ensures { drives.new.items ≡ driven_by drive drives.old.items places.now }
{
    let mut rest = places;
    while let [place, tail @ ..] = rest {
        set(drives, *place, drive);
        rest = tail;
    }
}

fn set_inverters(drives: &mut Vec<Drive>, inverters: &[Inverter])
    ensures { drives.new.items ≡ inverted_by drives.old.items inverters.now }
{
    let mut rest = inverters;
    while let [inverter, tail @ ..] = rest {
        set(drives, inverter.to, Drive::Inverts(inverter.from));
        rest = tail;
    }
}

fn open(alloc: Global, count: u32) -> Result<Vec<Drive>, Memory>
    ensures { IfOk result (λ drives. drives.items ≡ replicate count Open) }
{
    Ok(Vec::from_elem(alloc, Drive::Open, count as usize)?)
}

/// What drives each of `count` places that no connect drives.
fn drives(
    alloc: Global,
    count: u32,
    roots: &[u32],
    inverters: &[Inverter],
    digits: &[u32],
) -> Result<Vec<Drive>, Memory>
    ensures { IfOk result (λ found. found.items ≡ drives count roots.now inverters.now digits.now) }
{
    let mut drives = open(alloc, count)?;
    set_all(&mut drives, roots, Drive::Root);
    set_inverters(&mut drives, inverters);
    set_all(&mut drives, digits, Drive::Digit);
    Ok(drives)
}

fn constant_at(way: u32) -> Link
    ensures { result ≡ constant_at way }
{
    if way == 0 { Link::One } else { Link::Zero }
}

fn turned(way: u32) -> u32
    ensures turned { result ≡ turned way }
    ensures way { result < 3 }
{
    if way == 1 { 2 } else { 1 }
}

fn inverted(source: Source, way: u32) -> Link
    requires { IsWithin 1073741824 source }
    ensures { result ≡ inverted source way }
{
    match source {
        Source::At(place) => Link::To(3 * place + turned(way)),
        Source::Zero | Source::One | Source::Loose => Link::Zero,
    }
}

fn driven(drive: Drive, node: u32, way: u32) -> Link
    requires { IsDriveWithin 1073741824 drive }
    ensures { result ≡ driven drive node way }
{
    match drive {
        Drive::Open => Link::Zero,
        Drive::Digit => constant_at(way),
        Drive::Root => Link::End(node),
        Drive::Inverts(source) => inverted(source, way),
    }
}

fn through(link: Link, drive: Drive, node: u32, way: u32) -> Link
    requires way { way < 3 }
    requires link { IsInside 1073741824 link }
    requires drive { IsDriveWithin 1073741824 drive }
    ensures { result ≡ through link drive node way }
{
    match link {
        Link::Zero | Link::One => constant_at(way),
        Link::End(_) => driven(drive, node, way),
        Link::To(place) => Link::To(3 * place + way),
    }
}

/// The table of places with the ways that lead there.
fn ways(alloc: Global, links: &[Link], drives: &[Drive]) -> Result<Vec<Link>, Memory>
    requires room { length links.now < 2 ^ 30 }
    requires long { length drives.now ≡ length links.now }
    requires links { AllInside (length links.now) links.now }
    requires drives { DrivesWithin (length links.now) drives.now }
    ensures { IfOk result (λ table. table.items ≡ ways links.now drives.now) }
{
    let count = 3 * links.len() as u32;
    let mut table = Vec::with_capacity(alloc, count as usize)?;
    for node in 0..count {
        let place = (node / 3) as usize;
        table.push(through(links[place], drives[place], node, node % 3))?;
    }
    Ok(table)
}

fn root_at(end: Link) -> ClockRoot
    ensures { result ≡ root_at end }
{
    match end {
        Link::End(node) => ClockRoot::Root {
            place: node / 3,
            flipped: node % 3 == 1,
        },
        Link::One => ClockRoot::Never,
        Link::Zero | Link::To(_) => ClockRoot::Unknown,
    }
}

/// What the ends of nodes say of the first `count` places.
fn roots_at(alloc: Global, count: usize, ends: &[Link]) -> Result<Vec<ClockRoot>, Memory>
    requires { length ends.now ≡ 3 * count }
    ensures { IfOk result (λ clocks. clocks.items ≡ map (λ p. root_at (get_or ends.now (3 * p) Zero)) (range_with_len 0 count)) }
{
    let mut clocks = Vec::with_capacity(alloc, count)?;
    for place in 0..count {
        clocks.push(root_at(ends[3 * place]))?;
    }
    Ok(clocks)
}

/// Where each place leads, by these connects and by what drives their ends.
fn clocks_of(alloc: Global, links: &[Link], drives: &[Drive]) -> Result<List<ClockRoot>, Memory>
    requires room { length links.now < 2 ^ 30 }
    requires long { length drives.now ≡ length links.now }
    requires links { AllInside (length links.now) links.now }
    requires drives { DrivesWithin (length links.now) drives.now }
    ensures { IfOk result (AreClocks links.now drives.now) }
{
    let ends = tied(alloc, ways(alloc, links, drives)?)?;
    let clocks = roots_at(alloc, links.len(), ends.as_slice())?;
    Ok(List::from_vec(clocks))
}

/// Where each of `count` places leads, through the connects of these pairs and through inverters, to one of the `roots` or
/// to a digit of a constant. `digits` are places that a digit without a value drives.
pub fn clocks(
    alloc: Global,
    count: u32,
    pairs: &[Pair],
    roots: &[u32],
    inverters: &[Inverter],
    digits: &[u32],
) -> Result<List<ClockRoot>, Memory>
    requires room { count < 2 ^ 30 }
    requires within { PairsWithin count pairs.now }
    requires inverters { InvertersWithin count inverters.now }
    ensures { IfOk result (AreClocks (links_of count pairs.now) (drives count roots.now inverters.now digits.now)) }
{
    let links = links_of(alloc, count, pairs)?;
    let drives = drives(alloc, count, roots, inverters, digits)?;
    clocks_of(alloc, links.as_slice(), drives.as_slice())
}

/// Where a bit of a clock pin leads.
pub fn clock_of(clocks: &[ClockRoot], source: Source) -> ClockRoot
    ensures { result ≡ clock_of clocks.now source }
{
    match source {
        Source::Zero | Source::One | Source::Loose => ClockRoot::Never,
        Source::At(place) => match clocks.get(place as usize) {
            Some(clock) => *clock,
            None => ClockRoot::Unknown,
        },
    }
}

/// The places that connects drive by a digit without a value.
pub fn tied_digits(alloc: Global, pairs: &[Pair]) -> Result<Vec<u32>, Memory>
    ensures { IfOk result (λ places. places.items ≡ tied_digits pairs.now) }
{
    let mut places = Vec::new(alloc);
    let mut rest = pairs;
    while let [pair, tail @ ..] = rest {
        if let (Source::At(place), Source::Loose) = (pair.left, pair.right) {
            places.push(place)?;
        }
        rest = tail;
    }
    Ok(places)
}
