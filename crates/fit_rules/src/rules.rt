//! The rules by which a candidate of RAM cells fits.
ghost use Rattle.std.specs.Prelude.{◌≡◌, ◌≤◌, ◌<◌, ◌+◌, ◌^◌, length};
ghost use Rattle.std.specs.List.{list_all, list_any};
ghost use Rattle.fit_pairs.specs.Placed.{writer_has};
ghost use Rattle.fit_rules.specs.Limits.{MemLimits, VariantLimits, IsSpot};
ghost use Rattle.fit_rules.specs.Rules as rules;
ghost use Rattle.fit_rules.specs.Standing as standing;

use crate::bits::two_to;
use crate::shapes::cells;
use crate::sizes::new_nets;
use crate::spots::Spot;
use crate::standing::{have_names, lanes_met, placed_read, read_stands, write_stands};
use fit_pairs::items::fill_admits;
use fit_pairs::{Need, PlacedWrite, all_one_clock, all_one_domain, some_need};
use geom_core::ReadPlace;
use lib_core::{Name, RamClass, RamKind, Variant};
use net_core::{Mem, MemJob, RdPort, Style, WrPort};

/// Whether the memory has few enough ports. It takes no memory.
pub fn few_ports(mem: &Mem) -> bool
    ensures { result ≡ rules.few_ports mem.now }
{
    mem.reads.as_slice().len() <= 8 && mem.writes.as_slice().len() <= 4
}

/// Whether the first address is a multiple of each port's words. It takes no memory.
pub fn is_aligned(mem: &Mem) -> bool
    requires { MemLimits mem.now }
    ensures { result ≡ rules.is_aligned mem.now }
{
    reads_aligned(mem) && writes_aligned(mem)
}

fn reads_aligned(mem: &Mem) -> bool
    requires { MemLimits mem.now }
    ensures { result ≡ list_all (λ r. rules.is_multiple mem.now.offset r.wide) mem.now.reads }
{
    for read in mem.reads.as_slice() {
        if !is_multiple(mem.offset, read.wide) {
            return false;
        }
    }
    true
}

fn writes_aligned(mem: &Mem) -> bool
    requires { MemLimits mem.now }
    ensures { result ≡ list_all (λ w. rules.is_multiple mem.now.offset w.wide) mem.now.writes }
{
    for write in mem.writes.as_slice() {
        if !is_multiple(mem.offset, write.wide) {
            return false;
        }
    }
    true
}

#[tactic(auto, using(crate::proofs::Bounds::power_some))]
fn is_multiple(offset: u32, wide: u32) -> bool
    requires { wide ≤ 6 }
    ensures { result ≡ rules.is_multiple offset wide }
{
    u64::from(offset) % two_to(wide) == 0
}

/// Whether each write can stand in its group, and no group has more writes than names. It takes no
/// memory.
pub fn writes_placed(mem: &Mem, variant: &Variant, spot: Spot, groups: &[u32]) -> bool
    ensures { result ≡ rules.writes_placed mem.now variant.now spot groups.now }
{
    writes_stand(variant, spot, mem.writes.as_slice(), groups) && have_names(variant, groups)
}

fn writes_stand(variant: &Variant, spot: Spot, writes: &[WrPort], groups: &[u32]) -> bool
    ensures { result ≡ rules.zip_each (standing.write_stands variant.now spot) writes.now groups.now }
{
    match writes {
        [] => groups.is_empty(),
        [write, writes @ ..] => match groups {
            [] => false,
            [group, groups @ ..] => {
                write_stands(variant, spot, write, *group)
                    && writes_stand(variant, spot, writes, groups)
            }
        },
    }
}

/// Whether each read can stand at its place. It takes no memory.
#[tactic(auto)]
pub fn reads_placed(
    mem: &Mem,
    variant: &Variant,
    spot: Spot,
    groups: &[u32],
    places: &[ReadPlace],
) -> bool
    requires groups { length groups.now < 2 ^ 32 }
    requires reads { length mem.now.reads < 2 ^ 32 }
    ensures { result ≡ rules.reads_placed mem.now variant.now spot groups.now places.now }
{
    reads_stand(mem, variant, spot, groups, 0, mem.reads.as_slice(), places)
}

fn reads_stand(
    mem: &Mem,
    variant: &Variant,
    spot: Spot,
    groups: &[u32],
    number: u32,
    reads: &[RdPort],
    places: &[ReadPlace],
) -> bool
    requires groups { length groups.now < 2 ^ 32 }
    requires reads { number + length reads.now < 2 ^ 32 }
    ensures { result ≡ rules.zip_all (standing.read_stands variant.now spot mem.now.writes groups.now) number reads.now places.now }
{
    match reads {
        [] => places.is_empty(),
        [read, reads @ ..] => match places {
            [] => false,
            [place, places @ ..] => {
                read_stands(
                    variant,
                    spot,
                    mem.writes.as_slice(),
                    groups,
                    number,
                    read,
                    *place,
                ) && reads_stand(mem, variant, spot, groups, number + 1, reads, places)
            }
        },
    }
}

/// Whether each write that goes to several rows has the lanes for it. It takes no memory.
pub fn lanes_stand(mem: &Mem, variant: &Variant, spot: Spot, groups: &[u32]) -> bool
    requires { length groups.now < 2 ^ 32 }
    ensures { result ≡ rules.lanes_stand mem.now variant.now spot groups.now }
{
    all_lanes(mem, variant, spot, groups, 0, mem.writes.as_slice(), groups)
}

fn all_lanes(
    mem: &Mem,
    variant: &Variant,
    spot: Spot,
    all: &[u32],
    number: u32,
    writes: &[WrPort],
    groups: &[u32],
) -> bool
    requires all { length all.now < 2 ^ 32 }
    requires groups { number + length groups.now < 2 ^ 32 }
    ensures { result ≡ rules.zip_all (λ n w g. writer_has variant.now (standing.lanes_met variant.now spot mem.now.writes all.now) n w g) number writes.now groups.now }
{
    match writes {
        [] => groups.is_empty(),
        [write, writes @ ..] => match groups {
            [] => false,
            [group, groups @ ..] => {
                lanes_at(mem, variant, spot, all, number, write, *group)
                    && all_lanes(mem, variant, spot, all, number + 1, writes, groups)
            }
        },
    }
}

fn lanes_at(
    mem: &Mem,
    variant: &Variant,
    spot: Spot,
    all: &[u32],
    number: u32,
    port: &WrPort,
    group: u32,
) -> bool
    requires { length all.now < 2 ^ 32 }
    ensures { result ≡ writer_has variant.now (standing.lanes_met variant.now spot mem.now.writes all.now) number port.now group }
{
    match variant.groups.as_slice().get(group as usize) {
        None => false,
        Some(kind) => {
            let write = PlacedWrite {
                number,
                port,
                group,
                kind,
            };
            lanes_met(variant, spot, mem.writes.as_slice(), all, &write)
        }
    }
}

/// Whether the RAM can start with the memory's contents. It takes no memory.
pub fn can_start(mem: &Mem, variant: &Variant) -> bool
    ensures { result ≡ rules.can_start mem.now variant.now }
{
    fill_admits(variant.fill, &mem.init)
}

/// Whether a pair asks that all reads come before the writes. It takes no memory.
pub fn read_first(job: &MemJob, variant: &Variant, groups: &[u32], places: &[ReadPlace]) -> bool
    requires groups { length groups.now < 2 ^ 32 }
    requires reads { length job.now.mem.reads < 2 ^ 32 }
    ensures { result ≡ rules.read_first job.now variant.now groups.now places.now }
{
    some_order(job, variant, groups, 0, job.mem.reads.as_slice(), places)
}

fn some_order(
    job: &MemJob,
    variant: &Variant,
    groups: &[u32],
    number: u32,
    reads: &[RdPort],
    places: &[ReadPlace],
) -> bool
    requires groups { length groups.now < 2 ^ 32 }
    requires reads { number + length reads.now < 2 ^ 32 }
    ensures { result ≡ rules.zip_any (rules.needs_order job.now variant.now groups.now) number reads.now places.now }
{
    match reads {
        [] => false,
        [read, reads @ ..] => match places {
            [] => false,
            [place, places @ ..] => {
                needs_order(job, variant, groups, number, read, *place)
                    || some_order(job, variant, groups, number + 1, reads, places)
            }
        },
    }
}

fn needs_order(
    job: &MemJob,
    variant: &Variant,
    groups: &[u32],
    number: u32,
    read: &RdPort,
    place: ReadPlace,
) -> bool
    requires { length groups.now < 2 ^ 32 }
    ensures { result ≡ rules.needs_order job.now variant.now groups.now number read.now place }
{
    match placed_read(variant, groups, number, read, place) {
        None => false,
        Some(read) => some_need(
            Need::ReadFirst,
            job.quiet.as_slice(),
            variant,
            job.mem.writes.as_slice(),
            groups,
            &read,
        ),
    }
}

fn is_ride(place: ReadPlace) -> bool
    ensures { result ≡ rules.is_ride place }
{
    match place {
        ReadPlace::Group(_) => false,
        ReadPlace::Ride(_) => true,
    }
}

fn some_ride(places: &[ReadPlace]) -> bool
    ensures { result ≡ list_any rules.is_ride places.now }
{
    places.iter().any(|place| is_ride(*place))
}

/// Whether all reads can come before the writes. It takes no memory.
pub fn can_order(mem: &Mem, places: &[ReadPlace]) -> bool
    ensures { result ≡ rules.can_order mem.now places.now }
{
    all_one_domain(mem.writes.as_slice()) && !some_ride(places)
}

/// Whether all reads can come before the writes where a pair asks for it. It takes no memory.
pub fn order_met(job: &MemJob, variant: &Variant, groups: &[u32], places: &[ReadPlace]) -> bool
    requires groups { length groups.now < 2 ^ 32 }
    requires reads { length job.now.mem.reads < 2 ^ 32 }
    ensures { result ≡ rules.order_met job.now variant.now groups.now places.now }
{
    !read_first(job, variant, groups, places) || can_order(&job.mem, places)
}

/// Whether the candidate has few enough cells and makes few enough nets. It takes no memory.
pub fn is_small(
    mem: &Mem,
    variant: &Variant,
    spot: Spot,
    groups: &[u32],
    places: &[ReadPlace],
) -> bool
    requires memory { MemLimits mem.now }
    requires limits { VariantLimits variant.now }
    requires spot { IsSpot variant.now spot }
    requires few_reads { length mem.now.reads ≤ 8 }
    requires few_writes { length mem.now.writes ≤ 4 }
    requires few { length places.now ≤ 8 }
    ensures { result ≡ rules.is_small mem.now variant.now spot groups.now places.now }
{
    let cells = cells(mem, variant, spot, groups, places);
    cells <= 4096 && new_nets(mem, variant, spot, cells) <= 16_777_216
}

/// Whether the style allows the RAM. It takes no memory.
pub fn style_allows(style: &Style, ram: &RamKind) -> bool
    ensures { result ≡ rules.style_allows style.now ram.now }
{
    match style {
        Style::Auto => true,
        Style::Registers => false,
        Style::Class(class) => same_class(ram.class, *class),
        Style::Word(word) => has_word(&ram.style, word),
    }
}

fn same_class(a: RamClass, b: RamClass) -> bool
    ensures { result ≡ rules.same_class a b }
{
    match a {
        RamClass::Distributed => match b {
            RamClass::Distributed => true,
            RamClass::Block | RamClass::Huge => false,
        },
        RamClass::Block => match b {
            RamClass::Block => true,
            RamClass::Distributed | RamClass::Huge => false,
        },
        RamClass::Huge => match b {
            RamClass::Huge => true,
            RamClass::Distributed | RamClass::Block => false,
        },
    }
}

fn has_word(own: &Option<Name>, word: &Name) -> bool
    ensures { result ≡ rules.has_word own.now word.now }
{
    match own {
        None => false,
        Some(own) => own.as_slice().eq_ignore_ascii_case(word.as_slice()),
    }
}

fn takes_registers(style: &Style) -> bool
    ensures { result ≡ rules.takes_registers style.now }
{
    match style {
        Style::Auto | Style::Registers => true,
        Style::Class(_) | Style::Word(_) => false,
    }
}

/// Whether registers fit the memory. It takes no memory.
pub fn registers_fit(mem: &Mem, style: &Style) -> bool
    ensures { result ≡ rules.registers_fit mem.now style.now }
{
    mem.size <= 4096 && all_one_clock(mem.writes.as_slice()) && takes_registers(style)
}

/// Whether each port of the memory stands where it can. It takes no memory.
#[tactic(auto, using(crate::proofs::Lengths::few_groups, crate::proofs::Lengths::few_reads))]
pub fn ports_met(
    mem: &Mem,
    variant: &Variant,
    spot: Spot,
    groups: &[u32],
    places: &[ReadPlace],
) -> bool
    requires { MemLimits mem.now }
    ensures { result ≡ rules.ports_met mem.now variant.now spot groups.now places.now }
{
    few_ports(mem)
        && is_aligned(mem)
        && writes_placed(mem, variant, spot, groups)
        && reads_placed(mem, variant, spot, groups, places)
}

/// Whether a choice of groups and places fits at a spot of a variant, whatever the memory's style. It
/// takes no memory.
#[tactic(auto, using(crate::proofs::Lengths::few_reads_met, crate::proofs::Lengths::few_writes_met, crate::proofs::Lengths::few_groups_met, crate::proofs::Lengths::few_places_met), unfolding(crate::specs::Rules::ram_fits))]
pub fn ram_fits(
    job: &MemJob,
    variant: &Variant,
    spot: Spot,
    groups: &[u32],
    places: &[ReadPlace],
) -> bool
    requires memory { MemLimits job.now.mem }
    requires limits { VariantLimits variant.now }
    requires spot { IsSpot variant.now spot }
    ensures { result ≡ rules.ram_fits job.now variant.now spot groups.now places.now }
{
    if !ports_met(&job.mem, variant, spot, groups, places) {
        return false;
    }
    rest_met(job, variant, spot, groups, places)
}

fn rest_met(
    job: &MemJob,
    variant: &Variant,
    spot: Spot,
    groups: &[u32],
    places: &[ReadPlace],
) -> bool
    requires memory { MemLimits job.now.mem }
    requires limits { VariantLimits variant.now }
    requires spot { IsSpot variant.now spot }
    requires few_reads { length job.now.mem.reads ≤ 8 }
    requires few_writes { length job.now.mem.writes ≤ 4 }
    requires few_groups { length groups.now ≤ 4 }
    requires few_places { length places.now ≤ 8 }
    ensures { result ≡ rules.rest_met job.now variant.now spot groups.now places.now }
{
    lanes_stand(&job.mem, variant, spot, groups)
        && can_start(&job.mem, variant)
        && order_met(job, variant, groups, places)
        && is_small(&job.mem, variant, spot, groups, places)
}
