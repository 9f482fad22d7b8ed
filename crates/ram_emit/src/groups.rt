//! The ports of the groups of a plain choice, and the numbers of their new nets.
ghost use Rattle.std.specs.Prelude.{◌≡◌, ◌+◌, ◌*◌, ◌<◌, ◌≤◌, ◌^◌, ◌++◌, IfOk, OnOk, length};
ghost use Rattle.std.specs.Option.{option_copied};
ghost use Rattle.net_core.specs.Valid.{Each};
ghost use Rattle.fit_rules.specs.Limits.{VariantLimits};
ghost use Rattle.ram_emit.specs.Cell as spec;

use crate::ports::{first_nets, first_use, idle_nets, idle_use};
use geom_core::{RamChoice, ReadPlace};
use lib_core::{Group, List, Memory, Variant};
use net_core::{Mem, RdPort, SlotUse, WrPort};
use std::alloc::Global;

/// The ports of a cell, and the number behind those of its new nets.
#[derive(Debug, Drop)]
pub(crate) struct Ports {
    pub(crate) slots: List<SlotUse>,
    pub(crate) next: u32,
}

/// Puts so many ports at the end that are not used, and gives the number behind their new nets.
#[tactic(auto, using(crate::proofs::Pushing::idle_more, crate::proofs::Pushing::idle_end, crate::proofs::Pushing::step_nets, crate::proofs::Pushing::end_nets))]
fn push_idle(
    alloc: Global,
    slots: &mut Vec<SlotUse>,
    variant: &Variant,
    group: &Group,
    next: u32,
    count: usize,
) -> Result<u32, Memory>
    requires width { spec.word_bits variant.now ≤ 1024 }
    requires room { next + 1024 * count < 2 ^ 32 }
    ensures slots { OnOk result (slots.new.items ≡ slots.old.items ++ spec.idle_uses variant.now group.now count next) }
    ensures nets { IfOk result (λ after. after ≡ next + count * spec.idle_nets variant.now group.now) }
{
    let mut left = count;
    let mut at = next;
    while left > 0 {
        slots.push(idle_use(alloc, variant, group, at)?)?;
        at += idle_nets(variant, group);
        left -= 1;
    }
    Ok(at)
}

/// Puts the ports of a group at the end, and gives the number behind their new nets.
#[tactic(auto, using(crate::proofs::Pushing::group_some, crate::proofs::Pushing::group_none, crate::proofs::Pushing::nets_some, crate::proofs::Pushing::nets_none, crate::proofs::Pushing::first_few))]
fn push_group(
    alloc: Global,
    slots: &mut Vec<SlotUse>,
    variant: &Variant,
    group: &Group,
    next: u32,
    write: Option<&WrPort>,
    read: Option<&RdPort>,
) -> Result<u32, Memory>
    requires width { spec.word_bits variant.now ≤ 1024 }
    requires names { length group.now.names ≤ 8 }
    requires room { next + 8192 < 2 ^ 32 }
    ensures slots { OnOk result (slots.new.items ≡ slots.old.items ++ spec.group_uses variant.now group.now (option_copied write.entry) (option_copied read.entry) (length group.now.names) next) }
    ensures nets { IfOk result (λ after. after ≡ next + spec.group_nets variant.now group.now (option_copied write.entry) (option_copied read.entry) (length group.now.names)) }
{
    let count = group.names.as_slice().len();
    if count == 0 {
        return Ok(next);
    }
    slots.push(first_use(alloc, variant, group, next, write, read)?)?;
    let behind = next + first_nets(variant, group, write, read);
    push_idle(alloc, slots, variant, group, behind, count - 1)
}

/// The first write that stands in a group. It takes no memory.
fn write_in<'a>(number: u32, writes: &'a [WrPort], groups: &[u32]) -> Option<&'a WrPort>
    ensures { option_copied result ≡ spec.write_in number writes.now groups.now }
{
    let mut rest = writes;
    let mut others = groups;
    while let [write, tail @ ..] = rest {
        let [group, more @ ..] = others else {
            return None;
        };
        if *group == number {
            return Some(write);
        }
        rest = tail;
        others = more;
    }
    None
}

/// Whether a read stands in a group. It takes no memory.
fn stands_in(number: u32, place: ReadPlace) -> bool
    ensures { result ≡ spec.stands_in number place }
{
    match place {
        ReadPlace::Group(group) => group == number,
        ReadPlace::Ride(_) => false,
    }
}

/// The first read that stands in a group. It takes no memory.
fn read_in<'a>(number: u32, reads: &'a [RdPort], places: &[ReadPlace]) -> Option<&'a RdPort>
    ensures { option_copied result ≡ spec.read_in number reads.now places.now }
{
    let mut rest = reads;
    let mut others = places;
    while let [read, tail @ ..] = rest {
        let [place, more @ ..] = others else {
            return None;
        };
        if stands_in(number, *place) {
            return Some(read);
        }
        rest = tail;
        others = more;
    }
    None
}

/// The ports of the groups of a variant.
pub(crate) fn ports_of(
    alloc: Global,
    variant: &Variant,
    mem: &Mem,
    choice: &RamChoice,
    first: u32,
) -> Result<Ports, Memory>
    requires limits { VariantLimits variant.now }
    requires width { spec.word_bits variant.now ≤ 1024 }
    requires room { first ≤ 67108864 }
    ensures slots { IfOk result (λ ports. ports.slots ≡ spec.uses_from variant.now mem.now choice.now 0 variant.now.groups first) }
    ensures nets { IfOk result (λ ports. ports.next ≡ first + spec.nets_from variant.now mem.now choice.now 0 variant.now.groups) }
{
    let mut slots = Vec::new(alloc);
    let mut next = first;
    let mut number = 0;
    let mut rest = variant.groups.as_slice();
    while let [group, tail @ ..] = rest {
        let write = write_in(number, mem.writes.as_slice(), choice.writes.as_slice());
        let read = read_in(number, mem.reads.as_slice(), choice.reads.as_slice());
        next = push_group(alloc, &mut slots, variant, group, next, write, read)?;
        number += 1;
        rest = tail;
    }
    Ok(Ports {
        slots: List::from_vec(slots),
        next,
    })
}
