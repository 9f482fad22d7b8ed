//! Equal copies of a RAM's variant.
ghost use Rattle.std.specs.Prelude.{◌≡◌, IfOk};

use lib_core::{Choice, Duplicate, Group, List, Memory, Name, Trans, Variant};
use std::alloc::Global;

/// An equal variant.
pub(crate) fn copy_variant(alloc: Global, variant: &Variant) -> Result<Variant, Memory>
    ensures { IfOk result (λ copy. copy ≡ variant.now) }
{
    let widths = variant.widths.duplicate(alloc)?;
    let options = variant.options.duplicate(alloc)?;
    let groups = List::from_vec(copy_groups(alloc, variant.groups.as_slice())?);
    Ok(Variant {
        abits: variant.abits,
        widths,
        per_port: variant.per_port,
        byte: variant.byte,
        cost: variant.cost,
        fill: variant.fill,
        options,
        groups,
    })
}

fn copy_groups(alloc: Global, groups: &[Group]) -> Result<Vec<Group>, Memory>
    ensures { IfOk result (λ copies. copies.items ≡ groups.now) }
{
    let mut copies = Vec::with_capacity(alloc, groups.len())?;
    for group in groups {
        copies.push(copy_group(alloc, group)?)?;
    }
    Ok(copies)
}

/// The lists of a group.
#[derive(Drop)]
struct Lists {
    names: List<Name>,
    options: List<Choice>,
    trans: List<Trans>,
    prio: List<u32>,
    levels: List<u32>,
}

fn copy_lists(alloc: Global, group: &Group) -> Result<Lists, Memory>
    ensures { IfOk result (λ l. (l.names ≡ group.now.names) × (l.options ≡ group.now.options) × (l.trans ≡ group.now.trans) × (l.prio ≡ group.now.prio) × (l.levels ≡ group.now.levels)) }
{
    Ok(Lists {
        names: group.names.duplicate(alloc)?,
        options: group.options.duplicate(alloc)?,
        trans: List::from_vec(Vec::from_slice(alloc, group.trans.as_slice())?),
        prio: group.prio.duplicate(alloc)?,
        levels: group.levels.duplicate(alloc)?,
    })
}

fn copy_group(alloc: Global, group: &Group) -> Result<Group, Memory>
    ensures { IfOk result (λ copy. copy ≡ group.now) }
{
    let lists = copy_lists(alloc, group)?;
    Ok(Group {
        kind: group.kind,
        names: lists.names,
        options: lists.options,
        edge: group.edge,
        clken: group.clken,
        rden: group.rden,
        own: group.own,
        trans: lists.trans,
        prio: lists.prio,
        srst: group.srst,
        srst_gate: group.srst_gate,
        arst: group.arst,
        start: group.start,
        separate: group.separate,
        levels: lists.levels,
    })
}
