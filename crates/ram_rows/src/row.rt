//! What the parameters of a RAM cell say under its variant.
ghost use Rattle.std.specs.Prelude.{◌≡◌, IfOk};
ghost use Rattle.ram_rows.specs.RamRows as rows;

use crate::slots::{Level, SlotRow, level_at, slot_at, takes_value, value_if};
use lib_core::{Group, List, Memory, Name, Tri, Variant};
use net_core::Attr;
use std::alloc::Global;

/// What the parameters of a RAM cell say.
#[derive(Debug, PartialEq, Eq, Drop)]
pub struct RamRow {
    pub level: Level,
    /// One for each name of each group, in their order.
    pub slots: List<SlotRow>,
    /// The contents at the start as the parameter has them, low bit first; empty where the variant
    /// takes none.
    pub init: List<Tri>,
}

/// What the parameters of a RAM cell say under its variant: none where one is missing.
#[tactic(auto, unfolding(crate::specs::RamRows::row_at))]
pub fn row_at(alloc: Global, variant: &Variant, params: &[Attr]) -> Result<Option<RamRow>, Memory>
    ensures { IfOk result (λ row. row ≡ rows.row_at variant.now params.now) }
{
    let Some(level) = level_at(variant, params) else {
        return Ok(None);
    };
    let Some(slots) = groups_at(alloc, variant, level, params, variant.groups.as_slice())? else {
        return Ok(None);
    };
    let init = Name::from_vec(Vec::from_slice(alloc, b"\\INIT")?);
    let Some(init) = value_if(alloc, takes_value(variant.fill), params, &init)? else {
        return Ok(None);
    };
    Ok(Some(RamRow { level, slots, init }))
}

/// The ports of groups: none where a parameter is missing.
fn groups_at(
    alloc: Global,
    variant: &Variant,
    level: Level,
    params: &[Attr],
    groups: &[Group],
) -> Result<Option<List<SlotRow>>, Memory>
    ensures { IfOk result (λ slots. slots ≡ rows.groups_at variant.now level params.now groups.now) }
{
    let mut slots = Vec::new(alloc);
    for group in groups {
        if !push_names(alloc, &mut slots, variant, group, level, params)? {
            return Ok(None);
        }
    }
    Ok(Some(List::from_vec(slots)))
}

/// Puts the ports of a group at the end, unless a parameter is missing.
fn push_names(
    alloc: Global,
    slots: &mut Vec<SlotRow>,
    variant: &Variant,
    group: &Group,
    level: Level,
    params: &[Attr],
) -> Result<bool, Memory>
    ensures { IfOk result (λ there. rows.if_there there slots.new.items ≡ rows.behind slots.old.items (rows.names_at variant.now group.now level params.now group.now.names)) }
{
    for name in group.names.as_slice() {
        match slot_at(alloc, variant, group, level, params, name)? {
            Some(slot) => slots.push(slot)?,
            None => return Ok(false),
        }
    }
    Ok(true)
}

/// Whether a width is none of the variant's. It takes no memory.
pub fn has_strange_level(variant: &Variant, row: &RamRow) -> bool
    ensures { result ≡ rows.has_strange_level variant.now row.now }
{
    let levels = variant.widths.as_slice().len();
    is_strange(levels, row.level) || any_strange(levels, row.slots.as_slice())
}

fn is_strange(levels: usize, level: Level) -> bool
    ensures { result ≡ rows.is_strange levels level }
{
    match level {
        Level::Own => false,
        Level::Common(place) => place >= levels,
    }
}

fn any_strange(levels: usize, slots: &[SlotRow]) -> bool
    ensures { result ≡ rows.any_strange levels slots.now }
{
    slots.iter().any(|slot| slot.level >= levels)
}
