//! What the parameters of a RAM cell say of its ports.
ghost use Rattle.std.specs.Prelude.{◌≡◌, IfOk, nat_eq};
ghost use Rattle.std.specs.List.{position};
ghost use Rattle.lib_core.specs.Rams as rams;
ghost use Rattle.ram_rows.specs.RamRows as rows;

use crate::names::slot_name;
use cell_consts::{bits_at, flag_at, number_at, polarity_at};
use lib_core::{EdgeKind, Fill, Group, List, Memory, Name, Tri, Variant};
use net_core::Attr;
use std::alloc::Global;

/// What tells the widths of the ports.
#[derive(Clone, Copy, Debug, PartialEq, Eq)]
pub enum Level {
    /// A parameter of each port.
    Own,
    /// The cell, for all ports in use: the place of their width among those of the variant, or the
    /// number of these where it is none of them.
    Common(usize),
}

/// The values of a port's resets and of its start, low bit first; empty where its group takes none.
#[derive(Debug, PartialEq, Eq, Drop)]
pub struct Values {
    pub srst: List<Tri>,
    pub arst: List<Tri>,
    pub start: List<Tri>,
}

/// What the parameters say of a port.
#[derive(Debug, PartialEq, Eq, Drop)]
pub struct SlotRow {
    pub used: bool,
    /// The place of its width among those of the variant, or the number of these where it is none
    /// of them.
    pub level: usize,
    /// Whether it works at rising edges; false where it has no clock.
    pub rising: bool,
    pub values: Values,
}

/// Whether the value of a fill is a parameter of the cell. It takes no memory.
pub fn takes_value(fill: Fill) -> bool
    ensures { result ≡ rams.takes_value fill }
{
    match fill {
        Fill::Any | Fill::NoUndef => true,
        Fill::Nothing | Fill::Zero => false,
    }
}

/// The place of a width among those of the variant, and their number where it is none of them.
fn width_place(variant: &Variant, width: u32) -> usize
    ensures { result ≡ rows.width_place variant.now width }
{
    let widths = variant.widths.as_slice();
    place_of(widths, width).unwrap_or(widths.len())
}

/// The place of a number.
fn place_of(numbers: &[u32], wanted: u32) -> Option<usize>
    ensures { result ≡ position (nat_eq wanted) numbers.now }
{
    numbers.iter().position(|number| wanted == *number)
}

/// Whether the ports have one width together, of several.
pub(crate) fn is_global(variant: &Variant) -> bool
    ensures { result ≡ rows.is_global variant.now }
{
    !variant.per_port && variant.widths.as_slice().len() > 1
}

/// What tells the widths of the ports: none where the cell's parameter is missing.
#[tactic(auto, unfolding(crate::specs::RamRows::level_at))]
pub(crate) fn level_at(variant: &Variant, params: &[Attr]) -> Option<Level>
    ensures { result ≡ rows.level_at variant.now params.now }
{
    if variant.per_port {
        return Some(Level::Own);
    }
    if is_global(variant) {
        let width = number_at(params, b"\\WIDTH")?;
        return Some(Level::Common(width_place(variant, width)));
    }
    Some(Level::Common(0))
}

/// The least of levels, and 0 where there are none.
fn least(levels: &[u32]) -> u32
    ensures { result ≡ rows.least levels.now }
{
    match levels {
        [] => 0,
        [first, rest @ ..] => least_from(*first, rest),
    }
}

/// The least of a level and others.
fn least_from(level: u32, levels: &[u32]) -> u32
    ensures { result ≡ rows.least_from level levels.now }
{
    let mut least = level;
    for other in levels {
        least = least.min(*other);
    }
    least
}

/// The level of a port: none where its parameter is missing.
#[tactic(auto, unfolding(crate::specs::RamRows::slot_level))]
fn slot_level(
    alloc: Global,
    variant: &Variant,
    group: &Group,
    level: Level,
    params: &[Attr],
    name: &Name,
    used: bool,
) -> Result<Option<usize>, Memory>
    ensures { IfOk result (λ place. place ≡ rows.slot_level variant.now group.now level params.now name.now used) }
{
    match level {
        Level::Own => own_level(alloc, variant, params, name),
        Level::Common(place) => Ok(Some(if used {
            place
        } else {
            least(group.levels.as_slice()) as usize
        })),
    }
}

/// The level that a port's own parameter tells.
fn own_level(
    alloc: Global,
    variant: &Variant,
    params: &[Attr],
    name: &Name,
) -> Result<Option<usize>, Memory>
    ensures { IfOk result (λ place. place ≡ rows.own_level variant.now params.now name.now) }
{
    let width = slot_name(alloc, name.as_slice(), b"WIDTH")?;
    match number_at(params, width.as_slice()) {
        Some(width) => Ok(Some(width_place(variant, width))),
        None => Ok(None),
    }
}

/// Whether a port works at rising edges: none where its parameter is missing.
fn rising_at(
    alloc: Global,
    edge: Option<EdgeKind>,
    params: &[Attr],
    name: &Name,
) -> Result<Option<bool>, Memory>
    ensures { IfOk result (λ rising. rising ≡ rows.rising_at edge params.now name.now) }
{
    match edge {
        Some(EdgeKind::Pos) => Ok(Some(true)),
        Some(EdgeKind::Neg) | None => Ok(Some(false)),
        Some(EdgeKind::Either) => {
            let polarity = slot_name(alloc, name.as_slice(), b"CLK_POL")?;
            Ok(polarity_at(params, polarity.as_slice()))
        }
    }
}

/// A value, where one is taken, and nothing otherwise: none where its parameter is missing.
#[tactic(auto, unfolding(crate::specs::RamRows::value_if))]
pub(crate) fn value_if(
    alloc: Global,
    takes: bool,
    params: &[Attr],
    name: &Name,
) -> Result<Option<List<Tri>>, Memory>
    ensures { IfOk result (λ value. value ≡ rows.value_if takes params.now name.now) }
{
    if takes {
        bits_at(alloc, params, name.as_slice())
    } else {
        Ok(Some(List::from_vec(Vec::new(alloc))))
    }
}

/// A value of a port.
fn slot_value(
    alloc: Global,
    takes: bool,
    params: &[Attr],
    slot: &Name,
    what: &[u8],
) -> Result<Option<List<Tri>>, Memory>
    ensures { IfOk result (λ value. value ≡ rows.slot_value takes params.now slot.now what.now) }
{
    let name = slot_name(alloc, slot.as_slice(), what)?;
    value_if(alloc, takes, params, &name)
}

/// The values of a port: none where a parameter is missing.
#[tactic(auto, unfolding(crate::specs::RamRows::values_at))]
fn values_at(
    alloc: Global,
    group: &Group,
    params: &[Attr],
    name: &Name,
) -> Result<Option<Values>, Memory>
    ensures { IfOk result (λ values. values ≡ rows.values_at group.now params.now name.now) }
{
    let Some(srst) = slot_value(
        alloc,
        takes_value(group.srst),
        params,
        name,
        b"RD_SRST_VALUE",
    )?
    else {
        return Ok(None);
    };
    let Some(arst) = slot_value(
        alloc,
        takes_value(group.arst),
        params,
        name,
        b"RD_ARST_VALUE",
    )?
    else {
        return Ok(None);
    };
    let Some(start) = slot_value(
        alloc,
        takes_value(group.start),
        params,
        name,
        b"RD_INIT_VALUE",
    )?
    else {
        return Ok(None);
    };
    Ok(Some(Values { srst, arst, start }))
}

/// What the parameters say of a port: none where one is missing.
#[tactic(auto, unfolding(crate::specs::RamRows::slot_at))]
pub(crate) fn slot_at(
    alloc: Global,
    variant: &Variant,
    group: &Group,
    level: Level,
    params: &[Attr],
    name: &Name,
) -> Result<Option<SlotRow>, Memory>
    ensures { IfOk result (λ row. row ≡ rows.slot_at variant.now group.now level params.now name.now) }
{
    let flag = slot_name(alloc, name.as_slice(), b"USED")?;
    let Some(used) = flag_at(params, flag.as_slice()) else {
        return Ok(None);
    };
    let Some(level) = slot_level(alloc, variant, group, level, params, name, used)? else {
        return Ok(None);
    };
    let Some(rising) = rising_at(alloc, group.edge, params, name)? else {
        return Ok(None);
    };
    let Some(values) = values_at(alloc, group, params, name)? else {
        return Ok(None);
    };
    Ok(Some(SlotRow {
        used,
        level,
        rising,
        values,
    }))
}
