//! The parameters of the ports of RAM cells.
ghost use Rattle.std.specs.Prelude.{◌≡◌, ◌++◌, drop, length, OnOk, IfOk};
ghost use Rattle.lib_core.specs.Rams as rams;
ghost use Rattle.ram_rows.specs.RamNames as names;
ghost use Rattle.ram_rows.specs.RamPins as table;
ghost use Rattle.ram_written.specs.Params as written;

use cell_consts::{bits_attr, flag_attr, number_attr, text_attr};
use lib_core::{Choice, EdgeKind, Group, List, Memory, Name, Tri, Value, Variant};
use net_core::{Attr, Clock, SlotUse};
use ram_rows::slots::takes_value;
use std::alloc::Global;

/// The name of what belongs to a port.
fn slot_name(alloc: Global, slot: &[u8], what: &[u8]) -> Result<Vec<u8>, Memory>
    ensures { IfOk result (λ name. name.items ≡ names.slot_name slot.now what.now) }
{
    let mut name = Vec::from_slice(alloc, b"\\PORT_")?;
    name.extend_from_slice(slot)?;
    name.extend_from_slice(b"_")?;
    name.extend_from_slice(what)?;
    Ok(name)
}

/// The name of an option of a port.
fn slot_option_name(alloc: Global, slot: &[u8], option: &[u8]) -> Result<Vec<u8>, Memory>
    ensures { IfOk result (λ name. name.items ≡ names.slot_option_name slot.now option.now) }
{
    let mut what = Vec::from_slice(alloc, b"OPTION_")?;
    what.extend_from_slice(option)?;
    slot_name(alloc, slot, what.as_slice())
}

/// The parameter of an option.
pub fn value_attr(alloc: Global, name: &[u8], value: &Value) -> Result<Attr, Memory>
    ensures { IfOk result (λ attr. attr ≡ written.value_attr name.now value.now) }
{
    match value {
        Value::Number(number) => number_attr(alloc, name, *number),
        Value::Text(text) => text_attr(alloc, name, text),
    }
}

#[tactic(auto, unfolding(crate::specs::Params::slot_option_attr))]
fn slot_option_attr(alloc: Global, slot: &[u8], option: &Choice) -> Result<Attr, Memory>
    ensures { IfOk result (λ attr. attr ≡ written.slot_option_attr slot.now option.now) }
{
    let name = slot_option_name(alloc, slot, option.name.as_slice())?;
    value_attr(alloc, name.as_slice(), &option.value)
}

/// Puts the options of a port at the end.
fn push_slot_options(
    alloc: Global,
    list: &mut Vec<Attr>,
    slot: &[u8],
    options: &[Choice],
) -> Result<(), Memory>
    ensures { OnOk result (list.new.items ≡ list.old.items ++ written.slot_option_params slot.now options.now) }
{
    let mut rest = options;
    while let [option, tail @ ..] = rest {
        list.push(slot_option_attr(alloc, slot, option)?)?;
        rest = tail;
    }
    Ok(())
}

fn rises(clock: Clock) -> bool
    ensures { result ≡ written.rises clock }
{
    match clock {
        Clock::Root { rising, .. } => rising,
        Clock::Never => true,
    }
}

fn by_either_edge(edge: Option<EdgeKind>) -> bool
    ensures { result ≡ table.by_either_edge edge }
{
    matches!(edge, Some(EdgeKind::Either))
}

/// The width of a level, 0 past the end.
pub fn width_at(widths: &[u32], level: u32) -> u32
    ensures { result ≡ rams.width_at widths.now level }
{
    widths.get(level as usize).copied().unwrap_or(0)
}

#[tactic(auto, unfolding(crate::specs::Params::use_params))]
fn push_use(
    alloc: Global,
    list: &mut Vec<Attr>,
    variant: &Variant,
    slot: &[u8],
    pins: &SlotUse,
) -> Result<(), Memory>
    ensures { OnOk result (list.new.items ≡ list.old.items ++ written.use_params variant.now slot.now pins.now) }
{
    let used = slot_name(alloc, slot, b"USED")?;
    list.push(flag_attr(alloc, used.as_slice(), pins.used)?)?;
    if variant.per_port {
        let name = slot_name(alloc, slot, b"WIDTH")?;
        let width = width_at(variant.widths.as_slice(), pins.level);
        list.push(number_attr(alloc, name.as_slice(), width)?)?;
    }
    Ok(())
}

#[tactic(auto, unfolding(crate::specs::Params::edge_params))]
fn push_edge(
    alloc: Global,
    list: &mut Vec<Attr>,
    group: &Group,
    slot: &[u8],
    pins: &SlotUse,
) -> Result<(), Memory>
    ensures { OnOk result (list.new.items ≡ list.old.items ++ written.edge_params group.now slot.now pins.now) }
{
    if by_either_edge(group.edge) {
        let name = slot_name(alloc, slot, b"CLK_POL")?;
        list.push(flag_attr(alloc, name.as_slice(), rises(pins.clock))?)?;
    }
    Ok(())
}

/// Puts a value of a port at the end, where it has one.
#[tactic(auto, unfolding(crate::specs::Params::value_params))]
fn push_value(
    alloc: Global,
    list: &mut Vec<Attr>,
    has: bool,
    slot: &[u8],
    what: &[u8],
    value: &List<Tri>,
) -> Result<(), Memory>
    ensures { OnOk result (list.new.items ≡ list.old.items ++ written.value_params has slot.now what.now value.now) }
{
    if has {
        let name = slot_name(alloc, slot, what)?;
        list.push(bits_attr(alloc, name.as_slice(), value)?)?;
    }
    Ok(())
}

fn push_srst(
    alloc: Global,
    list: &mut Vec<Attr>,
    group: &Group,
    slot: &[u8],
    pins: &SlotUse,
) -> Result<(), Memory>
    ensures { OnOk result (list.new.items ≡ list.old.items ++ written.srst_params group.now slot.now pins.now) }
{
    let has = takes_value(group.srst);
    push_value(alloc, list, has, slot, b"RD_SRST_VALUE", &pins.srst_value)?;
    Ok(())
}

fn push_arst(
    alloc: Global,
    list: &mut Vec<Attr>,
    group: &Group,
    slot: &[u8],
    pins: &SlotUse,
) -> Result<(), Memory>
    ensures { OnOk result (list.new.items ≡ list.old.items ++ written.arst_params group.now slot.now pins.now) }
{
    let has = takes_value(group.arst);
    push_value(alloc, list, has, slot, b"RD_ARST_VALUE", &pins.arst_value)?;
    Ok(())
}

fn push_start(
    alloc: Global,
    list: &mut Vec<Attr>,
    group: &Group,
    slot: &[u8],
    pins: &SlotUse,
) -> Result<(), Memory>
    ensures { OnOk result (list.new.items ≡ list.old.items ++ written.start_params group.now slot.now pins.now) }
{
    let has = takes_value(group.start);
    push_value(alloc, list, has, slot, b"RD_INIT_VALUE", &pins.init_value)?;
    Ok(())
}

fn push_values(
    alloc: Global,
    list: &mut Vec<Attr>,
    group: &Group,
    slot: &[u8],
    pins: &SlotUse,
) -> Result<(), Memory>
    ensures { OnOk result (list.new.items ≡ list.old.items ++ written.slot_values group.now slot.now pins.now) }
{
    push_srst(alloc, list, group, slot, pins)?;
    push_arst(alloc, list, group, slot, pins)?;
    push_start(alloc, list, group, slot, pins)?;
    Ok(())
}

/// Puts the parameters of a port at the end.
fn push_slot(
    alloc: Global,
    list: &mut Vec<Attr>,
    variant: &Variant,
    group: &Group,
    slot: &[u8],
    pins: &SlotUse,
) -> Result<(), Memory>
    ensures { OnOk result (list.new.items ≡ list.old.items ++ written.slot_params variant.now group.now slot.now pins.now) }
{
    push_use(alloc, list, variant, slot, pins)?;
    push_edge(alloc, list, group, slot, pins)?;
    push_values(alloc, list, group, slot, pins)?;
    push_slot_options(alloc, list, slot, group.options.as_slice())?;
    Ok(())
}

/// Puts the parameters of the ports of a group at the end.
fn push_names(
    alloc: Global,
    list: &mut Vec<Attr>,
    variant: &Variant,
    group: &Group,
    names: &[Name],
    slots: &[SlotUse],
) -> Result<(), Memory>
    ensures { OnOk result (list.new.items ≡ list.old.items ++ written.names_params variant.now group.now names.now slots.now) }
{
    let mut rest = names;
    let mut left = slots;
    while let [name, tail @ ..] = rest {
        let [pins, behind @ ..] = left else {
            return Ok(());
        };
        push_slot(alloc, list, variant, group, name.as_slice(), pins)?;
        rest = tail;
        left = behind;
    }
    Ok(())
}

/// The ports behind so many.
fn behind(slots: &[SlotUse], count: usize) -> &[SlotUse]
    ensures { result.now ≡ drop count slots.now }
{
    &slots[slots.len().min(count)..]
}

/// Puts the parameters of the ports of groups at the end.
pub fn push_groups(
    alloc: Global,
    list: &mut Vec<Attr>,
    variant: &Variant,
    groups: &[Group],
    slots: &[SlotUse],
) -> Result<(), Memory>
    ensures { OnOk result (list.new.items ≡ list.old.items ++ written.groups_params variant.now groups.now slots.now) }
{
    let mut rest = groups;
    let mut left = slots;
    while let [group, tail @ ..] = rest {
        push_names(alloc, list, variant, group, group.names.as_slice(), left)?;
        left = behind(left, group.names.as_slice().len());
        rest = tail;
    }
    Ok(())
}
