//! The parameters of RAM cells.
ghost use Rattle.std.specs.Prelude.{◌≡◌, ◌++◌, IfOk, OnOk};
ghost use Rattle.std.specs.List.{find};
ghost use Rattle.std.specs.Option.{option_copied};
ghost use Rattle.net_core.specs.declared.rams.SlotUse.{SlotUse as SpecSlot};
ghost use Rattle.ram_rows.specs.RamNames as names;
ghost use Rattle.ram_rows.specs.RamRows as rows;
ghost use Rattle.ram_written.specs.Params as written;

use crate::slots::{push_groups, value_attr, width_at};
use cell_consts::{bits_attr, number_attr};
use lib_core::{Choice, List, Memory, Variant};
use net_core::{Attr, RamCell, SlotUse};
use ram_rows::slots::takes_value;
use std::alloc::Global;

fn option_name(alloc: Global, option: &[u8]) -> Result<Vec<u8>, Memory>
    ensures { IfOk result (λ name. name.items ≡ names.option_name option.now) }
{
    let mut name = Vec::from_slice(alloc, b"\\OPTION_")?;
    name.extend_from_slice(option)?;
    Ok(name)
}

#[tactic(auto, unfolding(crate::specs::Params::option_attr))]
fn option_attr(alloc: Global, option: &Choice) -> Result<Attr, Memory>
    ensures { IfOk result (λ attr. attr ≡ written.option_attr option.now) }
{
    let name = option_name(alloc, option.name.as_slice())?;
    value_attr(alloc, name.as_slice(), &option.value)
}

/// Puts the options of a RAM at the end.
fn push_options(alloc: Global, list: &mut Vec<Attr>, options: &[Choice]) -> Result<(), Memory>
    ensures { OnOk result (list.new.items ≡ list.old.items ++ written.option_params options.now) }
{
    let mut rest = options;
    while let [option, tail @ ..] = rest {
        list.push(option_attr(alloc, option)?)?;
        rest = tail;
    }
    Ok(())
}

/// The first port in use.
fn first_used(slots: &[SlotUse]) -> Option<&SlotUse>
    ensures { option_copied result ≡ find (λ (s : SpecSlot). s.used) slots.now }
{
    slots.iter().find(|slot| slot.used)
}

/// The level of all ports that are used; 0 where none is.
fn used_level(slots: &[SlotUse]) -> u32
    ensures { result ≡ written.used_level slots.now }
{
    match first_used(slots) {
        Some(slot) => slot.level,
        None => 0,
    }
}

/// Whether the ports have one width together, of several.
fn is_global(variant: &Variant) -> bool
    ensures { result ≡ rows.is_global variant.now }
{
    !variant.per_port && variant.widths.as_slice().len() > 1
}

#[tactic(auto, unfolding(crate::specs::Params::width_params))]
fn push_width(
    alloc: Global,
    list: &mut Vec<Attr>,
    variant: &Variant,
    slots: &[SlotUse],
) -> Result<(), Memory>
    ensures { OnOk result (list.new.items ≡ list.old.items ++ written.width_params variant.now slots.now) }
{
    if is_global(variant) {
        let width = width_at(variant.widths.as_slice(), used_level(slots));
        list.push(number_attr(alloc, b"\\WIDTH", width)?)?;
    }
    Ok(())
}

#[tactic(auto, unfolding(crate::specs::Params::init_params))]
fn push_init(
    alloc: Global,
    list: &mut Vec<Attr>,
    variant: &Variant,
    cell: &RamCell,
) -> Result<(), Memory>
    ensures { OnOk result (list.new.items ≡ list.old.items ++ written.init_params variant.now cell.now) }
{
    if takes_value(variant.fill) {
        list.push(bits_attr(alloc, b"\\INIT", &cell.init)?)?;
    }
    Ok(())
}

/// The parameters of a RAM cell of a variant: those of the cell itself, and then those of its ports.
pub fn ram_params(alloc: Global, variant: &Variant, cell: &RamCell) -> Result<List<Attr>, Memory>
    ensures { IfOk result (λ list. list ≡ written.ram_params variant.now cell.now) }
{
    let mut list = Vec::new(alloc);
    push_options(alloc, &mut list, variant.options.as_slice())?;
    push_width(alloc, &mut list, variant, cell.slots.as_slice())?;
    push_init(alloc, &mut list, variant, cell)?;
    push_groups(
        alloc,
        &mut list,
        variant,
        variant.groups.as_slice(),
        cell.slots.as_slice(),
    )?;
    Ok(List::from_vec(list))
}
