//! Which variant of a RAM the options of a cell choose.
ghost use Rattle.std.specs.Prelude.{◌≡◌};
ghost use Rattle.std.specs.List.{list_any, list_all, position};
ghost use Rattle.std.specs.Option.{option_copied};
ghost use Rattle.cell_consts.specs.Params.{named};
ghost use Rattle.ram_rows.specs.Options as rules;
ghost use Rattle.ram_rows.specs.RamNames.{option_name, slot_option_name};

use crate::names::{is_option, is_slot_option};
use cell_consts::number;
use lib_core::{Choice, Group, Name, Value, Variant};
use net_core::Attr;

/// The variant that options choose.
#[derive(Clone, Copy, Debug, PartialEq, Eq)]
pub enum Chosen {
    /// The one at this place of the RAM.
    Variant(usize),
    /// An option has no parameter.
    Missing,
    /// No variant has these values.
    Nothing,
}

/// The variant of a RAM that the parameters of a cell choose. An option of the RAM has to be there,
/// and an option of a port of each variant that the RAM's options leave. It takes no memory.
#[tactic(auto, unfolding(crate::specs::Options::chosen_by))]
pub fn chosen_by(params: &[Attr], variants: &[Variant]) -> Chosen
    ensures { result ≡ rules.chosen_by params.now variants.now }
{
    if any_options_lack(params, variants) || any_ports_lack(params, variants) {
        return Chosen::Missing;
    }
    match place_said(params, variants) {
        Some(place) => Chosen::Variant(place),
        None => Chosen::Nothing,
    }
}

/// The first variant whose options have the values of the parameters.
fn place_said(params: &[Attr], variants: &[Variant]) -> Option<usize>
    ensures { result ≡ position (rules.variant_said params.now) variants.now }
{
    variants
        .iter()
        .position(|variant| variant_said(params, variant))
}

/// Whether an option of the RAM has no parameter.
fn any_options_lack(params: &[Attr], variants: &[Variant]) -> bool
    ensures { result ≡ list_any (rules.options_lack params.now) variants.now }
{
    variants.iter().any(|variant| options_lack(params, variant))
}

/// Whether an option of a port has no parameter, in a variant that the RAM's options leave.
fn any_ports_lack(params: &[Attr], variants: &[Variant]) -> bool
    ensures { result ≡ list_any (rules.ports_lack params.now) variants.now }
{
    variants.iter().any(|variant| ports_lack(params, variant))
}

fn options_lack(params: &[Attr], variant: &Variant) -> bool
    ensures { result ≡ rules.options_lack params.now variant.now }
{
    variant
        .options
        .as_slice()
        .iter()
        .any(|option| option_lacks(params, option))
}

fn ports_lack(params: &[Attr], variant: &Variant) -> bool
    ensures { result ≡ rules.ports_lack params.now variant.now }
{
    options_said(params, variant) && any_group_lacks(params, variant.groups.as_slice())
}

fn any_group_lacks(params: &[Attr], groups: &[Group]) -> bool
    ensures { result ≡ list_any (rules.group_lacks params.now) groups.now }
{
    groups.iter().any(|group| group_lacks(params, group))
}

fn group_lacks(params: &[Attr], group: &Group) -> bool
    ensures { result ≡ rules.group_lacks params.now group.now }
{
    let options = group.options.as_slice();
    group
        .names
        .as_slice()
        .iter()
        .any(|slot| slot_lacks(params, options, slot))
}

fn slot_lacks(params: &[Attr], options: &[Choice], slot: &Name) -> bool
    ensures { result ≡ rules.slot_lacks params.now options.now slot.now }
{
    options
        .iter()
        .any(|option| slot_option_lacks(params, slot, option))
}

fn variant_said(params: &[Attr], variant: &Variant) -> bool
    ensures { result ≡ rules.variant_said params.now variant.now }
{
    options_said(params, variant) && all_groups_said(params, variant.groups.as_slice())
}

fn options_said(params: &[Attr], variant: &Variant) -> bool
    ensures { result ≡ rules.options_said params.now variant.now }
{
    variant
        .options
        .as_slice()
        .iter()
        .all(|option| option_said(params, option))
}

fn all_groups_said(params: &[Attr], groups: &[Group]) -> bool
    ensures { result ≡ list_all (rules.group_said params.now) groups.now }
{
    groups.iter().all(|group| group_said(params, group))
}

fn group_said(params: &[Attr], group: &Group) -> bool
    ensures { result ≡ rules.group_said params.now group.now }
{
    let options = group.options.as_slice();
    group
        .names
        .as_slice()
        .iter()
        .all(|slot| slot_said(params, options, slot))
}

fn slot_said(params: &[Attr], options: &[Choice], slot: &Name) -> bool
    ensures { result ≡ rules.slot_said params.now options.now slot.now }
{
    options
        .iter()
        .all(|option| slot_option_said(params, slot, option))
}

/// The parameter of an option of the RAM.
fn option_param<'a>(params: &'a [Attr], option: &Choice) -> Option<&'a Attr>
    ensures { option_copied result ≡ named params.now (option_name option.now.name) }
{
    let name = option.name.as_slice();
    params
        .iter()
        .find(|param| is_option(param.name.as_slice(), name))
}

/// The parameter of an option of a port.
fn slot_option_param<'a>(params: &'a [Attr], slot: &Name, option: &Choice) -> Option<&'a Attr>
    ensures { option_copied result ≡ named params.now (slot_option_name slot.now option.now.name) }
{
    let slot = slot.as_slice();
    let name = option.name.as_slice();
    params
        .iter()
        .find(|param| is_slot_option(param.name.as_slice(), slot, name))
}

fn option_lacks(params: &[Attr], option: &Choice) -> bool
    ensures { result ≡ rules.option_lacks params.now option.now }
{
    option_param(params, option).is_none()
}

fn option_said(params: &[Attr], option: &Choice) -> bool
    ensures { result ≡ rules.option_said params.now option.now }
{
    match option_param(params, option) {
        Some(param) => has_value(param, &option.value),
        None => false,
    }
}

fn slot_option_lacks(params: &[Attr], slot: &Name, option: &Choice) -> bool
    ensures { result ≡ rules.slot_option_lacks params.now slot.now option.now }
{
    slot_option_param(params, slot, option).is_none()
}

fn slot_option_said(params: &[Attr], slot: &Name, option: &Choice) -> bool
    ensures { result ≡ rules.slot_option_said params.now slot.now option.now }
{
    match slot_option_param(params, slot, option) {
        Some(param) => has_value(param, &option.value),
        None => false,
    }
}

/// Whether a parameter has the value: the number, or the string.
fn has_value(param: &Attr, value: &Value) -> bool
    ensures { result ≡ rules.has_value param.now value.now }
{
    match value {
        Value::Number(wanted) => is_number(number(param), *wanted),
        Value::Text(text) => param.is_text && param.value.as_slice() == text.as_slice(),
    }
}

fn is_number(number: Option<u32>, wanted: u32) -> bool
    ensures { result ≡ rules.is_number number wanted }
{
    match number {
        Some(number) => number == wanted,
        None => false,
    }
}
