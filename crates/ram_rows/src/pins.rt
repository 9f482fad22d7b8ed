//! The pins of the ports of RAM cells, and which names a cell knows.
ghost use Rattle.std.specs.Prelude.{◌≡◌, ◌++◌, ◌&&◌, IfOk, OnOk, if◌then◌else◌};
ghost use Rattle.std.specs.List.{list_any};
ghost use Rattle.std.specs.Option.{is_some};
ghost use Rattle.std.specs.Str.{bytes_eq};
ghost use Rattle.lib_core.specs.Rams as rams;
ghost use Rattle.ram_rows.specs.RamNames as names;
ghost use Rattle.ram_rows.specs.RamPins as table;
ghost use Rattle.ram_rows.specs.RamRows as rows;

use crate::names::{is_option, is_slot_name, is_slot_option, slot_name};
use crate::slots::{is_global, takes_value};
use cell_rows::PinRow;
use lib_core::{Choice, EdgeKind, Fill, Group, List, Memory, Name, PortKind, Variant};
use std::alloc::Global;

/// A pin of a port, in the order in which they stand.
#[derive(Clone, Copy, Debug, PartialEq, Eq)]
pub enum SlotPin {
    Clk,
    ClkEn,
    Addr,
    RdData,
    RdEn,
    RdSrst,
    RdArst,
    WrData,
    WrEn,
    WrBe,
}

/// What stands behind the name of the port in the name of a pin. It takes no memory.
pub fn suffix(pin: SlotPin) -> &'static [u8]
    ensures { result.now ≡ table.suffix pin }
{
    match pin {
        SlotPin::Clk => b"CLK",
        SlotPin::ClkEn => b"CLK_EN",
        SlotPin::Addr => b"ADDR",
        SlotPin::RdData => b"RD_DATA",
        SlotPin::RdEn => b"RD_EN",
        SlotPin::RdSrst => b"RD_SRST",
        SlotPin::RdArst => b"RD_ARST",
        SlotPin::WrData => b"WR_DATA",
        SlotPin::WrEn => b"WR_EN",
        SlotPin::WrBe => b"WR_BE",
    }
}

/// The width of a pin at a level, where the group has it. It takes no memory.
pub fn pin_width(variant: &Variant, group: &Group, level: usize, pin: SlotPin) -> Option<u32>
    ensures { result ≡ table.pin_width variant.now group.now level pin }
{
    let width = width_at(variant.widths.as_slice(), level);
    match pin {
        SlotPin::Clk => where_there(is_clocked(group.kind), 1),
        SlotPin::ClkEn => where_there(group.clken, 1),
        SlotPin::Addr => Some(variant.abits),
        SlotPin::RdData => where_there(reads(group.kind), width),
        SlotPin::RdEn => where_there(group.rden, 1),
        SlotPin::RdSrst => where_there(has_fill(group.srst), 1),
        SlotPin::RdArst => where_there(has_fill(group.arst), 1),
        SlotPin::WrData => where_there(writes(group.kind), width),
        SlotPin::WrEn => where_there(writes(group.kind), enables(variant, group, width)),
        SlotPin::WrBe => where_there(
            writes(group.kind) && group.separate,
            lanes(variant.byte, width),
        ),
    }
}

/// How many write enables a port has.
fn enables(variant: &Variant, group: &Group, width: u32) -> u32
    ensures { result ≡ (if group.now.separate then 1 else rams.lanes variant.now.byte width) }
{
    if group.separate {
        1
    } else {
        lanes(variant.byte, width)
    }
}

fn where_there(there: bool, width: u32) -> Option<u32>
    ensures { result ≡ table.where_there there width }
{
    if there { Some(width) } else { None }
}

/// The width at a place, 0 past the end.
fn width_at(widths: &[u32], place: usize) -> u32
    ensures { result ≡ rams.width_at widths.now place }
{
    widths.get(place).copied().unwrap_or(0)
}

/// How many lanes a word of this width has.
fn lanes(byte: Option<u32>, width: u32) -> u32
    ensures { result ≡ rams.lanes byte width }
{
    match byte {
        None => 1,
        Some(byte) if width <= byte => 1,
        Some(byte) => width.checked_div(byte).unwrap_or(0),
    }
}

fn reads(kind: PortKind) -> bool
    ensures { result ≡ rams.kind_reads kind }
{
    match kind {
        PortKind::Ar | PortKind::Sr | PortKind::Arsw | PortKind::Srsw => true,
        PortKind::Sw => false,
    }
}

fn writes(kind: PortKind) -> bool
    ensures { result ≡ rams.kind_writes kind }
{
    match kind {
        PortKind::Sw | PortKind::Arsw | PortKind::Srsw => true,
        PortKind::Ar | PortKind::Sr => false,
    }
}

fn is_clocked(kind: PortKind) -> bool
    ensures { result ≡ rams.kind_clocked kind }
{
    match kind {
        PortKind::Sr | PortKind::Sw | PortKind::Arsw | PortKind::Srsw => true,
        PortKind::Ar => false,
    }
}

fn has_fill(fill: Fill) -> bool
    ensures { result ≡ rams.has_fill fill }
{
    match fill {
        Fill::Nothing => false,
        Fill::Zero | Fill::Any | Fill::NoUndef => true,
    }
}

fn is_output(pin: SlotPin) -> bool
    ensures { result ≡ table.is_output pin }
{
    match pin {
        SlotPin::RdData => true,
        SlotPin::Clk
        | SlotPin::ClkEn
        | SlotPin::Addr
        | SlotPin::RdEn
        | SlotPin::RdSrst
        | SlotPin::RdArst
        | SlotPin::WrData
        | SlotPin::WrEn
        | SlotPin::WrBe => false,
    }
}

fn is_clock(pin: SlotPin) -> bool
    ensures { result ≡ table.is_clock pin }
{
    match pin {
        SlotPin::Clk => true,
        SlotPin::ClkEn
        | SlotPin::Addr
        | SlotPin::RdData
        | SlotPin::RdEn
        | SlotPin::RdSrst
        | SlotPin::RdArst
        | SlotPin::WrData
        | SlotPin::WrEn
        | SlotPin::WrBe => false,
    }
}

/// The pins of a port at a level, in their order.
#[tactic(auto, unfolding(crate::specs::RamPins::slot_pins))]
pub fn slot_pins(
    alloc: Global,
    variant: &Variant,
    group: &Group,
    level: usize,
    name: &Name,
) -> Result<List<PinRow>, Memory>
    ensures { IfOk result (λ pins. pins ≡ table.slot_pins variant.now group.now level name.now) }
{
    let mut pins = Vec::new(alloc);
    push_pin(alloc, &mut pins, variant, group, level, name, SlotPin::Clk)?;
    push_pin(
        alloc,
        &mut pins,
        variant,
        group,
        level,
        name,
        SlotPin::ClkEn,
    )?;
    push_pin(alloc, &mut pins, variant, group, level, name, SlotPin::Addr)?;
    push_pin(
        alloc,
        &mut pins,
        variant,
        group,
        level,
        name,
        SlotPin::RdData,
    )?;
    push_pin(alloc, &mut pins, variant, group, level, name, SlotPin::RdEn)?;
    push_pin(
        alloc,
        &mut pins,
        variant,
        group,
        level,
        name,
        SlotPin::RdSrst,
    )?;
    push_pin(
        alloc,
        &mut pins,
        variant,
        group,
        level,
        name,
        SlotPin::RdArst,
    )?;
    push_pin(
        alloc,
        &mut pins,
        variant,
        group,
        level,
        name,
        SlotPin::WrData,
    )?;
    push_pin(alloc, &mut pins, variant, group, level, name, SlotPin::WrEn)?;
    push_pin(alloc, &mut pins, variant, group, level, name, SlotPin::WrBe)?;
    Ok(List::from_vec(pins))
}

/// Puts a pin at the end, if the group has it.
fn push_pin(
    alloc: Global,
    pins: &mut Vec<PinRow>,
    variant: &Variant,
    group: &Group,
    level: usize,
    name: &Name,
    pin: SlotPin,
) -> Result<(), Memory>
    ensures { OnOk result (pins.new.items ≡ pins.old.items ++ table.pin_at variant.now group.now level name.now pin) }
{
    if let Some(width) = pin_width(variant, group, level, pin) {
        pins.push(PinRow {
            name: slot_name(alloc, name.as_slice(), suffix(pin))?,
            width: u64::from(width),
            drives: is_output(pin),
            clock: is_clock(pin),
        })?;
    }
    Ok(())
}

/// Whether a cell of the variant has a pin of this name. It takes no memory.
#[tactic(auto, unfolding(crate::specs::RamPins::knows_pin))]
pub fn knows_pin(variant: &Variant, name: &[u8]) -> bool
    ensures { result ≡ table.knows_pin variant.now name.now }
{
    variant
        .groups
        .as_slice()
        .iter()
        .any(|group| group_knows_pin(variant, name, group))
}

fn group_knows_pin(variant: &Variant, name: &[u8], group: &Group) -> bool
    ensures { result ≡ table.group_knows_pin variant.now name.now group.now }
{
    group
        .names
        .as_slice()
        .iter()
        .any(|slot| slot_knows_pin(variant, group, name, slot))
}

const PINS: [SlotPin; 10] = [
    SlotPin::Clk,
    SlotPin::ClkEn,
    SlotPin::Addr,
    SlotPin::RdData,
    SlotPin::RdEn,
    SlotPin::RdSrst,
    SlotPin::RdArst,
    SlotPin::WrData,
    SlotPin::WrEn,
    SlotPin::WrBe,
];

fn slot_knows_pin(variant: &Variant, group: &Group, name: &[u8], slot: &Name) -> bool
    ensures { result ≡ table.slot_knows_pin variant.now group.now name.now slot.now }
{
    PINS.iter()
        .any(|pin| is_pin(variant, group, name, slot, *pin))
}

/// Whether the name is that of a pin that the group has.
fn is_pin(variant: &Variant, group: &Group, name: &[u8], slot: &Name, pin: SlotPin) -> bool
    ensures { result ≡ (is_some (table.pin_width variant.now group.now 0 pin) && bytes_eq name.now (names.slot_name slot.now (table.suffix pin))) }
{
    pin_width(variant, group, 0, pin).is_some() && is_slot_name(name, slot.as_slice(), suffix(pin))
}

/// Whether a cell of the variant has a parameter of this name. It takes no memory.
#[tactic(auto, unfolding(crate::specs::RamPins::knows_param))]
pub fn knows_param(variant: &Variant, name: &[u8]) -> bool
    ensures { result ≡ table.knows_param variant.now name.now }
{
    (is_global(variant) && name == WIDTH)
        || (takes_value(variant.fill) && name == INIT)
        || is_some_option(variant.options.as_slice(), name)
        || groups_know_param(variant, name)
}

const WIDTH: &[u8] = b"\\WIDTH";

const INIT: &[u8] = b"\\INIT";

fn is_some_option(options: &[Choice], name: &[u8]) -> bool
    ensures { result ≡ list_any (λ c. bytes_eq name.now (names.option_name c.name)) options.now }
{
    options
        .iter()
        .any(|option| is_option(name, option.name.as_slice()))
}

fn groups_know_param(variant: &Variant, name: &[u8]) -> bool
    ensures { result ≡ list_any (table.group_knows_param variant.now name.now) variant.now.groups }
{
    variant
        .groups
        .as_slice()
        .iter()
        .any(|group| group_knows_param(variant, name, group))
}

fn group_knows_param(variant: &Variant, name: &[u8], group: &Group) -> bool
    ensures { result ≡ table.group_knows_param variant.now name.now group.now }
{
    group
        .names
        .as_slice()
        .iter()
        .any(|slot| slot_knows_param(variant, group, name, slot))
}

fn slot_knows_param(variant: &Variant, group: &Group, name: &[u8], slot: &Name) -> bool
    ensures { result ≡ table.slot_knows_param variant.now group.now name.now slot.now }
{
    let slot = slot.as_slice();
    slot_knows_control(variant, group, name, slot)
        || slot_knows_value(group, name, slot)
        || is_some_slot_option(group.options.as_slice(), name, slot)
}

fn slot_knows_control(variant: &Variant, group: &Group, name: &[u8], slot: &[u8]) -> bool
    ensures { result ≡ table.slot_knows_control variant.now group.now name.now slot.now }
{
    is_slot_name(name, slot, b"USED")
        || (variant.per_port && is_slot_name(name, slot, b"WIDTH"))
        || (by_either_edge(group.edge) && is_slot_name(name, slot, b"CLK_POL"))
}

fn slot_knows_value(group: &Group, name: &[u8], slot: &[u8]) -> bool
    ensures { result ≡ table.slot_knows_value group.now name.now slot.now }
{
    if is_name_if(takes_value(group.srst), name, slot, b"RD_SRST_VALUE") {
        return true;
    }
    if is_name_if(takes_value(group.arst), name, slot, b"RD_ARST_VALUE") {
        return true;
    }
    is_name_if(takes_value(group.start), name, slot, b"RD_INIT_VALUE")
}

/// Whether a port has something, and this is its name.
#[tactic(auto, unfolding(crate::specs::RamPins::is_name_if))]
fn is_name_if(has: bool, name: &[u8], slot: &[u8], what: &[u8]) -> bool
    ensures { result ≡ table.is_name_if has name.now slot.now what.now }
{
    has && is_slot_name(name, slot, what)
}

fn is_some_slot_option(options: &[Choice], name: &[u8], slot: &[u8]) -> bool
    ensures { result ≡ list_any (λ c. bytes_eq name.now (names.slot_option_name slot.now c.name)) options.now }
{
    options.iter().any(|option| is_slot_option(name, slot, option.name.as_slice()))
}

fn by_either_edge(edge: Option<EdgeKind>) -> bool
    ensures { result ≡ table.by_either_edge edge }
{
    match edge {
        Some(EdgeKind::Either) => true,
        Some(EdgeKind::Pos | EdgeKind::Neg) | None => false,
    }
}
