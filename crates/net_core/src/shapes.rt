//! The shape of RAM cells under a library.
ghost use Rattle.std.specs.Prelude.{◌≡◌, ◌*◌, ◌^◌, ◌&&◌, cond, nat_eq, nat_le, length};
ghost use Rattle.std.specs.Option.{option_copied};
ghost use Rattle.std.specs.List.{list_all, list_any, find};
ghost use Rattle.lib_core.specs.Rams.{width_at, last_level, last_words, last_width, kind_reads, kind_writes, kind_clocked, lanes, has_fill, takes_value};
ghost use Rattle.net_core.specs.Shape as shape;
ghost use Rattle.net_core.specs.Runs as runs;

use crate::bits::{Bit, Clock};
use crate::rams::{RamCell, SlotUse};
use lib_core::{Fill, Group, Library, PortKind, Tri, Variant};

/// Whether the cell has the shape that its variant in the library gives. It takes no memory.
pub fn cell_fits(cell: &RamCell, lib: &Library) -> bool
    ensures { result ≡ shape.fits_library lib.now cell.now }
{
    match variant_of(lib, cell) {
        None => false,
        Some(variant) => {
            slots_fit(variant, cell.slots.as_slice())
                && (variant.per_port || levels_alike(cell.slots.as_slice()))
                && contents_fit(variant, cell.init.as_slice())
        }
    }
}

/// The variant of a RAM cell, where the library has it. It takes no memory.
pub fn variant_of<'a>(lib: &'a Library, cell: &RamCell) -> Option<&'a Variant>
    ensures { option_copied result ≡ runs.variant_of lib.now cell.now }
{
    let ram = lib.rams.as_slice().get(cell.ram as usize)?;
    ram.variants.as_slice().get(cell.variant as usize)
}

/// Whether the slots are one for each name of each group, and each fits its group.
fn slots_fit(variant: &Variant, slots: &[SlotUse]) -> bool
    ensures { result ≡ shape.slots_fit variant.now variant.now.groups slots.now }
{
    let mut rest = slots;
    for group in variant.groups.as_slice() {
        let count = group.names.as_slice().len();
        if rest.len() < count {
            return false;
        }
        let (here, after) = rest.split_at(count);
        if !group_fits(variant, group, here) {
            return false;
        }
        rest = after;
    }
    rest.is_empty()
}

/// Whether each of these slots fits the group.
fn group_fits(variant: &Variant, group: &Group, slots: &[SlotUse]) -> bool
    ensures { result ≡ list_all (shape.slot_fits variant.now group.now) slots.now }
{
    slots.iter().all(|slot| slot_fits(variant, group, slot))
}

/// Whether a slot fits its group.
fn slot_fits(variant: &Variant, group: &Group, slot: &SlotUse) -> bool
    ensures { result ≡ shape.slot_fits variant.now group.now slot.now }
{
    pins_fit(variant, group, slot)
        && controls_fit(group, slot)
        && values_fit(variant, group, slot)
        && level_fits(group, slot)
        && if slot.used {
            used_fits(group, slot)
        } else {
            unused_fits(group, slot)
        }
}

/// Whether each pin of several bits has its width.
fn pins_fit(variant: &Variant, group: &Group, slot: &SlotUse) -> bool
    ensures { result ≡ shape.pins_fit variant.now group.now slot.now }
{
    let width = level_width(variant, slot.level);
    let lane_count = lane_count(variant.byte, width);
    let enables = if group.separate { 1 } else { lane_count };
    let writes = kind_writes(group.kind);
    slot.addr.as_slice().len() == variant.abits as usize
        && has_where(kind_reads(group.kind), slot.out.as_slice().len(), width)
        && has_where(writes, slot.value.as_slice().len(), width)
        && has_where(writes, slot.wren.as_slice().len(), enables)
        && has_where(
            writes && group.separate,
            slot.wrbe.as_slice().len(),
            lane_count,
        )
}

/// Whether pins of one bit stand only where the group has them.
fn controls_fit(group: &Group, slot: &SlotUse) -> bool
    ensures { result ≡ shape.controls_fit group.now slot.now }
{
    (kind_clocked(group.kind) || is_never(slot.clock))
        && (group.clken || is_zero(slot.clken))
        && (group.rden || is_zero(slot.rden))
        && (has_fill(group.srst) || is_zero(slot.srst))
        && (has_fill(group.arst) || is_zero(slot.arst))
}

/// Whether the values for resets and for the start fit their fills.
fn values_fit(variant: &Variant, group: &Group, slot: &SlotUse) -> bool
    ensures { result ≡ shape.values_fit variant.now group.now slot.now }
{
    let width = level_width(variant, slot.level);
    value_fits(group.srst, slot.srst_value.as_slice(), width)
        && value_fits(group.arst, slot.arst_value.as_slice(), width)
        && value_fits(group.start, slot.init_value.as_slice(), width)
}

/// Whether the level is one of the group's.
fn level_fits(group: &Group, slot: &SlotUse) -> bool
    ensures { result ≡ shape.level_fits group.now slot.now }
{
    group
        .levels
        .as_slice()
        .iter()
        .any(|level| slot.level == *level)
}

/// Whether the enables of a slot in use are as they have to be.
fn used_fits(group: &Group, slot: &SlotUse) -> bool
    ensures { result ≡ shape.used_fits group.now slot.now }
{
    (!group.clken || reads_by_clken(group) || is_one(slot.clken))
        && (!group.separate || separate_fits(slot.wren.as_slice(), slot.wrbe.as_slice()))
}

/// Whether a slot that is not in use is tied.
fn unused_fits(group: &Group, slot: &SlotUse) -> bool
    ensures { result ≡ shape.unused_fits group.now slot.now }
{
    is_never(slot.clock)
        && is_zero(slot.clken)
        && is_zero(slot.rden)
        && is_zero(slot.srst)
        && is_zero(slot.arst)
        && all_zero(slot.addr.as_slice())
        && all_zero(slot.value.as_slice())
        && all_zero(slot.wren.as_slice())
        && all_zero(slot.wrbe.as_slice())
        && all_low(slot.srst_value.as_slice())
        && all_low(slot.arst_value.as_slice())
        && all_low(slot.init_value.as_slice())
        && is_least(slot.level, group.levels.as_slice())
}

/// Whether a level is the least of these.
fn is_least(least: u32, levels: &[u32]) -> bool
    ensures { result ≡ list_all (λ l. nat_le least l) levels.now }
{
    levels.iter().all(|level| least <= *level)
}

/// Whether a write enable with byte enables apart is constant, and the byte enables are 0 where it is.
fn separate_fits(wren: &[Bit], wrbe: &[Bit]) -> bool
    ensures { result ≡ shape.separate_fits wren.now wrbe.now }
{
    all_one(wren) || (all_zero(wren) && all_zero(wrbe))
}

/// Whether the group reads into a register that the clock enable alone enables.
fn reads_by_clken(group: &Group) -> bool
    ensures { result ≡ shape.reads_by_clken group.now }
{
    is_read_register(group.kind) && !group.rden
}

fn is_read_register(kind: PortKind) -> bool
    ensures { result ≡ shape.is_read_register kind }
{
    match kind {
        PortKind::Sr => true,
        PortKind::Ar | PortKind::Sw | PortKind::Arsw | PortKind::Srsw => false,
    }
}

/// Whether all slots in use have one level.
fn levels_alike(slots: &[SlotUse]) -> bool
    ensures { result ≡ shape.levels_alike slots.now }
{
    match first_used(slots) {
        None => true,
        Some(first) => have_level(slots, first.level),
    }
}

/// The first slot in use.
fn first_used(slots: &[SlotUse]) -> Option<&SlotUse>
    ensures { option_copied result ≡ find (λ s. s.used) slots.now }
{
    slots.iter().find(|slot| slot.used)
}

/// Whether all slots in use have this level.
fn have_level(slots: &[SlotUse], level: u32) -> bool
    ensures { result ≡ list_all (λ s. shape.not_used_or_at s level) slots.now }
{
    slots.iter().all(|slot| !slot.used || slot.level == level)
}

/// Whether the contents at the start are all words of the last width, or none where the variant takes none.
fn contents_fit(variant: &Variant, init: &[Tri]) -> bool
    ensures { result ≡ shape.contents_fit variant.now init.now }
{
    if takes_value(variant.fill) {
        holds_all_words(variant, init.len()) && written_out(variant.fill, init)
    } else {
        init.is_empty()
    }
}

/// Whether this is the number of bits of all words.
fn holds_all_words(variant: &Variant, bits: usize) -> bool
    ensures { result ≡ nat_eq bits (last_words variant.now * last_width variant.now) }
{
    let levels = variant.widths.as_slice().len();
    let last = levels.saturating_sub(1);
    let width = number_at(variant.widths.as_slice(), last);
    is_product(bits, (variant.abits as usize).saturating_sub(last), width)
}

/// Whether the number is `2 ^ power * factor`.
fn is_product(number: usize, power: usize, factor: u32) -> bool
    ensures { result ≡ nat_eq number (2 ^ power * factor) }
{
    let factor = factor as usize;
    if factor == 0 {
        number == 0
    } else if power < 64 {
        number % factor == 0 && number / factor == 1 << power
    } else {
        false
    }
}

/// Whether the value of a fill that takes one has its length and is written as it has to be.
fn value_fits(fill: Fill, value: &[Tri], width: u32) -> bool
    ensures { result ≡ shape.value_fits fill value.now width }
{
    has_where(takes_value(fill), value.len(), width) && written_out(fill, value)
}

/// Whether each bit that has to be written is.
fn written_out(fill: Fill, value: &[Tri]) -> bool
    ensures { result ≡ shape.written_out fill value.now }
{
    match fill {
        Fill::NoUndef => all_defined(value),
        Fill::Nothing | Fill::Zero | Fill::Any => true,
    }
}

/// Whether a length is the wanted one where there is such a list, and else 0.
fn has_where(there: bool, length: usize, wanted: u32) -> bool
    ensures { result ≡ nat_eq length (cond there wanted 0) }
{
    length == if there { wanted as usize } else { 0 }
}

/// The width of a level.
fn level_width(variant: &Variant, level: u32) -> u32
    ensures { result ≡ width_at variant.now.widths level }
{
    number_at(variant.widths.as_slice(), level as usize)
}

/// The number at a place, 0 past the end.
fn number_at(numbers: &[u32], place: usize) -> u32
    ensures { result ≡ width_at numbers.now place }
{
    numbers.get(place).copied().unwrap_or(0)
}

/// How many lanes a word of this width has.
fn lane_count(byte: Option<u32>, width: u32) -> u32
    ensures { result ≡ lanes byte width }
{
    match byte {
        None => 1,
        Some(byte) if width <= byte => 1,
        Some(byte) => width.checked_div(byte).unwrap_or(0),
    }
}

fn kind_reads(kind: PortKind) -> bool
    ensures { result ≡ kind_reads kind }
{
    match kind {
        PortKind::Ar | PortKind::Sr | PortKind::Arsw | PortKind::Srsw => true,
        PortKind::Sw => false,
    }
}

fn kind_writes(kind: PortKind) -> bool
    ensures { result ≡ kind_writes kind }
{
    match kind {
        PortKind::Sw | PortKind::Arsw | PortKind::Srsw => true,
        PortKind::Ar | PortKind::Sr => false,
    }
}

fn kind_clocked(kind: PortKind) -> bool
    ensures { result ≡ kind_clocked kind }
{
    match kind {
        PortKind::Sr | PortKind::Sw | PortKind::Arsw | PortKind::Srsw => true,
        PortKind::Ar => false,
    }
}

/// Whether there is something to reset to.
fn has_fill(fill: Fill) -> bool
    ensures { result ≡ has_fill fill }
{
    match fill {
        Fill::Nothing => false,
        Fill::Zero | Fill::Any | Fill::NoUndef => true,
    }
}

/// Whether the value is a parameter of the cell.
fn takes_value(fill: Fill) -> bool
    ensures { result ≡ takes_value fill }
{
    match fill {
        Fill::Any | Fill::NoUndef => true,
        Fill::Nothing | Fill::Zero => false,
    }
}

fn is_defined(bit: Tri) -> bool
    ensures { result ≡ shape.is_defined bit }
{
    match bit {
        Tri::Zero | Tri::One => true,
        Tri::Any => false,
    }
}

fn all_defined(bits: &[Tri]) -> bool
    ensures { result ≡ list_all shape.is_defined bits.now }
{
    bits.iter().all(|bit| is_defined(*bit))
}

fn all_low(bits: &[Tri]) -> bool
    ensures { result ≡ list_all shape.is_low bits.now }
{
    bits.iter().all(|bit| is_low(*bit))
}

fn is_low(bit: Tri) -> bool
    ensures { result ≡ shape.is_low bit }
{
    match bit {
        Tri::Zero => true,
        Tri::One | Tri::Any => false,
    }
}

fn all_zero(bits: &[Bit]) -> bool
    ensures { result ≡ list_all shape.is_zero bits.now }
{
    bits.iter().all(|bit| is_zero(*bit))
}

fn is_zero(bit: Bit) -> bool
    ensures { result ≡ shape.is_zero bit }
{
    match bit {
        Bit::Zero => true,
        Bit::One | Bit::Net(_) => false,
    }
}

fn all_one(bits: &[Bit]) -> bool
    ensures { result ≡ list_all shape.is_one bits.now }
{
    bits.iter().all(|bit| is_one(*bit))
}

fn is_one(bit: Bit) -> bool
    ensures { result ≡ shape.is_one bit }
{
    match bit {
        Bit::One => true,
        Bit::Zero | Bit::Net(_) => false,
    }
}

fn is_never(clock: Clock) -> bool
    ensures { result ≡ shape.is_never clock }
{
    match clock {
        Clock::Never => true,
        Clock::Root { .. } => false,
    }
}
