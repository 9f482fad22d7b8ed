//! Where the bits of a memory's rows lie in RAM cells.
ghost use Rattle.std.specs.Prelude.{◌≡◌, ℕ, ◌+◌, ◌*◌, ◌^◌, ◌<◌, ◌≤◌, ◌&&◌, nat_eq, not};
ghost use Rattle.std.specs.List.{list_all, range_with_len};
ghost use Rattle.lib_core.specs.Rams.{width_at, lane_width};
ghost use Rattle.net_core.specs.Valid.{Each};
ghost use Rattle.geom_core.specs.Layout as placing;
ghost use Rattle.geom_core.specs.Layout.{HasRows, HasUnits};

use crate::splits::{same_bit, split};
use lib_core::Variant;
use net_core::{Bit, Mem, WrPort};

/// The units and columns of a row.
#[derive(Clone, Copy, Debug, PartialEq, Eq)]
pub struct Spread {
    /// The bits of a unit.
    pub unit: u32,
    pub units: u32,
    pub columns: u32,
}

/// Where a bit of a row lies: its column, and its pin there.
#[derive(Clone, Copy, Debug, PartialEq, Eq)]
pub struct BitPlace {
    pub column: u32,
    pub pin: u32,
}

/// Where a bit of a row lies: its unit, and its place in the unit.
#[derive(Clone, Copy, Debug, PartialEq, Eq)]
pub struct UnitPlace {
    pub unit: u32,
    pub at: u32,
}

/// The units and columns of a row. It takes no memory.
#[tactic(auto, using(crate::proofs::Units::columns_few, crate::proofs::Units::unit_few))]
pub fn layout(mem: &Mem, variant: &Variant, fold: u32, level: u32) -> Spread
    requires rows { HasRows mem.now }
    requires units { HasUnits variant.now level }
    requires fold { fold ≤ 6 }
    ensures value { result ≡ placing.spread_of mem.now variant.now fold level }
    ensures some_columns { 1 ≤ result.columns }
    ensures few_columns { result.columns ≤ placing.row_bits mem.now fold }
{
    let unit = unit_bits(variant, level);
    let last = row_bits(mem, fold) - 1;
    let units = unit_place(mem, fold, unit, last).unit + 1;
    Spread {
        unit,
        units,
        columns: split(units, column_units(variant, level)),
    }
}

/// Where a bit of a row lies. It takes no memory.
#[tactic(auto, using(crate::proofs::Units::at_within))]
pub fn bit_place(mem: &Mem, variant: &Variant, fold: u32, level: u32, bit: u32) -> BitPlace
    requires rows { HasRows mem.now }
    requires units { HasUnits variant.now level }
    requires fold { fold ≤ 6 }
    requires bit { bit < placing.row_bits mem.now fold }
    ensures value { result ≡ placing.bit_place_of mem.now variant.now fold level bit }
    ensures column { result.column < (placing.spread_of mem.now variant.now fold level).columns }
    ensures pin { result.pin < width_at variant.now.widths level }

    // Two different bits of a row lie in two different places.
    ensures apart { (other : ℕ) → placing.bit_place_of mem.now variant.now fold level other ≡ result → other ≡ bit }
{
    let unit = unit_bits(variant, level);
    let place = unit_place(mem, fold, unit, bit);
    pin_of(unit, column_units(variant, level), place)
}

/// The place after a bit's, where it is known: so all bits of a row are placed one after the other.
/// It takes no memory.
#[tactic(auto, using(crate::proofs::Units::placed_more, crate::proofs::Units::unit_few, crate::proofs::Units::at_few))]
pub fn next_place(mem: &Mem, fold: u32, unit: u32, bit: u32, here: UnitPlace) -> UnitPlace
    requires rows { HasRows mem.now }
    requires fold { fold ≤ 6 }
    requires bit { bit + 1 < placing.row_bits mem.now fold }
    requires here { here ≡ placing.unit_place mem.now fold unit bit }
    ensures { result ≡ placing.unit_place mem.now fold unit (bit + 1) }
{
    if !same_enables(mem, fold, bit, bit + 1) || here.at + 1 >= unit {
        UnitPlace {
            unit: here.unit + 1,
            at: 0,
        }
    } else {
        UnitPlace {
            unit: here.unit,
            at: here.at + 1,
        }
    }
}

/// The column and the pin of a place in a unit. It takes no memory.
#[tactic(auto, using(crate::proofs::Units::pin_within))]
pub fn pin_of(unit: u32, units: u32, place: UnitPlace) -> BitPlace
    requires at { place.at < unit }
    requires some { 1 ≤ units }
    requires few { units * unit ≤ 1024 }
    ensures value { result ≡ placing.pin_of unit units place }
    ensures pin { result.pin < units * unit }
{
    BitPlace {
        column: place.unit / units,
        pin: place.unit % units * unit + place.at,
    }
}

/// The bits of a unit at a level. It takes no memory.
pub fn unit_bits(variant: &Variant, level: u32) -> u32
    ensures { result ≡ placing.unit_bits variant.now level }
{
    let width = level_width(variant, level);
    match variant.byte {
        None => width,
        Some(byte) => width.min(byte),
    }
}

/// The units of a column at a level. It takes no memory.
pub fn column_units(variant: &Variant, level: u32) -> u32
    requires { HasUnits variant.now level }
    ensures value { result ≡ placing.column_units variant.now level }
    ensures some { 1 ≤ result }
    ensures within { result * placing.unit_bits variant.now level ≤ width_at variant.now.widths level }
{
    level_width(variant, level) / unit_bits(variant, level)
}

/// The width of a level. It takes no memory.
pub fn level_width(variant: &Variant, level: u32) -> u32
    ensures { result ≡ width_at variant.now.widths level }
{
    variant
        .widths
        .as_slice()
        .get(level as usize)
        .copied()
        .unwrap_or(0)
}

/// The unit of a bit of a row.
#[tactic(auto, using(crate::proofs::Units::unit_few, crate::proofs::Units::at_within))]
fn unit_place(mem: &Mem, fold: u32, unit: u32, bit: u32) -> UnitPlace
    requires rows { HasRows mem.now }
    requires fold { fold ≤ 6 }
    requires bit { bit < placing.row_bits mem.now fold }
    ensures value { result ≡ placing.unit_place mem.now fold unit bit }
    ensures few { result.unit ≤ bit }
    ensures within { 1 ≤ unit → result.at < unit }
{
    let mut place = UnitPlace { unit: 0, at: 0 };
    for before in 0..bit {
        place = next_place(mem, fold, unit, before, place);
    }
    place
}

/// How many bits a row has.
#[tactic(auto, using(crate::proofs::Bounds::row_few, crate::proofs::Bounds::row_some))]
fn row_bits(mem: &Mem, fold: u32) -> u32
    requires rows { HasRows mem.now }
    requires fold { fold ≤ 6 }
    ensures value { result ≡ placing.row_bits mem.now fold }
    ensures some { 1 ≤ result }
    ensures few { result ≤ 4194304 }
{
    mem.width * power(fold)
}

/// A power of 2.
#[tactic(auto, using(crate::proofs::Bounds::power_is, crate::proofs::Bounds::power_few, crate::proofs::Bounds::power_some))]
fn power(exponent: u32) -> u32
    requires { exponent ≤ 6 }
    ensures value { result ≡ 2 ^ exponent }
    ensures some { 1 ≤ result }
    ensures few { result ≤ 64 }
{
    1 << exponent
}

/// Whether every write enables two places of a row alike. It takes no memory.
pub fn same_enables(mem: &Mem, fold: u32, p: u32, q: u32) -> bool
    requires rows { HasRows mem.now }
    requires fold { fold ≤ 6 }
    requires p { p < placing.row_bits mem.now fold }
    requires q { q < placing.row_bits mem.now fold }
    ensures { result ≡ placing.same_enables mem.now fold p q }
{
    for write in mem.writes.as_slice() {
        if !same_in_write(mem, fold, p, q, write) {
            return false;
        }
    }
    true
}

/// Whether a write enables two places of a row alike.
fn same_in_write(mem: &Mem, fold: u32, p: u32, q: u32, write: &WrPort) -> bool
    requires rows { HasRows mem.now }
    requires wide { write.now.wide ≤ 6 }
    requires fold { fold ≤ 6 }
    requires p { p < placing.row_bits mem.now fold }
    requires q { q < placing.row_bits mem.now fold }
    ensures { result ≡ placing.same_in_write mem.now fold p q write.now }
{
    let words = power(write.wide);
    p / mem.width / words == q / mem.width / words && same_in_rows(mem, fold, p, q, write)
}

/// Whether two places of a row have the same enable in each row that a write covers.
#[tactic(auto, using(crate::proofs::Bounds::rows_step, crate::proofs::Bounds::rows_end))]
fn same_in_rows(mem: &Mem, fold: u32, p: u32, q: u32, write: &WrPort) -> bool
    requires rows { HasRows mem.now }
    requires wide { write.now.wide ≤ 6 }
    requires fold { fold ≤ 6 }
    requires p { p < placing.row_bits mem.now fold }
    requires q { q < placing.row_bits mem.now fold }
    ensures { result ≡ list_all (placing.same_enable mem.now fold write.now p q) (range_with_len 0 (placing.rows_covered fold write.now)) }
{
    let rows = power(write.wide.saturating_sub(fold));
    for row in 0..rows {
        if !same_bit(
            enable_in(mem, fold, write, row, p),
            enable_in(mem, fold, write, row, q),
        ) {
            return false;
        }
    }
    true
}

/// The enable of a write for a place of a row, in one of the rows that the write covers.
#[tactic(auto, using(crate::proofs::Bounds::word_few, crate::proofs::Bounds::rows_few))]
fn enable_in(mem: &Mem, fold: u32, write: &WrPort, row: u32, place: u32) -> Bit
    requires rows { HasRows mem.now }
    requires wide { write.now.wide ≤ 6 }
    requires fold { fold ≤ 6 }
    requires row { row ≤ 64 }
    requires place { place < placing.row_bits mem.now fold }
    ensures { result ≡ placing.enable_in mem.now fold write.now row place }
{
    let word = (row * power(fold) + place / mem.width) % power(write.wide);
    let index = word * mem.width + place % mem.width;
    write
        .en
        .as_slice()
        .get(index as usize)
        .copied()
        .unwrap_or(Bit::Zero)
}
