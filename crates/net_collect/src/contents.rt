//! The contents that a declared memory has at the start.
ghost use Rattle.std.specs.Prelude.{◌≡◌, ◌-◌, ◌*◌, map, drop, IfOk, OnOk};
ghost use Rattle.net_collect.specs.Contents as spec;

use crate::sides::InitCell;
use cell_consts::{bits_attr, number};
use lib_core::{List, Memory, Tri};
use mem_collect::pin_bits;
use net_core::{Bit, Mem};
use std::alloc::Global;

/// What is said of a bit of a memory so far.
#[derive(Clone, Copy, Debug, PartialEq, Eq)]
pub struct Start {
    /// The priority of the cell that says it.
    pub by: Option<u32>,
    pub value: Tri,
}

/// The value of a constant bit; a bit without a driver is open.
fn tri_of_bit(bit: Bit) -> Tri
    ensures { result ≡ spec.tri_of_bit bit }
{
    match bit {
        Bit::Zero => Tri::Zero,
        Bit::One => Tri::One,
        Bit::Net(_) => Tri::Any,
    }
}

fn tris_of(alloc: Global, bits: &[Bit]) -> Result<Vec<Tri>, Memory>
    ensures { IfOk result (λ tris. tris.items ≡ spec.tris_of bits.now) }
{
    Ok(bits.iter().map(|bit| tri_of_bit(*bit)).collect(alloc)?)
}

fn is_enabled(bit: Bit) -> bool
    ensures { result ≡ spec.is_enabled bit }
{
    match bit {
        Bit::Zero => false,
        Bit::One => true,
        Bit::Net(_) => false,
    }
}

/// Whether a cell of a priority may write over what one of another has written.
fn yields(by: Option<u32>, priority: u32) -> bool
    ensures { result ≡ spec.yields by priority }
{
    match by {
        None => true,
        Some(before) => before <= priority,
    }
}

fn over(priority: u32, enable: Bit, bit: Bit, start: Start) -> Start
    ensures { result ≡ spec.over priority enable bit start }
{
    if is_enabled(enable) && yields(start.by, priority) {
        Start {
            by: Some(priority),
            value: tri_of_bit(bit),
        }
    } else {
        start
    }
}

/// Writes bits, each with its enable, one after the other from a place on.
#[tactic(auto, unfolding(crate::specs::Contents::put_bits), using(crate::proofs::Past::put_past))]
fn put_bits(table: &mut Vec<Start>, priority: u32, enables: &[Bit], bits: &[Bit], first: usize)
    ensures { table.new.items ≡ spec.put_bits priority enables.now bits.now first table.old.items }
{
    let mut place = first;
    let mut left = enables;
    let mut rest = bits;
    while let [enable, more @ ..] = left {
        let [bit, tail @ ..] = rest else {
            return;
        };
        if place >= table.len() {
            return;
        }
        table[place] = over(priority, *enable, *bit, table[place]);
        place += 1;
        left = more;
        rest = tail;
    }
}

/// The enables of so many words.
#[tactic(auto, using(crate::proofs::Words::none, crate::proofs::Words::one_more))]
fn enables(alloc: Global, words: u32, enable: &[Bit]) -> Result<Vec<Bit>, Memory>
    ensures { IfOk result (λ list. list.items ≡ spec.enables words enable.now) }
{
    let mut list = Vec::new(alloc);
    for _ in 0..words {
        list.extend_from_slice(enable)?;
    }
    Ok(list)
}

/// The number whose bits these are. More than 32 bits of it count as want of memory.
#[tactic(auto, using(crate::proofs::Addresses::value_is))]
fn address_value(alloc: Global, bits: &[Bit]) -> Result<u32, Memory>
    ensures { IfOk result (λ value. value ≡ spec.address_value bits.now) }
{
    let tris = List::from_vec(tris_of(alloc, bits)?);
    let attr = bits_attr(alloc, b"\\ADDR", &tris)?;
    match number(&attr) {
        Some(value) => Ok(value),
        None => Err(Memory),
    }
}

fn first_of(alloc: Global, cell: &InitCell) -> Result<u32, Memory>
    ensures { IfOk result (λ first. first ≡ spec.first_of cell.now) }
{
    let bits = pin_bits(alloc, cell.part.pins.as_slice(), b"\\ADDR")?;
    address_value(alloc, bits.as_slice())
}

/// The bits from one address up to another, none where the other is less.
fn bits_between(low: u32, high: u32, width: u32) -> usize
    ensures { result ≡ (high - low) * width }
{
    let words = u64::from(high.saturating_sub(low));
    (words * u64::from(width)) as usize
}

/// All items but so many first ones.
fn behind(bits: &[Bit], count: usize) -> &[Bit]
    ensures { result.now ≡ drop count bits.now }
{
    &bits[bits.len().min(count)..]
}

/// Writes the words of a cell.
fn put_cell(alloc: Global, table: &mut Vec<Start>, mem: &Mem, cell: &InitCell) -> Result<(), Memory>
    ensures { OnOk result (table.new.items ≡ spec.put_cell mem.now cell.now table.old.items) }
{
    let pins = cell.part.pins.as_slice();
    let first = first_of(alloc, cell)?;
    let enable = pin_bits(alloc, pins, b"\\EN")?;
    let enables = enables(alloc, cell.row.words, enable.as_slice())?;
    let bits = pin_bits(alloc, pins, b"\\DATA")?;
    let below = bits_between(first, mem.offset, mem.width);
    let place = bits_between(mem.offset, first, mem.width);
    put_bits(
        table,
        cell.row.priority,
        behind(enables.as_slice(), below),
        behind(bits.as_slice(), below),
        place,
    );
    Ok(())
}

#[tactic(auto, unfolding(crate::specs::Contents::put_cells))]
fn put_cells(
    alloc: Global,
    table: &mut Vec<Start>,
    mem: &Mem,
    cells: &[InitCell],
) -> Result<(), Memory>
    ensures { OnOk result (table.new.items ≡ spec.put_cells mem.now cells.now table.old.items) }
{
    let mut rest = cells;
    while let [cell, tail @ ..] = rest {
        put_cell(alloc, table, mem, cell)?;
        rest = tail;
    }
    Ok(())
}

fn values(alloc: Global, table: &[Start]) -> Result<Vec<Tri>, Memory>
    ensures { IfOk result (λ list. list.items ≡ map (λ s. s.value) table.now) }
{
    Ok(table.iter().map(|start| start.value).collect(alloc)?)
}

/// The contents that these cells give to a memory.
#[tactic(auto, unfolding(crate::specs::Contents::contents))]
pub fn contents(alloc: Global, mem: &Mem, cells: &[InitCell]) -> Result<List<Tri>, Memory>
    ensures { IfOk result (λ list. list ≡ spec.contents mem.now cells.now) }
{
    let count = u64::from(mem.size) * u64::from(mem.width);
    let blank = Start {
        by: None,
        value: Tri::Any,
    };
    let mut table = Vec::from_elem(alloc, blank, count as usize)?;
    put_cells(alloc, &mut table, mem, cells)?;
    Ok(List::from_vec(values(alloc, table.as_slice())?))
}
