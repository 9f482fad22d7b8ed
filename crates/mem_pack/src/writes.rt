//! What the writes of a memory have, by port numbers.
ghost use Rattle.std.specs.Prelude.{◌≡◌, ◌≤◌, ◌++◌, map, IfOk};
ghost use Rattle.mem_pack.specs.Numbers.{numbers};
ghost use Rattle.mem_pack.specs.Lists as lists;

use crate::numbers::{
    continuations, each_bit, each_flag, numbers, push_addresses, push_rows, words,
};
use crate::reads::{clock_bit, clock_rises};
use lib_core::{List, Memory};
use net_core::{Bit, WrPort};
use std::alloc::Global;

/// The powers of the writes.
pub fn write_wides(alloc: Global, writes: &[WrPort]) -> Result<Vec<u32>, Memory>
    ensures { IfOk result (λ wides. wides.items ≡ lists.write_wides writes.now) }
{
    Ok(writes.iter().map(|write| write.wide).collect(alloc)?)
}

/// How many port numbers they take.
#[tactic(auto, unfolding(crate::specs::Lists::write_numbers))]
pub fn write_numbers(alloc: Global, writes: &[WrPort]) -> Result<u32, Memory>
    requires { numbers (lists.write_wides writes.now) ≤ 64 }
    ensures { IfOk result (λ count. count ≡ lists.write_numbers writes.now) }
{
    let wides = write_wides(alloc, writes)?;
    Ok(numbers(wides.as_slice()))
}

/// For each port number whether it continues a port.
#[tactic(auto, unfolding(crate::specs::Lists::write_behind))]
pub fn write_behind(alloc: Global, writes: &[WrPort]) -> Result<List<bool>, Memory>
    requires { numbers (lists.write_wides writes.now) ≤ 64 }
    ensures { IfOk result (λ list. list ≡ lists.write_behind writes.now) }
{
    let wides = write_wides(alloc, writes)?;
    continuations(alloc, wides.as_slice())
}

pub fn write_clocked(alloc: Global, writes: &[WrPort]) -> Result<List<bool>, Memory>
    requires { numbers (lists.write_wides writes.now) ≤ 64 }
    ensures { IfOk result (λ list. list ≡ lists.write_clocked writes.now) }
{
    let wides = write_wides(alloc, writes)?;
    let count = numbers(wides.as_slice());
    Ok(List::from_vec(Vec::from_elem(alloc, true, count as usize)?))
}

fn rising_writes(alloc: Global, writes: &[WrPort]) -> Result<Vec<bool>, Memory>
    ensures { IfOk result (λ flags. flags.items ≡ lists.rising_writes writes.now) }
{
    Ok(
        writes
            .iter()
            .map(|write| clock_rises(write.clock))
            .collect(alloc)?,
    )
}

pub fn write_rising(alloc: Global, writes: &[WrPort]) -> Result<List<bool>, Memory>
    requires { numbers (lists.write_wides writes.now) ≤ 64 }
    ensures { IfOk result (λ list. list ≡ lists.write_rising writes.now) }
{
    let wides = write_wides(alloc, writes)?;
    let flags = rising_writes(alloc, writes)?;
    each_flag(alloc, wides.as_slice(), flags.as_slice())
}

fn clock_bits_of_writes(alloc: Global, writes: &[WrPort]) -> Result<Vec<Bit>, Memory>
    ensures { IfOk result (λ bits. bits.items ≡ lists.clock_bits_of_writes writes.now) }
{
    Ok(
        writes
            .iter()
            .map(|write| clock_bit(write.clock))
            .collect(alloc)?,
    )
}

pub fn write_clocks(alloc: Global, writes: &[WrPort]) -> Result<List<Bit>, Memory>
    requires { numbers (lists.write_wides writes.now) ≤ 64 }
    ensures { IfOk result (λ list. list ≡ lists.write_clocks writes.now) }
{
    let wides = write_wides(alloc, writes)?;
    let bits = clock_bits_of_writes(alloc, writes)?;
    each_bit(alloc, wides.as_slice(), bits.as_slice())
}

pub fn write_en(alloc: Global, writes: &[WrPort]) -> Result<List<Bit>, Memory>
    ensures { IfOk result (λ list. list ≡ lists.write_en writes.now) }
{
    let mut list = Vec::new(alloc);
    let mut rest = writes;
    while let [write, tail @ ..] = rest {
        list.extend_from_slice(write.en.as_slice())?;
        rest = tail;
    }
    Ok(List::from_vec(list))
}

pub fn write_addr(alloc: Global, writes: &[WrPort]) -> Result<List<Bit>, Memory>
    requires { numbers (lists.write_wides writes.now) ≤ 64 }
    ensures { IfOk result (λ list. list ≡ lists.write_addr writes.now) }
{
    let mut list = Vec::new(alloc);
    let mut rest = writes;
    while let [write, tail @ ..] = rest {
        push_addresses(alloc, &mut list, write.wide, write.addr.as_slice())?;
        rest = tail;
    }
    Ok(List::from_vec(list))
}

pub fn write_words(alloc: Global, writes: &[WrPort]) -> Result<List<Bit>, Memory>
    ensures { IfOk result (λ list. list ≡ lists.write_words writes.now) }
{
    let mut list = Vec::new(alloc);
    let mut rest = writes;
    while let [write, tail @ ..] = rest {
        list.extend_from_slice(write.value.as_slice())?;
        rest = tail;
    }
    Ok(List::from_vec(list))
}

#[tactic(auto, unfolding(crate::specs::Lists::prio_rows))]
fn prio_rows(alloc: Global, wides: &[u32], writes: &[WrPort]) -> Result<List<bool>, Memory>
    requires wides { numbers wides.now ≤ 64 }
    requires writes { numbers (lists.write_wides writes.now) ≤ 64 }
    ensures { IfOk result (λ list. list ≡ lists.prio_rows wides.now writes.now) }
{
    let mut list = Vec::new(alloc);
    let mut rest = writes;
    while let [write, tail @ ..] = rest {
        push_rows(&mut list, words(write.wide), wides, write.prio.as_slice())?;
        rest = tail;
    }
    Ok(List::from_vec(list))
}

pub fn write_prio(alloc: Global, writes: &[WrPort]) -> Result<List<bool>, Memory>
    requires { numbers (lists.write_wides writes.now) ≤ 64 }
    ensures { IfOk result (λ list. list ≡ lists.write_prio writes.now) }
{
    let wides = write_wides(alloc, writes)?;
    prio_rows(alloc, wides.as_slice(), writes)
}
