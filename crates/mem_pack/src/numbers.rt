//! Ports as port numbers.
ghost use Rattle.std.specs.Prelude.{◌≡◌, ◌≤◌, ◌^◌, ◌++◌, replicate, IfOk, OnOk};
ghost use Rattle.mem_pack.specs.Numbers as table;

use cell_consts::low_bits;
use lib_core::{List, Memory, Tri};
use net_core::Bit;
use std::alloc::Global;

/// How many words a port has.
#[tactic(auto, using(crate::proofs::Powers::power_is, crate::proofs::Powers::small_exponent))]
pub fn words(wide: u32) -> u32
    requires { 2 ^ wide ≤ 64 }
    ensures { result ≡ 2 ^ wide }
{
    1 << wide
}

/// How many numbers ports take.
pub fn numbers(wides: &[u32]) -> u32
    requires { table.numbers wides.now ≤ 64 }
    ensures { result ≡ table.numbers wides.now }
{
    let mut sum = 0;
    let mut rest = wides;
    while let [wide, tail @ ..] = rest {
        sum += words(*wide);
        rest = tail;
    }
    sum
}

/// Puts a flag so many times at the end.
#[tactic(auto, using(crate::proofs::Steps::times_step, crate::proofs::Steps::times_none))]
fn push_same_flags(list: &mut Vec<bool>, flag: bool, times: u32) -> Result<(), Memory>
    ensures { OnOk result (list.new.items ≡ list.old.items ++ replicate times flag) }
{
    let mut left = times;
    while left > 0 {
        list.push(flag)?;
        left -= 1;
    }
    Ok(())
}

/// Puts the flag of each port at the end, at each of its numbers.
fn push_each_flag(list: &mut Vec<bool>, wides: &[u32], flags: &[bool]) -> Result<(), Memory>
    requires { table.numbers wides.now ≤ 64 }
    ensures { OnOk result (list.new.items ≡ list.old.items ++ table.each_number wides.now flags.now) }
{
    let mut rest = wides;
    let mut left = flags;
    while let [wide, tail @ ..] = rest {
        let [flag, behind @ ..] = left else {
            return Ok(());
        };
        push_same_flags(list, *flag, words(*wide))?;
        rest = tail;
        left = behind;
    }
    Ok(())
}

/// The flag of each port, at each of its numbers.
pub fn each_flag(alloc: Global, wides: &[u32], flags: &[bool]) -> Result<List<bool>, Memory>
    requires { table.numbers wides.now ≤ 64 }
    ensures { IfOk result (λ list. list ≡ table.each_number wides.now flags.now) }
{
    let mut list = Vec::new(alloc);
    push_each_flag(&mut list, wides, flags)?;
    Ok(List::from_vec(list))
}

/// Puts a bit so many times at the end.
#[tactic(auto, using(crate::proofs::Steps::times_step, crate::proofs::Steps::times_none))]
fn push_same_bits(list: &mut Vec<Bit>, bit: Bit, times: u32) -> Result<(), Memory>
    ensures { OnOk result (list.new.items ≡ list.old.items ++ replicate times bit) }
{
    let mut left = times;
    while left > 0 {
        list.push(bit)?;
        left -= 1;
    }
    Ok(())
}

/// Puts the bit of each port at the end, at each of its numbers.
fn push_each_bit(list: &mut Vec<Bit>, wides: &[u32], bits: &[Bit]) -> Result<(), Memory>
    requires { table.numbers wides.now ≤ 64 }
    ensures { OnOk result (list.new.items ≡ list.old.items ++ table.each_number wides.now bits.now) }
{
    let mut rest = wides;
    let mut left = bits;
    while let [wide, tail @ ..] = rest {
        let [bit, behind @ ..] = left else {
            return Ok(());
        };
        push_same_bits(list, *bit, words(*wide))?;
        rest = tail;
        left = behind;
    }
    Ok(())
}

/// The bit of each port, at each of its numbers.
pub fn each_bit(alloc: Global, wides: &[u32], bits: &[Bit]) -> Result<List<Bit>, Memory>
    requires { table.numbers wides.now ≤ 64 }
    ensures { IfOk result (λ list. list ≡ table.each_number wides.now bits.now) }
{
    let mut list = Vec::new(alloc);
    push_each_bit(&mut list, wides, bits)?;
    Ok(List::from_vec(list))
}

/// For each port number whether it continues a port.
pub fn continuations(alloc: Global, wides: &[u32]) -> Result<List<bool>, Memory>
    requires { table.numbers wides.now ≤ 64 }
    ensures { IfOk result (λ list. list ≡ table.continuations wides.now) }
{
    let mut list = Vec::new(alloc);
    let mut rest = wides;
    while let [wide, tail @ ..] = rest {
        list.push(false)?;
        push_same_flags(&mut list, true, words(*wide) - 1)?;
        rest = tail;
    }
    Ok(List::from_vec(list))
}

/// Puts so many copies of a row at the end: a flag for each number of each port.
#[tactic(auto, using(crate::proofs::Steps::copies_step, crate::proofs::Steps::copies_none))]
pub fn push_rows(
    list: &mut Vec<bool>,
    count: u32,
    wides: &[u32],
    row: &[bool],
) -> Result<(), Memory>
    requires { table.numbers wides.now ≤ 64 }
    ensures { OnOk result (list.new.items ≡ list.old.items ++ table.copies count (table.each_number wides.now row.now)) }
{
    let mut left = count;
    while left > 0 {
        push_each_flag(list, wides, row)?;
        left -= 1;
    }
    Ok(())
}

fn bit_of(bit: Tri) -> Bit
    ensures { result ≡ table.bit_of bit }
{
    match bit {
        Tri::Zero => Bit::Zero,
        Tri::One => Bit::One,
        Tri::Any => Bit::Zero,
    }
}

/// The bits of a place among so many words.
fn place_bits(alloc: Global, wide: u32, place: u32) -> Result<Vec<Bit>, Memory>
    ensures { IfOk result (λ bits. bits.items ≡ table.place_bits wide place) }
{
    let bits = low_bits(alloc, wide, place)?;
    Ok(
        bits.as_slice()
            .iter()
            .map(|bit| bit_of(*bit))
            .collect(alloc)?,
    )
}

/// Puts the address of a word of a port at the end.
#[tactic(auto, unfolding(crate::specs::Numbers::word_address))]
fn push_address(
    alloc: Global,
    list: &mut Vec<Bit>,
    wide: u32,
    addr: &[Bit],
    place: u32,
) -> Result<(), Memory>
    ensures { OnOk result (list.new.items ≡ list.old.items ++ table.word_address wide addr.now place) }
{
    let low = place_bits(alloc, wide, place)?;
    list.extend_from_slice(&low[..low.len().min(addr.len())])?;
    list.extend_from_slice(&addr[addr.len().min(wide as usize)..])?;
    Ok(())
}

/// Puts the addresses of all words of a port at the end.
#[tactic(auto, using(crate::proofs::Steps::addresses_step, crate::proofs::Steps::addresses_none), unfolding(crate::specs::Numbers::word_addresses))]
pub fn push_addresses(
    alloc: Global,
    list: &mut Vec<Bit>,
    wide: u32,
    addr: &[Bit],
) -> Result<(), Memory>
    requires { 2 ^ wide ≤ 64 }
    ensures { OnOk result (list.new.items ≡ list.old.items ++ table.word_addresses wide addr.now) }
{
    let words = words(wide);
    let mut place = 0;
    while place < words {
        push_address(alloc, list, wide, addr, place)?;
        place += 1;
    }
    Ok(())
}
