//! What the reads of a memory have, by port numbers.
ghost use Rattle.std.specs.Prelude.{◌≡◌, ◌≤◌, ◌++◌, map, IfOk, OnOk};
ghost use Rattle.mem_pack.specs.Numbers.{numbers};
ghost use Rattle.mem_pack.specs.Lists as lists;

use crate::numbers::{
    continuations, each_bit, each_flag, numbers, push_addresses, push_rows, words,
};
use lib_core::{List, Memory, Tri};
use net_core::{Bit, Clock, RdPort};
use std::alloc::Global;

/// The bit of a clock pin.
pub fn clock_bit(clock: Clock) -> Bit
    ensures { result ≡ lists.clock_bit clock }
{
    match clock {
        Clock::Root { net, .. } => Bit::Net(net),
        Clock::Never => Bit::Zero,
    }
}

/// The edge of a clock.
pub fn clock_rises(clock: Clock) -> bool
    ensures { result ≡ lists.clock_rises clock }
{
    match clock {
        Clock::Root { rising, .. } => rising,
        Clock::Never => true,
    }
}

fn bit_if_clocked(clock: Option<Clock>) -> Bit
    ensures { result ≡ lists.bit_if_clocked clock }
{
    match clock {
        None => Bit::Zero,
        Some(clock) => clock_bit(clock),
    }
}

fn rises_if_clocked(clock: Option<Clock>) -> bool
    ensures { result ≡ lists.rises_if_clocked clock }
{
    match clock {
        None => true,
        Some(clock) => clock_rises(clock),
    }
}

/// The powers of the reads.
pub fn read_wides(alloc: Global, reads: &[RdPort]) -> Result<Vec<u32>, Memory>
    ensures { IfOk result (λ wides. wides.items ≡ lists.read_wides reads.now) }
{
    Ok(reads.iter().map(|read| read.wide).collect(alloc)?)
}

/// How many port numbers they take.
#[tactic(auto, unfolding(crate::specs::Lists::read_numbers))]
pub fn read_numbers(alloc: Global, reads: &[RdPort]) -> Result<u32, Memory>
    requires { numbers (lists.read_wides reads.now) ≤ 64 }
    ensures { IfOk result (λ count. count ≡ lists.read_numbers reads.now) }
{
    let wides = read_wides(alloc, reads)?;
    Ok(numbers(wides.as_slice()))
}

/// For each port number whether it continues a port.
#[tactic(auto, unfolding(crate::specs::Lists::read_behind))]
pub fn read_behind(alloc: Global, reads: &[RdPort]) -> Result<List<bool>, Memory>
    requires { numbers (lists.read_wides reads.now) ≤ 64 }
    ensures { IfOk result (λ list. list ≡ lists.read_behind reads.now) }
{
    let wides = read_wides(alloc, reads)?;
    continuations(alloc, wides.as_slice())
}

fn clocked_reads(alloc: Global, reads: &[RdPort]) -> Result<Vec<bool>, Memory>
    ensures { IfOk result (λ flags. flags.items ≡ lists.clocked_reads reads.now) }
{
    Ok(
        reads
            .iter()
            .map(|read| read.clock.is_some())
            .collect(alloc)?,
    )
}

pub fn read_clocked(alloc: Global, reads: &[RdPort]) -> Result<List<bool>, Memory>
    requires { numbers (lists.read_wides reads.now) ≤ 64 }
    ensures { IfOk result (λ list. list ≡ lists.read_clocked reads.now) }
{
    let wides = read_wides(alloc, reads)?;
    let flags = clocked_reads(alloc, reads)?;
    each_flag(alloc, wides.as_slice(), flags.as_slice())
}

fn rising_reads(alloc: Global, reads: &[RdPort]) -> Result<Vec<bool>, Memory>
    ensures { IfOk result (λ flags. flags.items ≡ lists.rising_reads reads.now) }
{
    Ok(
        reads
            .iter()
            .map(|read| rises_if_clocked(read.clock))
            .collect(alloc)?,
    )
}

pub fn read_rising(alloc: Global, reads: &[RdPort]) -> Result<List<bool>, Memory>
    requires { numbers (lists.read_wides reads.now) ≤ 64 }
    ensures { IfOk result (λ list. list ≡ lists.read_rising reads.now) }
{
    let wides = read_wides(alloc, reads)?;
    let flags = rising_reads(alloc, reads)?;
    each_flag(alloc, wides.as_slice(), flags.as_slice())
}

fn ordered_reads(alloc: Global, reads: &[RdPort]) -> Result<Vec<bool>, Memory>
    ensures { IfOk result (λ flags. flags.items ≡ lists.ordered_reads reads.now) }
{
    Ok(reads.iter().map(|read| read.ce_over_srst).collect(alloc)?)
}

pub fn read_over(alloc: Global, reads: &[RdPort]) -> Result<List<bool>, Memory>
    requires { numbers (lists.read_wides reads.now) ≤ 64 }
    ensures { IfOk result (λ list. list ≡ lists.read_over reads.now) }
{
    let wides = read_wides(alloc, reads)?;
    let flags = ordered_reads(alloc, reads)?;
    each_flag(alloc, wides.as_slice(), flags.as_slice())
}

fn clock_bits_of_reads(alloc: Global, reads: &[RdPort]) -> Result<Vec<Bit>, Memory>
    ensures { IfOk result (λ bits. bits.items ≡ lists.clock_bits_of_reads reads.now) }
{
    Ok(
        reads
            .iter()
            .map(|read| bit_if_clocked(read.clock))
            .collect(alloc)?,
    )
}

pub fn read_clocks(alloc: Global, reads: &[RdPort]) -> Result<List<Bit>, Memory>
    requires { numbers (lists.read_wides reads.now) ≤ 64 }
    ensures { IfOk result (λ list. list ≡ lists.read_clocks reads.now) }
{
    let wides = read_wides(alloc, reads)?;
    let bits = clock_bits_of_reads(alloc, reads)?;
    each_bit(alloc, wides.as_slice(), bits.as_slice())
}

fn enables_of_reads(alloc: Global, reads: &[RdPort]) -> Result<Vec<Bit>, Memory>
    ensures { IfOk result (λ bits. bits.items ≡ lists.enables_of_reads reads.now) }
{
    Ok(reads.iter().map(|read| read.en).collect(alloc)?)
}

pub fn read_en(alloc: Global, reads: &[RdPort]) -> Result<List<Bit>, Memory>
    requires { numbers (lists.read_wides reads.now) ≤ 64 }
    ensures { IfOk result (λ list. list ≡ lists.read_en reads.now) }
{
    let wides = read_wides(alloc, reads)?;
    let bits = enables_of_reads(alloc, reads)?;
    each_bit(alloc, wides.as_slice(), bits.as_slice())
}

fn arsts_of_reads(alloc: Global, reads: &[RdPort]) -> Result<Vec<Bit>, Memory>
    ensures { IfOk result (λ bits. bits.items ≡ lists.arsts_of_reads reads.now) }
{
    Ok(reads.iter().map(|read| read.arst).collect(alloc)?)
}

pub fn read_arst(alloc: Global, reads: &[RdPort]) -> Result<List<Bit>, Memory>
    requires { numbers (lists.read_wides reads.now) ≤ 64 }
    ensures { IfOk result (λ list. list ≡ lists.read_arst reads.now) }
{
    let wides = read_wides(alloc, reads)?;
    let bits = arsts_of_reads(alloc, reads)?;
    each_bit(alloc, wides.as_slice(), bits.as_slice())
}

fn srsts_of_reads(alloc: Global, reads: &[RdPort]) -> Result<Vec<Bit>, Memory>
    ensures { IfOk result (λ bits. bits.items ≡ lists.srsts_of_reads reads.now) }
{
    Ok(reads.iter().map(|read| read.srst).collect(alloc)?)
}

pub fn read_srst(alloc: Global, reads: &[RdPort]) -> Result<List<Bit>, Memory>
    requires { numbers (lists.read_wides reads.now) ≤ 64 }
    ensures { IfOk result (λ list. list ≡ lists.read_srst reads.now) }
{
    let wides = read_wides(alloc, reads)?;
    let bits = srsts_of_reads(alloc, reads)?;
    each_bit(alloc, wides.as_slice(), bits.as_slice())
}

pub fn read_addr(alloc: Global, reads: &[RdPort]) -> Result<List<Bit>, Memory>
    requires { numbers (lists.read_wides reads.now) ≤ 64 }
    ensures { IfOk result (λ list. list ≡ lists.read_addr reads.now) }
{
    let mut list = Vec::new(alloc);
    let mut rest = reads;
    while let [read, tail @ ..] = rest {
        push_addresses(alloc, &mut list, read.wide, read.addr.as_slice())?;
        rest = tail;
    }
    Ok(List::from_vec(list))
}

/// Puts nets at the end.
fn push_net_bits(list: &mut Vec<Bit>, nets: &[u32]) -> Result<(), Memory>
    ensures { OnOk result (list.new.items ≡ list.old.items ++ lists.net_bits nets.now) }
{
    let mut rest = nets;
    while let [net, tail @ ..] = rest {
        list.push(Bit::Net(*net))?;
        rest = tail;
    }
    Ok(())
}

pub fn read_words(alloc: Global, reads: &[RdPort]) -> Result<List<Bit>, Memory>
    ensures { IfOk result (λ list. list ≡ lists.read_words reads.now) }
{
    let mut list = Vec::new(alloc);
    let mut rest = reads;
    while let [read, tail @ ..] = rest {
        push_net_bits(&mut list, read.out.as_slice())?;
        rest = tail;
    }
    Ok(List::from_vec(list))
}

pub fn read_arst_values(alloc: Global, reads: &[RdPort]) -> Result<List<Tri>, Memory>
    ensures { IfOk result (λ list. list ≡ lists.read_arst_values reads.now) }
{
    let mut list = Vec::new(alloc);
    let mut rest = reads;
    while let [read, tail @ ..] = rest {
        list.extend_from_slice(read.arst_value.as_slice())?;
        rest = tail;
    }
    Ok(List::from_vec(list))
}

pub fn read_srst_values(alloc: Global, reads: &[RdPort]) -> Result<List<Tri>, Memory>
    ensures { IfOk result (λ list. list ≡ lists.read_srst_values reads.now) }
{
    let mut list = Vec::new(alloc);
    let mut rest = reads;
    while let [read, tail @ ..] = rest {
        list.extend_from_slice(read.srst_value.as_slice())?;
        rest = tail;
    }
    Ok(List::from_vec(list))
}

pub fn read_init_values(alloc: Global, reads: &[RdPort]) -> Result<List<Tri>, Memory>
    ensures { IfOk result (λ list. list ≡ lists.read_init_values reads.now) }
{
    let mut list = Vec::new(alloc);
    let mut rest = reads;
    while let [read, tail @ ..] = rest {
        list.extend_from_slice(read.init_value.as_slice())?;
        rest = tail;
    }
    Ok(List::from_vec(list))
}

#[tactic(auto, unfolding(crate::specs::Lists::read_trans))]
pub fn read_trans(alloc: Global, writes: &[u32], reads: &[RdPort]) -> Result<List<bool>, Memory>
    requires writes { numbers writes.now ≤ 64 }
    requires reads { numbers (lists.read_wides reads.now) ≤ 64 }
    ensures { IfOk result (λ list. list ≡ lists.read_trans writes.now reads.now) }
{
    let mut list = Vec::new(alloc);
    let mut rest = reads;
    while let [read, tail @ ..] = rest {
        push_rows(&mut list, words(read.wide), writes, read.trans.as_slice())?;
        rest = tail;
    }
    Ok(List::from_vec(list))
}

#[tactic(auto, unfolding(crate::specs::Lists::read_coll))]
pub fn read_coll(alloc: Global, writes: &[u32], reads: &[RdPort]) -> Result<List<bool>, Memory>
    requires writes { numbers writes.now ≤ 64 }
    requires reads { numbers (lists.read_wides reads.now) ≤ 64 }
    ensures { IfOk result (λ list. list ≡ lists.read_coll writes.now reads.now) }
{
    let mut list = Vec::new(alloc);
    let mut rest = reads;
    while let [read, tail @ ..] = rest {
        push_rows(&mut list, words(read.wide), writes, read.coll.as_slice())?;
        rest = tail;
    }
    Ok(List::from_vec(list))
}
