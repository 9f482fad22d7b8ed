//! The parameters of the cell that holds a memory.
ghost use Rattle.std.specs.Prelude.{◌≡◌, [], ◌∷◌, ◌++◌, map, IfOk, OnOk};
ghost use Rattle.cell_consts.specs.Consts.{number_attr};
ghost use Rattle.net_core.specs.Values.{tri_of};
ghost use Rattle.mem_pack.specs.Laws.{IsSmall};
ghost use Rattle.mem_pack.specs.Packed as packed;

use crate::writes::write_wides;
use crate::{reads as from_reads, writes as from_writes};
use cell_consts::{bits_attr, number_attr, text_attr};
use lib_core::{List, Memory, Tri};
use net_core::{Attr, Mem};
use std::alloc::Global;

fn tri_of(flag: bool) -> Tri
    ensures { result ≡ tri_of flag }
{
    if flag { Tri::One } else { Tri::Zero }
}

/// The bits, and one 0 where there are none.
fn some_bits(alloc: Global, bits: &[Tri]) -> Result<List<Tri>, Memory>
    ensures { IfOk result (λ list. list ≡ packed.some_bits bits.now) }
{
    match bits {
        [] => Ok(List::from_vec(Vec::from_elem(alloc, Tri::Zero, 1)?)),
        _ => Ok(List::from_vec(Vec::from_slice(alloc, bits)?)),
    }
}

#[tactic(auto, unfolding(crate::specs::Packed::values_attr))]
fn values_attr(alloc: Global, name: &[u8], values: &[Tri]) -> Result<Attr, Memory>
    ensures { IfOk result (λ attr. attr ≡ packed.values_attr name.now values.now) }
{
    let bits = some_bits(alloc, values)?;
    bits_attr(alloc, name, &bits)
}

fn tris(alloc: Global, flags: &[bool]) -> Result<Vec<Tri>, Memory>
    ensures { IfOk result (λ list. list.items ≡ map tri_of flags.now) }
{
    Ok(flags.iter().map(|flag| tri_of(*flag)).collect(alloc)?)
}

#[tactic(auto, unfolding(crate::specs::Packed::flags_attr, crate::specs::Packed::values_attr))]
fn flags_attr(alloc: Global, name: &[u8], flags: List<bool>) -> Result<Attr, Memory>
    ensures { IfOk result (λ attr. attr ≡ packed.flags_attr name.now flags) }
{
    let bits = tris(alloc, flags.as_slice())?;
    values_attr(alloc, name, bits.as_slice())
}

/// Puts a parameter that is a number at the end.
fn push_number(alloc: Global, list: &mut Vec<Attr>, name: &[u8], number: u32) -> Result<(), Memory>
    ensures { OnOk result (list.new.items ≡ list.old.items ++ number_attr name.now number ∷ []) }
{
    list.push(number_attr(alloc, name, number)?)?;
    Ok(())
}

/// Puts a parameter of flags at the end.
fn push_flags(
    alloc: Global,
    list: &mut Vec<Attr>,
    name: &[u8],
    flags: List<bool>,
) -> Result<(), Memory>
    ensures { OnOk result (list.new.items ≡ list.old.items ++ packed.flags_attr name.now flags ∷ []) }
{
    list.push(flags_attr(alloc, name, flags)?)?;
    Ok(())
}

/// Puts a parameter of values at the end.
fn push_values(
    alloc: Global,
    list: &mut Vec<Attr>,
    name: &[u8],
    values: List<Tri>,
) -> Result<(), Memory>
    ensures { OnOk result (list.new.items ≡ list.old.items ++ packed.values_attr name.now values ∷ []) }
{
    list.push(values_attr(alloc, name, values.as_slice())?)?;
    Ok(())
}

#[tactic(auto, unfolding(crate::specs::Packed::name_params))]
fn push_name(alloc: Global, list: &mut Vec<Attr>, mem: &Mem) -> Result<(), Memory>
    ensures { OnOk result (list.new.items ≡ list.old.items ++ packed.name_params mem.now) }
{
    list.push(text_attr(alloc, b"\\MEMID", &mem.name)?)?;
    push_number(alloc, list, b"\\SIZE", mem.size)?;
    Ok(())
}

#[tactic(auto, unfolding(crate::specs::Packed::address_params))]
fn push_address(alloc: Global, list: &mut Vec<Attr>, mem: &Mem) -> Result<(), Memory>
    ensures { OnOk result (list.new.items ≡ list.old.items ++ packed.address_params mem.now) }
{
    push_number(alloc, list, b"\\OFFSET", mem.offset)?;
    push_number(alloc, list, b"\\ABITS", mem.abits)?;
    Ok(())
}

#[tactic(auto, unfolding(crate::specs::Packed::word_params))]
fn push_words(alloc: Global, list: &mut Vec<Attr>, mem: &Mem) -> Result<(), Memory>
    ensures { OnOk result (list.new.items ≡ list.old.items ++ packed.word_params mem.now) }
{
    push_number(alloc, list, b"\\WIDTH", mem.width)?;
    list.push(bits_attr(alloc, b"\\INIT", &mem.init)?)?;
    Ok(())
}

#[tactic(auto, unfolding(crate::specs::Packed::read_clock_params))]
fn push_read_clocks(alloc: Global, list: &mut Vec<Attr>, mem: &Mem) -> Result<(), Memory>
    requires { IsSmall mem.now }
    ensures { OnOk result (list.new.items ≡ list.old.items ++ packed.read_clock_params mem.now) }
{
    let reads = mem.reads.as_slice();
    let count = from_reads::read_numbers(alloc, reads)?;
    push_number(alloc, list, b"\\RD_PORTS", count)?;
    let clocked = from_reads::read_clocked(alloc, reads)?;
    push_flags(alloc, list, b"\\RD_CLK_ENABLE", clocked)?;
    let rising = from_reads::read_rising(alloc, reads)?;
    push_flags(alloc, list, b"\\RD_CLK_POLARITY", rising)?;
    Ok(())
}

#[tactic(auto, unfolding(crate::specs::Packed::read_mask_params))]
fn push_read_masks(alloc: Global, list: &mut Vec<Attr>, mem: &Mem) -> Result<(), Memory>
    requires { IsSmall mem.now }
    ensures { OnOk result (list.new.items ≡ list.old.items ++ packed.read_mask_params mem.now) }
{
    let reads = mem.reads.as_slice();
    let writes = write_wides(alloc, mem.writes.as_slice())?;
    let trans = from_reads::read_trans(alloc, writes.as_slice(), reads)?;
    push_flags(alloc, list, b"\\RD_TRANSPARENCY_MASK", trans)?;
    let coll = from_reads::read_coll(alloc, writes.as_slice(), reads)?;
    push_flags(alloc, list, b"\\RD_COLLISION_X_MASK", coll)?;
    Ok(())
}

#[tactic(auto, unfolding(crate::specs::Packed::read_port_params))]
fn push_read_ports(alloc: Global, list: &mut Vec<Attr>, mem: &Mem) -> Result<(), Memory>
    requires { IsSmall mem.now }
    ensures { OnOk result (list.new.items ≡ list.old.items ++ packed.read_port_params mem.now) }
{
    let reads = mem.reads.as_slice();
    let behind = from_reads::read_behind(alloc, reads)?;
    push_flags(alloc, list, b"\\RD_WIDE_CONTINUATION", behind)?;
    let over = from_reads::read_over(alloc, reads)?;
    push_flags(alloc, list, b"\\RD_CE_OVER_SRST", over)?;
    Ok(())
}

#[tactic(auto, unfolding(crate::specs::Packed::read_value_params))]
fn push_read_values(alloc: Global, list: &mut Vec<Attr>, mem: &Mem) -> Result<(), Memory>
    ensures { OnOk result (list.new.items ≡ list.old.items ++ packed.read_value_params mem.now) }
{
    let reads = mem.reads.as_slice();
    let arst = from_reads::read_arst_values(alloc, reads)?;
    push_values(alloc, list, b"\\RD_ARST_VALUE", arst)?;
    let srst = from_reads::read_srst_values(alloc, reads)?;
    push_values(alloc, list, b"\\RD_SRST_VALUE", srst)?;
    Ok(())
}

#[tactic(auto, unfolding(crate::specs::Packed::read_start_params))]
fn push_read_starts(alloc: Global, list: &mut Vec<Attr>, mem: &Mem) -> Result<(), Memory>
    ensures { OnOk result (list.new.items ≡ list.old.items ++ packed.read_start_params mem.now) }
{
    let init = from_reads::read_init_values(alloc, mem.reads.as_slice())?;
    push_values(alloc, list, b"\\RD_INIT_VALUE", init)?;
    Ok(())
}

#[tactic(auto, unfolding(crate::specs::Packed::write_clock_params))]
fn push_write_clocks(alloc: Global, list: &mut Vec<Attr>, mem: &Mem) -> Result<(), Memory>
    requires { IsSmall mem.now }
    ensures { OnOk result (list.new.items ≡ list.old.items ++ packed.write_clock_params mem.now) }
{
    let writes = mem.writes.as_slice();
    let count = from_writes::write_numbers(alloc, writes)?;
    push_number(alloc, list, b"\\WR_PORTS", count)?;
    let clocked = from_writes::write_clocked(alloc, writes)?;
    push_flags(alloc, list, b"\\WR_CLK_ENABLE", clocked)?;
    let rising = from_writes::write_rising(alloc, writes)?;
    push_flags(alloc, list, b"\\WR_CLK_POLARITY", rising)?;
    Ok(())
}

#[tactic(auto, unfolding(crate::specs::Packed::write_port_params))]
fn push_write_ports(alloc: Global, list: &mut Vec<Attr>, mem: &Mem) -> Result<(), Memory>
    requires { IsSmall mem.now }
    ensures { OnOk result (list.new.items ≡ list.old.items ++ packed.write_port_params mem.now) }
{
    let writes = mem.writes.as_slice();
    let prio = from_writes::write_prio(alloc, writes)?;
    push_flags(alloc, list, b"\\WR_PRIORITY_MASK", prio)?;
    let behind = from_writes::write_behind(alloc, writes)?;
    push_flags(alloc, list, b"\\WR_WIDE_CONTINUATION", behind)?;
    Ok(())
}

fn push_sizes(alloc: Global, list: &mut Vec<Attr>, mem: &Mem) -> Result<(), Memory>
    ensures { OnOk result (list.new.items ≡ list.old.items ++ packed.size_params mem.now) }
{
    push_name(alloc, list, mem)?;
    push_address(alloc, list, mem)?;
    push_words(alloc, list, mem)?;
    Ok(())
}

fn push_reads(alloc: Global, list: &mut Vec<Attr>, mem: &Mem) -> Result<(), Memory>
    requires { IsSmall mem.now }
    ensures { OnOk result (list.new.items ≡ list.old.items ++ packed.read_params mem.now) }
{
    push_read_clocks(alloc, list, mem)?;
    push_read_masks(alloc, list, mem)?;
    push_read_ports(alloc, list, mem)?;
    push_read_values(alloc, list, mem)?;
    push_read_starts(alloc, list, mem)?;
    Ok(())
}

fn push_writes(alloc: Global, list: &mut Vec<Attr>, mem: &Mem) -> Result<(), Memory>
    requires { IsSmall mem.now }
    ensures { OnOk result (list.new.items ≡ list.old.items ++ packed.write_params mem.now) }
{
    push_write_clocks(alloc, list, mem)?;
    push_write_ports(alloc, list, mem)?;
    Ok(())
}

/// The parameters of the cell, in the order of the cell library.
pub fn packed_params(alloc: Global, mem: &Mem) -> Result<List<Attr>, Memory>
    requires { IsSmall mem.now }
    ensures { IfOk result (λ list. list ≡ packed.packed_params mem.now) }
{
    let mut list = Vec::new(alloc);
    push_sizes(alloc, &mut list, mem)?;
    push_reads(alloc, &mut list, mem)?;
    push_writes(alloc, &mut list, mem)?;
    Ok(List::from_vec(list))
}
