//! The pins of the cell that holds a memory.
ghost use Rattle.std.specs.Prelude.{◌≡◌, [], ◌∷◌, ◌++◌, IfOk, OnOk};
ghost use Rattle.mem_pack.specs.Laws.{IsSmall};
ghost use Rattle.mem_pack.specs.Packed as packed;

use crate::{reads as from_reads, writes as from_writes};
use lib_core::{List, Memory, Name};
use net_core::{Bit, Mem, Pin};
use std::alloc::Global;

fn input(alloc: Global, name: &[u8], bits: List<Bit>) -> Result<Pin, Memory>
    ensures { IfOk result (λ pin. pin ≡ packed.input name.now bits) }
{
    Ok(Pin {
        name: Name::from_vec(Vec::from_slice(alloc, name)?),
        drives: false,
        bits,
    })
}

fn output(alloc: Global, name: &[u8], bits: List<Bit>) -> Result<Pin, Memory>
    ensures { IfOk result (λ pin. pin ≡ packed.output name.now bits) }
{
    Ok(Pin {
        name: Name::from_vec(Vec::from_slice(alloc, name)?),
        drives: true,
        bits,
    })
}

/// Puts an input at the end.
fn push_input(
    alloc: Global,
    list: &mut Vec<Pin>,
    name: &[u8],
    bits: List<Bit>,
) -> Result<(), Memory>
    ensures { OnOk result (list.new.items ≡ list.old.items ++ packed.input name.now bits ∷ []) }
{
    list.push(input(alloc, name, bits)?)?;
    Ok(())
}

#[tactic(auto, unfolding(crate::specs::Packed::read_control_pins))]
fn push_read_controls(alloc: Global, list: &mut Vec<Pin>, mem: &Mem) -> Result<(), Memory>
    requires { IsSmall mem.now }
    ensures { OnOk result (list.new.items ≡ list.old.items ++ packed.read_control_pins mem.now) }
{
    let reads = mem.reads.as_slice();
    let clocks = from_reads::read_clocks(alloc, reads)?;
    push_input(alloc, list, b"\\RD_CLK", clocks)?;
    let en = from_reads::read_en(alloc, reads)?;
    push_input(alloc, list, b"\\RD_EN", en)?;
    Ok(())
}

#[tactic(auto, unfolding(crate::specs::Packed::read_reset_pins))]
fn push_read_resets(alloc: Global, list: &mut Vec<Pin>, mem: &Mem) -> Result<(), Memory>
    requires { IsSmall mem.now }
    ensures { OnOk result (list.new.items ≡ list.old.items ++ packed.read_reset_pins mem.now) }
{
    let reads = mem.reads.as_slice();
    let arst = from_reads::read_arst(alloc, reads)?;
    push_input(alloc, list, b"\\RD_ARST", arst)?;
    let srst = from_reads::read_srst(alloc, reads)?;
    push_input(alloc, list, b"\\RD_SRST", srst)?;
    Ok(())
}

#[tactic(auto, unfolding(crate::specs::Packed::read_word_pins))]
fn push_read_words(alloc: Global, list: &mut Vec<Pin>, mem: &Mem) -> Result<(), Memory>
    requires { IsSmall mem.now }
    ensures { OnOk result (list.new.items ≡ list.old.items ++ packed.read_word_pins mem.now) }
{
    let reads = mem.reads.as_slice();
    let addr = from_reads::read_addr(alloc, reads)?;
    push_input(alloc, list, b"\\RD_ADDR", addr)?;
    let words = from_reads::read_words(alloc, reads)?;
    list.push(output(alloc, b"\\RD_DATA", words)?)?;
    Ok(())
}

#[tactic(auto, unfolding(crate::specs::Packed::write_control_pins))]
fn push_write_controls(alloc: Global, list: &mut Vec<Pin>, mem: &Mem) -> Result<(), Memory>
    requires { IsSmall mem.now }
    ensures { OnOk result (list.new.items ≡ list.old.items ++ packed.write_control_pins mem.now) }
{
    let writes = mem.writes.as_slice();
    let clocks = from_writes::write_clocks(alloc, writes)?;
    push_input(alloc, list, b"\\WR_CLK", clocks)?;
    let en = from_writes::write_en(alloc, writes)?;
    push_input(alloc, list, b"\\WR_EN", en)?;
    Ok(())
}

#[tactic(auto, unfolding(crate::specs::Packed::write_word_pins))]
fn push_write_words(alloc: Global, list: &mut Vec<Pin>, mem: &Mem) -> Result<(), Memory>
    requires { IsSmall mem.now }
    ensures { OnOk result (list.new.items ≡ list.old.items ++ packed.write_word_pins mem.now) }
{
    let writes = mem.writes.as_slice();
    let addr = from_writes::write_addr(alloc, writes)?;
    push_input(alloc, list, b"\\WR_ADDR", addr)?;
    let words = from_writes::write_words(alloc, writes)?;
    push_input(alloc, list, b"\\WR_DATA", words)?;
    Ok(())
}

fn push_reads(alloc: Global, list: &mut Vec<Pin>, mem: &Mem) -> Result<(), Memory>
    requires { IsSmall mem.now }
    ensures { OnOk result (list.new.items ≡ list.old.items ++ packed.read_pins mem.now) }
{
    push_read_controls(alloc, list, mem)?;
    push_read_resets(alloc, list, mem)?;
    push_read_words(alloc, list, mem)?;
    Ok(())
}

fn push_writes(alloc: Global, list: &mut Vec<Pin>, mem: &Mem) -> Result<(), Memory>
    requires { IsSmall mem.now }
    ensures { OnOk result (list.new.items ≡ list.old.items ++ packed.write_pins mem.now) }
{
    push_write_controls(alloc, list, mem)?;
    push_write_words(alloc, list, mem)?;
    Ok(())
}

/// The pins of the cell, in the order of the cell library.
pub fn packed_pins(alloc: Global, mem: &Mem) -> Result<List<Pin>, Memory>
    requires { IsSmall mem.now }
    ensures { IfOk result (λ list. list ≡ packed.packed_pins mem.now) }
{
    let mut list = Vec::new(alloc);
    push_reads(alloc, &mut list, mem)?;
    push_writes(alloc, &mut list, mem)?;
    Ok(List::from_vec(list))
}
