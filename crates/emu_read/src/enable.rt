//! The enable of a clocked read.
ghost use Rattle.std.specs.Prelude.{◌≡◌, ◌+◌, ◌^◌, ◌≤◌, ◌<◌, ◌∷◌, [], length, map, slice_get, Some, IfOk, OnOk, IsSome};
ghost use Rattle.net_core.specs.declared.bits.Clock.{Clock as ClockValue};
ghost use Rattle.net_core.specs.declared.mems.Mem.{Mem as MemValue};
ghost use Rattle.net_core.specs.declared.mems.RdPort.{RdPort as ReadValue};
ghost use Rattle.net_edit.specs.Edits as edits;
ghost use Rattle.net_gates.specs.Cells.{logic_cell};
ghost use Rattle.rewriting.specs.Reads.{with_read, IsRead};
ghost use Rattle.emu_read.specs.Joining.{with_port};
ghost use Rattle.emu_read.specs.Enable as spec;

use crate::listed::{mask_with, mask_without};
use lib_core::{Duplicate, List, Memory, Name, Tri};
use net_core::{Bit, Clock, Comb, CombKind, FfKind, Mem, RdPort, Reg};
use net_edit::{Edit, EditFault};
use std::alloc::Global;
use std::mem;

/// So many new nets, for which there is room.
pub(crate) fn new_nets(edit: &mut Edit, count: u32) -> Result<List<u32>, Memory>
    requires { edit.old.netlist.nets + count ≤ 67108864 }
    ensures nets { IfOk result (λ nets. nets ≡ edits.nets_from edit.old.netlist.nets count) }
    ensures ok { OnOk result (edit.new ≡ edits.with_fresh edit.old count) }
{
    match edit.fresh(count) {
        Ok(nets) => Ok(nets),
        Err(EditFault::Memory) => Err(Memory),
        Err(EditFault::Full { .. }) => unreachable!(),
    }
}

/// These nets as bits.
fn bits_of(alloc: Global, nets: &[u32]) -> Result<Vec<Bit>, Memory>
    ensures { IfOk result (λ bits. bits.items ≡ edits.as_bits nets.now) }
{
    Ok(nets.iter().map(|net| Bit::Net(*net)).collect(alloc)?)
}

/// A list of these nets as bits.
fn net_bits(alloc: Global, nets: &[u32]) -> Result<List<Bit>, Memory>
    ensures { IfOk result (λ bits. bits ≡ edits.as_bits nets.now) }
{
    Ok(List::from_vec(bits_of(alloc, nets)?))
}

/// A bit alone.
fn one_bit(alloc: Global, bit: Bit) -> Result<List<Bit>, Memory>
    ensures { IfOk result (λ bits. bits ≡ bit ∷ []) }
{
    let mut bits = Vec::new(alloc);
    bits.push(bit)?;
    Ok(List::from_vec(bits))
}

/// An undefined bit for each net.
fn undefined(alloc: Global, nets: &[u32]) -> Result<Vec<Tri>, Memory>
    ensures { IfOk result (λ bits. bits.items ≡ map (λ n. Tri.Any) nets.now) }
{
    Ok(nets.iter().map(|_| Tri::Any).collect(alloc)?)
}

/// A register that has no other pins, without a name.
fn plain_reg(alloc: Global, clock: Clock, d: List<Bit>, q: List<u32>) -> Result<Reg, Memory>
    ensures { IfOk result (λ reg. reg ≡ spec.plain_reg [] clock d q) }
{
    let init = List::from_vec(undefined(alloc, q.as_slice())?);
    Ok(Reg {
        name: Name::from_vec(Vec::new(alloc)),
        kind: FfKind::Dff,
        clock,
        en: Bit::Zero,
        en_high: false,
        arst: Bit::Zero,
        arst_high: false,
        arst_value: List::from_vec(Vec::new(alloc)),
        srst: Bit::Zero,
        srst_high: false,
        srst_value: List::from_vec(Vec::new(alloc)),
        d,
        q,
        init,
    })
}

/// The read loads at each edge into other nets.
fn always(alloc: Global, port: &RdPort, quiet: &[u32], q: List<u32>) -> Result<RdPort, Memory>
    ensures { IfOk result (λ read. read ≡ spec.loads_always quiet.now port.now q) }
{
    let mut read = port.duplicate(alloc)?;
    read.en = Bit::One;
    read.trans = mask_without(alloc, quiet, port.trans.as_slice())?;
    read.coll = mask_with(alloc, quiet, port.coll.as_slice())?;
    read.out = q;
    Ok(read)
}

/// The memory with another read at a place.
fn put_read(alloc: Global, memory: &mut Mem, at: usize, read: RdPort)
    requires { at < length memory.old.reads }
    ensures { memory.new ≡ with_read memory.old at read }
{
    let mut reads = mem::replace(&mut memory.reads, List::from_vec(Vec::new(alloc))).into_vec();
    reads[at] = read;
    memory.reads = List::from_vec(reads);
}

/// A memory of the module.
#[tactic(auto, using(crate::proofs::Placing::found))]
fn memory_at(edit: &Edit, mem: u32) -> &Mem
    requires { mem < length edit.now.netlist.mems }
    ensures { slice_get edit.now.netlist.mems mem ≡ Some result.now }
{
    &edit.netlist().mems.as_slice()[mem as usize]
}

/// A read of a memory.
#[tactic(auto, using(crate::proofs::Placing::found))]
fn port_at(memory: &Mem, read: u32) -> &RdPort
    requires { read < length memory.now.reads }
    ensures { slice_get memory.now.reads read ≡ Some result.now }
{
    &memory.reads.as_slice()[read as usize]
}

/// A memory alone.
fn one_mem(alloc: Global, memory: Mem) -> Result<List<Mem>, Memory>
    ensures { IfOk result (λ list. list ≡ memory ∷ []) }
{
    let mut list = Vec::new(alloc);
    list.push(memory)?;
    Ok(List::from_vec(list))
}

/// The nets outside a read.
#[derive(Drop)]
pub struct Nets {
    /// The new outputs.
    pub q: List<u32>,
    /// What was shown before the last edge.
    pub held: List<u32>,
    /// Whether the last edge loaded.
    pub loaded: List<u32>,
}

/// The nets outside a read of so many bits.
#[tactic(auto, using(crate::proofs::Placing::three_fresh))]
fn nets_outside(edit: &mut Edit, width: u32) -> Result<Nets, Memory>
    requires { edit.old.netlist.nets + (width + width + 1) ≤ 67108864 }
    ensures q { IfOk result (λ nets. nets.q ≡ edits.nets_from edit.old.netlist.nets width) }
    ensures held { IfOk result (λ nets. nets.held ≡ edits.nets_from (edit.old.netlist.nets + width) width) }
    ensures loaded { IfOk result (λ nets. nets.loaded ≡ edits.nets_from (edit.old.netlist.nets + width + width) 1) }
    ensures ok { IfOk result (λ _. edit.new ≡ edits.with_fresh edit.old (width + width + 1)) }
{
    let q = new_nets(edit, width)?;
    let held = new_nets(edit, width)?;
    let loaded = new_nets(edit, 1)?;
    Ok(Nets { q, held, loaded })
}

/// Another read in the place of one, which loads at each edge into other nets.
fn free(
    alloc: Global,
    edit: &mut Edit,
    mem: u32,
    read: u32,
    quiet: &[u32],
    q: List<u32>,
) -> Result<(), Memory>
    requires { spec.HasRead edit.old.netlist mem read }
    ensures { (x : MemValue) (p : ReadValue) → IsRead edit.old.netlist mem read x p → IfOk result (λ _. edit.new ≡ edits.on_netlist edit.old (with_port edit.old.netlist mem x read (spec.loads_always quiet.now p q))) }
{
    let mut memory = memory_at(edit, mem).copy(alloc)?;
    let port = always(alloc, port_at(&memory, read), quiet, q)?;
    put_read(alloc, &mut memory, read as usize, port);
    let list = one_mem(alloc, memory)?;
    edit.replace_mem(mem, list)?;
    Ok(())
}

/// A register behind the others.
fn add_plain(
    alloc: Global,
    edit: &mut Edit,
    clock: Clock,
    d: List<Bit>,
    q: List<u32>,
) -> Result<(), Memory>
    ensures { IfOk result (λ _. edits.AddsReg edit.old edit.new (spec.plain_reg [] clock d q)) }
{
    let cell = plain_reg(alloc, clock, d, q)?;
    edit.add_reg(cell)?;
    Ok(())
}

/// A choice over nets that nothing drives.
fn add_choice(
    alloc: Global,
    edit: &mut Edit,
    low: List<Bit>,
    high: List<Bit>,
    select: List<Bit>,
    out: List<u32>,
) -> Result<(), Memory>
    ensures { IfOk result (λ _. edits.AddsComb edit.old edit.new (logic_cell [] CombKind.Mux low high select out)) }
{
    edit.add_comb(Comb {
        name: Name::from_vec(Vec::new(alloc)),
        kind: CombKind::Mux,
        signed: false,
        a: low,
        b: high,
        s: select,
        y: out,
    })?;
    Ok(())
}

/// The clock of a clocked read.
fn clock_of(port: &RdPort) -> Clock
    requires { IsSome port.now.clock }
    ensures { port.now.clock ≡ Some result }
{
    match port.clock {
        Some(clock) => clock,
        None => unreachable!(),
    }
}

/// The cells outside a read: whether the last edge loaded, what was shown before it, and the choice.
#[tactic(auto, using(crate::proofs::Outside::cells_added))]
fn add_cells(
    alloc: Global,
    edit: &mut Edit,
    clock: Clock,
    en: Bit,
    out: List<u32>,
    nets: Nets,
) -> Result<(), Memory>
    ensures { IfOk result (λ _. spec.AddsCells edit.old edit.new (spec.plain_reg [] clock (en ∷ []) nets.loaded) (spec.plain_reg [] clock (edits.as_bits out) nets.held) (logic_cell [] CombKind.Mux (edits.as_bits nets.held) (edits.as_bits nets.q) (edits.as_bits nets.loaded) out)) }
{
    let Nets { q, held, loaded } = nets;
    let low = net_bits(alloc, held.as_slice())?;
    let high = net_bits(alloc, q.as_slice())?;
    let select = net_bits(alloc, loaded.as_slice())?;
    let flag = one_bit(alloc, en)?;
    let shown = net_bits(alloc, out.as_slice())?;
    add_plain(alloc, edit, clock, flag, loaded)?;
    add_plain(alloc, edit, clock, shown, held)?;
    add_choice(alloc, edit, low, high, select, out)?;
    Ok(())
}

/// How many nets these are.
fn width_of(nets: &[u32]) -> u32
    requires { length nets.now < 2 ^ 32 }
    ensures { result ≡ length nets.now }
{
    nets.len() as u32
}

/// What is taken of a read before it is changed.
#[derive(Drop)]
pub struct Outline {
    pub clock: Clock,
    pub en: Bit,
    pub out: List<u32>,
    pub width: u32,
}

/// What is taken of a read.
fn taken_of(alloc: Global, edit: &Edit, mem: u32, read: u32) -> Result<Outline, Memory>
    requires { spec.CanEmulate edit.now.netlist mem read }
    ensures { IfOk result (λ o. spec.Outlines edit.now.netlist mem read o.clock o.en o.out o.width) }
{
    let memory = memory_at(edit, mem);
    let port = port_at(memory, read);
    let clock = clock_of(port);
    let out = port.out.duplicate(alloc)?;
    let width = width_of(out.as_slice());
    Ok(Outline {
        clock,
        en: port.en,
        out,
        width,
    })
}

/// The read without its enable, and the cells outside it.
fn put_outside(
    alloc: Global,
    edit: &mut Edit,
    mem: u32,
    read: u32,
    quiet: &[u32],
    outline: Outline,
) -> Result<(), Memory>
    requires { spec.Outlines edit.old.netlist mem read outline.clock outline.en outline.out outline.width }
    ensures { (x : MemValue) (p : ReadValue) (clock : ClockValue) → IsRead edit.old.netlist mem read x p → p.clock ≡ Some clock → IfOk result (λ _. spec.PutsOutside edit.old edit.new mem read x p clock quiet.now) }
{
    let Outline {
        clock,
        en,
        out,
        width,
    } = outline;
    let nets = nets_outside(edit, width)?;
    let q = nets.q.duplicate(alloc)?;
    free(alloc, edit, mem, read, quiet, q)?;
    add_cells(alloc, edit, clock, en, out, nets)?;
    Ok(())
}

/// Puts the enable of a clocked read outside it: the read loads at each edge into new nets, and its old
/// nets are driven by logic that keeps what was shown last. Of the listed writes, which are never enabled
/// together with the read, it may take any value. Without memory the module is left in part.
pub fn emulate_enable(
    alloc: Global,
    edit: &mut Edit,
    mem: u32,
    read: u32,
    quiet: &[u32],
) -> Result<(), Memory>
    requires { spec.CanEmulate edit.old.netlist mem read }
    ensures rewrites { IfOk result (λ _. spec.EnableIsOutside quiet.now mem read edit.old.netlist edit.new.netlist) }
    ensures reads { IfOk result (λ _. spec.HasNewNets edit.old edit.new) }
{
    let outline = taken_of(alloc, edit, mem, read)?;
    put_outside(alloc, edit, mem, read, quiet, outline)?;
    Ok(())
}
