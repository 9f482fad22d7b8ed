//! A module under edit.
ghost use Rattle.std.specs.Prelude.{◌≡◌, ◌+◌, ◌^◌, ◌<◌, ◌≤◌, ◌++◌, length, IfOk, OnOk, OnErr};
ghost use Rattle.net_edit.specs.Edits as spec;
ghost use Rattle.net_edit.specs.Redirect.{finished};
ghost use Rattle.net_edit.specs.Laws.{CanAlias, with_alias};

use crate::fault::EditFault;
use crate::naming::{Numbered, front_of, next_name};
use crate::redirect::redirect;
use lib_core::{List, Memory, Name};
use net_core::{Bit, Comb, Mem, Module, Reg};
use std::alloc::Global;
use std::marker::Model;
use std::mem;

/// The nets that a module has at most.
const MOST_NETS: u64 = 67_108_864;

/// A module under edit. Contracts see the netlist so far, and for each net the bit that its readers
/// read in the module that `finish` gives.
#[derive(Drop)]
pub struct Edit {
    alloc: Global,
    module: Module,
    reads: Vec<Bit>,
    /// What the names of new cells begin with.
    front: Name,
    /// The number of the next new cell.
    count: u64,
}

impl Model for Edit {
    ghost use Rattle.net_core.specs.Valid.{cell_names};
    ghost use Rattle.net_edit.specs.Edits.{Editing};
    ghost use Rattle.net_edit.specs.Names.{IsFront, AreFree};

    ghost Value = { Editing };

    ghost view = { λ e. record { netlist = e.«module»; reads = e.reads.items } };

    ghost invariant = { λ e. IsFront e.front × AreFree e.front e.count (cell_names e.«module») };
}

/// So many nets, numbered on from one.
#[tactic(auto, using(crate::proofs::Ranges::range_more))]
fn nets_from(alloc: Global, first: u32, count: u32) -> Result<List<u32>, Memory>
    requires { first + count < 2 ^ 32 }
    ensures { IfOk result (λ nets. nets ≡ spec.nets_from first count) }
{
    let mut nets = Vec::with_capacity(alloc, count as usize)?;
    for place in 0..count {
        nets.push(first + place)?;
    }
    Ok(List::from_vec(nets))
}

/// These nets as bits.
fn bits_of(alloc: Global, nets: &[u32]) -> Result<Vec<Bit>, Memory>
    ensures { IfOk result (λ bits. bits.items ≡ spec.as_bits nets.now) }
{
    Ok(nets.iter().map(|net| Bit::Net(*net)).collect(alloc)?)
}

/// So many nets, numbered on from one; each of them is read as itself. Without memory nothing changes.
fn read_more(
    alloc: Global,
    reads: &mut Vec<Bit>,
    first: u32,
    count: u32,
) -> Result<List<u32>, Memory>
    requires { first + count < 2 ^ 32 }
    ensures nets { IfOk result (λ nets. nets ≡ spec.nets_from first count) }
    ensures ok { OnOk result (reads.new.items ≡ reads.old.items ++ spec.bits_from first count) }
    ensures err { OnErr result (reads.new.items ≡ reads.old.items) }
{
    let nets = nets_from(alloc, first, count)?;
    let mut bits = bits_of(alloc, nets.as_slice())?;
    reads.append(&mut bits)?;
    Ok(nets)
}

/// Rotates the items from a place on to the right.
fn rotate_tail<T>(items: &mut [T], index: usize, count: usize)
    requires start { index ≤ length items.old }
    requires room { index + count ≤ length items.old }
    ensures { items.new ≡ spec.tail_rotated items.old index count }
{
    items[index..].rotate_right(count);
}

/// Puts the items of a list in the place of one item. Without memory nothing changes.
#[tactic(auto, using(crate::proofs::Splicing::spliced_is))]
fn splice<T: Drop>(items: &mut Vec<T>, index: usize, more: Vec<T>) -> Result<(), Memory>
    requires { index < length items.old.items }
    ensures ok { OnOk result (items.new.items ≡ spec.spliced items.old.items index more.items) }
    ensures err { OnErr result (items.new.items ≡ items.old.items) }
{
    let mut more = more;
    let count = more.len();
    items.append(&mut more)?;
    items.remove(index);
    rotate_tail(items.as_mut_slice(), index, count);
    Ok(())
}

impl Edit {
    /// The module as it is, each net read as itself.
    pub fn new(alloc: Global, module: Module) -> Result<Edit, Memory>
        ensures netlist { IfOk result (λ edit. edit.netlist ≡ «module») }
        ensures reads { IfOk result (λ edit. edit.reads ≡ spec.bits_from 0 «module».nets) }
    {
        let nets = nets_from(alloc, 0, module.nets)?;
        let reads = bits_of(alloc, nets.as_slice())?;
        let front = front_of(alloc, &module)?;
        Ok(Edit {
            alloc,
            module,
            reads,
            front,
            count: 0,
        })
    }

    /// The netlist so far.
    pub fn netlist(&self) -> &Module
        ensures { result.now ≡ self.now.netlist }
    {
        &self.module
    }

    /// The module that was made: every reader of a net reads the bit that the edit has for it. It takes
    /// no memory.
    pub fn finish(self) -> Module
        ensures { result ≡ finished self }
    {
        let Edit {
            mut module,
            reads,
            ..
        } = self;
        redirect(reads.as_slice(), &mut module);
        module
    }

    /// So many new nets, numbered on from those of the module. The answer is `Full`, with the number of
    /// nets that there would be, exactly where they are more than 67,108,864. Where nets are refused
    /// the edit stays as it was.
    pub fn fresh(&mut self, count: u32) -> Result<List<u32>, EditFault>
        ensures nets { IfOk result (λ nets. nets ≡ spec.nets_from self.old.netlist.nets count) }
        ensures ok { OnOk result (self.new ≡ spec.with_fresh self.old count) }
        ensures err { OnErr result (self.new ≡ self.old) }
        ensures fits { spec.FitsNets (self.old.netlist.nets + count) result }
    {
        let first = self.module.nets;
        let seen = u64::from(first) + u64::from(count);
        if seen > MOST_NETS {
            return Err(EditFault::Full { seen });
        }
        match read_more(self.alloc, &mut self.reads, first, count) {
            Ok(nets) => {
                self.module.nets = first + count;
                Ok(nets)
            }
            Err(Memory) => Err(EditFault::Memory),
        }
    }

    /// Puts a logic cell behind the others, under a fresh name in the place of its own. Where it is
    /// refused the edit stays as it was.
    #[tactic(auto, using(crate::proofs::FreshNames::fresh_is, crate::proofs::FreshNames::comb_free))]
    pub fn add_comb(&mut self, cell: Comb) -> Result<(), Memory>
        ensures ok { OnOk result (spec.AddsComb self.old self.new cell) }
        ensures err { OnErr result (self.new ≡ self.old) }
    {
        let Numbered { name, next } = next_name(self.alloc, &self.front, self.count)?;
        self.module.combs.push(Comb { name, ..cell })?;
        self.count = next;
        Ok(())
    }

    /// Puts a register behind the others, under a fresh name in the place of its own. Where it is
    /// refused the edit stays as it was.
    #[tactic(auto, using(crate::proofs::FreshNames::fresh_is, crate::proofs::FreshNames::reg_free))]
    pub fn add_reg(&mut self, cell: Reg) -> Result<(), Memory>
        ensures ok { OnOk result (spec.AddsReg self.old self.new cell) }
        ensures err { OnErr result (self.new ≡ self.old) }
    {
        let Numbered { name, next } = next_name(self.alloc, &self.front, self.count)?;
        self.module.regs.push(Reg { name, ..cell })?;
        self.count = next;
        Ok(())
    }

    /// Takes a logic cell out; the others keep their order. It takes no memory.
    #[tactic(auto, using(crate::proofs::FreshNames::comb_fewer))]
    pub fn drop_comb(&mut self, index: u32)
        requires { index < length self.old.netlist.combs }
        ensures { self.new ≡ spec.on_netlist self.old (spec.without_comb self.old.netlist index) }
    {
        let empty = List::from_vec(Vec::new(self.alloc));
        let mut combs = mem::replace(&mut self.module.combs, empty).into_vec();
        combs.remove(index as usize);
        self.module.combs = List::from_vec(combs);
    }

    /// Takes a register out; the others keep their order. It takes no memory.
    #[tactic(auto, using(crate::proofs::FreshNames::reg_fewer))]
    pub fn drop_reg(&mut self, index: u32)
        requires { index < length self.old.netlist.regs }
        ensures { self.new ≡ spec.on_netlist self.old (spec.without_reg self.old.netlist index) }
    {
        let empty = List::from_vec(Vec::new(self.alloc));
        let mut regs = mem::replace(&mut self.module.regs, empty).into_vec();
        regs.remove(index as usize);
        self.module.regs = List::from_vec(regs);
    }

    /// Puts memories in the place of one. Where they are refused the edit stays as it was.
    pub fn replace_mem(&mut self, index: u32, mems: List<Mem>) -> Result<(), Memory>
        requires { index < length self.old.netlist.mems }
        ensures ok { OnOk result (self.new ≡ spec.on_netlist self.old (spec.with_mems self.old.netlist index mems)) }
        ensures err { OnErr result (self.new ≡ self.old) }
    {
        let empty = List::from_vec(Vec::new(self.alloc));
        let mut items = mem::replace(&mut self.module.mems, empty).into_vec();
        let spliced = splice(&mut items, index as usize, mems.into_vec());
        self.module.mems = List::from_vec(items);
        spliced
    }

    /// Every reader of a net reads a bit, once the edit is finished. It takes no memory.
    pub fn alias(&mut self, net: u32, bit: Bit)
        requires { CanAlias self.old net bit }
        ensures { self.new ≡ with_alias self.old net bit }
    {
        self.reads[net as usize] = bit;
    }
}
