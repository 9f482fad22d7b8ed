//! What the cells of a module keep.
ghost use Rattle.std.specs.Prelude.{◌≡◌, ℕ, ◌+◌, ◌^◌, ◌<◌, ◌≤◌, Bool, List, Some, length, slice_get, IfOk};
ghost use Rattle.lib_core.specs.declared.library.Library.{Library};
ghost use Rattle.net_core.specs.declared.cells.Reg.{Reg};
ghost use Rattle.net_core.specs.declared.mems.Mem.{Mem};
ghost use Rattle.net_core.specs.declared.mems.RdPort.{RdPort};
ghost use Rattle.net_core.specs.declared.rams.RamCell.{RamCell};
ghost use Rattle.net_core.specs.declared.rams.SlotUse.{SlotUse};
ghost use Rattle.net_core.specs.Ram.{Slot, slots_of};
ghost use Rattle.net_core.specs.Values as bits;
ghost use Rattle.ram_step.specs.Moments.{valuation};
ghost use Rattle.ram_step.specs.States.{RamLook};
ghost use Rattle.sim_cells.specs.Registers.{reg_shown};
ghost use Rattle.sim_cells.specs.Memories.{MemLook, read_shown};
ghost use Rattle.picked_run.specs.Conditions.{CanRun};
ghost use Rattle.picked_run.specs.States.{sim_start, sim_stepped, reg_number, mem_number, ram_number};
ghost use Rattle.sim_state.specs.SimStates.{HasFewCells, IsStateOfCells, IsSimState};
ghost use Rattle.sim_state.specs.Shows.{ShowsSlot};

use crate::boxes::RamBox;
use crate::memories::{start_memories, step_memories};
use crate::rams::{show_ram, start_rams, step_rams};
use crate::registers::{start_registers, step_registers};
use lib_core::{Library, Memory};
use net_core::{Event, Module};
use ram_step::PickKey;
use sim_cells::{MemState, show_register};
use std::alloc::Global;
use std::marker::Model;

/// What the cells of a module keep in a simulation.
#[derive(Drop)]
pub struct SimState {
    regs: Vec<Vec<bool>>,
    mems: Vec<MemState>,
    /// Nothing where the library lacks the variant of the cell.
    rams: Vec<Option<RamBox>>,
}

impl Model for SimState {
    ghost use Rattle.sim_cells.specs.KeptBits.{bit_lists};
    ghost use Rattle.picked_run.specs.States.{SimLook};

    ghost Value = { SimLook };

    ghost view = { λ s. record { regs = bit_lists s.regs.items; mems = s.mems.items; rams = s.rams.items } };
}

impl SimState {
    /// The state at the start.
    pub fn new(
        alloc: Global,
        module: &Module,
        library: &Library,
        seed: u64,
    ) -> Result<SimState, Memory>
        requires { CanRun library.now «module».now }
        ensures value { IfOk result (λ state. state ≡ sim_start library.now «module».now seed) }
        ensures state { IfOk result (λ state. IsSimState library.now «module».now state) }
    {
        let first = first_numbers(module);
        let regs = start_registers(alloc, module.regs.as_slice(), first.reg, seed)?;
        let mems = start_memories(alloc, module.mems.as_slice(), first.mem, seed)?;
        let rams = start_rams(alloc, library, module.rams.as_slice(), first.ram, seed)?;
        Ok(SimState { regs, mems, rams })
    }

    /// The state after the event of a number, at these values of the nets. It takes no memory.
    pub fn step(&mut self, module: &Module, seed: u64, number: u64, values: &[bool], event: &Event)
        requires { IsStateOfCells «module».now self.old }
        ensures value { self.new ≡ sim_stepped «module».now seed number event.now (valuation values.now) self.old }
        ensures cells { IsStateOfCells «module».now self.new }
        ensures state { (lib : Library) → IsSimState lib «module».now self.old → IsSimState lib «module».now self.new }
    {
        let first = first_numbers(module);
        step_registers(
            self.regs.as_mut_slice(),
            module.regs.as_slice(),
            first.reg,
            seed,
            number,
            values,
            event,
        );
        step_memories(
            self.mems.as_mut_slice(),
            module.mems.as_slice(),
            first.mem,
            seed,
            number,
            values,
            event,
        );
        step_rams(
            self.rams.as_mut_slice(),
            module.rams.as_slice(),
            first.ram,
            seed,
            number,
            values,
            event,
        );
    }

    /// What a register shows from its low place on. It takes no memory.
    pub fn show_register(
        &self,
        module: &Module,
        index: usize,
        values: &[bool],
        key: &PickKey,
        out: &mut [bool],
    )
        requires state { IsStateOfCells «module».now self.now }
        requires index { index < length «module».now.regs }
        ensures len { length out.new ≡ length out.old }
        ensures bits { (r : Reg) (kept : List Bool) → slice_get «module».now.regs index ≡ Some r → slice_get self.now.regs index ≡ Some kept
            → (k : ℕ) → k < length out.new → bits.bit_at out.new k ≡ reg_shown r (valuation values.now) key.now kept k }
    {
        let reg = &module.regs.as_slice()[index];
        show_register(reg, self.regs[index].as_slice(), values, key, out);
    }

    /// What a read port of a memory shows from its low place on. It takes no memory.
    pub fn show_read(
        &self,
        module: &Module,
        index: usize,
        port: usize,
        values: &[bool],
        key: &PickKey,
        out: &mut [bool],
    )
        requires state { IsStateOfCells «module».now self.now }
        requires index { index < length «module».now.mems }
        requires port { (x : Mem) → slice_get «module».now.mems index ≡ Some x → port < length x.reads }
        requires room { (x : Mem) (r : RdPort) → slice_get «module».now.mems index ≡ Some x → slice_get x.reads port ≡ Some r → length out.old ≤ length r.out }
        ensures len { length out.new ≡ length out.old }
        ensures bits { (x : Mem) (a : MemLook) (r : RdPort) → slice_get «module».now.mems index ≡ Some x → slice_get self.now.mems index ≡ Some a → slice_get x.reads port ≡ Some r
            → (k : ℕ) → k < length out.new → bits.bit_at out.new k ≡ read_shown a x (valuation values.now) key.now port r k }
    {
        let mem = &module.mems.as_slice()[index];
        let state = &self.mems[index];
        state.show(mem, port, values, key, out);
    }

    /// What a slot of a RAM cell shows from its low place on, where the library has the variant of the
    /// cell. It takes no memory.
    pub fn show_slot(
        &self,
        module: &Module,
        index: usize,
        slot: u32,
        values: &[bool],
        key: &PickKey,
        out: &mut [bool],
    )
        requires state { IsStateOfCells «module».now self.now }
        requires index { index < length «module».now.rams }
        requires slot { (c : RamCell) → slice_get «module».now.rams index ≡ Some c → slot < length c.slots }
        requires room { (c : RamCell) (p : SlotUse) → slice_get «module».now.rams index ≡ Some c → slice_get c.slots slot ≡ Some p → length out.old ≤ length p.out }
        ensures len { length out.new ≡ length out.old }
        ensures bits { (c : RamCell) (a : RamLook) → slice_get «module».now.rams index ≡ Some c → slice_get self.now.rams index ≡ Some (Some a)
            → ShowsSlot a c (valuation values.now) key.now slot out.new }
    {
        let cell = &module.rams.as_slice()[index];
        let state = &self.rams[index];
        show_ram(state, cell, slot, values, key, out);
    }
}

/// The numbers among the cells of a module.
#[derive(Clone, Copy)]
struct FirstNumbers {
    reg: u64,
    mem: u64,
    ram: u64,
}

/// The number of the first register, memory and RAM cell.
fn first_numbers(module: &Module) -> FirstNumbers
    requires { HasFewCells «module».now }
    ensures reg { result.reg ≡ 1 + length «module».now.combs }
    ensures mem { result.mem ≡ 1 + length «module».now.combs + length «module».now.regs }
    ensures ram { result.ram ≡ 1 + length «module».now.combs + length «module».now.regs + length «module».now.mems }
{
    let reg = 1 + module.combs.as_slice().len() as u64;
    let mem = reg + module.regs.as_slice().len() as u64;
    let ram = mem + module.mems.as_slice().len() as u64;
    FirstNumbers { reg, mem, ram }
}
