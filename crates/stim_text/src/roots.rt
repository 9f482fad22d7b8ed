//! The nets whose edges clocks have.
ghost use Rattle.std.specs.Prelude.{◌≡◌, ◌++◌, ◌∷◌, [], map, IfOk, OnOk};
ghost use Rattle.std.specs.List.{flat_map};
ghost use Rattle.net_core.specs.Ports.{read_clock, mem_clocks, ram_clocks, clocks_of};
ghost use Rattle.stim_text.specs.Inputs as inputs;

use indexmap::IndexSet;
use lib_core::Memory;
use net_core::{Clock, Mem, Module, RamCell, RdPort, Reg, SlotUse, WrPort};
use std::alloc::Global;
use std::marker::Model;

/// Nets whose edges clocks have.
#[derive(Drop)]
pub struct Roots {
    nets: IndexSet<u32>,
}

impl Model for Roots {
    ghost use Rattle.std.specs.Prelude.{List, ℕ};

    ghost Value = { List ℕ };

    ghost view = { λ s. s.nets.keys };
}

impl Roots {
    fn new(alloc: Global) -> Roots
        ensures { result ≡ [] }
    {
        Roots {
            nets: IndexSet::new(alloc),
        }
    }

    /// Whether a clock has edges of the net.
    pub fn has(&self, net: u32) -> bool
        ensures { result ≡ inputs.has_net self.now net }
    {
        self.nets.contains(&net)
    }

    /// Notes a clock.
    #[tactic(auto, unfolding(crate::specs::Inputs::with_roots))]
    fn add(&mut self, clock: Clock) -> Result<(), Memory>
        ensures { OnOk result (self.new ≡ inputs.with_roots self.old (clock ∷ [])) }
    {
        if let Clock::Root { net, rising: _ } = clock {
            self.nets.insert(net)?;
        }
        Ok(())
    }

    fn add_regs(&mut self, regs: &[Reg]) -> Result<(), Memory>
        ensures { OnOk result (self.new ≡ inputs.with_roots self.old (map (λ r. r.clock) regs.now)) }
    {
        let mut rest = regs;
        while let [reg, tail @ ..] = rest {
            self.add(reg.clock)?;
            rest = tail;
        }
        Ok(())
    }

    fn add_reads(&mut self, reads: &[RdPort]) -> Result<(), Memory>
        ensures { OnOk result (self.new ≡ inputs.with_roots self.old (flat_map (λ r. read_clock r.clock) reads.now)) }
    {
        let mut rest = reads;
        while let [read, tail @ ..] = rest {
            if let Some(clock) = read.clock {
                self.add(clock)?;
            }
            rest = tail;
        }
        Ok(())
    }

    fn add_writes(&mut self, writes: &[WrPort]) -> Result<(), Memory>
        ensures { OnOk result (self.new ≡ inputs.with_roots self.old (map (λ w. w.clock) writes.now)) }
    {
        let mut rest = writes;
        while let [write, tail @ ..] = rest {
            self.add(write.clock)?;
            rest = tail;
        }
        Ok(())
    }

    fn add_mems(&mut self, mems: &[Mem]) -> Result<(), Memory>
        ensures { OnOk result (self.new ≡ inputs.with_roots self.old (flat_map mem_clocks mems.now)) }
    {
        let mut rest = mems;
        while let [mem, tail @ ..] = rest {
            self.add_reads(mem.reads.as_slice())?;
            self.add_writes(mem.writes.as_slice())?;
            rest = tail;
        }
        Ok(())
    }

    fn add_slots(&mut self, slots: &[SlotUse]) -> Result<(), Memory>
        ensures { OnOk result (self.new ≡ inputs.with_roots self.old (map (λ s. s.clock) slots.now)) }
    {
        let mut rest = slots;
        while let [slot, tail @ ..] = rest {
            self.add(slot.clock)?;
            rest = tail;
        }
        Ok(())
    }

    fn add_rams(&mut self, rams: &[RamCell]) -> Result<(), Memory>
        ensures { OnOk result (self.new ≡ inputs.with_roots self.old (flat_map ram_clocks rams.now)) }
    {
        let mut rest = rams;
        while let [ram, tail @ ..] = rest {
            self.add_slots(ram.slots.as_slice())?;
            rest = tail;
        }
        Ok(())
    }

    /// The clocks of the registers, memories and RAM cells of a module.
    pub fn of(alloc: Global, module: &Module) -> Result<Roots, Memory>
        ensures { IfOk result (λ roots. roots ≡ inputs.with_roots [] (clocks_of «module».now)) }
    {
        let mut roots = Roots::new(alloc);
        roots.add_regs(module.regs.as_slice())?;
        roots.add_mems(module.mems.as_slice())?;
        roots.add_rams(module.rams.as_slice())?;
        Ok(roots)
    }
}
