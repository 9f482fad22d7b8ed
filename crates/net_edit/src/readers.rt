//! How often a module reads a net.
ghost use Rattle.std.specs.Prelude.{◌≡◌, ◌+◌, ◌∷◌, []};
ghost use Rattle.std.specs.List.{flat_map};
ghost use Rattle.net_core.specs.Pins.{comb_bits, reg_bits, read_bits, write_bits, mem_bits, slot_bits, ram_bits};
ghost use Rattle.net_edit.specs.Users as spec;

use net_core::{
    Bit, Carried, Comb, Mem, MemPart, Module, Pin, RamCell, RdPort, Reg, SlotUse, Wire, WrPort,
};

/// Whether the bit is this net.
fn is_net_of(net: u32, bit: Bit) -> bool
    ensures { result ≡ spec.is_net_of net bit }
{
    match bit {
        Bit::Net(own) => own == net,
        Bit::Zero | Bit::One => false,
    }
}

/// How often the net stands among bits.
fn uses_in(net: u32, bits: &[Bit]) -> usize
    ensures { result ≡ spec.uses_in net bits.now }
{
    bits.iter().filter(|bit| is_net_of(net, **bit)).count()
}

/// A count, and the places where the net stands among bits.
fn more(count: u64, net: u32, bits: &[Bit]) -> u64
    ensures { result ≡ spec.capped (count + spec.uses_in net bits.now) }
{
    count.saturating_add(uses_in(net, bits) as u64)
}

/// A count, and one where the bit is the net.
fn one_more(count: u64, net: u32, bit: Bit) -> u64
    ensures { result ≡ spec.capped (count + spec.uses_in net (bit ∷ [])) }
{
    if is_net_of(net, bit) {
        count.saturating_add(1)
    } else {
        count
    }
}

#[tactic(auto, using(crate::proofs::Using::uses_joined))]
fn more_comb(count: u64, net: u32, comb: &Comb) -> u64
    ensures { result ≡ spec.capped (count + spec.uses_in net (comb_bits comb.now)) }
{
    let count = more(count, net, comb.a.as_slice());
    let count = more(count, net, comb.b.as_slice());
    more(count, net, comb.s.as_slice())
}

#[tactic(auto, using(crate::proofs::Using::uses_joined))]
fn more_combs(count: u64, net: u32, combs: &[Comb]) -> u64
    ensures { result ≡ spec.capped (count + spec.uses_in net (flat_map comb_bits combs.now)) }
{
    let mut count = count;
    let mut rest = combs;
    while let [comb, tail @ ..] = rest {
        count = more_comb(count, net, comb);
        rest = tail;
    }
    count
}

#[tactic(auto, using(crate::proofs::Using::uses_joined))]
fn more_reg(count: u64, net: u32, reg: &Reg) -> u64
    ensures { result ≡ spec.capped (count + spec.uses_in net (reg_bits reg.now)) }
{
    let count = one_more(count, net, reg.en);
    let count = one_more(count, net, reg.arst);
    let count = one_more(count, net, reg.srst);
    more(count, net, reg.d.as_slice())
}

#[tactic(auto, using(crate::proofs::Using::uses_joined))]
fn more_regs(count: u64, net: u32, regs: &[Reg]) -> u64
    ensures { result ≡ spec.capped (count + spec.uses_in net (flat_map reg_bits regs.now)) }
{
    let mut count = count;
    let mut rest = regs;
    while let [reg, tail @ ..] = rest {
        count = more_reg(count, net, reg);
        rest = tail;
    }
    count
}

#[tactic(auto, using(crate::proofs::Using::uses_joined))]
fn more_read(count: u64, net: u32, read: &RdPort) -> u64
    ensures { result ≡ spec.capped (count + spec.uses_in net (read_bits read.now)) }
{
    let count = one_more(count, net, read.en);
    let count = one_more(count, net, read.arst);
    let count = one_more(count, net, read.srst);
    more(count, net, read.addr.as_slice())
}

#[tactic(auto, using(crate::proofs::Using::uses_joined))]
fn more_reads(count: u64, net: u32, reads: &[RdPort]) -> u64
    ensures { result ≡ spec.capped (count + spec.uses_in net (flat_map read_bits reads.now)) }
{
    let mut count = count;
    let mut rest = reads;
    while let [read, tail @ ..] = rest {
        count = more_read(count, net, read);
        rest = tail;
    }
    count
}

#[tactic(auto, using(crate::proofs::Using::uses_joined))]
fn more_write(count: u64, net: u32, write: &WrPort) -> u64
    ensures { result ≡ spec.capped (count + spec.uses_in net (write_bits write.now)) }
{
    let count = more(count, net, write.en.as_slice());
    let count = more(count, net, write.addr.as_slice());
    more(count, net, write.value.as_slice())
}

#[tactic(auto, using(crate::proofs::Using::uses_joined))]
fn more_writes(count: u64, net: u32, writes: &[WrPort]) -> u64
    ensures { result ≡ spec.capped (count + spec.uses_in net (flat_map write_bits writes.now)) }
{
    let mut count = count;
    let mut rest = writes;
    while let [write, tail @ ..] = rest {
        count = more_write(count, net, write);
        rest = tail;
    }
    count
}

#[tactic(auto, using(crate::proofs::Using::uses_joined))]
fn more_mem(count: u64, net: u32, mem: &Mem) -> u64
    ensures { result ≡ spec.capped (count + spec.uses_in net (mem_bits mem.now)) }
{
    let count = more_reads(count, net, mem.reads.as_slice());
    more_writes(count, net, mem.writes.as_slice())
}

#[tactic(auto, using(crate::proofs::Using::uses_joined))]
fn more_mems(count: u64, net: u32, mems: &[Mem]) -> u64
    ensures { result ≡ spec.capped (count + spec.uses_in net (flat_map mem_bits mems.now)) }
{
    let mut count = count;
    let mut rest = mems;
    while let [mem, tail @ ..] = rest {
        count = more_mem(count, net, mem);
        rest = tail;
    }
    count
}

#[tactic(auto, using(crate::proofs::Using::uses_joined))]
fn more_slot(count: u64, net: u32, slot: &SlotUse) -> u64
    ensures { result ≡ spec.capped (count + spec.uses_in net (slot_bits slot.now)) }
{
    let count = one_more(count, net, slot.clken);
    let count = one_more(count, net, slot.rden);
    let count = one_more(count, net, slot.srst);
    let count = one_more(count, net, slot.arst);
    let count = more(count, net, slot.addr.as_slice());
    let count = more(count, net, slot.value.as_slice());
    let count = more(count, net, slot.wren.as_slice());
    more(count, net, slot.wrbe.as_slice())
}

#[tactic(auto, using(crate::proofs::Using::uses_joined))]
fn more_slots(count: u64, net: u32, slots: &[SlotUse]) -> u64
    ensures { result ≡ spec.capped (count + spec.uses_in net (flat_map slot_bits slots.now)) }
{
    let mut count = count;
    let mut rest = slots;
    while let [slot, tail @ ..] = rest {
        count = more_slot(count, net, slot);
        rest = tail;
    }
    count
}

#[tactic(auto, using(crate::proofs::Using::uses_joined))]
fn more_ram(count: u64, net: u32, ram: &RamCell) -> u64
    ensures { result ≡ spec.capped (count + spec.uses_in net (ram_bits ram.now)) }
{
    more_slots(count, net, ram.slots.as_slice())
}

#[tactic(auto, using(crate::proofs::Using::uses_joined))]
fn more_rams(count: u64, net: u32, rams: &[RamCell]) -> u64
    ensures { result ≡ spec.capped (count + spec.uses_in net (flat_map ram_bits rams.now)) }
{
    let mut count = count;
    let mut rest = rams;
    while let [ram, tail @ ..] = rest {
        count = more_ram(count, net, ram);
        rest = tail;
    }
    count
}

fn more_pin(count: u64, net: u32, pin: &Pin) -> u64
    ensures { result ≡ spec.capped (count + spec.uses_in net (spec.pin_bits pin.now)) }
{
    if pin.drives {
        count
    } else {
        more(count, net, pin.bits.as_slice())
    }
}

#[tactic(auto, using(crate::proofs::Using::uses_joined))]
fn more_pins(count: u64, net: u32, pins: &[Pin]) -> u64
    ensures { result ≡ spec.capped (count + spec.uses_in net (flat_map spec.pin_bits pins.now)) }
{
    let mut count = count;
    let mut rest = pins;
    while let [pin, tail @ ..] = rest {
        count = more_pin(count, net, pin);
        rest = tail;
    }
    count
}

#[tactic(auto, using(crate::proofs::Using::uses_joined))]
fn more_carried(count: u64, net: u32, cells: &[Carried]) -> u64
    ensures { result ≡ spec.capped (count + spec.uses_in net (flat_map spec.carried_reads cells.now)) }
{
    let mut count = count;
    let mut rest = cells;
    while let [cell, tail @ ..] = rest {
        count = more_pins(count, net, cell.pins.as_slice());
        rest = tail;
    }
    count
}

#[tactic(auto, using(crate::proofs::Using::uses_joined))]
fn more_parts(count: u64, net: u32, parts: &[MemPart]) -> u64
    ensures { result ≡ spec.capped (count + spec.uses_in net (flat_map spec.part_reads parts.now)) }
{
    let mut count = count;
    let mut rest = parts;
    while let [part, tail @ ..] = rest {
        count = more_pins(count, net, part.pins.as_slice());
        rest = tail;
    }
    count
}

fn more_wire(count: u64, net: u32, wire: &Wire) -> u64
    ensures { result ≡ spec.capped (count + spec.uses_in net (spec.output_bits wire.now)) }
{
    if wire.output && !wire.input {
        more(count, net, wire.bits.as_slice())
    } else {
        count
    }
}

#[tactic(auto, using(crate::proofs::Using::uses_joined))]
fn more_wires(count: u64, net: u32, wires: &[Wire]) -> u64
    ensures { result ≡ spec.capped (count + spec.uses_in net (flat_map spec.output_bits wires.now)) }
{
    let mut count = count;
    let mut rest = wires;
    while let [wire, tail @ ..] = rest {
        count = more_wire(count, net, wire);
        rest = tail;
    }
    count
}

/// The number of places where the net stands in a pin of a cell that reads, in a pin of a memory port
/// or a RAM cell that reads, or in an output wire; where it stands twice in one pin, both count. Past
/// the greatest number of 64 bits it is that number. It takes no memory.
#[tactic(auto, using(crate::proofs::Using::uses_joined))]
pub fn users(module: &Module, net: u32) -> u64
    ensures { result ≡ spec.capped (spec.users_of «module».now net) }
{
    let count = more_combs(0, net, module.combs.as_slice());
    let count = more_regs(count, net, module.regs.as_slice());
    let count = more_mems(count, net, module.mems.as_slice());
    let count = more_rams(count, net, module.rams.as_slice());
    let count = more_carried(count, net, module.carried.as_slice());
    let count = more_parts(count, net, module.parts.as_slice());
    more_wires(count, net, module.wires.as_slice())
}
