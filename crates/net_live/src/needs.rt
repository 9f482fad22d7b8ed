//! Whether nodes need nets of the module alone, and how many nodes there are.
ghost use Rattle.std.specs.Prelude.{◌≡◌, ◌↔◌, ℕ, ◌<◌, ◌+◌, ◌^◌, true, length, Some, None};
ghost use Rattle.std.specs.List.{list_all, sum_by};
ghost use Rattle.net_core.specs.Nodes.{comb_node, reg_node, read_node, slot_node, nodes_of};
ghost use Rattle.net_live.specs.Driving.{bit_below, needs_below};

use net_core::{Bit, Comb, Mem, Module, RamCell, RdPort, Reg, SlotUse};

/// Whether each node needs nets of the module alone.
#[tactic(auto, using(crate::proofs::Needing::nodes_split))]
pub fn needs_are_within(module: &Module) -> bool
    ensures { result ≡ list_all (needs_below «module».now.nets) (nodes_of «module».now) }
{
    combs_within(module.nets, module.combs.as_slice())
        && regs_within(module.nets, module.regs.as_slice())
        && mems_within(module.nets, module.mems.as_slice())
        && rams_within(module.nets, module.rams.as_slice())
}

fn combs_within(nets: u32, combs: &[Comb]) -> bool
    ensures { result ≡ list_all (λ c. needs_below nets (comb_node c)) combs.now }
{
    combs.iter().all(|comb| comb_within(nets, comb))
}

#[tactic(auto, using(crate::proofs::Needing::three_joined))]
fn comb_within(nets: u32, comb: &Comb) -> bool
    ensures { result ≡ needs_below nets (comb_node comb.now) }
{
    bits_within(nets, comb.a.as_slice())
        && bits_within(nets, comb.b.as_slice())
        && bits_within(nets, comb.s.as_slice())
}

fn regs_within(nets: u32, regs: &[Reg]) -> bool
    ensures { result ≡ list_all (λ r. needs_below nets (reg_node r)) regs.now }
{
    regs.iter().all(|reg| bits_within(nets, &[reg.arst]))
}

fn mems_within(nets: u32, mems: &[Mem]) -> bool
    ensures { result ≡ list_all (λ x. list_all (λ r. needs_below nets (read_node r)) x.reads) mems.now }
{
    mems.iter()
        .all(|mem| reads_within(nets, mem.reads.as_slice()))
}

fn reads_within(nets: u32, reads: &[RdPort]) -> bool
    ensures { result ≡ list_all (λ r. needs_below nets (read_node r)) reads.now }
{
    reads.iter().all(|read| read_within(nets, read))
}

fn read_within(nets: u32, read: &RdPort) -> bool
    ensures { result ≡ needs_below nets (read_node read.now) }
{
    match read.clock {
        None => bits_within(nets, read.addr.as_slice()),
        Some(_) => bits_within(nets, &[read.arst]),
    }
}

fn rams_within(nets: u32, rams: &[RamCell]) -> bool
    ensures { result ≡ list_all (λ c. list_all (λ s. needs_below nets (slot_node s)) c.slots) rams.now }
{
    rams.iter()
        .all(|ram| slots_within(nets, ram.slots.as_slice()))
}

fn slots_within(nets: u32, slots: &[SlotUse]) -> bool
    ensures { result ≡ list_all (λ s. needs_below nets (slot_node s)) slots.now }
{
    slots.iter().all(|slot| slot_within(nets, slot))
}

fn slot_within(nets: u32, slot: &SlotUse) -> bool
    ensures { result ≡ needs_below nets (slot_node slot.now) }
{
    if slot.reads_now {
        bits_within(nets, slot.addr.as_slice())
    } else {
        bits_within(nets, &[slot.arst])
    }
}

/// Whether each bit is a constant, or a net of so many.
pub fn bits_within(nets: u32, bits: &[Bit]) -> bool
    ensures { result ≡ list_all (bit_below nets) bits.now }
{
    bits.iter().all(|bit| bit_within(nets, *bit))
}

fn bit_within(nets: u32, bit: Bit) -> bool
    ensures { result ≡ bit_below nets bit }
{
    match bit {
        Bit::Zero | Bit::One => true,
        Bit::Net(net) => net < nets,
    }
}

/// Whether numbers of 32 bits can name the nodes. It takes no memory.
pub fn nodes_are_few(module: &Module) -> bool
    ensures { result ≡ true ↔ length (nodes_of «module».now) < 2 ^ 32 }
{
    match room_left(module) {
        None => false,
        Some(_) => true,
    }
}

/// How many more nodes numbers of 32 bits could name.
fn room_left(module: &Module) -> Option<usize>
    ensures left { (left : ℕ) → result ≡ Some left → length (nodes_of «module».now) + left ≡ 4294967295 }
    ensures full { result ≡ None → 4294967295 < length (nodes_of «module».now) }
{
    let room = without(4_294_967_295, module.combs.as_slice().len())?;
    let room = without(room, module.regs.as_slice().len())?;
    let room = without_reads(room, module.mems.as_slice())?;
    without_slots(room, module.rams.as_slice())
}

/// The room without that for so many nodes, where there is so much.
fn without(room: usize, count: usize) -> Option<usize>
    ensures left { (left : ℕ) → result ≡ Some left → count + left ≡ room }
    ensures full { result ≡ None → room < count }
{
    room.checked_sub(count)
}

/// The room without that for all read ports, where there is so much.
#[tactic(auto, using(crate::proofs::Needing::reads_more))]
fn without_reads(room: usize, mems: &[Mem]) -> Option<usize>
    ensures left { (left : ℕ) → result ≡ Some left → sum_by (λ x. length x.reads) mems.now + left ≡ room }
    ensures full { result ≡ None → room < sum_by (λ x. length x.reads) mems.now }
{
    let mut left = room;
    let mut rest = mems;
    while let [mem, tail @ ..] = rest {
        left = left.checked_sub(mem.reads.as_slice().len())?;
        rest = tail;
    }
    Some(left)
}

/// The room without that for all slots, where there is so much.
#[tactic(auto, using(crate::proofs::Needing::slots_more))]
fn without_slots(room: usize, rams: &[RamCell]) -> Option<usize>
    ensures left { (left : ℕ) → result ≡ Some left → sum_by (λ c. length c.slots) rams.now + left ≡ room }
    ensures full { result ≡ None → room < sum_by (λ c. length c.slots) rams.now }
{
    let mut left = room;
    let mut rest = rams;
    while let [ram, tail @ ..] = rest {
        left = left.checked_sub(ram.slots.as_slice().len())?;
        rest = tail;
    }
    Some(left)
}
