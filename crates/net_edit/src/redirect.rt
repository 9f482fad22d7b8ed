//! Readers that read other bits. Nothing here takes memory.
ghost use Rattle.std.specs.Prelude.{◌≡◌, map};
ghost use Rattle.net_edit.specs.Redirect as spec;

use lib_core::List;
use net_core::{
    Bit, Carried, Comb, Mem, MemPart, Module, Pin, RamCell, RdPort, Reg, SlotUse, Wire, WrPort,
};

/// The bit that stands in the place of a bit.
fn bit_read(reads: &[Bit], bit: Bit) -> Bit
    ensures { result ≡ spec.bit_read reads.now bit }
{
    let Bit::Net(net) = bit else {
        return bit;
    };
    match reads.get(net as usize) {
        Some(read) => *read,
        None => bit,
    }
}

fn redirect_bits(reads: &[Bit], bits: &mut List<Bit>)
    ensures { bits.new ≡ spec.bits_read reads.now bits.old }
{
    for bit in bits.as_mut_slice() {
        *bit = bit_read(reads, *bit);
    }
}

fn redirect_comb(reads: &[Bit], comb: &mut Comb)
    ensures { comb.new ≡ spec.redirected_comb reads.now comb.old }
{
    redirect_bits(reads, &mut comb.a);
    redirect_bits(reads, &mut comb.b);
    redirect_bits(reads, &mut comb.s);
}

fn redirect_combs(reads: &[Bit], combs: &mut List<Comb>)
    ensures { combs.new ≡ map (spec.redirected_comb reads.now) combs.old }
{
    for comb in combs.as_mut_slice() {
        redirect_comb(reads, comb);
    }
}

fn redirect_reg(reads: &[Bit], reg: &mut Reg)
    ensures { reg.new ≡ spec.redirected_reg reads.now reg.old }
{
    reg.en = bit_read(reads, reg.en);
    reg.arst = bit_read(reads, reg.arst);
    reg.srst = bit_read(reads, reg.srst);
    redirect_bits(reads, &mut reg.d);
}

fn redirect_regs(reads: &[Bit], regs: &mut List<Reg>)
    ensures { regs.new ≡ map (spec.redirected_reg reads.now) regs.old }
{
    for reg in regs.as_mut_slice() {
        redirect_reg(reads, reg);
    }
}

fn redirect_read(reads: &[Bit], read: &mut RdPort)
    ensures { read.new ≡ spec.redirected_read reads.now read.old }
{
    read.en = bit_read(reads, read.en);
    redirect_bits(reads, &mut read.addr);
    read.arst = bit_read(reads, read.arst);
    read.srst = bit_read(reads, read.srst);
}

fn redirect_reads(reads: &[Bit], ports: &mut List<RdPort>)
    ensures { ports.new ≡ map (spec.redirected_read reads.now) ports.old }
{
    for read in ports.as_mut_slice() {
        redirect_read(reads, read);
    }
}

fn redirect_write(reads: &[Bit], write: &mut WrPort)
    ensures { write.new ≡ spec.redirected_write reads.now write.old }
{
    redirect_bits(reads, &mut write.en);
    redirect_bits(reads, &mut write.addr);
    redirect_bits(reads, &mut write.value);
}

fn redirect_writes(reads: &[Bit], ports: &mut List<WrPort>)
    ensures { ports.new ≡ map (spec.redirected_write reads.now) ports.old }
{
    for write in ports.as_mut_slice() {
        redirect_write(reads, write);
    }
}

fn redirect_mem(reads: &[Bit], mem: &mut Mem)
    ensures { mem.new ≡ spec.redirected_mem reads.now mem.old }
{
    redirect_reads(reads, &mut mem.reads);
    redirect_writes(reads, &mut mem.writes);
}

fn redirect_mems(reads: &[Bit], mems: &mut List<Mem>)
    ensures { mems.new ≡ map (spec.redirected_mem reads.now) mems.old }
{
    for mem in mems.as_mut_slice() {
        redirect_mem(reads, mem);
    }
}

fn redirect_slot(reads: &[Bit], slot: &mut SlotUse)
    ensures { slot.new ≡ spec.redirected_slot reads.now slot.old }
{
    slot.clken = bit_read(reads, slot.clken);
    redirect_bits(reads, &mut slot.addr);
    slot.rden = bit_read(reads, slot.rden);
    slot.srst = bit_read(reads, slot.srst);
    slot.arst = bit_read(reads, slot.arst);
    redirect_bits(reads, &mut slot.value);
    redirect_bits(reads, &mut slot.wren);
    redirect_bits(reads, &mut slot.wrbe);
}

fn redirect_slots(reads: &[Bit], slots: &mut List<SlotUse>)
    ensures { slots.new ≡ map (spec.redirected_slot reads.now) slots.old }
{
    for slot in slots.as_mut_slice() {
        redirect_slot(reads, slot);
    }
}

fn redirect_ram(reads: &[Bit], ram: &mut RamCell)
    ensures { ram.new ≡ spec.redirected_ram reads.now ram.old }
{
    redirect_slots(reads, &mut ram.slots);
}

fn redirect_rams(reads: &[Bit], rams: &mut List<RamCell>)
    ensures { rams.new ≡ map (spec.redirected_ram reads.now) rams.old }
{
    for ram in rams.as_mut_slice() {
        redirect_ram(reads, ram);
    }
}

fn redirect_pin(reads: &[Bit], pin: &mut Pin)
    ensures { pin.new ≡ spec.redirected_pin reads.now pin.old }
{
    if !pin.drives {
        redirect_bits(reads, &mut pin.bits);
    }
}

fn redirect_pins(reads: &[Bit], pins: &mut List<Pin>)
    ensures { pins.new ≡ map (spec.redirected_pin reads.now) pins.old }
{
    for pin in pins.as_mut_slice() {
        redirect_pin(reads, pin);
    }
}

fn redirect_carried(reads: &[Bit], cell: &mut Carried)
    ensures { cell.new ≡ spec.redirected_carried reads.now cell.old }
{
    redirect_pins(reads, &mut cell.pins);
}

fn redirect_all_carried(reads: &[Bit], cells: &mut List<Carried>)
    ensures { cells.new ≡ map (spec.redirected_carried reads.now) cells.old }
{
    for cell in cells.as_mut_slice() {
        redirect_carried(reads, cell);
    }
}

fn redirect_part(reads: &[Bit], part: &mut MemPart)
    ensures { part.new ≡ spec.redirected_part reads.now part.old }
{
    redirect_pins(reads, &mut part.pins);
}

fn redirect_parts(reads: &[Bit], parts: &mut List<MemPart>)
    ensures { parts.new ≡ map (spec.redirected_part reads.now) parts.old }
{
    for part in parts.as_mut_slice() {
        redirect_part(reads, part);
    }
}

fn redirect_wire(reads: &[Bit], wire: &mut Wire)
    ensures { wire.new ≡ spec.redirected_wire reads.now wire.old }
{
    if !wire.input {
        redirect_bits(reads, &mut wire.bits);
    }
}

fn redirect_wires(reads: &[Bit], wires: &mut List<Wire>)
    ensures { wires.new ≡ map (spec.redirected_wire reads.now) wires.old }
{
    for wire in wires.as_mut_slice() {
        redirect_wire(reads, wire);
    }
}

/// Redirects every reader of a module.
pub(crate) fn redirect(reads: &[Bit], module: &mut Module)
    ensures { «module».new ≡ spec.redirected reads.now «module».old }
{
    redirect_wires(reads, &mut module.wires);
    redirect_parts(reads, &mut module.parts);
    redirect_mems(reads, &mut module.mems);
    redirect_combs(reads, &mut module.combs);
    redirect_regs(reads, &mut module.regs);
    redirect_rams(reads, &mut module.rams);
    redirect_all_carried(reads, &mut module.carried);
}
