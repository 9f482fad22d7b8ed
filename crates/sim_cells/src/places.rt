//! The words of a memory as bits that are counted from address 0.
ghost use Rattle.std.specs.Prelude.{◌≡◌, ◌*◌, ◌^◌, ◌<◌, ◌≤◌, length};
ghost use Rattle.net_core.specs.Memory.{base_of};
ghost use Rattle.net_core.specs.Valid.{MemSizes};
ghost use Rattle.ram_step.specs.Moments.{valuation};
ghost use Rattle.ram_step.specs.Picks as picks;
ghost use Rattle.sim_cells.specs.Places as places;

use crate::pins::number_of;
use net_core::{Bit, Mem};

/// The first bit of the group at an address. It takes no memory.
#[tactic(auto, using(crate::proofs::Products::address_bits))]
pub fn first_bit(addr: &[Bit], mem: &Mem, values: &[bool]) -> u64
    requires sizes { MemSizes mem.now }
    requires few { length addr.now ≤ 32 }
    ensures value { result ≡ base_of (valuation values.now) addr.now * mem.now.width }
    ensures bound { result ≤ 2 ^ 48 }
{
    number_of(addr, values) * mem.width as u64
}

/// The bit of the words' first bit. It takes no memory.
#[tactic(auto, using(crate::proofs::Products::offset_bits))]
pub fn start_bit(mem: &Mem) -> u64
    requires { MemSizes mem.now }
    ensures value { result ≡ mem.now.offset * mem.now.width }
    ensures bound { result ≤ 2 ^ 36 }
{
    mem.offset as u64 * mem.width as u64
}

/// How many bits the words have. It takes no memory.
pub fn bit_count(mem: &Mem) -> u64
    requires { MemSizes mem.now }
    ensures value { result ≡ mem.now.size * mem.now.width }
    ensures bound { result ≤ 2 ^ 23 }
{
    mem.size as u64 * mem.width as u64
}

/// A power of two.
fn power(exponent: u32) -> u64
    requires { exponent ≤ 6 }
    ensures { result ≡ 2 ^ exponent }
{
    1u64 << exponent
}

/// How many bits a port of this wide number reaches. It takes no memory.
#[tactic(auto, using(crate::proofs::Products::group_bits))]
pub fn group_bits(mem: &Mem, wide: u32) -> u64
    requires sizes { MemSizes mem.now }
    requires wide { wide ≤ 6 }
    ensures value { result ≡ mem.now.width * 2 ^ wide }
    ensures bound { result ≤ 2 ^ 22 }
{
    mem.width as u64 * power(wide)
}

/// The place of a bit among those of the words. It takes no memory.
pub fn place_of(mem: &Mem, bit: u64) -> Option<u64>
    requires { MemSizes mem.now }
    ensures { result ≡ places.place_of mem.now bit }
{
    let start = start_bit(mem);
    let end = start + bit_count(mem);
    if start <= bit && bit < end {
        Some(bit - start)
    } else {
        None
    }
}

/// The number of a bit of a read port among the bits that are picked. It takes no memory.
pub fn pick_number(port: usize, place: usize) -> u64
    requires port { port < 2 ^ 31 }
    requires place { place < 2 ^ 32 }
    ensures { result ≡ picks.pick_number port place }
{
    4_294_967_296 * (port as u64 + 1) + place as u64
}
