//! What the pins of registers and ports read.
ghost use Rattle.std.specs.Prelude.{◌≡◌, ◌^◌, ◌<◌, ◌≤◌, length, slice_index, slice_index_or};
ghost use Rattle.net_core.specs.declared.bits.Bit.TheVariants.{Zero as Low};
ghost use Rattle.lib_core.specs.Rams as rams;
ghost use Rattle.net_core.specs.Values as bits;
ghost use Rattle.net_core.specs.Values.{values_of};
ghost use Rattle.ram_step.specs.Moments.{edge_nets, edge_alone, valuation};

use lib_core::Tri;
use net_core::{Bit, Clock, Edge};

/// The value at a place, 0 past the end. It takes no memory.
#[tactic(auto, using(crate::proofs::PinReads::net_read, crate::proofs::PinReads::net_past))]
pub fn bit_at(values: &[bool], place: usize) -> bool
    ensures { result ≡ bits.bit_at values.now place }
{
    match values.get(place) {
        Some(value) => *value,
        None => false,
    }
}

/// The value of a bit. It takes no memory.
pub fn value_of(bit: Bit, values: &[bool]) -> bool
    ensures { result ≡ bits.value_of (valuation values.now) bit }
{
    match bit {
        Bit::Zero => false,
        Bit::One => true,
        Bit::Net(net) => bit_at(values, net as usize),
    }
}

/// The value of the bit at a place of a pin, 0 past its end. It takes no memory.
#[tactic(auto, using(crate::proofs::PinReads::pin_read, crate::proofs::PinReads::pin_past))]
pub fn pin_bit(pin: &[Bit], place: usize, values: &[bool]) -> bool
    ensures { result ≡ bits.bit_at (values_of (valuation values.now) pin.now) place }
{
    match pin.get(place) {
        Some(bit) => value_of(*bit, values),
        None => false,
    }
}

/// The bit at a place of a pin, constant 0 past its end. It takes no memory.
pub fn bit_or_low(pin: &[Bit], place: usize) -> Bit
    ensures { result ≡ slice_index_or pin.now place Low }
{
    match pin.get(place) {
        Some(bit) => *bit,
        None => Bit::Zero,
    }
}

/// The net at a place, 0 past the end. It takes no memory.
pub fn net_at(nets: &[u32], place: usize) -> u32
    ensures { result ≡ slice_index nets.now place }
{
    match nets.get(place) {
        Some(net) => *net,
        None => 0,
    }
}

/// The number that a pin reads, low bit first. It takes no memory.
pub fn number_of(pin: &[Bit], values: &[bool]) -> u64
    requires { length pin.now ≤ 32 }
    ensures value { result ≡ bits.number_of (values_of (valuation values.now) pin.now) }
    ensures bound { result < 2 ^ length pin.now }
{
    match pin {
        [] => 0,
        [first, rest @ ..] => {
            let above = number_of(rest, values);
            if value_of(*first, values) {
                1 + 2 * above
            } else {
                2 * above
            }
        }
    }
}

/// Whether a clock has its edge. It takes no memory.
pub fn has_edge(edge: Option<Edge>, clock: Clock) -> bool
    ensures { result ≡ bits.has_edge (edge_nets edge) (edge_alone edge) clock }
{
    match edge {
        None => false,
        Some(edge) => match clock {
            Clock::Never => false,
            Clock::Root { net, rising } => {
                edge.net == net && (if edge.rising { rising } else { !rising })
            }
        },
    }
}

/// What stands at a place, any past the end. It takes no memory.
#[tactic(auto, using(crate::proofs::PinReads::tri_read, crate::proofs::PinReads::tri_past))]
pub fn tri_at(given: &[Tri], place: usize) -> Tri
    ensures { result ≡ rams.tri_at given.now place }
{
    match given.get(place) {
        Some(tri) => *tri,
        None => Tri::Any,
    }
}

/// A defined bit. It takes no memory.
pub fn tri_of(bit: bool) -> Tri
    ensures { result ≡ bits.tri_of bit }
{
    if bit { Tri::One } else { Tri::Zero }
}
