//! What the pins of a slot read.
ghost use Rattle.std.specs.Prelude.{◌≡◌, ◌^◌, ◌<◌, ◌≤◌, length};
ghost use Rattle.lib_core.specs.Rams as rams;
ghost use Rattle.net_core.specs.Values as bits;
ghost use Rattle.net_core.specs.Values.{values_of};
ghost use Rattle.ram_step.specs.Moments.{edge_nets, edge_alone, valuation};

use lib_core::{Fill, Tri};
use net_core::{Bit, Clock, Edge};

/// The value of a net, 0 where it has none. It takes no memory.
#[tactic(auto, using(crate::proofs::PinReads::net_read, crate::proofs::PinReads::net_past))]
pub(crate) fn net_value(values: &[bool], net: u32) -> bool
    ensures { result ≡ valuation values.now net }
{
    match values.get(net as usize) {
        Some(value) => *value,
        None => false,
    }
}

/// The value of a bit. It takes no memory.
pub(crate) fn value_of(bit: Bit, values: &[bool]) -> bool
    ensures { result ≡ bits.value_of (valuation values.now) bit }
{
    match bit {
        Bit::Zero => false,
        Bit::One => true,
        Bit::Net(net) => net_value(values, net),
    }
}

/// The value of the bit at a place of a pin, 0 past its end. It takes no memory.
#[tactic(auto, using(crate::proofs::PinReads::pin_read, crate::proofs::PinReads::pin_past))]
pub(crate) fn pin_bit(pin: &[Bit], place: u32, values: &[bool]) -> bool
    ensures { result ≡ bits.bit_at (values_of (valuation values.now) pin.now) place }
{
    match pin.get(place as usize) {
        Some(bit) => value_of(*bit, values),
        None => false,
    }
}

/// The number that a pin reads, low bit first. It takes no memory.
pub(crate) fn number_of(pin: &[Bit], values: &[bool]) -> u32
    requires { length pin.now ≤ 20 }
    ensures value { result ≡ bits.number_of (values_of (valuation values.now) pin.now) }
    ensures bound { result < 2 ^ length pin.now }
{
    match pin {
        [] => 0,
        [first, rest @ ..] => {
            let above = number_of(rest, values);
            if value_of(*first, values) {
                1 + 2 * above
            } else {
                2 * above
            }
        }
    }
}

/// Whether a clock has its edge. It takes no memory.
pub(crate) fn has_edge(edge: Option<Edge>, clock: Clock) -> bool
    ensures { result ≡ bits.has_edge (edge_nets edge) (edge_alone edge) clock }
{
    match edge {
        None => false,
        Some(edge) => match clock {
            Clock::Never => false,
            Clock::Root { net, rising } => {
                edge.net == net && (if edge.rising { rising } else { !rising })
            }
        },
    }
}

/// Whether there is something to reset to or to start with. It takes no memory.
pub(crate) fn has_fill(fill: Fill) -> bool
    ensures { result ≡ rams.has_fill fill }
{
    match fill {
        Fill::Nothing => false,
        Fill::Zero | Fill::Any | Fill::NoUndef => true,
    }
}

/// What a fill makes of what is given for it, at a place. It takes no memory.
pub(crate) fn filled(fill: Fill, given: &[Tri], place: u32) -> Tri
    ensures { result ≡ rams.filled fill given.now place }
{
    match fill {
        Fill::Nothing => Tri::Any,
        Fill::Zero => Tri::Zero,
        Fill::Any | Fill::NoUndef => tri_at(given, place),
    }
}

/// What stands at a place, any past the end. It takes no memory.
#[tactic(auto, using(crate::proofs::PinReads::tri_read, crate::proofs::PinReads::tri_past))]
fn tri_at(given: &[Tri], place: u32) -> Tri
    ensures { result ≡ rams.tri_at given.now place }
{
    match given.get(place as usize) {
        Some(tri) => *tri,
        None => Tri::Any,
    }
}
