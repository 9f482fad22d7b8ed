//! Pieces of the pins and values of a memory cell.
ghost use Rattle.std.specs.Prelude.{◌≡◌, IfOk};
ghost use Rattle.std.specs.Option.{option_copied};
ghost use Rattle.mem_collect.specs.Pieces as pieces;

use lib_core::{Duplicate, List, Memory, Tri};
use net_core::{Bit, Clock, Pin};
use std::alloc::Global;

/// The pin of a name.
fn pin_named<'a>(pins: &'a [Pin], name: &[u8]) -> Option<&'a Pin>
    ensures { option_copied result ≡ pieces.pin_named pins.now name.now }
{
    pins.iter().find(|pin| pin.name.as_slice() == name)
}

/// The bits of the pin of a name.
pub fn pin_bits(alloc: Global, pins: &[Pin], name: &[u8]) -> Result<List<Bit>, Memory>
    ensures { IfOk result (λ bits. bits ≡ pieces.pin_bits pins.now name.now) }
{
    match pin_named(pins, name) {
        Some(pin) => pin.bits.duplicate(alloc),
        None => Ok(List::from_vec(Vec::new(alloc))),
    }
}

/// So many items from a place on.
fn cut<T>(items: &[T], from: usize, count: usize) -> &[T]
    ensures { result.now ≡ pieces.cut from count items.now }
{
    let behind = &items[items.len().min(from)..];
    &behind[..behind.len().min(count)]
}

pub fn cut_bits(
    alloc: Global,
    bits: &List<Bit>,
    from: usize,
    count: usize,
) -> Result<List<Bit>, Memory>
    ensures { IfOk result (λ piece. piece ≡ pieces.cut from count bits.now) }
{
    Ok(List::from_vec(Vec::from_slice(alloc, cut(bits.as_slice(), from, count))?))
}

pub fn cut_values(
    alloc: Global,
    values: &List<Tri>,
    from: usize,
    count: usize,
) -> Result<List<Tri>, Memory>
    ensures { IfOk result (λ piece. piece ≡ pieces.cut from count values.now) }
{
    Ok(List::from_vec(Vec::from_slice(alloc, cut(values.as_slice(), from, count))?))
}

/// The bit at a place, 0 past the end.
pub fn bit_or_zero(bits: &List<Bit>, place: u32) -> Bit
    ensures { result ≡ pieces.bit_or_zero bits.now place }
{
    match bits.as_slice().get(place as usize) {
        Some(bit) => *bit,
        None => Bit::Zero,
    }
}

/// The flag at a place, not set past the end.
pub fn flag_or_false(flags: &List<bool>, place: u64) -> bool
    ensures { result ≡ pieces.flag_or_false flags.now place }
{
    match flags.as_slice().get(place as usize) {
        Some(flag) => *flag,
        None => false,
    }
}

/// The address of a port: the low bits of a port of several words count as 0.
#[tactic(auto, unfolding(crate::specs::Pieces::address))]
pub fn address(alloc: Global, wide: u32, bits: &[Bit]) -> Result<List<Bit>, Memory>
    ensures { IfOk result (λ address. address ≡ pieces.address wide bits.now) }
{
    let low = bits.len().min(wide as usize);
    let mut address = Vec::from_elem(alloc, Bit::Zero, low)?;
    address.extend_from_slice(&bits[low..])?;
    Ok(List::from_vec(address))
}

/// The clock that a clock pin is.
pub fn clock_of(bit: Bit, rising: bool) -> Clock
    ensures { result ≡ pieces.clock_of bit rising }
{
    match bit {
        Bit::Zero => Clock::Never,
        Bit::One => Clock::Never,
        Bit::Net(net) => Clock::Root { net, rising },
    }
}
