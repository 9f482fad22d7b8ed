//! Pins.
ghost use Rattle.std.specs.Prelude.{◌≡◌, ◌∷◌, ◌++◌, [], IfOk, OnOk};
ghost use Rattle.net_draft.specs.Rows as spec;

use lib_core::{List, Memory, Name};
use net_core::{Attr, Bit, Pin};
use std::alloc::Global;

/// No attributes.
pub fn no_attrs(alloc: Global) -> List<Attr>
    ensures { result ≡ [] }
{
    List::from_vec(Vec::new(alloc))
}

/// One bit.
pub fn one_bit(alloc: Global, bit: Bit) -> Result<List<Bit>, Memory>
    ensures { IfOk result (λ bits. bits ≡ bit ∷ []) }
{
    let mut bits = Vec::new(alloc);
    bits.push(bit)?;
    Ok(List::from_vec(bits))
}

/// Nets as bits.
pub fn nets_as_bits(alloc: Global, nets: &[u32]) -> Result<List<Bit>, Memory>
    ensures { IfOk result (λ bits. bits ≡ spec.nets_as_bits nets.now) }
{
    Ok(List::from_vec(each_bit(alloc, nets)?))
}

fn each_bit(alloc: Global, nets: &[u32]) -> Result<Vec<Bit>, Memory>
    ensures { IfOk result (λ bits. bits.items ≡ spec.nets_as_bits nets.now) }
{
    Ok(nets.iter().map(|net| Bit::Net(*net)).collect(alloc)?)
}

/// A pin.
fn pin(alloc: Global, name: &[u8], drives: bool, bits: List<Bit>) -> Result<Pin, Memory>
    ensures { IfOk result (λ pin. pin ≡ record { name = name.now; drives = drives; bits = bits }) }
{
    Ok(Pin {
        name: Name::from_vec(Vec::from_slice(alloc, name)?),
        drives,
        bits,
    })
}

/// Puts a pin at the end.
pub fn add_pin(
    alloc: Global,
    pins: &mut Vec<Pin>,
    name: &[u8],
    drives: bool,
    bits: List<Bit>,
) -> Result<(), Memory>
    ensures { OnOk result (pins.new.items ≡ pins.old.items ++ record { name = name.now; drives = drives; bits = bits } ∷ []) }
{
    pins.push(pin(alloc, name, drives, bits)?)?;
    Ok(())
}
