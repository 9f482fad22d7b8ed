//! Numbers as constant bits.
ghost use Rattle.std.specs.Prelude.{◌≡◌, IfOk};
ghost use Rattle.net_gates.specs.Meanings as spec;

use lib_core::{List, Memory};
use net_core::Bit;
use std::alloc::Global;

fn constant_bit(bit: bool) -> Bit
    ensures { result ≡ spec.constant_bit bit }
{
    if bit { Bit::One } else { Bit::Zero }
}

/// The bits of a number, low bit first, with no 0 at the high end.
#[tactic(auto, using(crate::proofs::Numbers::none_built, crate::proofs::Numbers::one_more, crate::proofs::Numbers::all_built))]
pub(crate) fn constant(alloc: Global, number: u32) -> Result<List<Bit>, Memory>
    ensures { IfOk result (spec.IsConstant number) }
{
    let mut bits = Vec::new(alloc);
    let mut rest = number;
    while rest > 0 {
        bits.push(constant_bit(rest % 2 == 1))?;
        rest /= 2;
    }
    Ok(List::from_vec(bits))
}
