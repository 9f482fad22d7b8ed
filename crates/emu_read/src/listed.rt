//! Masks of writes.
ghost use Rattle.std.specs.Prelude.{◌≡◌, IfOk};
ghost use Rattle.rewriting.specs.Reads as reads;

use lib_core::{List, Memory};
use std::alloc::Global;

/// Whether a write is listed.
fn is_listed(writes: &[u32], place: usize) -> bool
    ensures { result ≡ reads.is_listed writes.now place }
{
    writes.iter().any(|write| *write as usize == place)
}

/// The mask without the listed writes.
#[tactic(auto, using(crate::proofs::MaskSteps::none_left, crate::proofs::MaskSteps::without_step))]
pub(crate) fn mask_without(
    alloc: Global,
    writes: &[u32],
    bits: &[bool],
) -> Result<List<bool>, Memory>
    ensures { IfOk result (λ mask. mask ≡ reads.mask_without writes.now 0 bits.now) }
{
    let mut mask = Vec::new(alloc);
    let mut place = 0;
    let mut rest = bits;
    while let [bit, tail @ ..] = rest {
        mask.push(*bit & !is_listed(writes, place))?;
        place += 1;
        rest = tail;
    }
    Ok(List::from_vec(mask))
}

/// The mask with the listed writes.
#[tactic(auto, using(crate::proofs::MaskSteps::none_left, crate::proofs::MaskSteps::with_step))]
pub(crate) fn mask_with(alloc: Global, writes: &[u32], bits: &[bool]) -> Result<List<bool>, Memory>
    ensures { IfOk result (λ mask. mask ≡ reads.mask_with writes.now 0 bits.now) }
{
    let mut mask = Vec::new(alloc);
    let mut place = 0;
    let mut rest = bits;
    while let [bit, tail @ ..] = rest {
        mask.push(*bit | is_listed(writes, place))?;
        place += 1;
        rest = tail;
    }
    Ok(List::from_vec(mask))
}
