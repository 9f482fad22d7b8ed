//! Texts put together from pieces.
ghost use Rattle.std.specs.Prelude.{◌≡◌, IfOk};
ghost use Rattle.std.specs.Fmt.{decimal};
ghost use Rattle.flow_top.specs.Joining.{contents, joined};

use lib_core::Memory;
use std::alloc::Global;

/// The pieces, one behind the other.
pub fn joined(alloc: Global, pieces: &[&[u8]]) -> Result<Vec<u8>, Memory>
    ensures { IfOk result (λ text. text.items ≡ joined (contents pieces.now)) }
{
    let mut text = Vec::new(alloc);
    let mut rest = pieces;
    while let [piece, tail @ ..] = rest {
        text.extend_from_slice(piece)?;
        rest = tail;
    }
    Ok(text)
}

/// A number in decimal digits.
pub fn decimal(alloc: Global, number: u64) -> Result<Vec<u8>, Memory>
    ensures { IfOk result (λ text. text.items ≡ decimal number) }
{
    let text = format!(in alloc; "{number}")?;
    Ok(Vec::from_slice(alloc, text.as_bytes())?)
}
