//! Digits without a value that get places of their own.
ghost use Rattle.std.specs.Prelude.{◌≡◌, ◌≤◌, ◌+◌, IfOk};
ghost use Rattle.net_wires.specs.Settled.{loose_count, settled};

use crate::source::Source;
use lib_core::Memory;
use std::alloc::Global;

/// How many digits without a value there are.
pub fn loose_count(bits: &[Source]) -> usize
    ensures { result ≡ loose_count bits.now }
{
    let mut count = 0;
    let mut rest = bits;
    while let [bit, tail @ ..] = rest {
        count += match *bit {
            Source::Loose => 1,
            Source::Zero | Source::One | Source::At(_) => 0,
        };
        rest = tail;
    }
    count
}

/// Each digit without a value gets a place, from `next` on, in the order of the bits.
pub fn settled(alloc: Global, bits: &[Source], next: u32) -> Result<Vec<Source>, Memory>
    requires { next + loose_count bits.now ≤ 4294967295 }
    ensures { IfOk result (λ found. found.items ≡ settled next bits.now) }
{
    let mut found = Vec::with_capacity(alloc, bits.len())?;
    let mut next = next;
    let mut rest = bits;
    while let [bit, tail @ ..] = rest {
        match *bit {
            Source::Zero => found.push(Source::Zero)?,
            Source::One => found.push(Source::One)?,
            Source::At(place) => found.push(Source::At(place))?,
            Source::Loose => {
                found.push(Source::At(next))?;
                next += 1;
            }
        }
        rest = tail;
    }
    Ok(found)
}
