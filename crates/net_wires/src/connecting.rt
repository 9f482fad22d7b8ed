//! Signals where a width is wanted, and the two sides of a connect.
ghost use Rattle.std.specs.Prelude.{◌≡◌, ◌++◌, length, IfOk};
ghost use Rattle.net_wires.specs.Connects.{connect_breaches, connect_pairs, pair_up, sized_breaches, width_breaches};
ghost use Rattle.net_wires.specs.Finds.{Finds};
ghost use Rattle.net_wires.specs.Parts.{signal_bits};
ghost use Rattle.net_wires.specs.Spans.{There};

use crate::breach::{BuildCode, Stop, broken};
use crate::names::Names;
use crate::reading::signal;
use crate::source::{Pair, Source};
use lib_core::Memory;
use rtlil_text::Part;
use std::alloc::Global;

/// Stops with `WidthDiffers` where a width is not the wanted one.
pub fn has_width(found: usize, wanted: usize) -> Result<(), Stop>
    ensures { Finds result (width_breaches found wanted) (λ _. found ≡ wanted) }
{
    if found != wanted {
        return Err(broken(BuildCode::WidthDiffers));
    }
    Ok(())
}

/// The bits of a signal that has to have this width, low bit first. It stops as `signal` does, and then where the width
/// differs (`WidthDiffers`).
pub fn sized(
    alloc: Global,
    names: &Names,
    parts: &[Part],
    width: usize,
) -> Result<Vec<Source>, Stop>
    requires near { There 4294967295 names.now }
    ensures { Finds result (sized_breaches names.now parts.now width) (λ bits. bits.items ≡ signal_bits names.now parts.now) }
{
    let bits = signal(alloc, names, parts)?;
    has_width(bits.len(), width)?;
    Ok(bits)
}

fn push_pairs(pairs: &mut Vec<Pair>, left: &[Source], right: &[Source]) -> Result<(), Memory>
    ensures { IfOk result (λ _. pairs.new.items ≡ pairs.old.items ++ pair_up left.now right.now) }
{
    let mut lefts = left;
    let mut rights = right;
    while let [driven, left_tail @ ..] = lefts {
        let [driver, right_tail @ ..] = rights else {
            return Ok(());
        };
        pairs.push(Pair {
            left: *driven,
            right: *driver,
        })?;
        lefts = left_tail;
        rights = right_tail;
    }
    Ok(())
}

/// Puts the pairs of a connect behind the others. It stops as `signal` does, the left side first, and then where the
/// widths differ (`WidthDiffers`).
pub fn connect(
    alloc: Global,
    names: &Names,
    left: &[Part],
    right: &[Part],
    pairs: &mut Vec<Pair>,
) -> Result<(), Stop>
    requires near { There 4294967295 names.now }
    ensures { Finds result (connect_breaches names.now left.now right.now) (λ _. pairs.new.items ≡ pairs.old.items ++ connect_pairs names.now left.now right.now) }
{
    let driven = signal(alloc, names, left)?;
    let drivers = sized(alloc, names, right, driven.len())?;
    push_pairs(pairs, driven.as_slice(), drivers.as_slice())?;
    Ok(())
}
