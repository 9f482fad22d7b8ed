//! Bits and nets at the ports of a cell.
ghost use Rattle.std.specs.Prelude.{◌≡◌, ◌+◌, ◌<◌, ◌^◌, ◌++◌, IfOk, OnOk, replicate};
ghost use Rattle.std.specs.List.{range_with_len};
ghost use Rattle.lib_core.specs.Rams as rams;
ghost use Rattle.net_core.specs.declared.bits.Bit.TheVariants as bits;
ghost use Rattle.ram_emit.specs.Cell as spec;

use lib_core::{Fill, List, Memory, Tri};
use net_core::Bit;
use std::alloc::Global;

/// The bits, and 0 behind them up to a length.
pub(crate) fn padded(alloc: Global, bits: &[Bit], length: usize) -> Result<List<Bit>, Memory>
    ensures { IfOk result (λ list. list ≡ spec.padded bits.now length) }
{
    let mut all = Vec::from_slice(alloc, bits)?;
    let mut zeros = vec![in alloc; Bit::Zero; length.saturating_sub(bits.len())]?;
    all.append(&mut zeros)?;
    Ok(List::from_vec(all))
}

/// So many bits 0.
pub(crate) fn zeros(alloc: Global, length: usize) -> Result<List<Bit>, Memory>
    ensures { IfOk result (λ list. list ≡ replicate length bits.Zero) }
{
    Ok(List::from_vec(vec![in alloc; Bit::Zero; length]?))
}

/// Puts so many nets at the end, numbered on from a number.
pub(crate) fn push_nets(nets: &mut Vec<u32>, next: u32, count: u32) -> Result<(), Memory>
    requires { next + count < 2 ^ 32 }
    ensures { OnOk result (nets.new.items ≡ nets.old.items ++ range_with_len next count) }
{
    for place in 0..count {
        nets.push(next + place)?;
    }
    Ok(())
}

/// Whether the value of a fill is a parameter of the cell. It takes no memory.
pub(crate) fn takes_value(fill: Fill) -> bool
    ensures { result ≡ rams.takes_value fill }
{
    match fill {
        Fill::Any | Fill::NoUndef => true,
        Fill::Nothing | Fill::Zero => false,
    }
}

/// The value of a fill with nothing asked.
pub(crate) fn low_value(alloc: Global, fill: Fill, width: usize) -> Result<List<Tri>, Memory>
    ensures { IfOk result (λ value. value ≡ spec.low_value fill width) }
{
    if takes_value(fill) {
        Ok(List::from_vec(vec![in alloc; Tri::Zero; width]?))
    } else {
        Ok(List::from_vec(Vec::new(alloc)))
    }
}
