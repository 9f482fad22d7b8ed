//! Registers: the bits that they start with, what they show, and what an event makes of them.
ghost use Rattle.std.specs.Prelude.{◌≡◌, ℕ, ◌<◌, IfOk, length, map, slice_index, slice_index_or};
ghost use Rattle.std.specs.List.{range_with_len};
ghost use Rattle.lib_core.specs.Rams as rams;
ghost use Rattle.net_core.specs.declared.bits.Bit.TheVariants.{Zero as Low};
ghost use Rattle.net_core.specs.Cells as cells;
ghost use Rattle.net_core.specs.Values as bits;
ghost use Rattle.ram_step.specs.Moments.{inputs_alone, moment_of, valuation};
ghost use Rattle.sim_cells.specs.Choices.{taken};
ghost use Rattle.sim_cells.specs.Registers as regs;

use crate::picks::{start_key, take};
use crate::pins::{bit_at, bit_or_low, has_edge, net_at, tri_at, tri_of, value_of};
use lib_core::{Memory, Tri};
use net_core::{Event, FfKind, Reg};
use ram_step::PickKey;
use std::alloc::Global;

/// Whether registers of the kind have an enable.
fn has_enable(kind: FfKind) -> bool
    ensures { result ≡ cells.has_enable kind }
{
    match kind {
        FfKind::Dffe | FfKind::Adffe | FfKind::Sdffe | FfKind::Sdffce => true,
        FfKind::Dff | FfKind::Adff | FfKind::Sdff => false,
    }
}

/// Whether registers of the kind have an asynchronous reset.
fn has_arst(kind: FfKind) -> bool
    ensures { result ≡ cells.has_arst kind }
{
    match kind {
        FfKind::Adff | FfKind::Adffe => true,
        FfKind::Dff | FfKind::Dffe | FfKind::Sdff | FfKind::Sdffe | FfKind::Sdffce => false,
    }
}

/// Whether registers of the kind have a synchronous reset.
fn has_srst(kind: FfKind) -> bool
    ensures { result ≡ cells.has_srst kind }
{
    match kind {
        FfKind::Sdff | FfKind::Sdffe | FfKind::Sdffce => true,
        FfKind::Dff | FfKind::Dffe | FfKind::Adff | FfKind::Adffe => false,
    }
}

/// Whether the synchronous reset counts only while the register is enabled.
fn resets_enabled(kind: FfKind) -> bool
    ensures { result ≡ cells.resets_enabled kind }
{
    match kind {
        FfKind::Sdffce => true,
        FfKind::Dff | FfKind::Dffe | FfKind::Adff | FfKind::Adffe | FfKind::Sdff | FfKind::Sdffe =>
            false,
    }
}

/// Whether a pin of this value has its active level.
fn is_active(value: bool, high: bool) -> bool
    ensures { result ≡ bits.same_bool value high }
{
    if value { high } else { !high }
}

fn is_enabled(reg: &Reg, values: &[bool]) -> bool
    ensures { result ≡ cells.enabled reg.now (valuation values.now) }
{
    !has_enable(reg.kind) || is_active(value_of(reg.en, values), reg.en_high)
}

fn in_arst(reg: &Reg, values: &[bool]) -> bool
    ensures { result ≡ cells.in_arst reg.now (valuation values.now) }
{
    has_arst(reg.kind) && is_active(value_of(reg.arst, values), reg.arst_high)
}

fn in_srst(reg: &Reg, values: &[bool]) -> bool
    ensures { result ≡ cells.in_srst reg.now (valuation values.now) }
{
    has_srst(reg.kind)
        && is_active(value_of(reg.srst, values), reg.srst_high)
        && (!resets_enabled(reg.kind) || is_enabled(reg, values))
}

/// The bits that a register starts with.
pub fn start_register(alloc: Global, reg: &Reg, key: &PickKey) -> Result<Vec<bool>, Memory>
    ensures { IfOk result (λ kept. kept.items ≡ regs.reg_start reg.now key.now) }
{
    let start = start_key(key);
    let width = reg.q.as_slice().len();
    let mut kept = Vec::with_capacity(alloc, width)?;
    for place in 0..width {
        kept.push(start_bit(reg, &start, place))?;
    }
    Ok(kept)
}

/// The bit that a register starts with at a place.
fn start_bit(reg: &Reg, start: &PickKey, place: usize) -> bool
    ensures { result ≡ taken start.now place (rams.tri_at reg.now.init place) }
{
    take(start, place as u64, tri_at(reg.init.as_slice(), place))
}

/// What a register shows at each place. It takes no memory.
pub fn show_register(reg: &Reg, kept: &[bool], values: &[bool], key: &PickKey, out: &mut [bool])
    ensures len { length out.new ≡ length out.old }
    ensures bits { (k : ℕ) → k < length out.new → bits.bit_at out.new k ≡ regs.reg_shown reg.now (valuation values.now) key.now kept.now k }
{
    for (place, here) in out.iter_mut().enumerate() {
        *here = shown_bit(reg, kept, values, key, place);
    }
}

/// What a register shows at a place.
fn shown_bit(reg: &Reg, kept: &[bool], values: &[bool], key: &PickKey, place: usize) -> bool
    ensures { result ≡ regs.reg_shown reg.now (valuation values.now) key.now kept.now place }
{
    let tri = if in_arst(reg, values) {
        tri_at(reg.arst_value.as_slice(), place)
    } else {
        tri_of(bit_at(kept, place))
    };
    take(key, place as u64, tri)
}

/// Keeps what comes next in a register. It takes no memory.
pub fn step_register(reg: &Reg, kept: &mut [bool], values: &[bool], event: &Event, key: &PickKey)
    requires { length kept.old ≡ length reg.now.q }
    ensures { kept.new ≡ regs.reg_stepped reg.now (valuation values.now) event.now key.now kept.old }
{
    for (place, here) in kept.iter_mut().enumerate() {
        let tri = next_tri(reg, place, *here, values, event);
        *here = take(key, place as u64, tri);
    }
}

/// What a register keeps next at a place where it keeps this.
fn next_tri(reg: &Reg, place: usize, kept: bool, values: &[bool], event: &Event) -> Tri
    ensures { result ≡ cells.reg_next (inputs_alone event.now) reg.now (moment_of event.now) (valuation values.now) (λ k. kept) place (slice_index reg.now.q place) (slice_index_or reg.now.d place Low) }
{
    if in_arst(reg, values) {
        tri_of(bit_at(values, net_at(reg.q.as_slice(), place) as usize))
    } else if !has_edge(event.edge, reg.clock) {
        tri_of(kept)
    } else if in_srst(reg, values) {
        tri_at(reg.srst_value.as_slice(), place)
    } else if is_enabled(reg, values) {
        tri_of(value_of(bit_or_low(reg.d.as_slice(), place), values))
    } else {
        tri_of(kept)
    }
}
