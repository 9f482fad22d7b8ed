//! The rows of registers.
ghost use Rattle.std.specs.Prelude.{◌≡◌, IfOk};
ghost use Rattle.net_core.specs.Cells as cells;
ghost use Rattle.cell_rows.specs.Rows as rows;
ghost use Rattle.cell_rows.specs.Pins as pins;

use crate::pin::{PinRow, push_clock, push_pin, push_pin_if};
use cell_consts::{bits_at, number_at, polarity_at};
use lib_core::{List, Memory, Tri};
use net_core::{Attr, FfKind};
use std::alloc::Global;

/// The width of a register, its edge, and the levels at which its pins are active. The level of a
/// pin that its kind lacks is false.
#[derive(Clone, Copy, Debug, PartialEq, Eq)]
pub struct Controls {
    pub width: u32,
    pub rising: bool,
    pub en_high: bool,
    pub arst_high: bool,
    pub srst_high: bool,
}

/// What the parameters of a register say. A value has the bits that its parameter has, low bit
/// first, and none where the kind lacks the pin.
#[derive(Debug, PartialEq, Eq, Drop)]
pub struct RegRow {
    pub kind: FfKind,
    pub controls: Controls,
    pub arst_value: List<Tri>,
    pub srst_value: List<Tri>,
}

/// Whether registers of the kind have an enable. It takes no memory.
pub fn has_enable(kind: FfKind) -> bool
    ensures { result ≡ cells.has_enable kind }
{
    match kind {
        FfKind::Dffe | FfKind::Adffe | FfKind::Sdffe | FfKind::Sdffce => true,
        FfKind::Dff | FfKind::Adff | FfKind::Sdff => false,
    }
}

/// Whether registers of the kind have an asynchronous reset. It takes no memory.
pub fn has_arst(kind: FfKind) -> bool
    ensures { result ≡ cells.has_arst kind }
{
    match kind {
        FfKind::Adff | FfKind::Adffe => true,
        FfKind::Dff | FfKind::Dffe | FfKind::Sdff | FfKind::Sdffe | FfKind::Sdffce => false,
    }
}

/// Whether registers of the kind have a synchronous reset. It takes no memory.
pub fn has_srst(kind: FfKind) -> bool
    ensures { result ≡ cells.has_srst kind }
{
    match kind {
        FfKind::Sdff | FfKind::Sdffe | FfKind::Sdffce => true,
        FfKind::Dff | FfKind::Dffe | FfKind::Adff | FfKind::Adffe => false,
    }
}

/// The row of a register: none where a parameter is missing, or no number where one is wanted.
#[tactic(auto, unfolding(crate::specs::Rows::reg_row))]
pub fn reg_row(alloc: Global, kind: FfKind, params: &[Attr]) -> Result<Option<RegRow>, Memory>
    ensures { IfOk result (λ row. row ≡ rows.reg_row kind params.now) }
{
    let Some(controls) = reg_controls(kind, params) else {
        return Ok(None);
    };
    let Some(arst_value) = bits_if(alloc, has_arst(kind), params, b"\\ARST_VALUE")? else {
        return Ok(None);
    };
    let Some(srst_value) = bits_if(alloc, has_srst(kind), params, b"\\SRST_VALUE")? else {
        return Ok(None);
    };
    Ok(Some(RegRow {
        kind,
        controls,
        arst_value,
        srst_value,
    }))
}

/// The width, the edge and the active levels.
#[tactic(auto, unfolding(crate::specs::Rows::controls))]
fn reg_controls(kind: FfKind, params: &[Attr]) -> Option<Controls>
    ensures { result ≡ rows.controls kind params.now }
{
    let width = number_at(params, b"\\WIDTH")?;
    let rising = polarity_at(params, b"\\CLK_POLARITY")?;
    let en_high = polarity_if(has_enable(kind), params, b"\\EN_POLARITY")?;
    let arst_high = polarity_if(has_arst(kind), params, b"\\ARST_POLARITY")?;
    let srst_high = polarity_if(has_srst(kind), params, b"\\SRST_POLARITY")?;
    Some(Controls {
        width,
        rising,
        en_high,
        arst_high,
        srst_high,
    })
}

/// The level at which a pin is active, false where the kind lacks the pin.
fn polarity_if(has: bool, params: &[Attr], name: &[u8]) -> Option<bool>
    ensures { result ≡ rows.polarity_if has params.now name.now }
{
    if has {
        polarity_at(params, name)
    } else {
        Some(false)
    }
}

/// The value of a reset, empty where the kind lacks it.
fn bits_if(
    alloc: Global,
    has: bool,
    params: &[Attr],
    name: &[u8],
) -> Result<Option<List<Tri>>, Memory>
    ensures { IfOk result (λ bits. bits ≡ rows.bits_if has params.now name.now) }
{
    if has {
        bits_at(alloc, params, name)
    } else {
        Ok(Some(List::from_vec(Vec::new(alloc))))
    }
}

/// The pins of a register with this row, in the order of the table: clock, D, Q, and then the
/// resets and the enable that the kind has.
#[tactic(auto, unfolding(crate::specs::Pins::reg_pins))]
pub fn reg_pins(alloc: Global, row: &RegRow) -> Result<List<PinRow>, Memory>
    ensures { IfOk result (λ list. list ≡ pins.reg_pins row.now) }
{
    let width = u64::from(row.controls.width);
    let mut list = Vec::new(alloc);
    push_clock(alloc, &mut list, b"\\CLK")?;
    push_pin(alloc, &mut list, b"\\D", width, false)?;
    push_pin(alloc, &mut list, b"\\Q", width, true)?;
    push_pin_if(alloc, &mut list, has_arst(row.kind), b"\\ARST")?;
    push_pin_if(alloc, &mut list, has_srst(row.kind), b"\\SRST")?;
    push_pin_if(alloc, &mut list, has_enable(row.kind), b"\\EN")?;
    Ok(List::from_vec(list))
}
