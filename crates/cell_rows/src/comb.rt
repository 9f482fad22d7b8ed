//! The rows of logic cells.
ghost use Rattle.std.specs.Prelude.{◌≡◌, IfOk, ◌^◌, ◌<◌};
ghost use Rattle.cell_rows.specs.Rows as rows;
ghost use Rattle.cell_rows.specs.Pins as pins;

use crate::operands::{Operands, operands_of};
use crate::pin::{PinRow, push_pin};
use cell_consts::{flag_at, number_at};
use lib_core::{List, Memory};
use net_core::{Attr, CombKind};
use std::alloc::Global;

/// What the parameters of a logic cell say. A parameter that its kind lacks is false or 0; `WIDTH`
/// and `S_WIDTH` of a multiplexer stand in `a_width` and `s_width`.
#[derive(Clone, Copy, Debug, PartialEq, Eq)]
pub struct CombRow {
    pub kind: CombKind,
    pub a_signed: bool,
    pub b_signed: bool,
    pub a_width: u32,
    pub b_width: u32,
    pub s_width: u32,
    pub y_width: u32,
}

/// The row of a logic cell: none where a parameter is missing or no number. It takes no memory.
pub fn comb_row(kind: CombKind, params: &[Attr]) -> Option<CombRow>
    ensures { result ≡ rows.comb_row kind params.now }
{
    match operands_of(kind) {
        Operands::One => one_row(kind, params),
        Operands::Alike | Operands::Free | Operands::Shift => two_row(kind, params),
        Operands::Mux => mux_row(kind, params),
        Operands::Pmux => pmux_row(kind, params),
    }
}

/// Whether an operand is signed, and its width.
fn operand_at(params: &[Attr], signed: &[u8], width: &[u8]) -> Option<(bool, u32)>
    ensures { result ≡ rows.operand_at params.now signed.now width.now }
{
    let is_signed = flag_at(params, signed)?;
    let width = number_at(params, width)?;
    Some((is_signed, width))
}

#[tactic(auto, unfolding(crate::specs::Rows::one_row))]
fn one_row(kind: CombKind, params: &[Attr]) -> Option<CombRow>
    ensures { result ≡ rows.one_row kind params.now }
{
    let (a_signed, a_width) = operand_at(params, b"\\A_SIGNED", b"\\A_WIDTH")?;
    let y_width = number_at(params, b"\\Y_WIDTH")?;
    Some(CombRow {
        kind,
        a_signed,
        b_signed: false,
        a_width,
        b_width: 0,
        s_width: 0,
        y_width,
    })
}

#[tactic(auto, unfolding(crate::specs::Rows::two_row))]
fn two_row(kind: CombKind, params: &[Attr]) -> Option<CombRow>
    ensures { result ≡ rows.two_row kind params.now }
{
    let (a_signed, a_width) = operand_at(params, b"\\A_SIGNED", b"\\A_WIDTH")?;
    let (b_signed, b_width) = operand_at(params, b"\\B_SIGNED", b"\\B_WIDTH")?;
    let y_width = number_at(params, b"\\Y_WIDTH")?;
    Some(CombRow {
        kind,
        a_signed,
        b_signed,
        a_width,
        b_width,
        s_width: 0,
        y_width,
    })
}

/// The row of a multiplexer.
fn mux_of(kind: CombKind, width: u32, selectors: u32) -> CombRow
    ensures { result ≡ rows.mux_of kind width selectors }
{
    CombRow {
        kind,
        a_signed: false,
        b_signed: false,
        a_width: width,
        b_width: 0,
        s_width: selectors,
        y_width: 0,
    }
}

#[tactic(auto, unfolding(crate::specs::Rows::mux_row))]
fn mux_row(kind: CombKind, params: &[Attr]) -> Option<CombRow>
    ensures { result ≡ rows.mux_row kind params.now }
{
    let width = number_at(params, b"\\WIDTH")?;
    Some(mux_of(kind, width, 0))
}

#[tactic(auto, unfolding(crate::specs::Rows::pmux_row))]
fn pmux_row(kind: CombKind, params: &[Attr]) -> Option<CombRow>
    ensures { result ≡ rows.pmux_row kind params.now }
{
    let width = number_at(params, b"\\WIDTH")?;
    let selectors = number_at(params, b"\\S_WIDTH")?;
    Some(mux_of(kind, width, selectors))
}

/// Whether a cell with this row is kept as it is for the signs of its operands: where they differ,
/// though the result depends on both, and where an operand of a shift is signed. It takes no memory.
pub fn is_carried_row(row: &CombRow) -> bool
    ensures { result ≡ rows.is_carried_row row.now }
{
    match operands_of(row.kind) {
        Operands::Alike => row.a_signed != row.b_signed,
        Operands::Shift => row.a_signed || row.b_signed,
        Operands::One | Operands::Free | Operands::Mux | Operands::Pmux => false,
    }
}

/// The pins of a cell with this row, in the order of the table.
#[tactic(auto, unfolding(crate::specs::Pins::comb_pins))]
pub fn comb_pins(alloc: Global, row: &CombRow) -> Result<List<PinRow>, Memory>
    ensures { IfOk result (λ list. list ≡ pins.comb_pins row.now) }
{
    match operands_of(row.kind) {
        Operands::One => one_pins(alloc, row),
        Operands::Alike | Operands::Free | Operands::Shift => two_pins(alloc, row),
        Operands::Mux => mux_pins(alloc, row.a_width, 1),
        Operands::Pmux => mux_pins(alloc, row.a_width, row.s_width),
    }
}

fn one_pins(alloc: Global, row: &CombRow) -> Result<List<PinRow>, Memory>
    ensures { IfOk result (λ list. list ≡ pins.one_pins row.now) }
{
    let mut list = Vec::new(alloc);
    push_pin(alloc, &mut list, b"\\A", u64::from(row.a_width), false)?;
    push_pin(alloc, &mut list, b"\\Y", u64::from(row.y_width), true)?;
    Ok(List::from_vec(list))
}

fn two_pins(alloc: Global, row: &CombRow) -> Result<List<PinRow>, Memory>
    ensures { IfOk result (λ list. list ≡ pins.two_pins row.now) }
{
    let mut list = Vec::new(alloc);
    push_pin(alloc, &mut list, b"\\A", u64::from(row.a_width), false)?;
    push_pin(alloc, &mut list, b"\\B", u64::from(row.b_width), false)?;
    push_pin(alloc, &mut list, b"\\Y", u64::from(row.y_width), true)?;
    Ok(List::from_vec(list))
}

fn mux_pins(alloc: Global, width: u32, selectors: u32) -> Result<List<PinRow>, Memory>
    ensures { IfOk result (λ list. list ≡ pins.mux_pins width selectors) }
{
    let width = u64::from(width);
    let selectors = u64::from(selectors);
    let mut list = Vec::new(alloc);
    push_pin(alloc, &mut list, b"\\A", width, false)?;
    push_pin(alloc, &mut list, b"\\B", width * selectors, false)?;
    push_pin(alloc, &mut list, b"\\S", selectors, false)?;
    push_pin(alloc, &mut list, b"\\Y", width, true)?;
    Ok(List::from_vec(list))
}
