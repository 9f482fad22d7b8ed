//! Cells of their own for the ports and the contents of a memory.
ghost use Rattle.std.specs.Prelude.{◌≡◌, IfOk};
ghost use Rattle.mem_rows.specs.Rows as rows;

use crate::part::{has, has_flag, has_number, has_some, has_text, is_set, number, text};
use cell_consts::polarity_at;
use lib_core::{Memory, Name};
use net_core::Attr;
use std::alloc::Global;

/// A port of a memory.
#[derive(Debug, PartialEq, Eq, Drop)]
pub struct PortRow {
    /// The memory's name.
    pub name: Name,
    /// The bits of the address.
    pub abits: u32,
    /// The bits of the data, at least 1.
    pub width: u32,
    /// Whether the port has a clock.
    pub clocked: bool,
    /// Whether it works at the rising edges.
    pub rising: bool,
}

/// Words that a memory has at the start.
#[derive(Debug, PartialEq, Eq, Drop)]
pub struct InitRow {
    /// The memory's name.
    pub name: Name,
    /// The bits of the address.
    pub abits: u32,
    /// The bits of a word, at least 1.
    pub width: u32,
    /// The number of words.
    pub words: u32,
    /// The higher one wins.
    pub priority: u32,
}

#[tactic(auto, unfolding(crate::specs::Rows::has_place))]
fn has_place(params: &[Attr]) -> bool
    ensures { result ≡ rows.has_place params.now }
{
    has_text(params, b"\\MEMID") && has_number(params, b"\\ABITS") && has_some(params, b"\\WIDTH")
}

#[tactic(auto, unfolding(crate::specs::Rows::has_clock))]
fn has_clock(params: &[Attr]) -> bool
    ensures { result ≡ rows.has_clock params.now }
{
    has_flag(params, b"\\CLK_ENABLE") && polarity_at(params, b"\\CLK_POLARITY").is_some()
}

#[tactic(auto, unfolding(crate::specs::Rows::port_fields))]
fn port_fields(alloc: Global, params: &[Attr]) -> Result<PortRow, Memory>
    ensures { IfOk result (λ row. row ≡ rows.port_fields params.now) }
{
    Ok(PortRow {
        name: text(alloc, params, b"\\MEMID")?,
        abits: number(params, b"\\ABITS"),
        width: number(params, b"\\WIDTH"),
        clocked: is_set(params, b"\\CLK_ENABLE"),
        rising: polarity_at(params, b"\\CLK_POLARITY").unwrap_or(false),
    })
}

#[tactic(auto, unfolding(crate::specs::Rows::has_read_lists))]
fn has_read_lists(params: &[Attr]) -> bool
    ensures { result ≡ rows.has_read_lists params.now }
{
    has(params, b"\\TRANSPARENCY_MASK")
        && has(params, b"\\COLLISION_X_MASK")
        && has(params, b"\\ARST_VALUE")
        && has(params, b"\\SRST_VALUE")
        && has(params, b"\\INIT_VALUE")
        && has_flag(params, b"\\CE_OVER_SRST")
}

/// The row of a cell `$memrd_v2`. None where a parameter is missing or no number where one is wanted,
/// where a flag is a string, or where the width is 0.
pub fn read_row(alloc: Global, params: &[Attr]) -> Result<Option<PortRow>, Memory>
    ensures { IfOk result (λ row. row ≡ rows.read_row params.now) }
{
    if has_place(params) && has_clock(params) && has_read_lists(params) {
        Ok(Some(port_fields(alloc, params)?))
    } else {
        Ok(None)
    }
}

/// Whether a cell `$memrd` is one that is known: without a clock and without transparency.
pub fn takes_no_clock(params: &[Attr]) -> bool
    ensures { result ≡ rows.takes_no_clock params.now }
{
    !is_set(params, b"\\CLK_ENABLE") && !is_set(params, b"\\TRANSPARENT")
}

/// The row of a cell `$memrd`. None as for [`read_row`].
pub fn old_read_row(alloc: Global, params: &[Attr]) -> Result<Option<PortRow>, Memory>
    ensures { IfOk result (λ row. row ≡ rows.old_read_row params.now) }
{
    if has_place(params) && has_clock(params) && has_flag(params, b"\\TRANSPARENT") {
        Ok(Some(port_fields(alloc, params)?))
    } else {
        Ok(None)
    }
}

/// The row of a cell `$memwr_v2`. None as for [`read_row`].
pub fn write_row(alloc: Global, params: &[Attr]) -> Result<Option<PortRow>, Memory>
    ensures { IfOk result (λ row. row ≡ rows.write_row params.now) }
{
    if has_place(params)
        && has_clock(params)
        && has_number(params, b"\\PORTID")
        && has(params, b"\\PRIORITY_MASK")
    {
        Ok(Some(port_fields(alloc, params)?))
    } else {
        Ok(None)
    }
}

#[tactic(auto, unfolding(crate::specs::Rows::init_fields))]
fn init_fields(alloc: Global, params: &[Attr]) -> Result<InitRow, Memory>
    ensures { IfOk result (λ row. row ≡ rows.init_fields params.now) }
{
    Ok(InitRow {
        name: text(alloc, params, b"\\MEMID")?,
        abits: number(params, b"\\ABITS"),
        width: number(params, b"\\WIDTH"),
        words: number(params, b"\\WORDS"),
        priority: number(params, b"\\PRIORITY"),
    })
}

/// The row of a cell `$meminit_v2`. None as for [`read_row`].
pub fn init_row(alloc: Global, params: &[Attr]) -> Result<Option<InitRow>, Memory>
    ensures { IfOk result (λ row. row ≡ rows.init_row params.now) }
{
    if has_place(params) && has_number(params, b"\\WORDS") && has_number(params, b"\\PRIORITY") {
        Ok(Some(init_fields(alloc, params)?))
    } else {
        Ok(None)
    }
}
