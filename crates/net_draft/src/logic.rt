//! Logic cells by their types, parameters and pins.
ghost use Rattle.std.specs.Prelude.{◌≡◌, ◌++◌, length, IfOk, OnOk};
ghost use Rattle.net_draft.specs.Rows as spec;

use crate::counts::count_of;
use crate::pins::{add_pin, nets_as_bits, no_attrs};
use cell_rows::{CombRow, Operands, comb_params, operands_of};
use cell_table::comb_type;
use lib_core::{Duplicate, List, Memory, Name};
use net_core::{Bit, Carried, Comb, Pin};
use std::alloc::Global;

/// The row of a cell with one operand.
fn one_row(comb: &Comb) -> Result<CombRow, Memory>
    ensures { IfOk result (λ row. row ≡ spec.one_row comb.now) }
{
    Ok(CombRow {
        kind: comb.kind,
        a_signed: comb.signed,
        b_signed: false,
        a_width: count_of(comb.a.as_slice().len())?,
        b_width: 0,
        s_width: 0,
        y_width: count_of(comb.y.as_slice().len())?,
    })
}

/// The row of a cell with two operands, which are both signed or both unsigned.
fn two_row(comb: &Comb) -> Result<CombRow, Memory>
    ensures { IfOk result (λ row. row ≡ spec.two_row comb.now) }
{
    Ok(CombRow {
        kind: comb.kind,
        a_signed: comb.signed,
        b_signed: comb.signed,
        a_width: count_of(comb.a.as_slice().len())?,
        b_width: count_of(comb.b.as_slice().len())?,
        s_width: 0,
        y_width: count_of(comb.y.as_slice().len())?,
    })
}

/// The row of a multiplexer.
fn mux_row(comb: &Comb, width: usize, selectors: usize) -> Result<CombRow, Memory>
    ensures { IfOk result (λ row. row ≡ spec.mux_row comb.now width selectors) }
{
    Ok(CombRow {
        kind: comb.kind,
        a_signed: false,
        b_signed: false,
        a_width: count_of(width)?,
        b_width: 0,
        s_width: count_of(selectors)?,
        y_width: 0,
    })
}

/// What the parameters of a logic cell will say. More bits than a parameter can count are want of
/// memory.
#[tactic(auto, unfolding(crate::specs::Rows::comb_row_of))]
fn comb_row_of(comb: &Comb) -> Result<CombRow, Memory>
    ensures { IfOk result (λ row. row ≡ spec.comb_row_of comb.now) }
{
    let width = comb.y.as_slice().len();
    match operands_of(comb.kind) {
        Operands::One => one_row(comb),
        Operands::Alike | Operands::Free | Operands::Shift => two_row(comb),
        Operands::Mux => mux_row(comb, width, 0),
        Operands::Pmux => mux_row(comb, width, comb.s.as_slice().len()),
    }
}

/// Puts a pin that the cell reads at the end, if the cell has it.
fn push_if(
    alloc: Global,
    pins: &mut Vec<Pin>,
    has: bool,
    name: &[u8],
    bits: &List<Bit>,
) -> Result<(), Memory>
    ensures { OnOk result (pins.new.items ≡ pins.old.items ++ spec.input_if has name.now bits.now) }
{
    if has {
        let bits = bits.duplicate(alloc)?;
        add_pin(alloc, pins, name, false, bits)?;
    }
    Ok(())
}

fn has_b(operands: Operands) -> bool
    ensures { result ≡ spec.has_b operands }
{
    match operands {
        Operands::One => false,
        Operands::Alike | Operands::Free | Operands::Shift | Operands::Mux | Operands::Pmux => true,
    }
}

fn has_s(operands: Operands) -> bool
    ensures { result ≡ spec.has_s operands }
{
    match operands {
        Operands::Mux | Operands::Pmux => true,
        Operands::One | Operands::Alike | Operands::Free | Operands::Shift => false,
    }
}

/// The pins of a logic cell, in the order of the cell library.
#[tactic(auto, unfolding(crate::specs::Rows::comb_pins_of))]
fn comb_pins_of(alloc: Global, comb: &Comb) -> Result<List<Pin>, Memory>
    ensures { IfOk result (λ pins. pins ≡ spec.comb_pins_of comb.now) }
{
    let operands = operands_of(comb.kind);
    let mut pins = Vec::new(alloc);
    push_if(alloc, &mut pins, true, b"\\A", &comb.a)?;
    push_if(alloc, &mut pins, has_b(operands), b"\\B", &comb.b)?;
    push_if(alloc, &mut pins, has_s(operands), b"\\S", &comb.s)?;
    let y = nets_as_bits(alloc, comb.y.as_slice())?;
    add_pin(alloc, &mut pins, b"\\Y", true, y)?;
    Ok(List::from_vec(pins))
}

/// A logic cell by its type, its parameters and its pins.
#[tactic(auto, unfolding(crate::specs::Rows::comb_cell))]
pub fn comb_cell(alloc: Global, comb: &Comb) -> Result<Carried, Memory>
    ensures { IfOk result (λ cell. cell ≡ spec.comb_cell comb.now) }
{
    let row = comb_row_of(comb)?;
    Ok(Carried {
        name: comb.name.copy(alloc)?,
        kind: Name::from_vec(Vec::from_slice(alloc, comb_type(comb.kind))?),
        params: comb_params(alloc, &row)?,
        pins: comb_pins_of(alloc, comb)?,
        attrs: no_attrs(alloc),
    })
}
