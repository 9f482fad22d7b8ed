//! The parameters by which rows are written.
ghost use Rattle.std.specs.Prelude.{◌≡◌, ◌++◌, IfOk, OnOk};
ghost use Rattle.cell_rows.specs.Written as written;

use crate::comb::CombRow;
use crate::operands::{Operands, operands_of};
use crate::reg::{RegRow, has_arst, has_enable, has_srst};
use cell_consts::{bits_attr, flag_attr, number_attr};
use lib_core::{List, Memory, Tri};
use net_core::Attr;
use std::alloc::Global;

/// The parameters of a logic cell with this row, in the order of the cell library.
#[tactic(auto, unfolding(crate::specs::Written::comb_params))]
pub fn comb_params(alloc: Global, row: &CombRow) -> Result<List<Attr>, Memory>
    ensures { IfOk result (λ list. list ≡ written.comb_params row.now) }
{
    match operands_of(row.kind) {
        Operands::One => one_params(alloc, row),
        Operands::Alike | Operands::Free | Operands::Shift => two_params(alloc, row),
        Operands::Mux => mux_params(alloc, row),
        Operands::Pmux => pmux_params(alloc, row),
    }
}

fn one_params(alloc: Global, row: &CombRow) -> Result<List<Attr>, Memory>
    ensures { IfOk result (λ list. list ≡ written.one_params row.now) }
{
    let mut list = Vec::new(alloc);
    list.push(flag_attr(alloc, b"\\A_SIGNED", row.a_signed)?)?;
    list.push(number_attr(alloc, b"\\A_WIDTH", row.a_width)?)?;
    list.push(number_attr(alloc, b"\\Y_WIDTH", row.y_width)?)?;
    Ok(List::from_vec(list))
}

fn two_params(alloc: Global, row: &CombRow) -> Result<List<Attr>, Memory>
    ensures { IfOk result (λ list. list ≡ written.two_params row.now) }
{
    let mut list = Vec::new(alloc);
    list.push(flag_attr(alloc, b"\\A_SIGNED", row.a_signed)?)?;
    list.push(number_attr(alloc, b"\\A_WIDTH", row.a_width)?)?;
    list.push(flag_attr(alloc, b"\\B_SIGNED", row.b_signed)?)?;
    list.push(number_attr(alloc, b"\\B_WIDTH", row.b_width)?)?;
    list.push(number_attr(alloc, b"\\Y_WIDTH", row.y_width)?)?;
    Ok(List::from_vec(list))
}

fn mux_params(alloc: Global, row: &CombRow) -> Result<List<Attr>, Memory>
    ensures { IfOk result (λ list. list ≡ written.mux_params row.now) }
{
    let mut list = Vec::new(alloc);
    list.push(number_attr(alloc, b"\\WIDTH", row.a_width)?)?;
    Ok(List::from_vec(list))
}

fn pmux_params(alloc: Global, row: &CombRow) -> Result<List<Attr>, Memory>
    ensures { IfOk result (λ list. list ≡ written.pmux_params row.now) }
{
    let mut list = Vec::new(alloc);
    list.push(number_attr(alloc, b"\\WIDTH", row.a_width)?)?;
    list.push(number_attr(alloc, b"\\S_WIDTH", row.s_width)?)?;
    Ok(List::from_vec(list))
}

/// The parameters of a register with this row, in the order of the cell library.
#[tactic(auto, unfolding(crate::specs::Written::reg_params))]
pub fn reg_params(alloc: Global, row: &RegRow) -> Result<List<Attr>, Memory>
    ensures { IfOk result (λ list. list ≡ written.reg_params row.now) }
{
    let controls = row.controls;
    let mut list = Vec::new(alloc);
    list.push(number_attr(alloc, b"\\WIDTH", controls.width)?)?;
    list.push(flag_attr(alloc, b"\\CLK_POLARITY", controls.rising)?)?;
    push_flag_if(
        alloc,
        &mut list,
        has_enable(row.kind),
        b"\\EN_POLARITY",
        controls.en_high,
    )?;
    push_flag_if(
        alloc,
        &mut list,
        has_arst(row.kind),
        b"\\ARST_POLARITY",
        controls.arst_high,
    )?;
    push_bits_if(
        alloc,
        &mut list,
        has_arst(row.kind),
        b"\\ARST_VALUE",
        &row.arst_value,
    )?;
    push_flag_if(
        alloc,
        &mut list,
        has_srst(row.kind),
        b"\\SRST_POLARITY",
        controls.srst_high,
    )?;
    push_bits_if(
        alloc,
        &mut list,
        has_srst(row.kind),
        b"\\SRST_VALUE",
        &row.srst_value,
    )?;
    Ok(List::from_vec(list))
}

/// Puts a flag at the end, if the cell has it.
fn push_flag_if(
    alloc: Global,
    list: &mut Vec<Attr>,
    has: bool,
    name: &[u8],
    set: bool,
) -> Result<(), Memory>
    ensures { OnOk result (list.new.items ≡ list.old.items ++ written.flag_if has name.now set) }
{
    if has {
        list.push(flag_attr(alloc, name, set)?)?;
    }
    Ok(())
}

/// Puts bits at the end, if the cell has them.
fn push_bits_if(
    alloc: Global,
    list: &mut Vec<Attr>,
    has: bool,
    name: &[u8],
    bits: &List<Tri>,
) -> Result<(), Memory>
    ensures { OnOk result (list.new.items ≡ list.old.items ++ written.bits_if has name.now bits.now) }
{
    if has {
        list.push(bits_attr(alloc, name, bits)?)?;
    }
    Ok(())
}
