//! The kinds of cells by their types, and their rows by their parameters.
use crate::fixtures::name;
use cell_consts::{bits_attr, flag_attr, number_attr};
use cell_rows::{
    CellKind, MemKind, Places, comb_pins, comb_row, drives, is_carried_row, kind_of, reg_pins,
    reg_row,
};
use lib_core::{List, Memory, Tri};
use net_core::{Attr, CombKind, FfKind};
use std::alloc::Global;
use std::test::Fail;

/// The kind of a cell beside a RAM `\R` and modules `\R` and `\m`.
fn kind(alloc: Global, bytes: &[u8]) -> Result<CellKind, Memory> {
    let rams = vec![in alloc; name(alloc, b"\\R")?]?;
    let modules = vec![in alloc; name(alloc, b"\\R")?, name(alloc, b"\\m")?]?;
    let rams = Places::new(alloc, rams.as_slice())?;
    let modules = Places::new(alloc, modules.as_slice())?;
    Ok(kind_of(&name(alloc, bytes)?, &rams, &modules))
}

#[test]
fn kinds_are_told(rt: HostRuntime) -> Result<(), Fail> {
    let alloc = rt.alloc();
    let cases = [
        (b"$pmux".as_slice(), CellKind::Comb(CombKind::Pmux)),
        (b"$sdffce".as_slice(), CellKind::Reg(FfKind::Sdffce)),
        (b"$alu".as_slice(), CellKind::Carried),
        (b"$memrd".as_slice(), CellKind::Memory(MemKind::OldRead)),
        (b"\\R".as_slice(), CellKind::Ram(0)),
        (b"\\m".as_slice(), CellKind::Instance(1)),
        (b"\\n".as_slice(), CellKind::Unknown),
    ];
    for (bytes, expected) in cases {
        assert!(rt; kind(alloc, bytes)? == expected);
    }
    assert!(rt; drives(b"$alu", b"\\CO") && !drives(b"$lcu", b"\\Y") && drives(b"$add", b"\\Y"));
    Ok(())
}

/// The parameters of a cell with operands of 3 and 4 bits.
fn operands(alloc: Global, a: bool, b: bool) -> Result<Vec<Attr>, Memory> {
    let mut params = Vec::new(alloc);
    params.push(flag_attr(alloc, b"\\A_SIGNED", a)?)?;
    params.push(number_attr(alloc, b"\\A_WIDTH", 3)?)?;
    params.push(flag_attr(alloc, b"\\B_SIGNED", b)?)?;
    params.push(number_attr(alloc, b"\\B_WIDTH", 4)?)?;
    params.push(number_attr(alloc, b"\\Y_WIDTH", 5)?)?;
    Ok(params)
}

#[test]
fn logic_cells_have_rows(rt: HostRuntime) -> Result<(), Fail> {
    let alloc = rt.alloc();
    let params = operands(alloc, true, false)?;
    assert_eq!(rt; comb_row(CombKind::Mux, params.as_slice()), None);
    let row = comb_row(CombKind::Shl, params.as_slice()).ok_or("a row")?;
    assert!(rt; is_carried_row(&row));
    let pins = comb_pins(alloc, &row)?;
    let widths: Vec<u64> = pins.as_slice().iter().map(|pin| pin.width).collect(alloc)?;
    assert_eq!(rt; widths.as_slice(), [3, 4, 5].as_slice());
    Ok(())
}

/// The parameters of a register with all that registers have.
fn register(alloc: Global) -> Result<Vec<Attr>, Memory> {
    let value = List::from_vec(vec![in alloc; Tri::One, Tri::Any]?);
    let mut params = Vec::new(alloc);
    params.push(number_attr(alloc, b"\\WIDTH", 2)?)?;
    params.push(flag_attr(alloc, b"\\CLK_POLARITY", true)?)?;
    params.push(flag_attr(alloc, b"\\EN_POLARITY", false)?)?;
    params.push(flag_attr(alloc, b"\\ARST_POLARITY", true)?)?;
    params.push(flag_attr(alloc, b"\\SRST_POLARITY", true)?)?;
    params.push(bits_attr(alloc, b"\\ARST_VALUE", &value)?)?;
    params.push(bits_attr(alloc, b"\\SRST_VALUE", &value)?)?;
    Ok(params)
}

#[test]
fn registers_have_rows(rt: HostRuntime) -> Result<(), Fail> {
    let alloc = rt.alloc();
    let params = register(alloc)?;
    let cases = [
        (FfKind::Dff, 3, 0),
        (FfKind::Dffe, 4, 0),
        (FfKind::Adff, 4, 2),
        (FfKind::Adffe, 5, 2),
        (FfKind::Sdff, 4, 0),
        (FfKind::Sdffe, 5, 0),
        (FfKind::Sdffce, 5, 0),
    ];
    for (kind, pins, value) in cases {
        let row = reg_row(alloc, kind, params.as_slice())?.ok_or("a row")?;
        assert_eq!(rt; row.arst_value.as_slice().len(), value);
        assert_eq!(rt; reg_pins(alloc, &row)?.as_slice().len(), pins);
    }
    Ok(())
}
