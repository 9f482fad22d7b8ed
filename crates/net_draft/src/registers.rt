//! Registers by their types, parameters and pins.
ghost use Rattle.std.specs.Prelude.{◌≡◌, ◌++◌, ◌∷◌, [], IfOk, OnOk};
ghost use Rattle.cell_rows.specs.Written.{reg_params};
ghost use Rattle.net_draft.specs.Rows as spec;

use crate::counts::count_of;
use crate::pins::{add_pin, nets_as_bits, no_attrs, one_bit};
use cell_rows::{Controls, RegRow, has_arst, has_enable, has_srst, reg_params};
use cell_table::ff_type;
use lib_core::{Duplicate, List, Memory, Name};
use net_core::{Attr, Bit, Carried, Clock, Pin, Reg};
use std::alloc::Global;

/// The bit at a clock pin: the root, and 0 for a clock that never ticks.
pub fn root_bit(clock: Clock) -> Bit
    ensures { result ≡ spec.root_bit clock }
{
    match clock {
        Clock::Root { net, .. } => Bit::Net(net),
        Clock::Never => Bit::Zero,
    }
}

/// Whether a clock ticks at rising edges. One that never ticks is written so too.
fn rises(clock: Clock) -> bool
    ensures { result ≡ spec.rises clock }
{
    match clock {
        Clock::Root { rising, .. } => rising,
        Clock::Never => true,
    }
}

/// The width, the edge and the active levels.
fn controls_of(reg: &Reg) -> Result<Controls, Memory>
    ensures { IfOk result (λ controls. controls ≡ spec.controls_of reg.now) }
{
    Ok(Controls {
        width: count_of(reg.q.as_slice().len())?,
        rising: rises(reg.clock),
        en_high: reg.en_high,
        arst_high: reg.arst_high,
        srst_high: reg.srst_high,
    })
}

/// What the parameters of a register will say. More bits than a parameter can count are want of
/// memory.
fn reg_row_of(alloc: Global, reg: &Reg) -> Result<RegRow, Memory>
    ensures { IfOk result (λ row. row ≡ spec.reg_row_of reg.now) }
{
    Ok(RegRow {
        kind: reg.kind,
        controls: controls_of(reg)?,
        arst_value: reg.arst_value.duplicate(alloc)?,
        srst_value: reg.srst_value.duplicate(alloc)?,
    })
}

/// Puts a pin of one bit at the end, if the register has it.
fn push_bit_if(
    alloc: Global,
    pins: &mut Vec<Pin>,
    has: bool,
    name: &[u8],
    bit: Bit,
) -> Result<(), Memory>
    ensures { OnOk result (pins.new.items ≡ pins.old.items ++ spec.input_if has name.now (bit ∷ [])) }
{
    if has {
        let bits = one_bit(alloc, bit)?;
        add_pin(alloc, pins, name, false, bits)?;
    }
    Ok(())
}

/// Puts the clock and the data at the end.
#[tactic(auto, unfolding(crate::specs::Rows::data_pins))]
fn push_data(alloc: Global, pins: &mut Vec<Pin>, reg: &Reg) -> Result<(), Memory>
    ensures { OnOk result (pins.new.items ≡ pins.old.items ++ spec.data_pins reg.now) }
{
    let clock = one_bit(alloc, root_bit(reg.clock))?;
    add_pin(alloc, pins, b"\\CLK", false, clock)?;
    let d = reg.d.duplicate(alloc)?;
    add_pin(alloc, pins, b"\\D", false, d)?;
    let q = nets_as_bits(alloc, reg.q.as_slice())?;
    add_pin(alloc, pins, b"\\Q", true, q)?;
    Ok(())
}

/// The pins of a register, in the order of the cell library.
#[tactic(auto, unfolding(crate::specs::Rows::reg_pins_of))]
fn reg_pins_of(alloc: Global, reg: &Reg) -> Result<List<Pin>, Memory>
    ensures { IfOk result (λ pins. pins ≡ spec.reg_pins_of reg.now) }
{
    let mut pins = Vec::new(alloc);
    push_data(alloc, &mut pins, reg)?;
    push_bit_if(alloc, &mut pins, has_arst(reg.kind), b"\\ARST", reg.arst)?;
    push_bit_if(alloc, &mut pins, has_srst(reg.kind), b"\\SRST", reg.srst)?;
    push_bit_if(alloc, &mut pins, has_enable(reg.kind), b"\\EN", reg.en)?;
    Ok(List::from_vec(pins))
}

fn params_of(alloc: Global, reg: &Reg) -> Result<List<Attr>, Memory>
    ensures { IfOk result (λ params. params ≡ reg_params (spec.reg_row_of reg.now)) }
{
    let row = reg_row_of(alloc, reg)?;
    reg_params(alloc, &row)
}

/// A register by its type, its parameters and its pins.
#[tactic(auto, unfolding(crate::specs::Rows::reg_cell))]
pub fn reg_cell(alloc: Global, reg: &Reg) -> Result<Carried, Memory>
    ensures { IfOk result (λ cell. cell ≡ spec.reg_cell reg.now) }
{
    Ok(Carried {
        name: reg.name.copy(alloc)?,
        kind: Name::from_vec(Vec::from_slice(alloc, ff_type(reg.kind))?),
        params: params_of(alloc, reg)?,
        pins: reg_pins_of(alloc, reg)?,
        attrs: no_attrs(alloc),
    })
}
