//! Logic cells, registers and cells that are kept as they are.
ghost use Rattle.std.specs.Prelude.{◌≡◌, IfOk};
ghost use Rattle.net_cells.specs.Cells as spec;

use cell_consts::fitted;
use cell_rows::reg::{has_arst, has_srst};
use cell_rows::{CombRow, RegRow};
use lib_core::{Duplicate, List, Memory, Name, Tri};
use net_core::{Bit, Carried, Comb, Pin, Reg};
use net_wires::{ClockRoot, bits_of};
use raw_cells::bits::{bit_at, bits_at, nets_at};
use raw_cells::{Kept, RawPin, clock_at};
use std::alloc::Global;

#[tactic(auto, unfolding(crate::specs::Cells::comb_of))]
pub fn comb_of(
    alloc: Global,
    places: &[Bit],
    name: &Name,
    row: &CombRow,
    pins: &[RawPin],
) -> Result<Comb, Memory>
    ensures { IfOk result (λ comb. comb ≡ spec.comb_of places.now name.now row.now pins.now) }
{
    Ok(Comb {
        name: name.copy(alloc)?,
        kind: row.kind,
        signed: row.a_signed,
        a: bits_at(alloc, places, pins, b"\\A")?,
        b: bits_at(alloc, places, pins, b"\\B")?,
        s: bits_at(alloc, places, pins, b"\\S")?,
        y: nets_at(alloc, places, pins, b"\\Y")?,
    })
}

/// A value of a register, where it has the reset.
fn value_if(alloc: Global, has: bool, width: u32, bits: &List<Tri>) -> Result<List<Tri>, Memory>
    ensures { IfOk result (λ value. value ≡ spec.value_if has width bits.now) }
{
    if has {
        fitted(alloc, width, bits.as_slice())
    } else {
        Ok(List::from_vec(Vec::new(alloc)))
    }
}

fn start_at(starts: &[Tri], net: u32) -> Tri
    ensures { result ≡ spec.start_at starts.now net }
{
    match starts.get(net as usize) {
        Some(start) => *start,
        None => Tri::Any,
    }
}

/// The values at the start of nets.
fn starts_at(alloc: Global, starts: &[Tri], nets: &[u32]) -> Result<List<Tri>, Memory>
    ensures { IfOk result (λ list. list ≡ spec.starts_at starts.now nets.now) }
{
    let mut list = Vec::with_capacity(alloc, nets.len())?;
    let mut rest = nets;
    while let [net, tail @ ..] = rest {
        list.push(start_at(starts, *net))?;
        rest = tail;
    }
    Ok(List::from_vec(list))
}

/// What a register takes of its row.
fn values_of(alloc: Global, row: &RegRow) -> Result<Values, Memory>
    ensures { IfOk result (λ values. values ≡ spec.values_of row.now) }
{
    let width = row.controls.width;
    Ok(Values {
        arst: value_if(alloc, has_arst(row.kind), width, &row.arst_value)?,
        srst: value_if(alloc, has_srst(row.kind), width, &row.srst_value)?,
    })
}

/// The values to which a register resets.
#[derive(Debug, Drop)]
pub struct Values {
    pub arst: List<Tri>,
    pub srst: List<Tri>,
}

/// The data of a register.
#[derive(Debug, Drop)]
pub struct Data {
    pub d: List<Bit>,
    pub q: List<u32>,
    pub init: List<Tri>,
}

fn data_of(alloc: Global, places: &[Bit], starts: &[Tri], pins: &[RawPin]) -> Result<Data, Memory>
    ensures { IfOk result (λ held. held ≡ spec.data_of places.now starts.now pins.now) }
{
    let q = nets_at(alloc, places, pins, b"\\Q")?;
    let init = starts_at(alloc, starts, q.as_slice())?;
    Ok(Data {
        d: bits_at(alloc, places, pins, b"\\D")?,
        q,
        init,
    })
}

#[tactic(auto, unfolding(crate::specs::Cells::reg_of))]
pub fn reg_of(
    alloc: Global,
    places: &[Bit],
    roots: &[ClockRoot],
    starts: &[Tri],
    name: &Name,
    row: &RegRow,
    pins: &[RawPin],
) -> Result<Reg, Memory>
    ensures { IfOk result (λ reg. reg ≡ spec.reg_of places.now roots.now starts.now name.now row.now pins.now) }
{
    let Values { arst, srst } = values_of(alloc, row)?;
    let Data { d, q, init } = data_of(alloc, places, starts, pins)?;
    Ok(Reg {
        name: name.copy(alloc)?,
        kind: row.kind,
        clock: clock_at(places, roots, pins, b"\\CLK", row.controls.rising),
        en: bit_at(places, pins, b"\\EN"),
        en_high: row.controls.en_high,
        arst: bit_at(places, pins, b"\\ARST"),
        arst_high: row.controls.arst_high,
        arst_value: arst,
        srst: bit_at(places, pins, b"\\SRST"),
        srst_high: row.controls.srst_high,
        srst_value: srst,
        d,
        q,
        init,
    })
}

fn pin_of(alloc: Global, places: &[Bit], pin: &RawPin) -> Result<Pin, Memory>
    ensures { IfOk result (λ kept. kept ≡ spec.pin_of places.now pin.now) }
{
    Ok(Pin {
        name: pin.name.copy(alloc)?,
        drives: pin.drives,
        bits: bits_of(alloc, places, pin.bits.as_slice())?,
    })
}

fn pins_of(alloc: Global, places: &[Bit], pins: &[RawPin]) -> Result<List<Pin>, Memory>
    ensures { IfOk result (λ list. list ≡ spec.pins_of places.now pins.now) }
{
    let mut list = Vec::with_capacity(alloc, pins.len())?;
    let mut rest = pins;
    while let [pin, tail @ ..] = rest {
        list.push(pin_of(alloc, places, pin)?)?;
        rest = tail;
    }
    Ok(List::from_vec(list))
}

#[tactic(auto, unfolding(crate::specs::Cells::carried_of))]
pub fn carried_of(
    alloc: Global,
    places: &[Bit],
    name: &Name,
    kept: &Kept,
    pins: &[RawPin],
) -> Result<Carried, Memory>
    ensures { IfOk result (λ cell. cell ≡ spec.carried_of places.now name.now kept.now pins.now) }
{
    Ok(Carried {
        name: name.copy(alloc)?,
        kind: kept.kind.copy(alloc)?,
        attrs: kept.attrs.duplicate(alloc)?,
        params: kept.params.duplicate(alloc)?,
        pins: pins_of(alloc, places, pins)?,
    })
}
