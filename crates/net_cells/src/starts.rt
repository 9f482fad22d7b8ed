//! The values at the start that the attribute `\init` of wires gives to nets.
ghost use Rattle.std.specs.Prelude.{◌≡◌, IfOk};
ghost use Rattle.net_cells.specs.Starts as filling;
ghost use Rattle.net_cells.specs.Wires as wires;
ghost use Rattle.net_cells.specs.Wires.{AreStarts};

use cell_consts::attr_bits;
use lib_core::{List, Memory, Tri};
use net_core::{Attr, Bit, Wire};
use std::alloc::Global;

/// The first of two that is 0 or 1.
fn or_else(first: Tri, other: Tri) -> Tri
    ensures { result ≡ wires.or_else first other }
{
    match first {
        Tri::Zero => Tri::Zero,
        Tri::One => Tri::One,
        Tri::Any => other,
    }
}

/// Bits say what they are before the others do, place by place.
#[tactic(auto, unfolding(crate::specs::Wires::put_before))]
fn put_before(alloc: Global, bits: &[Tri], others: &[Tri]) -> Result<Vec<Tri>, Memory>
    ensures { IfOk result (λ list. list.items ≡ wires.put_before bits.now others.now) }
{
    let mut list = Vec::with_capacity(alloc, others.len())?;
    let mut left = bits;
    let mut rest = others;
    while let [other, tail @ ..] = rest {
        let [bit, more @ ..] = left else {
            list.extend_from_slice(rest)?;
            return Ok(list);
        };
        list.push(or_else(*bit, *other))?;
        left = more;
        rest = tail;
    }
    Ok(list)
}

fn is_init(attr: &Attr) -> bool
    ensures { result ≡ wires.is_init attr.now }
{
    attr.name.as_slice() == b"\\init".as_slice()
}

/// What an attribute and those behind it say, where these say the others.
fn with_attr(alloc: Global, attr: &Attr, others: Vec<Tri>) -> Result<Vec<Tri>, Memory>
    ensures { IfOk result (λ list. list.items ≡ wires.with_attr attr.now others.items) }
{
    if !is_init(attr) {
        return Ok(others);
    }
    let bits = attr_bits(alloc, attr)?;
    put_before(alloc, bits.as_slice(), others.as_slice())
}

/// What the attributes of a wire say of each of its bits.
#[tactic(auto, using(crate::proofs::Inits::no_attrs, crate::proofs::Inits::one_attr))]
fn inits_of(alloc: Global, attrs: &[Attr], width: usize) -> Result<Vec<Tri>, Memory>
    ensures { IfOk result (λ list. list.items ≡ wires.inits_of attrs.now width) }
{
    let mut inits = Vec::from_elem(alloc, Tri::Any, width)?;
    for place in (0..attrs.len()).rev() {
        inits = with_attr(alloc, &attrs[place], inits)?;
    }
    Ok(inits)
}

fn put_start(table: &mut Vec<Tri>, bit: Bit, start: Tri)
    ensures { table.new.items ≡ filling.put_start table.old.items bit start }
{
    if let Bit::Net(net) = bit {
        let at = net as usize;
        if at < table.len() {
            table[at] = or_else(table[at], start);
        }
    }
}

#[tactic(auto, unfolding(crate::specs::Starts::put_starts))]
fn put_starts(table: &mut Vec<Tri>, bits: &[Bit], starts: &[Tri])
    ensures { table.new.items ≡ filling.put_starts table.old.items bits.now starts.now }
{
    let mut left = starts;
    let mut rest = bits;
    while let [bit, tail @ ..] = rest {
        let [start, more @ ..] = left else {
            return;
        };
        put_start(table, *bit, *start);
        left = more;
        rest = tail;
    }
}

fn put_wire(alloc: Global, table: &mut Vec<Tri>, wire: &Wire) -> Result<(), Memory>
    ensures { IfOk result (λ _. table.new.items ≡ filling.put_wire table.old.items wire.now) }
{
    let bits = wire.bits.as_slice();
    let starts = inits_of(alloc, wire.attrs.as_slice(), bits.len())?;
    put_starts(table, bits, starts.as_slice());
    Ok(())
}

#[tactic(auto, unfolding(crate::specs::Starts::put_wires))]
fn put_wires(alloc: Global, table: &mut Vec<Tri>, wires: &[Wire]) -> Result<(), Memory>
    ensures { IfOk result (λ _. table.new.items ≡ filling.put_wires table.old.items wires.now) }
{
    let mut rest = wires;
    while let [wire, tail @ ..] = rest {
        put_wire(alloc, table, wire)?;
        rest = tail;
    }
    Ok(())
}

/// The value at the start of each net: of the first wire whose attribute `\init` defines it.
#[tactic(auto, using(crate::proofs::Filled::are_starts))]
pub fn starts_of(alloc: Global, nets: u32, wires: &[Wire]) -> Result<List<Tri>, Memory>
    ensures { IfOk result (AreStarts nets wires.now) }
{
    let mut table = Vec::from_elem(alloc, Tri::Any, nets as usize)?;
    put_wires(alloc, &mut table, wires)?;
    Ok(List::from_vec(table))
}
