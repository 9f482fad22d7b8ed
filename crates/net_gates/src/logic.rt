//! One logic cell over new nets.
ghost use Rattle.std.specs.Prelude.{◌≡◌, ◌≤◌, ◌+◌, ◌∷◌, [], IfOk, IfErr};
ghost use Rattle.net_edit.specs.Edits.{as_bits, bits_from, IsOver};
ghost use Rattle.net_gates.specs.Cells.{AddsLogic, IsLeft};

use lib_core::{List, Memory, Name};
use net_core::{Bit, Comb, CombKind};
use net_edit::{Edit, EditFault};
use std::alloc::Global;

/// No bits. It takes no memory.
pub(crate) fn no_bits(alloc: Global) -> List<Bit>
    ensures { result ≡ [] }
{
    List::from_vec(Vec::new(alloc))
}

/// A bit alone.
pub(crate) fn one_bit(alloc: Global, bit: Bit) -> Result<List<Bit>, Memory>
    ensures { IfOk result (λ list. list ≡ bit ∷ []) }
{
    let mut bits = Vec::new(alloc);
    bits.push(bit)?;
    Ok(List::from_vec(bits))
}

/// These bits.
pub(crate) fn list_of(alloc: Global, bits: &[Bit]) -> Result<List<Bit>, Memory>
    ensures { IfOk result (λ list. list ≡ bits.now) }
{
    Ok(List::from_vec(Vec::from_slice(alloc, bits)?))
}

/// These nets as bits.
fn bits_of(alloc: Global, nets: &[u32]) -> Result<Vec<Bit>, Memory>
    ensures { IfOk result (λ bits. bits.items ≡ as_bits nets.now) }
{
    Ok(nets.iter().map(|net| Bit::Net(*net)).collect(alloc)?)
}

/// A list of these nets as bits.
pub(crate) fn net_bits(alloc: Global, nets: &[u32]) -> Result<List<Bit>, Memory>
    ensures { IfOk result (λ bits. bits ≡ as_bits nets.now) }
{
    Ok(List::from_vec(bits_of(alloc, nets)?))
}

/// A logic cell over so many new nets, and these as bits.
#[tactic(auto, using(crate::proofs::NewCell::logic_added, crate::proofs::Leaving::left_at_once, crate::proofs::Leaving::left_with_nets))]
pub(crate) fn logic(
    alloc: Global,
    edit: &mut Edit,
    kind: CombKind,
    left: List<Bit>,
    right: List<Bit>,
    select: List<Bit>,
    width: u32,
) -> Result<List<Bit>, EditFault>
    ensures bits { IfOk result (λ bits. bits ≡ bits_from edit.old.netlist.nets width) }
    ensures cell { IfOk result (λ _. AddsLogic edit.old edit.new kind left right select width) }
    ensures full { IfErr result (IsOver (edit.old.netlist.nets + width)) }
    ensures fits { IfOk result (λ _. edit.old.netlist.nets + width ≤ 67108864) }
    ensures left { IfErr result (IsLeft edit.old edit.new width) }
{
    let y = edit.fresh(width)?;
    let bits = net_bits(alloc, y.as_slice())?;
    let name = Name::from_vec(Vec::new(alloc));
    edit.add_comb(Comb {
        name,
        kind,
        signed: false,
        a: left,
        b: right,
        s: select,
        y,
    })?;
    Ok(bits)
}

/// A logic cell over one new net, and this as a bit.
pub(crate) fn gate(
    alloc: Global,
    edit: &mut Edit,
    kind: CombKind,
    left: List<Bit>,
    right: List<Bit>,
) -> Result<Bit, EditFault>
    ensures net { IfOk result (λ y. y ≡ Bit.Net edit.old.netlist.nets) }
    ensures cell { IfOk result (λ _. AddsLogic edit.old edit.new kind left right [] 1) }
    ensures full { IfErr result (IsOver (edit.old.netlist.nets + 1)) }
    ensures fits { IfOk result (λ _. edit.old.netlist.nets + 1 ≤ 67108864) }
    ensures left { IfErr result (IsLeft edit.old edit.new 1) }
{
    let bits = logic(alloc, edit, kind, left, right, no_bits(alloc), 1)?;
    Ok(bits.as_slice()[0])
}
