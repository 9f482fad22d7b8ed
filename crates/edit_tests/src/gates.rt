//! Each gate once.
ghost use Rattle.std.specs.Prelude.{◌≡◌, ◌∷◌, [], IfOk};
ghost use Rattle.net_core.specs.declared.bits.Bit.TheVariants as bits;
ghost use Rattle.net_gates.specs.Adds.{IsReady};
ghost use Rattle.edit_tests.specs.Nothing as spec;

use lib_core::{List, Memory, Name};
use net_core::{Bit, Module};
use net_edit::{Edit, EditFault};
use net_gates::{
    and_all, and_gate, equal_const, in_range, less_const, mux, not_gate, or_all, or_gate, xor_gate,
};
use std::alloc::Global;
use std::test::Fail;

/// A module without anything.
fn nothing(alloc: Global) -> Module
    ensures { result ≡ spec.nothing }
{
    Module {
        name: Name::from_vec(Vec::new(alloc)),
        attrs: List::from_vec(Vec::new(alloc)),
        nets: 0,
        wires: List::from_vec(Vec::new(alloc)),
        declared: List::from_vec(Vec::new(alloc)),
        parts: List::from_vec(Vec::new(alloc)),
        mems: List::from_vec(Vec::new(alloc)),
        combs: List::from_vec(Vec::new(alloc)),
        regs: List::from_vec(Vec::new(alloc)),
        rams: List::from_vec(Vec::new(alloc)),
        carried: List::from_vec(Vec::new(alloc)),
    }
}

/// An edit of it.
#[tactic(auto, using(crate::proofs::Ready::nothing_ready))]
pub fn empty_edit(alloc: Global) -> Result<Edit, Memory>
    ensures { IfOk result (λ edit. IsReady edit (bits.One ∷ [])) }
{
    Edit::new(alloc, nothing(alloc))
}

/// Gates of one bit, one over the other.
fn bit_gates(alloc: Global, edit: &mut Edit) -> Result<Bit, EditFault>
    requires { IsReady edit.old (bits.One ∷ []) }
    ensures { IfOk result (λ y. IsReady edit.new (y ∷ bits.One ∷ [])) }
{
    let first = not_gate(alloc, edit, Bit::One)?;
    let second = and_gate(alloc, edit, first, Bit::One)?;
    let third = or_gate(alloc, edit, second, Bit::One)?;
    let last = xor_gate(alloc, edit, third, Bit::One)?;
    Ok(last)
}

/// Gates of several bits, each over the one before it.
fn list_gates(alloc: Global, edit: &mut Edit, bit: Bit) -> Result<Bit, EditFault>
    requires { IsReady edit.old (bit ∷ bits.One ∷ []) }
    ensures { IfOk result (λ y. IsReady edit.new (y ∷ bits.One ∷ [])) }
{
    let first = and_all(alloc, edit, &[bit, Bit::One])?;
    let second = or_all(alloc, edit, &[first, Bit::One])?;
    let third = equal_const(alloc, edit, &[second, Bit::One], 3)?;
    let last = less_const(alloc, edit, &[third, Bit::One], 3)?;
    Ok(last)
}

/// A comparison with two numbers, and a choice.
fn choices(alloc: Global, edit: &mut Edit, bit: Bit) -> Result<usize, EditFault>
    requires { IsReady edit.old (bit ∷ bits.One ∷ []) }
{
    let inside = in_range(alloc, edit, &[bit, Bit::One], 1, 3)?;
    let chosen = mux(alloc, edit, Bit::One, &[inside], &[Bit::One])?;
    Ok(chosen.as_slice().len())
}

/// How many nets and cells the module has, where all gates had room and memory.
fn made(alloc: Global) -> Result<(u32, usize, usize), EditFault> {
    let mut edit = empty_edit(alloc)?;
    let bit = bit_gates(alloc, &mut edit)?;
    let bit = list_gates(alloc, &mut edit, bit)?;
    let chosen = choices(alloc, &mut edit, bit)?;
    let module = edit.netlist();
    Ok((module.nets, module.combs.as_slice().len(), chosen))
}

#[test]
fn each_gate_adds_its_cells(rt: HostRuntime) -> Result<(), Fail> {
    let Ok(made) = made(rt.alloc()) else {
        return Err(Fail::from("a gate was refused"));
    };
    assert_eq!(rt; made, (13, 13, 1));
    Ok(())
}
