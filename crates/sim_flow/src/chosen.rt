//! Which module of a design is simulated.
ghost use Rattle.std.specs.Prelude.{◌≡◌, [], position};
ghost use Rattle.std.specs.List.{list_any};
ghost use Rattle.sim_flow.specs.Chosen as spec;

use lib_core::{List, Name, Tri};
use net_core::{Attr, Design, Module};
use std::alloc::Global;

fn has_one(bits: &[Tri]) -> bool
    ensures { result ≡ list_any spec.is_set bits.now }
{
    bits.iter().any(|bit| matches!(bit, Tri::One))
}

/// Whether an attribute marks the top module: `\top` with a bit that is 1.
fn marks_top(attr: &Attr) -> bool
    ensures { result ≡ spec.marks_top attr.now }
{
    attr.name.as_slice() == b"\\top".as_slice() && has_one(attr.bits.as_slice())
}

fn any_marks_top(attrs: &[Attr]) -> bool
    ensures { result ≡ list_any spec.marks_top attrs.now }
{
    attrs.iter().any(|attr| marks_top(attr))
}

fn is_top(module: &Module) -> bool
    ensures { result ≡ spec.is_top «module».now }
{
    any_marks_top(module.attrs.as_slice())
}

/// The place of the first module that is marked as the top.
fn top_place(modules: &[Module]) -> Option<usize>
    ensures { result ≡ position spec.is_top modules.now }
{
    modules.iter().position(|module| is_top(module))
}

fn no_items<T>(alloc: Global) -> List<T>
    ensures { result ≡ [] }
{
    List::from_vec(Vec::new(alloc))
}

/// A module without ports in which nothing is.
#[tactic(auto, unfolding(crate::specs::Chosen::no_module))]
fn no_module(alloc: Global) -> Module
    ensures { result ≡ spec.no_module }
{
    Module {
        name: Name::from_vec(Vec::new(alloc)),
        attrs: no_items(alloc),
        nets: 0,
        wires: no_items(alloc),
        declared: no_items(alloc),
        parts: no_items(alloc),
        mems: no_items(alloc),
        combs: no_items(alloc),
        regs: no_items(alloc),
        rams: no_items(alloc),
        carried: no_items(alloc),
    }
}

/// The module of a design that is simulated: the first whose attribute `\top` has a bit that is 1, else
/// the first, and in a design without a module one without ports.
#[tactic(auto, unfolding(crate::specs::Chosen::simulated_of))]
pub fn simulated_module(alloc: Global, design: Design) -> Module
    ensures { result ≡ spec.simulated design }
{
    let mut modules = design.modules.into_vec();
    let place = top_place(modules.as_slice()).unwrap_or(0);
    if place < modules.len() {
        modules.remove(place)
    } else {
        no_module(alloc)
    }
}
