//! The cell of a plain choice.
ghost use Rattle.std.specs.Prelude.{◌≡◌, ◌≤◌, IfOk};
ghost use Rattle.fit_rules.specs.Limits.{LibraryLimits, MemLimits, VariantLimits};
ghost use Rattle.ram_emit.specs.Cell as spec;

use crate::contents::contents;
use crate::groups::{Ports, ports_of};
use fit_rules::fitting::variant_at;
use geom_core::RamChoice;
use lib_core::{Library, List, Memory, Name, Variant};
use net_core::{Mem, RamCell};
use std::alloc::Global;

/// A cell, and how many new nets it has.
#[derive(Debug, Drop)]
pub struct PlainCell {
    pub cell: RamCell,
    pub nets: u32,
}

/// The cell of a choice that is plain, with a name, whose new nets are numbered on from a number.
pub fn plain_cell(
    alloc: Global,
    lib: &Library,
    mem: &Mem,
    choice: &RamChoice,
    name: Name,
    first: u32,
) -> Result<PlainCell, Memory>
    requires library { LibraryLimits lib.now }
    requires memory { MemLimits mem.now }
    requires first { first ≤ 67108864 }
    ensures cell { IfOk result (λ made. made.cell ≡ spec.plain_cell lib.now mem.now choice.now name first) }
    ensures nets { IfOk result (λ made. made.nets ≡ spec.new_nets lib.now mem.now choice.now) }
    ensures few { IfOk result (λ made. made.nets ≤ 32768) }
{
    match variant_at(lib, choice.ram, choice.variant) {
        None => Ok(empty_cell(alloc, choice, name)),
        Some(variant) => cell_of(alloc, variant, mem, choice, name, first),
    }
}

/// A cell with no ports, where the library has no such variant. It takes no memory.
fn empty_cell(alloc: Global, choice: &RamChoice, name: Name) -> PlainCell
    ensures cell { result.cell ≡ spec.empty_cell choice.now name }
    ensures nets { result.nets ≡ 0 }
{
    PlainCell {
        cell: RamCell {
            name,
            ram: choice.ram,
            variant: choice.variant,
            slots: List::from_vec(Vec::new(alloc)),
            init: List::from_vec(Vec::new(alloc)),
        },
        nets: 0,
    }
}

/// The cell of a choice of a variant.
#[tactic(auto, using(crate::proofs::Pushing::word_few, crate::proofs::Pushing::all_nets_few))]
fn cell_of(
    alloc: Global,
    variant: &Variant,
    mem: &Mem,
    choice: &RamChoice,
    name: Name,
    first: u32,
) -> Result<PlainCell, Memory>
    requires limits { VariantLimits variant.now }
    requires memory { MemLimits mem.now }
    requires first { first ≤ 67108864 }
    ensures cell { IfOk result (λ made. made.cell ≡ spec.cell_of variant.now mem.now choice.now name first) }
    ensures nets { IfOk result (λ made. made.nets ≡ spec.nets_from variant.now mem.now choice.now 0 variant.now.groups) }
    ensures few { IfOk result (λ made. made.nets ≤ 32768) }
{
    let Ports { slots, next } = ports_of(alloc, variant, mem, choice, first)?;
    let init = contents(alloc, variant, mem)?;
    Ok(PlainCell {
        cell: RamCell {
            name,
            ram: choice.ram,
            variant: choice.variant,
            slots,
            init,
        },
        nets: next - first,
    })
}
