//! Whether modules and designs are sound.
ghost use Rattle.std.specs.Prelude.{◌≡◌, ◌↔◌, true, IfOk};
ghost use Rattle.net_live.specs.Sound as spec;

use crate::drives::are_driven_once;
use crate::mems::mems_fit;
use crate::needs::{needs_are_within, nodes_are_few};
use crate::order::has_order;
use crate::slots::cells_agree;
use lib_core::{Library, Memory};
use net_core::{Design, Module};
use std::alloc::Global;

/// Whether a module is sound: its memories are whole and fit, its nets are its own and have at most one
/// driver each, its slots read as their kinds do, and its nodes have a combinational order. Such a module
/// has a run, whatever happens to it. The answer is no exactly where the module is not sound, numbers of 32
/// bits cannot name its nodes, or an input is no net of its own.
#[tactic(auto, using(crate::proofs::Sounding::testable_formed, crate::proofs::Sounding::testable_wired))]
pub fn is_sound(alloc: Global, lib: &Library, module: &Module) -> Result<bool, Memory>
    ensures exact { IfOk result (λ sound. sound ≡ true ↔ spec.IsTestable lib.now «module».now) }
    ensures says { IfOk result (λ sound. sound ≡ true → spec.IsSound lib.now «module».now) }
{
    if !is_formed(lib, module) || !is_wired(alloc, module)? {
        return Ok(false);
    }
    let ordered = has_order(alloc, module)?;
    Ok(ordered)
}

/// Whether each module of a design is sound.
pub fn design_is_sound(alloc: Global, lib: &Library, design: &Design) -> Result<bool, Memory>
    ensures exact { IfOk result (λ sound. sound ≡ true ↔ spec.IsTestableDesign lib.now design.now) }
    ensures says { IfOk result (λ sound. sound ≡ true → spec.IsSoundDesign lib.now design.now) }
{
    let mut rest = design.modules.as_slice();
    while let [module, tail @ ..] = rest {
        let sound = is_sound(alloc, lib, module)?;
        if !sound {
            return Ok(false);
        }
        rest = tail;
    }
    Ok(true)
}

/// Whether no memory is in parts, memories fit, and slots read as their kinds do.
fn is_formed(lib: &Library, module: &Module) -> bool
    ensures value { result ≡ spec.is_formed lib.now «module».now }
    ensures exact { result ≡ true ↔ spec.IsFormed lib.now «module».now }
{
    is_whole(module) && mems_fit(module.mems.as_slice()) && cells_agree(lib, module.rams.as_slice())
}

/// Whether no memory of the module is in parts.
fn is_whole(module: &Module) -> bool
    ensures { result ≡ spec.is_whole «module».now }
{
    module.parts.as_slice().is_empty() && module.declared.as_slice().is_empty()
}

/// Whether nodes need and drive nets of the module, no net has two drivers, and nodes are not too many.
#[tactic(auto, using(crate::proofs::Sounding::wired_needs))]
fn is_wired(alloc: Global, module: &Module) -> Result<bool, Memory>
    ensures { IfOk result (λ wired. wired ≡ true ↔ spec.IsWired «module».now) }
{
    if !needs_are_within(module) || !nodes_are_few(module) {
        return Ok(false);
    }
    let once = are_driven_once(alloc, module)?;
    Ok(once)
}
