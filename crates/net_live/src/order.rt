//! Whether the nodes of a module have a combinational order.
ghost use Rattle.std.specs.Prelude.{◌≡◌, ◌↔◌, ◌<◌, ◌^◌, true, length, IfOk};
ghost use Rattle.net_core.specs.Nodes.{nodes_of, NetsWithin, Ordered};

use lib_core::Memory;
use net_core::laws::orders_agree;
use net_core::{LoopFault, Module, comb_order};
use std::alloc::Global;

/// Whether the nodes have an order, each after those that it depends on.
pub fn has_order(alloc: Global, module: &Module) -> Result<bool, Memory>
    requires within { NetsWithin «module».now }
    requires few { length (nodes_of «module».now) < 2 ^ 32 }
    ensures { IfOk result (λ ordered. ordered ≡ true ↔ Ordered «module».now) }
{
    orders_agree();
    match comb_order(alloc, module) {
        Ok(_) => Ok(true),
        Err(LoopFault::Loop { nodes: _ }) => Ok(false),
        Err(LoopFault::Memory) => Err(Memory),
    }
}
