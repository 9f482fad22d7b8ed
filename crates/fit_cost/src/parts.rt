//! The points of one port.
ghost use Rattle.std.specs.Prelude.{◌≡◌, ◌≤◌, ◌<◌, ◌-◌, ◌^◌, length};
ghost use Rattle.fit_rules.specs.Limits.{MemLimits, VariantLimits, IsSpot};
ghost use Rattle.fit_cost.specs.Points as points;

use fit_rules::bits::{address_bits, bits_to, two_to};
use fit_rules::sizes::{data_width, rows};
use fit_rules::spots::Spot;
use geom_core::lane_runs;
use lib_core::Variant;
use net_core::{Mem, RdPort, WrPort};

/// What chooses among the rows, and among the words of a row, for a read. It takes no memory.
#[tactic(auto, using(crate::proofs::Bounds::row_product_few, crate::proofs::Bounds::fold_product_few, crate::proofs::Bounds::power_few))]
pub fn row_points(mem: &Mem, variant: &Variant, spot: Spot, read: &RdPort) -> u64
    requires memory { MemLimits mem.now }
    requires limits { VariantLimits variant.now }
    requires spot { IsSpot variant.now spot }
    requires wide { read.now.wide ≤ 6 }
    ensures value { result ≡ points.row_points mem.now variant.now spot read.now }
    ensures bound { result ≤ 4398314946560 }
{
    let bits = data_width(mem, read.wide);
    let words = folded_words(spot, read.wide);
    u64::from(rows(mem, variant, spot).saturating_sub(1)) * bits + words.saturating_sub(1) * bits
}

/// How many times the words of a port fit into the words of a row. It takes no memory.
#[tactic(auto, using(crate::proofs::Bounds::power_few))]
fn folded_words(spot: Spot, wide: u32) -> u64
    requires { spot.fold ≤ 6 }
    ensures value { result ≡ 2 ^ (spot.fold - wide) }
    ensures bound { result ≤ 64 }
{
    two_to(spot.fold.saturating_sub(wide))
}

/// What a register outside costs, and an emulated item. It takes no memory.
pub fn part_points(mem: &Mem, wide: u32) -> u64
    requires memory { MemLimits mem.now }
    requires wide { wide ≤ 6 }
    ensures value { result ≡ points.part_points mem.now wide }
    ensures bound { result ≤ 8388609 }
{
    2 * data_width(mem, wide) + 1
}

/// What a bypass costs. It takes no memory.
pub fn bypass_points(mem: &Mem, wide: u32) -> u64
    requires memory { MemLimits mem.now }
    requires wide { wide ≤ 6 }
    ensures value { result ≡ points.bypass_points mem.now wide }
    ensures bound { result ≤ 12582944 }
{
    u64::from(address_bits(mem, wide)) + 3 * data_width(mem, wide)
}

/// What it costs that a write waits until the reads are done. It takes no memory.
pub fn waiting_points(mem: &Mem, write: &WrPort) -> u64
    requires memory { MemLimits mem.now }
    requires wide { write.now.wide ≤ 6 }
    ensures value { result ≡ points.waiting_points mem.now write.now }
    ensures bound { result ≤ 8388640 }
{
    u64::from(address_bits(mem, write.wide)) + 2 * data_width(mem, write.wide)
}

/// What it costs that a read looks at the writes that wait. It takes no memory.
#[tactic(auto, using(crate::proofs::Bounds::bypasses_few))]
pub fn looking_points(mem: &Mem, read: &RdPort) -> u64
    requires memory { MemLimits mem.now }
    requires few { length mem.now.writes ≤ 4 }
    requires wide { read.now.wide ≤ 6 }
    ensures value { result ≡ points.looking_points mem.now read.now }
    ensures bound { result ≤ 50331776 }
{
    mem.writes.as_slice().len() as u64 * bypass_points(mem, read.wide)
}

/// What an emulated priority over a write costs. It takes no memory.
#[tactic(auto, using(crate::proofs::Bounds::runs_few))]
pub fn lower_points(mem: &Mem, write: &WrPort) -> u64
    requires memory { MemLimits mem.now }
    requires enables { length write.now.en ≤ 4194304 }
    ensures value { result ≡ points.lower_points mem.now write.now }
    ensures bound { result ≤ 8388640 }
{
    u64::from(address_bits(mem, write.wide)) + 2 * u64::from(lane_runs(write))
}

/// What tells a write's row, and its word in a row. It takes no memory.
#[tactic(auto, using(crate::proofs::Bounds::row_bits_few, crate::proofs::Bounds::fold_bits_few))]
pub fn write_points(mem: &Mem, variant: &Variant, spot: Spot, write: &WrPort) -> u64
    requires memory { MemLimits mem.now }
    requires limits { VariantLimits variant.now }
    requires spot { IsSpot variant.now spot }
    ensures value { result ≡ points.write_points mem.now variant.now spot write.now }
    ensures bound { result ≤ 33554816 }
{
    let rows = rows(mem, variant, spot);
    u64::from(rows) * u64::from(bits_to(rows))
        + folded_words(spot, write.wide) * u64::from(spot.fold.saturating_sub(write.wide))
}
