//! Whether a candidate at a spot can win, by the bits of a row alone: a quick test before the row is laid
//! out.
ghost use Rattle.std.specs.Prelude.{◌≡◌, ◌≤◌, length};
ghost use Rattle.fit_rules.specs.Limits.{MemLimits, VariantLimits, IsSpot};
ghost use Rattle.plan_search.specs.Fewest as fewest;

use crate::cutting::beats;
use crate::sites::ports_points;
use fit_rules::sizes::{data_width, rows};
use fit_rules::{Plan, Spot};
use geom_core::split;
use geom_core::spreads::level_width;
use lib_core::Variant;
use net_core::Mem;

#[tactic(auto, using(crate::proofs::Fewest::need_few, crate::proofs::Fewest::rows_need_few))]
fn fewest_cells(mem: &Mem, variant: &Variant, spot: Spot) -> u64
    requires memory { MemLimits mem.now }
    requires limits { VariantLimits variant.now }
    requires spot { IsSpot variant.now spot }
    ensures { result ≡ fewest.fewest_cells mem.now variant.now spot }
{
    let bits = data_width(mem, spot.fold) as u32;
    let columns = split(bits, level_width(variant, spot.level));
    u64::from(rows(mem, variant, spot)) * u64::from(columns)
}

/// Whether a candidate at the spot may fit and beat the best. It takes no memory.
#[tactic(auto, using(crate::proofs::Fewest::least_few))]
pub fn may_win(mem: &Mem, variant: &Variant, spot: Spot, best: &Option<Plan>) -> bool
    requires memory { MemLimits mem.now }
    requires limits { VariantLimits variant.now }
    requires spot { IsSpot variant.now spot }
    requires few_reads { length mem.now.reads ≤ 8 }
    requires few_writes { length mem.now.writes ≤ 4 }
    ensures { result ≡ fewest.may_win mem.now variant.now spot best.now }
{
    let cells = fewest_cells(mem, variant, spot);
    cells <= 4096
        && beats(
            16 * u64::from(variant.cost) * cells + ports_points(mem, variant, spot),
            best,
        )
}
