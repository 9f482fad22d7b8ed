//! What logic cells show, with a value picked wherever any would do.
ghost use Rattle.std.specs.Prelude.{◌≡◌, ℕ, ◌<◌, true, length};
ghost use Rattle.lib_core.specs.Picks.{picked};
ghost use Rattle.cell_table.specs.Row.{HaveValues};
ghost use Rattle.net_core.specs.Logic.{comb_shows};
ghost use Rattle.net_core.specs.Nodes.{comb_node};
ghost use Rattle.net_core.specs.Values.{bit_at};
ghost use Rattle.ram_step.specs.Moments.{valuation};
ghost use Rattle.sim_cells.specs.Choices.{taken};
ghost use Rattle.sim_settle.specs.FreeKinds as kinds;

use cell_table::eval;
use lib_core::pick;
use net_core::{Comb, CombKind};
use ram_step::PickKey;

/// What a logic cell shows at each place. `picks` is room for as many bits. It takes no memory.
pub fn show_comb(comb: &Comb, values: &[bool], key: &PickKey, picks: &mut [bool], out: &mut [bool])
    requires nets { HaveValues (comb_node comb.now).needs values.now }
    requires picks { length picks.old ≡ length comb.now.y }
    requires out { length out.old ≡ length comb.now.y }
    ensures { (k : ℕ) → k < length out.new → bit_at out.new k ≡ taken key.now k (comb_shows comb.now (valuation values.now) k) }
{
    prepare(picks, key, comb.kind);
    eval(comb, values, picks, out);
}

/// The picks of a cell of this kind, where it may show anything.
fn prepare(picks: &mut [bool], key: &PickKey, kind: CombKind)
    ensures { kinds.is_free kind ≡ true → (k : ℕ) → k < length picks.new → bit_at picks.new k ≡ picked key.now.seed key.now.event key.now.cell k }
{
    if is_free(kind) {
        pick_bits(picks, key);
    }
}

/// Whether a cell of this kind may show anything.
fn is_free(kind: CombKind) -> bool
    ensures { result ≡ kinds.is_free kind }
{
    match kind {
        CombKind::Pmux => true,
        _ => false,
    }
}

/// The picks of a cell.
fn pick_bits(picks: &mut [bool], key: &PickKey)
    ensures { (k : ℕ) → k < length picks.new → bit_at picks.new k ≡ picked key.now.seed key.now.event key.now.cell k }
{
    for (place, here) in picks.iter_mut().enumerate() {
        *here = pick(key.seed, key.event, key.cell, place as u64);
    }
}
