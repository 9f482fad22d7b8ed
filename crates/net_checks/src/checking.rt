//! All that is looked at once the cells, the pins and the connects of a module are known.
ghost use Rattle.std.specs.Prelude.{◌≡◌, Bool, List as Seq};
ghost use Rattle.std.specs.List.{flat_map};
ghost use Rattle.rtlil_text.specs.Grammar.{AreDistinct, wire_name};
ghost use Rattle.net_wires.specs.Clocks.{AreClocks};
ghost use Rattle.net_wires.specs.Nets.{Resolves};
ghost use Rattle.net_wires.specs.Ties.{Follows, Marks};
ghost use Rattle.net_wires.specs.declared.clock.ClockRoot.{ClockRoot as Clocks};
ghost use Rattle.net_checks.specs.Checks as checks;
ghost use Rattle.net_checks.specs.ClockPins.{clock_drives};
ghost use Rattle.net_checks.specs.Finds.{FindsFirst};

use crate::clocks::check_clocks;
use crate::drivers::check_drivers;
use crate::fault::{ModuleHalt, broken, shown};
use crate::inout_pins::check_inouts;
use crate::inouts::Inouts;
use crate::marking::wire_with;
use lib_core::List;
use net_gather::Gathered;
use net_wires::{BuildCode, ClockRoot, Followed, Nets, Stop, follow, resolve};
use rtlil_text::Item;
use std::alloc::Global;

/// What a module's places lead to.
#[derive(Debug, Drop)]
pub struct Checked {
    /// The bits of all places, and how many nets there are.
    pub places: Nets,
    /// Where each place leads through connects and inverters.
    pub roots: List<ClockRoot>,
}

/// Stops where connects alone make a ring (`CombLoop`).
fn check_rings(
    alloc: Global,
    items: &[Item],
    gathered: &Gathered,
    followed: &Followed,
) -> Result<Nets, ModuleHalt>
    requires sound { checks.IsSound items.now gathered.now }
    requires follows { Follows (checks.module_links gathered.now) followed.now }
    ensures { FindsFirst result (checks.ring_faults followed.now.rings items.now) (λ nets. Resolves (checks.module_links gathered.now) nets.bits nets.count) }
{
    match resolve(alloc, followed) {
        Ok(nets) => Ok(nets),
        Err(Stop::Memory) => Err(ModuleHalt::Memory),
        Err(Stop::Broken(_)) => {
            let name = wire_with(alloc, followed.rings.as_slice(), items)?;
            Err(broken(BuildCode::CombLoop, shown(alloc, name)))
        }
    }
}

/// The bits of all places, and where they lead, where nothing is wrong with drivers, inouts, clocks
/// and rings of connects. It stops at the first fault, in this order.
pub fn check(
    alloc: Global,
    inouts: &Inouts,
    items: &[Item],
    gathered: &Gathered,
) -> Result<Checked, ModuleHalt>
    requires new { AreDistinct (flat_map wire_name items.now) }
    requires sound { checks.IsSound items.now gathered.now }
    ensures { (clocks : Seq Clocks) (rings : Seq Bool) → AreClocks (checks.module_links gathered.now) (clock_drives items.now gathered.now) clocks → Marks (checks.module_links gathered.now) rings → FindsFirst result (checks.checks_of inouts.now items.now gathered.now clocks rings) (checks.IsChecked gathered.now clocks) }
{
    let followed = follow(alloc, gathered.places, gathered.pairs.as_slice())?;
    check_drivers(alloc, items, gathered, followed.ends.as_slice())?;
    check_inouts(alloc, inouts, items, gathered)?;
    let roots = check_clocks(alloc, items, gathered)?;
    let places = check_rings(alloc, items, gathered, &followed)?;
    Ok(Checked { places, roots })
}
