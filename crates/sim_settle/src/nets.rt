//! Bits that are written to nets.
ghost use Rattle.std.specs.Prelude.{◌≡◌, ◌≤◌, length};
ghost use Rattle.lib_core.specs.Picks.{picked};
ghost use Rattle.ram_step.specs.Moments.{valuation};
ghost use Rattle.sim_settle.specs.Nets.{AreBelow, AreApart, Writes, Fills};

use lib_core::pick;

/// Writes bits to nets, none of which stands twice. It takes no memory.
pub fn write_nets(values: &mut [bool], nets: &[u32], bits: &[bool])
    requires nets { AreBelow (length values.old) nets.now }
    requires apart { AreApart nets.now }
    requires bits { length nets.now ≤ length bits.now }
    ensures { Writes nets.now (valuation bits.now) (valuation values.old) (valuation values.new) }
{
    for (place, net) in nets.iter().enumerate() {
        values[*net as usize] = bits[place];
    }
}

/// Gives each of these nets the value that is picked for it. It takes no memory.
pub fn pick_nets(values: &mut [bool], nets: &[u32], seed: u64, event: u64)
    requires { AreBelow (length values.old) nets.now }
    ensures { Fills nets.now (picked seed event 0) (valuation values.old) (valuation values.new) }
{
    for net in nets {
        values[*net as usize] = pick(seed, event, 0, *net as u64);
    }
}
