//! When ports work at one clock edge.
ghost use Rattle.std.specs.Prelude.{◌≡◌};
ghost use Rattle.std.specs.List.{list_all};
ghost use Rattle.fit_pairs.specs.Clocks as clocks;

use lib_core::EdgeKind;
use net_core::{Clock, WrPort};

/// Whether two clocks are the same root with the same edge, or both constant. It takes no memory.
pub fn same_clock(a: Clock, b: Clock) -> bool
    ensures { result ≡ clocks.same_clock a b }
{
    match a {
        Clock::Never => match b {
            Clock::Never => true,
            Clock::Root { .. } => false,
        },
        Clock::Root { net, rising } => match b {
            Clock::Never => false,
            Clock::Root {
                net: other,
                rising: up,
            } => net == other && (if rising { up } else { !up }),
        },
    }
}

/// Whether ports with these clocks are in one domain: their clocks are the same root with the same
/// edge. It takes no memory.
pub fn one_domain(a: Clock, b: Clock) -> bool
    ensures { result ≡ clocks.one_domain a b }
{
    match a {
        Clock::Never => false,
        Clock::Root { .. } => same_clock(a, b),
    }
}

/// Whether a read, which may have no clock, and a write are in one domain. It takes no memory.
pub fn in_domain(read: Option<Clock>, write: Clock) -> bool
    ensures { result ≡ clocks.in_domain read write }
{
    match read {
        None => false,
        Some(clock) => one_domain(clock, write),
    }
}

/// Whether a port of this edge kind can work at the clock; a constant clock has no edge, and every
/// port can work at it. It takes no memory.
pub fn fits_edge(edge: Option<EdgeKind>, clock: Clock) -> bool
    ensures { result ≡ clocks.fits_edge edge clock }
{
    match clock {
        Clock::Never => true,
        Clock::Root { net: _, rising } => match edge {
            None => false,
            Some(EdgeKind::Either) => true,
            Some(EdgeKind::Pos) => rising,
            Some(EdgeKind::Neg) => !rising,
        },
    }
}

/// Whether all writes are in one domain. It takes no memory.
pub fn all_one_domain(writes: &[WrPort]) -> bool
    ensures { result ≡ clocks.all_one_domain writes.now }
{
    match writes {
        [] => true,
        [first, ..] => all_in_domain(first.clock, writes),
    }
}

fn all_in_domain(clock: Clock, writes: &[WrPort]) -> bool
    ensures { result ≡ list_all (λ w. clocks.one_domain clock w.clock) writes.now }
{
    writes.iter().all(|write| one_domain(clock, write.clock))
}

/// Whether all writes have one clock, which may be constant. It takes no memory.
pub fn all_one_clock(writes: &[WrPort]) -> bool
    ensures { result ≡ clocks.all_one_clock writes.now }
{
    match writes {
        [] => true,
        [first, ..] => all_at_clock(first.clock, writes),
    }
}

fn all_at_clock(clock: Clock, writes: &[WrPort]) -> bool
    ensures { result ≡ list_all (λ w. clocks.same_clock clock w.clock) writes.now }
{
    writes.iter().all(|write| same_clock(clock, write.clock))
}
