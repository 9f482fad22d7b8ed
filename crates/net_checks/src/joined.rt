//! Places that are joined with marked ones.
ghost use Rattle.std.specs.Prelude.{◌≡◌, ◌<◌, ◌||◌, ℕ, length, IfOk};
ghost use Rattle.net_wires.specs.declared.link.Link.TheVariants.{End};
ghost use Rattle.net_checks.specs.Joined as spec;

use crate::marking::{is_marked, unmarked};
use lib_core::Memory;
use net_wires::Link;
use std::alloc::Global;

fn mark_end(marks: &mut Vec<bool>, link: Link)
    ensures { marks.new.items ≡ spec.mark_end marks.old.items link }
{
    if let Link::End(end) = link {
        let at = end as usize;
        if at < marks.len() {
            marks[at] = true;
        }
    }
}

fn mark_end_if(marks: &mut Vec<bool>, on: bool, link: Link)
    ensures { marks.new.items ≡ spec.mark_end_if marks.old.items on link }
{
    if on {
        mark_end(marks, link);
    }
}

/// Marks the places that connects lead to from marked places.
fn reached(alloc: Global, marks: &[bool], ends: &[Link]) -> Result<Vec<bool>, Memory>
    ensures { IfOk result (λ found. spec.AreReached marks.now ends.now (length ends.now) found.items) }
{
    let mut found = unmarked(alloc, ends.len())?;
    for place in 0..ends.len() {
        mark_end_if(&mut found, is_marked(marks, place), ends[place]);
    }
    Ok(found)
}

fn is_end_marked(marks: &[bool], link: Link) -> bool
    ensures { result ≡ spec.is_end_marked marks.now link }
{
    match link {
        Link::End(end) => is_marked(marks, end as usize),
        Link::Zero | Link::One | Link::To(_) => false,
    }
}

/// Marks the places that are joined with marked ones, where connects lead to these ends.
pub(crate) fn joined(alloc: Global, marks: &[bool], ends: &[Link]) -> Result<Vec<bool>, Memory>
    requires { (p e : ℕ) → spec.end_at ends.now p ≡ End e → e < length ends.now }
    ensures { IfOk result (λ found. spec.AreJoined marks.now ends.now found.items) }
{
    let reached = reached(alloc, marks, ends)?;
    let mut found = Vec::with_capacity(alloc, ends.len())?;
    for place in 0..ends.len() {
        let here = is_marked(marks, place);
        found.push(here | is_end_marked(reached.as_slice(), ends[place]))?;
    }
    Ok(found)
}
