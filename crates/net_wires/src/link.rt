//! Connects as a table: where each place leads.
ghost use Rattle.std.specs.Prelude.{◌≡◌, IfOk};
ghost use Rattle.net_wires.specs.Links.{link_of, links_of, own, tie_pair};

use crate::source::{Pair, Source};
use lib_core::Memory;
use std::alloc::Global;

/// What stands behind a place.
#[derive(Clone, Copy, Debug, PartialEq, Eq)]
pub enum Link {
    Zero,
    One,
    /// Nothing drives this place.
    End(u32),
    /// A connect drives it from this place.
    To(u32),
}

fn own(alloc: Global, count: u32) -> Result<Vec<Link>, Memory>
    ensures { IfOk result (λ table. table.items ≡ own count) }
{
    let mut table = Vec::with_capacity(alloc, count as usize)?;
    for i in 0..count {
        table.push(Link::End(i))?;
    }
    Ok(table)
}

fn link_of(at: u32, right: Source) -> Link
    ensures { result ≡ link_of at right }
{
    match right {
        Source::Zero => Link::Zero,
        Source::One => Link::One,
        Source::Loose => Link::End(at),
        Source::At(to) => Link::To(to),
    }
}

fn tie(table: &mut Vec<Link>, pair: Pair)
    ensures { table.new.items ≡ tie_pair table.old.items pair }
{
    if let Source::At(left) = pair.left {
        let at = left as usize;
        if at < table.len() {
            table[at] = link_of(left, pair.right);
        }
    }
}

/// Where each of `count` places leads by one connect.
pub fn links_of(alloc: Global, count: u32, pairs: &[Pair]) -> Result<Vec<Link>, Memory>
    ensures { IfOk result (λ table. table.items ≡ links_of count pairs.now) }
{
    let mut table = own(alloc, count)?;
    for pair in pairs {
        tie(&mut table, *pair);
    }
    Ok(table)
}
