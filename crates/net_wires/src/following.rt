//! Connects, followed to their ends.
ghost use Rattle.std.specs.Prelude.{◌≡◌, ◌<◌, ◌^◌, length, replicate, false, IfOk};
ghost use Rattle.std.specs.List.{list_all};
ghost use Rattle.net_wires.specs.Doubling.{doubled, mark, mark_all, Tied};
ghost use Rattle.net_wires.specs.Links.{links_of, PairsWithin};
ghost use Rattle.net_wires.specs.Ties.{Follows, is_end, onward};

use crate::link::{Link, links_of};
use crate::source::Pair;
use lib_core::{List, Memory};
use std::alloc::Global;

/// Connects, followed.
#[derive(Debug, Drop)]
pub struct Followed {
    /// What the connects lead to from each place: its end, or `To` a place of a ring.
    pub ends: List<Link>,
    /// Which places lie on a ring of connects.
    pub rings: List<bool>,
}

fn is_end(link: Link) -> bool
    ensures { result ≡ is_end link }
{
    !matches!(link, Link::To(_))
}

fn are_ends(table: &[Link]) -> bool
    ensures { result ≡ list_all is_end table.now }
{
    table.iter().all(|link| is_end(*link))
}

fn onward(table: &[Link], link: Link) -> Link
    ensures { result ≡ onward table.now link }
{
    match link {
        Link::To(i) => match table.get(i as usize) {
            Some(next) => *next,
            None => link,
        },
        _ => link,
    }
}

/// Each place goes as far again as it went.
fn doubled(alloc: Global, table: &[Link]) -> Result<Vec<Link>, Memory>
    ensures { IfOk result (λ next. next.items ≡ doubled table.now) }
{
    let mut next = Vec::with_capacity(alloc, table.len())?;
    for link in table {
        next.push(onward(table, *link))?;
    }
    Ok(next)
}

/// The ends of all places. What is no end then lies on a ring.
pub fn tied(alloc: Global, table: Vec<Link>) -> Result<Vec<Link>, Memory>
    ensures { IfOk result (λ ends. Tied table.items ends.items) }
{
    let mut now = table;
    for round in 0..32u32 {
        if are_ends(now.as_slice()) {
            return Ok(now);
        }
        now = doubled(alloc, now.as_slice())?;
    }
    Ok(now)
}

fn mark(marks: &mut Vec<bool>, link: Link)
    ensures long { length marks.new.items ≡ length marks.old.items }
    ensures marked { marks.new.items ≡ mark marks.old.items link }
{
    if let Link::To(i) = link {
        let at = i as usize;
        if at < marks.len() {
            marks[at] = true;
        }
    }
}

/// Which places others are left at.
fn marks(alloc: Global, tied: &[Link]) -> Result<Vec<bool>, Memory>
    ensures { IfOk result (λ marks. marks.items ≡ mark_all (replicate (length tied.now) false) tied.now) }
{
    let mut marks = Vec::from_elem(alloc, false, tied.len())?;
    for link in tied {
        mark(&mut marks, *link);
    }
    Ok(marks)
}

/// Follows the connects of these pairs from each of `count` places.
pub fn follow(alloc: Global, count: u32, pairs: &[Pair]) -> Result<Followed, Memory>
    requires room { count < 2 ^ 31 }
    requires within { PairsWithin count pairs.now }
    ensures follows { IfOk result (λ followed. Follows (links_of count pairs.now) followed) }
    ensures long { IfOk result (λ followed. length followed.ends ≡ count) }
{
    let ends = tied(alloc, links_of(alloc, count, pairs)?)?;
    let rings = marks(alloc, ends.as_slice())?;
    Ok(Followed {
        ends: List::from_vec(ends),
        rings: List::from_vec(rings),
    })
}
