//! What the hits of a bit come to.
ghost use Rattle.std.specs.Prelude.{◌≡◌, ◌+◌, ◌^◌, ◌<◌, length};
ghost use Rattle.net_core.specs.Memory as memory;

use crate::pins::{bit_at, tri_of};
use lib_core::Tri;
use net_core::WrPort;

/// Whether there is a hit. It takes no memory.
pub fn any_hit(hits: &[Option<bool>]) -> bool
    ensures { result ≡ memory.any_hit hits.now }
{
    match hits {
        [] => false,
        [first, rest @ ..] => match first {
            Some(_) => true,
            None => any_hit(rest),
        },
    }
}

/// Whether the write at place `own` has priority over every other that hits; the hits are those from
/// place `at` on. It takes no memory.
fn beats(prio: &[bool], own: usize, at: usize, hits: &[Option<bool>]) -> bool
    requires { at + length hits.now < 2 ^ 64 }
    ensures { result ≡ memory.beats prio.now own at hits.now }
{
    match hits {
        [] => true,
        [first, rest @ ..] => match first {
            None => beats(prio, own, at + 1, rest),
            Some(_) => (at == own || bit_at(prio, at)) && beats(prio, own, at + 1, rest),
        },
    }
}

/// The value of the hit that has priority over all others; the writes and hits are those from place
/// `at` on. It takes no memory.
pub fn winner(
    all: &[Option<bool>],
    at: usize,
    writes: &[WrPort],
    hits: &[Option<bool>],
) -> Option<bool>
    requires all { length all.now < 2 ^ 64 }
    requires room { at + length hits.now < 2 ^ 64 }
    ensures { result ≡ memory.winner all.now at writes.now hits.now }
{
    match writes {
        [] => None,
        [write, later @ ..] => match hits {
            [] => None,
            [first, rest @ ..] => match first {
                None => winner(all, at + 1, later, rest),
                Some(bit) => {
                    if beats(write.prio.as_slice(), at, 0, all) {
                        Some(*bit)
                    } else {
                        winner(all, at + 1, later, rest)
                    }
                }
            },
        },
    }
}

/// The value of the winner, any where none wins. It takes no memory.
pub fn won(hits: &[Option<bool>], writes: &[WrPort]) -> Tri
    requires { length hits.now < 2 ^ 63 }
    ensures { result ≡ memory.tri_or_any (memory.winner hits.now 0 writes.now hits.now) }
{
    match winner(hits, 0, writes, hits) {
        None => Tri::Any,
        Some(bit) => tri_of(bit),
    }
}

/// Whether each hit has its bit in the mask. It takes no memory.
fn all_masked(mask: &[bool], at: usize, hits: &[Option<bool>]) -> bool
    requires { at + length hits.now < 2 ^ 64 }
    ensures { result ≡ memory.all_masked mask.now at hits.now }
{
    match hits {
        [] => true,
        [first, rest @ ..] => match first {
            None => all_masked(mask, at + 1, rest),
            Some(_) => bit_at(mask, at) && all_masked(mask, at + 1, rest),
        },
    }
}

/// Whether no hit has its bit in the mask. It takes no memory.
fn none_masked(mask: &[bool], at: usize, hits: &[Option<bool>]) -> bool
    requires { at + length hits.now < 2 ^ 64 }
    ensures { result ≡ memory.none_masked mask.now at hits.now }
{
    match hits {
        [] => true,
        [first, rest @ ..] => match first {
            None => none_masked(mask, at + 1, rest),
            Some(_) => !bit_at(mask, at) && none_masked(mask, at + 1, rest),
        },
    }
}

/// What a loading read takes of a bit. It takes no memory.
pub fn loaded(
    trans: &[bool],
    coll: &[bool],
    writes: &[WrPort],
    hits: &[Option<bool>],
    old: Tri,
) -> Tri
    requires { length hits.now < 2 ^ 63 }
    ensures { result ≡ memory.loaded trans.now coll.now writes.now hits.now old }
{
    if !any_hit(hits) {
        old
    } else if all_masked(trans, 0, hits) {
        won(hits, writes)
    } else if none_masked(trans, 0, hits) && none_masked(coll, 0, hits) {
        old
    } else {
        Tri::Any
    }
}
