//! What the hits of a row come to.
ghost use Rattle.std.specs.Prelude.{◌≡◌, ℕ, ◌<◌, ◌&&◌, ◌||◌, Some, length, slice_get};
ghost use Rattle.lib_core.specs.Rams as rams;
ghost use Rattle.net_core.specs.Memory.{is_hit, tri_or_any};
ghost use Rattle.net_core.specs.Ram as ram;
ghost use Rattle.ram_step.specs.declared.hits.Hit.{Hit};
ghost use Rattle.std.specs.Prelude.{Option};
ghost use Rattle.net_core.specs.Ram.{Slot, slot_winner, slot_loads};
ghost use Rattle.row_store.specs.Limbs.{bit_in};
ghost use Rattle.row_store.specs.Rows.{tri_in};
ghost use Rattle.ram_step.specs.Ports.{slot_of};
ghost use Rattle.ram_step.specs.Hits.{hit_bit, hit_bits};
ghost use Rattle.ram_step.specs.Gathers as gathers;
ghost use Rattle.ram_step.specs.Gathers.{some_hit, known_bit, or_else, candidate};

use crate::hits::Hit;
use crate::ports::{Port, Ports};
use fit_pairs::priorities::wins_over;
use lib_core::{OwnWrite, Seen, Trans};
use row_store::{Row, and, and_not, or};

/// Which hits count for a slot.
#[derive(Clone, Copy)]
pub(crate) enum Choice {
    Every,
    /// Its own.
    Itself,
    /// Those of other slots over which it does not win.
    Unbeaten,
    /// Those that it does not see as made.
    NotBehind,
    /// Those that it does not see as not made yet.
    NotBefore,
}

/// Whether the hits of the other slot count.
fn counts(choice: Choice, own: &Port<'_>, other: &Port<'_>) -> bool
    ensures { result ≡ gathers.counts choice (slot_of own.now) (slot_of other.now) }
{
    match choice {
        Choice::Every => true,
        Choice::Itself => own.number == other.number,
        Choice::Unbeaten => {
            !(own.number == other.number || wins_over(own.group, own.kind, other.group, other.kind))
        }
        Choice::NotBehind => !sees_behind(own, other),
        Choice::NotBefore => !sees_before(own, other),
    }
}

/// Whether the slot sees the writes of the other as made.
fn sees_behind(own: &Port<'_>, other: &Port<'_>) -> bool
    ensures { result ≡ rams.is_behind (ram.view (slot_of own.now) (slot_of other.now)) }
{
    if own.number == other.number {
        match own.kind.own {
            OwnWrite::New | OwnWrite::NewOnly => true,
            OwnWrite::Undefined | OwnWrite::NoChange | OwnWrite::Old => false,
        }
    } else {
        is_seen_behind(own.group, other.kind.trans.as_slice())
    }
}

fn is_seen_behind(group: u32, trans: &[Trans]) -> bool
    ensures { result ≡ rams.is_behind (rams.trans_view group trans.now) }
{
    match trans {
        [] => false,
        [first, rest @ ..] => {
            if first.group == group {
                match first.seen {
                    Seen::Old => false,
                    Seen::New => true,
                }
            } else {
                is_seen_behind(group, rest)
            }
        }
    }
}

/// Whether the slot sees the writes of the other as not made yet.
fn sees_before(own: &Port<'_>, other: &Port<'_>) -> bool
    ensures { result ≡ rams.is_before (ram.view (slot_of own.now) (slot_of other.now)) }
{
    if own.number == other.number {
        match own.kind.own {
            OwnWrite::Old => true,
            OwnWrite::Undefined | OwnWrite::NoChange | OwnWrite::New | OwnWrite::NewOnly => false,
        }
    } else {
        is_seen_before(own.group, other.kind.trans.as_slice())
    }
}

fn is_seen_before(group: u32, trans: &[Trans]) -> bool
    ensures { result ≡ rams.is_before (rams.trans_view group trans.now) }
{
    match trans {
        [] => false,
        [first, rest @ ..] => {
            if first.group == group {
                match first.seen {
                    Seen::Old => true,
                    Seen::New => false,
                }
            } else {
                is_seen_before(group, rest)
            }
        }
    }
}

/// The bits of a row where a hit that counts is.
pub(crate) fn gather<const LIMBS: usize, const LEVELS: usize>(
    ports: &Ports<'_, LEVELS>,
    hits: &[Option<Hit<LIMBS>>],
    row: u32,
    choice: Choice,
    own: &Port<'_>,
) -> [u64; LIMBS]
    requires { length hits.now ≡ length ports.now.all }
    ensures { (k : ℕ) → bit_in result k ≡ some_hit choice (slot_of own.now) ports.now.all (hit_bits hits.now row k) }
{
    let mut bits = [0u64; LIMBS];
    for number in 0..ports.len() {
        bits = with_hit(
            ports,
            &hits[number as usize],
            row,
            choice,
            own,
            number,
            bits,
        );
    }
    bits
}

/// These bits, and those of the hit of a slot, where it counts.
fn with_hit<const LIMBS: usize, const LEVELS: usize>(
    ports: &Ports<'_, LEVELS>,
    hit: &Option<Hit<LIMBS>>,
    row: u32,
    choice: Choice,
    own: &Port<'_>,
    number: u32,
    bits: [u64; LIMBS],
) -> [u64; LIMBS]
    requires { number < length ports.now.all }
    ensures { (s : Slot) → slice_get ports.now.all number ≡ Some s → (k : ℕ) → bit_in result k ≡ (bit_in bits.entry k || (gathers.counts choice (slot_of own.now) s && is_hit (hit_bit row k hit.now))) }
{
    match hit {
        None => bits,
        Some(hit) => {
            if hit.row != row {
                return bits;
            }
            if counts(choice, own, &ports.get(number)) {
                or(&bits, &hit.mask)
            } else {
                bits
            }
        }
    }
}

/// What the writes make of a row: known where a hit has priority over all others there.
pub(crate) fn winning<const LIMBS: usize, const LEVELS: usize>(
    ports: &Ports<'_, LEVELS>,
    hits: &[Option<Hit<LIMBS>>],
    row: u32,
) -> Row<LIMBS>
    requires { length hits.now ≡ length ports.now.all }
    ensures { (k : ℕ) → tri_in result.values result.known k ≡ tri_or_any (slot_winner ports.now.all (hit_bits hits.now row k) ports.now.all (hit_bits hits.now row k)) }
{
    let mut won = Row {
        values: [0u64; LIMBS],
        known: [0u64; LIMBS],
    };
    for number in 0..ports.len() {
        won = with_winner(ports, hits, row, number, won);
    }
    won
}

/// This row, and what a slot writes there where no slot before it does.
fn with_winner<const LIMBS: usize, const LEVELS: usize>(
    ports: &Ports<'_, LEVELS>,
    hits: &[Option<Hit<LIMBS>>],
    row: u32,
    number: u32,
    won: Row<LIMBS>,
) -> Row<LIMBS>
    requires count { length hits.now ≡ length ports.now.all }
    requires number { number < length ports.now.all }
    ensures { (s : Slot) → slice_get ports.now.all number ≡ Some s → (h : Option (Hit LIMBS)) → slice_get hits.now number ≡ Some h → (k : ℕ) → known_bit result.values result.known k ≡ or_else (known_bit won.entry.values won.entry.known k) (candidate s ports.now.all (hit_bits hits.now row k) (hit_bit row k h)) }
{
    match &hits[number as usize] {
        None => won,
        Some(hit) => {
            if hit.row != row {
                return won;
            }
            let own = ports.get(number);
            let beaten = gather(ports, hits, row, Choice::Unbeaten, &own);
            let wins = and_not(&and_not(&hit.mask, &beaten), &won.known);
            Row {
                values: or(&and_not(&won.values, &wins), &and(&wins, &hit.value)),
                known: or(&won.known, &wins),
            }
        }
    }
}

/// What a loading read of a slot takes of a row.
pub(crate) fn loaded<const LIMBS: usize, const LEVELS: usize>(
    ports: &Ports<'_, LEVELS>,
    hits: &[Option<Hit<LIMBS>>],
    row: u32,
    old: &Row<LIMBS>,
    own: &Port<'_>,
) -> Row<LIMBS>
    requires { length hits.now ≡ length ports.now.all }
    ensures { (k : ℕ) → tri_in result.values result.known k ≡ slot_loads (slot_of own.now) ports.now.all (hit_bits hits.now row k) (tri_in old.now.values old.now.known k) }
{
    let hit = gather(ports, hits, row, Choice::Every, own);
    let unmade = gather(ports, hits, row, Choice::NotBehind, own);
    let late = gather(ports, hits, row, Choice::NotBefore, own);
    let won = winning(ports, hits, row);
    let made = and_not(&hit, &unmade);
    Row {
        values: or(&and(&won.values, &made), &and_not(&old.values, &made)),
        known: or(
            &and(&won.known, &made),
            &and_not(&and_not(&old.known, &made), &late),
        ),
    }
}
