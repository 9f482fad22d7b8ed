//! What has nets, compared under tables of them.
ghost use Rattle.std.specs.Prelude.{◌≡◌, true, ℕ, List, [], ◌∷◌, map};
ghost use Rattle.std.specs.List.{flat_map};
ghost use Rattle.net_core.specs.Renaming.{renamed_bit, renamed_clock, renamed_read_clock};
ghost use Rattle.net_same.specs.Nets.{sent};
ghost use Rattle.net_same.specs.Own.{bit_nets, clock_nets, read_clock_nets};
ghost use Rattle.net_same.specs.Learning.{Teaches, IsSeen};

use crate::tables::Tables;
use lib_core::List;
use net_core::{Bit, Clock};

/// What has nets. Where a type has many parts, all of them are compared, joined by `&`: that makes one goal of
/// each comparison.
pub trait Wired {
    /// With other numbers for its nets.
    ghost renamed: { (ℕ → ℕ) → Self → Self };

    /// The nets that it mentions.
    ghost nets: { Self → List ℕ };

    /// Enters which of the other's nets stand where its own do. Where the other is this one renamed, the
    /// tables then know the renaming at each net that it mentions.
    fn learn(&self, other: &Self, tables: &mut Tables)
        ensures { Teaches renamed nets self.now other.now tables.old tables.new };

    /// Whether the other is this one with the nets that the tables say.
    fn is_renamed(&self, other: &Self, tables: &Tables) -> bool
        ensures sound { result ≡ true → other.now ≡ renamed (sent tables.now) self.now }
        ensures complete { IsSeen renamed nets self.now other.now tables.now result };
}

impl Wired for u32 {
    ghost renamed = { λ f n. f n };

    ghost nets = { λ n. n ∷ [] };

    fn learn(&self, other: &u32, tables: &mut Tables) {
        tables.enter(*self, *other);
    }

    fn is_renamed(&self, other: &u32, tables: &Tables) -> bool {
        tables.is_sent(*self, *other)
    }
}

impl Wired for Bit {
    ghost renamed = { renamed_bit };

    ghost nets = { bit_nets };

    fn learn(&self, other: &Bit, tables: &mut Tables) {
        match *self {
            Bit::Zero => {}
            Bit::One => {}
            Bit::Net(old) => match *other {
                Bit::Zero => {}
                Bit::One => {}
                Bit::Net(new) => tables.enter(old, new),
            },
        }
    }

    fn is_renamed(&self, other: &Bit, tables: &Tables) -> bool {
        match (*self, *other) {
            (Bit::Zero, Bit::Zero) => true,
            (Bit::One, Bit::One) => true,
            (Bit::Net(old), Bit::Net(new)) => tables.is_sent(old, new),
            _ => false,
        }
    }
}

impl Wired for Clock {
    ghost renamed = { renamed_clock };

    ghost nets = { clock_nets };

    fn learn(&self, other: &Clock, tables: &mut Tables) {
        match *self {
            Clock::Never => {}
            Clock::Root {
                net: old,
                rising: _,
            } => match *other {
                Clock::Never => {}
                Clock::Root {
                    net: new,
                    rising: _,
                } => tables.enter(old, new),
            },
        }
    }

    fn is_renamed(&self, other: &Clock, tables: &Tables) -> bool {
        match (*self, *other) {
            (Clock::Never, Clock::Never) => true,
            (
                Clock::Root {
                    net: old,
                    rising: up,
                },
                Clock::Root { net: new, rising },
            ) => up == rising && tables.is_sent(old, new),
            _ => false,
        }
    }
}

impl Wired for Option<Clock> {
    ghost renamed = { renamed_read_clock };

    ghost nets = { read_clock_nets };

    fn learn(&self, other: &Option<Clock>, tables: &mut Tables) {
        match *self {
            None => {}
            Some(old) => match *other {
                None => {}
                Some(new) => old.learn(&new, tables),
            },
        }
    }

    fn is_renamed(&self, other: &Option<Clock>, tables: &Tables) -> bool {
        match (*self, *other) {
            (None, None) => true,
            (Some(old), Some(new)) => old.is_renamed(&new, tables),
            _ => false,
        }
    }
}

impl<T: Wired> Wired for List<T> {
    ghost renamed = { λ f xs. map (T.renamed f) xs };

    ghost nets = { λ xs. flat_map T.nets xs };

    fn learn(&self, other: &List<T>, tables: &mut Tables) {
        learn_all(self.as_slice(), other.as_slice(), tables);
    }

    fn is_renamed(&self, other: &List<T>, tables: &Tables) -> bool {
        are_renamed(self.as_slice(), other.as_slice(), tables)
    }
}

/// Enters the nets of items that stand at the same places.
fn learn_all<T: Wired>(olds: &[T], news: &[T], tables: &mut Tables)
    ensures { Teaches (λ f xs. map (T.renamed f) xs) (λ xs. flat_map T.nets xs) olds.now news.now tables.old tables.new }
{
    let mut lefts = olds;
    let mut rights = news;
    while let [old, tail @ ..] = lefts {
        let [new, more @ ..] = rights else {
            return;
        };
        old.learn(new, tables);
        lefts = tail;
        rights = more;
    }
}

/// Whether items are others, in order, with the nets that the tables say.
fn are_renamed<T: Wired>(olds: &[T], news: &[T], tables: &Tables) -> bool
    ensures sound { result ≡ true → news.now ≡ map (T.renamed (sent tables.now)) olds.now }
    ensures complete { IsSeen (λ f xs. map (T.renamed f) xs) (λ xs. flat_map T.nets xs) olds.now news.now tables.now result }
{
    let mut lefts = olds;
    let mut rights = news;
    while let [old, tail @ ..] = lefts {
        let [new, more @ ..] = rights else {
            return false;
        };
        if !old.is_renamed(new, tables) {
            return false;
        }
        lefts = tail;
        rights = more;
    }
    rights.is_empty()
}
