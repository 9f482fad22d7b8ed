//! How many drivers each place has.
ghost use Rattle.std.specs.Prelude.{◌≡◌, ◌<◌, ◌^◌, ◌++◌, ◌||◌, ℕ, [], replicate, List as Seq, IfOk};
ghost use Rattle.std.specs.List.{list_any};
ghost use Rattle.net_wires.specs.Counting.{bump, bump_all, IsFirstAboveOne};
ghost use Rattle.net_wires.specs.Drivers.{driver_breaches, is_constant, is_doubly_driven, IsFirstDouble, Tally};
ghost use Rattle.net_wires.specs.Finds.{Finds};
ghost use Rattle.net_wires.specs.declared.source.Source.{Source as Sources};

use crate::breach::{BuildCode, Stop, broken};
use crate::source::Source;
use lib_core::Memory;
use std::alloc::Global;

/// The drivers of places, counted.
#[derive(Debug, Drop)]
pub struct Drivers {
    /// Of each place, up to two.
    counts: Vec<u8>,
    /// Whether a constant has a driver.
    constant: bool,
}

fn is_constant(source: Source) -> bool
    ensures { result ≡ is_constant source }
{
    !matches!(source, Source::At(_))
}

fn any_constant(sources: &[Source]) -> bool
    ensures { result ≡ list_any is_constant sources.now }
{
    sources.iter().any(|source| is_constant(*source))
}

fn bump(counts: &mut Vec<u8>, source: Source)
    ensures { counts.new.items ≡ bump counts.old.items source }
{
    if let Source::At(place) = source {
        let at = place as usize;
        if at < counts.len() {
            let count = counts[at];
            if count < 2 {
                counts[at] = count + 1;
            }
        }
    }
}

fn bump_all(counts: &mut Vec<u8>, sources: &[Source])
    ensures { counts.new.items ≡ bump_all counts.old.items sources.now }
{
    let mut rest = sources;
    while let [source, tail @ ..] = rest {
        bump(counts, *source);
        rest = tail;
    }
}

fn first_double(counts: &[u8]) -> Option<usize>
    ensures { IsFirstAboveOne counts.now result }
{
    for i in 0..counts.len() {
        if counts[i] > 1 {
            return Some(i);
        }
    }
    None
}

fn zeros(alloc: Global, count: u32) -> Result<Vec<u8>, Memory>
    ensures { IfOk result (λ counts. counts.items ≡ replicate count 0) }
{
    Ok(Vec::from_elem(alloc, 0u8, count as usize)?)
}

impl Drivers {
    /// Nothing drives any of `count` places.
    pub fn none(alloc: Global, count: u32) -> Result<Drivers, Memory>
        ensures { IfOk result (Tally count []) }
    {
        Ok(Drivers {
            counts: zeros(alloc, count)?,
            constant: false,
        })
    }

    /// Something drives each of these bits once more.
    pub fn drive(&mut self, sources: &[Source])
        ensures { (n : ℕ) (driven : Seq Sources) → Tally n driven self.old → Tally n (driven ++ sources.now) self.new }
    {
        bump_all(&mut self.counts, sources);
        self.constant = self.constant | any_constant(sources);
    }

    /// Whether this place has two drivers.
    pub fn is_double(&self, place: u32) -> bool
        ensures { (n : ℕ) (driven : Seq Sources) → Tally n driven self.now → place < n → result ≡ is_doubly_driven driven place }
    {
        match self.counts.get(place as usize) {
            Some(count) => *count > 1,
            None => false,
        }
    }

    /// The first place with two drivers.
    pub fn first_double(&self) -> Option<usize>
        ensures { (n : ℕ) (driven : Seq Sources) → Tally n driven self.now → IsFirstDouble n driven result }
    {
        first_double(self.counts.as_slice())
    }

    /// Stops with `TwoDrivers` where a place has two drivers, or a constant has one.
    pub fn check(&self) -> Result<(), Stop>
        ensures { (n : ℕ) (driven : Seq Sources) → Tally n driven self.now → Finds result (driver_breaches n driven) (λ _. Unit {0}) }
    {
        if self.constant {
            return Err(broken(BuildCode::TwoDrivers));
        }
        match self.first_double() {
            Some(_) => Err(broken(BuildCode::TwoDrivers)),
            None => Ok(()),
        }
    }
}
