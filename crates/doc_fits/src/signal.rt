//! Signals, part by part.
ghost use Rattle.std.specs.Prelude.{◌≡◌, ◌<◌, ◌+◌, ◌^◌, true, false};
ghost use Rattle.doc_fits.specs.Tests.{may_begin, goes, closed, step, walk, spot, is_signal};

use crate::tokens::{const_fits, is_count, is_identifier};
use rtlil_text::Part;

/// A place between the parts of a signal.
#[derive(Clone, Copy)]
pub struct Spot {
    /// How many braces are open.
    pub depth: usize,
    /// Whether a signal ended right before.
    pub ended: bool,
}

impl Spot {
    /// Whether a signal may begin: behind one that stands by itself no other may.
    fn may_begin(self) -> bool
        ensures { result ≡ may_begin self }
    {
        self.depth > 0 || !self.ended
    }

    /// Behind a signal, if it is one.
    fn behind(self, fits: bool) -> Option<Spot>
        ensures { result ≡ goes fits (spot self.depth true) }
    {
        fits.then_some(Spot {
            ended: true,
            ..self
        })
    }

    /// Behind an opening brace.
    fn opened(self) -> Option<Spot>
        requires { self.depth < 2 ^ 63 }
        ensures { result ≡ goes (may_begin self) (spot (self.depth + 1) false) }
    {
        self.may_begin().then_some(Spot {
            depth: self.depth + 1,
            ended: false,
        })
    }

    /// Behind a closing brace.
    fn closed(self) -> Option<Spot>
        ensures { result ≡ closed self.depth }
    {
        let depth = self.depth.checked_sub(1)?;
        Some(Spot { depth, ended: true })
    }

    /// Behind a part, if it may stand here and can be written.
    #[tactic(auto, unfolding(crate::specs::Tests::step))]
    fn step(self, part: &Part) -> Option<Spot>
        requires { self.depth < 2 ^ 63 }
        ensures { result ≡ step self part.now }
    {
        match part {
            Part::Fixed(value) => self.behind(const_fits(value) && self.may_begin()),
            Part::Wire(name) => self.behind(is_identifier(name.as_slice()) && self.may_begin()),
            Part::Slice { high, low } => {
                (self.ended && *low <= *high && is_count(*high)).then_some(self)
            }
            Part::Begin => self.opened(),
            Part::End => self.closed(),
        }
    }
}

/// The spot behind all parts, if each may stand where it does.
#[tactic(auto, unfolding(crate::specs::Tests::walk))]
fn walk(parts: &[Part]) -> Option<Spot>
    ensures { result ≡ walk (spot 0 false) parts.now }
{
    let mut spot = Spot {
        depth: 0,
        ended: false,
    };
    let mut rest = parts;
    while let [part, tail @ ..] = rest {
        spot = spot.step(part)?;
        rest = tail;
    }
    Some(spot)
}

/// Whether the parts are one signal, with all its slices and braces, that can be written.
#[tactic(auto, unfolding(crate::specs::Tests::is_signal))]
pub fn is_signal(parts: &[Part]) -> bool
    ensures { result ≡ is_signal parts.now }
{
    match walk(parts) {
        Some(spot) => spot.depth == 0 && spot.ended,
        None => false,
    }
}
