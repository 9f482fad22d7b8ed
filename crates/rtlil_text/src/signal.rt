//! Signals, token by token.
ghost use Rattle.std.specs.Prelude.{◌≡◌, ◌<◌, ◌^◌};
ghost use Rattle.rtlil_text.specs.Read.{Gives};
ghost use Rattle.rtlil_text.specs.ReadSignal.{base_in, no_signal, is_whole, with_part, opened, closed, base_step, after_step, sliced, signal_step, count_in};

use crate::doc::{DocConst, Part};
use crate::fault::{Refusal, Stop, refusal_at};
use lib_core::List;
use rtlil_lex::Token;
use std::alloc::Global;

/// How deep braces may stand.
pub const NESTED: u32 = 64;

/// A place within a signal.
#[derive(Clone, Copy)]
pub enum Spot {
    /// A signal may begin.
    Begin,
    /// A signal ended, and a slice of it may follow.
    After,
    /// The high index of a slice.
    High,
    /// The colon of a slice, or its end.
    Colon { high: u32 },
    /// The low index of a slice.
    Low { high: u32 },
    /// The end of a slice.
    Close { high: u32, low: u32 },
}

/// What was read of a signal.
#[derive(Drop)]
pub struct Signal {
    pub parts: List<Part>,
    /// How many braces are open.
    pub depth: u32,
    pub spot: Spot,
}

/// No part of a signal.
#[tactic(auto, unfolding(crate::specs::ReadSignal::no_signal))]
pub fn no_signal(alloc: Global) -> Signal
    ensures { result ≡ no_signal }
{
    Signal {
        parts: List::from_vec(Vec::new(alloc)),
        depth: 0,
        spot: Spot::Begin,
    }
}

impl Signal {
    /// Whether one signal was read and nothing more.
    #[tactic(auto, unfolding(crate::specs::ReadSignal::is_whole, crate::specs::ReadSignal::whole_at))]
    pub fn is_whole(&self) -> bool
        ensures { result ≡ is_whole self.now }
    {
        match self.spot {
            Spot::After => self.depth == 0,
            _ => false,
        }
    }
}

/// A number of at least 0.
#[tactic(auto, unfolding(crate::specs::ReadSignal::count_in, crate::specs::ReadSignal::count_of))]
pub fn count_in(token: Token) -> Result<u32, Stop>
    ensures { Gives result (count_in token) }
{
    match token {
        Token::Number(number) => match u32::try_from(number) {
            Ok(count) => Ok(count),
            Err(_) => Err(Stop::Refused(Refusal::Grammar)),
        },
        token => Err(Stop::Refused(refusal_at(&token))),
    }
}

/// With one part more, and a spot behind it.
fn with_part(mut signal: Signal, part: Part, depth: u32, spot: Spot) -> Result<Signal, Stop>
    ensures { Gives result (with_part signal part depth spot) }
{
    signal.parts.push(part)?;
    Ok(Signal {
        parts: signal.parts,
        depth,
        spot,
    })
}

/// With an opening brace.
#[tactic(auto, unfolding(crate::specs::ReadSignal::opened))]
fn opened(signal: Signal) -> Result<Signal, Stop>
    ensures { Gives result (opened 64 signal) }
{
    let depth = signal.depth;
    if depth < NESTED {
        with_part(signal, Part::Begin, depth + 1, Spot::Begin)
    } else {
        Err(Stop::Refused(Refusal::Limit { seen: 65 }))
    }
}

/// With a closing brace.
#[tactic(auto, unfolding(crate::specs::ReadSignal::closed, crate::specs::ReadSignal::closed_at))]
fn closed(signal: Signal) -> Result<Signal, Stop>
    ensures { Gives result (closed signal) }
{
    let depth = signal.depth;
    if depth == 0 {
        Err(Stop::Refused(Refusal::Grammar))
    } else {
        with_part(signal, Part::End, depth - 1, Spot::After)
    }
}

/// A constant, a name or a brace.
#[tactic(auto, unfolding(crate::specs::ReadSignal::base_step))]
fn base_step(signal: Signal, token: Token) -> Result<Signal, Stop>
    ensures { Gives result (base_step 64 signal token) }
{
    let depth = signal.depth;
    let part = match token {
        Token::OpenBrace => return opened(signal),
        Token::CloseBrace => return closed(signal),
        Token::Id(name) => Part::Wire(name),
        Token::Digits(digits) => Part::Fixed(DocConst::Digits(digits)),
        Token::Number(number) => Part::Fixed(DocConst::Number(number)),
        Token::Text(text) => Part::Fixed(DocConst::Text(text)),
        token => return Err(Stop::Refused(refusal_at(&token))),
    };
    with_part(signal, part, depth, Spot::After)
}

/// Behind a signal.
#[tactic(auto, unfolding(crate::specs::ReadSignal::after_step))]
fn after_step(signal: Signal, token: Token) -> Result<Signal, Stop>
    ensures { Gives result (after_step 64 signal token) }
{
    match token {
        Token::OpenBracket => Ok(Signal {
            spot: Spot::High,
            ..signal
        }),
        token if signal.depth == 0 => Err(Stop::Refused(refusal_at(&token))),
        token => base_step(signal, token),
    }
}

/// The end of a slice.
fn sliced(signal: Signal, high: u32, low: u32) -> Result<Signal, Stop>
    ensures { Gives result (sliced signal high low) }
{
    let depth = signal.depth;
    with_part(signal, Part::Slice { high, low }, depth, Spot::After)
}

/// One token of a signal.
#[tactic(auto, unfolding(crate::specs::ReadSignal::signal_step, crate::specs::ReadSignal::spot_step, crate::specs::ReadSignal::colon_step, crate::specs::ReadSignal::close_step, crate::specs::ReadSignal::low_step))]
pub fn signal_step(signal: Signal, token: Token) -> Result<Signal, Stop>
    ensures { Gives result (signal_step 64 signal token) }
{
    match signal.spot {
        Spot::Begin => base_step(signal, token),
        Spot::After => after_step(signal, token),
        Spot::High => {
            let high = count_in(token)?;
            Ok(Signal {
                spot: Spot::Colon { high },
                ..signal
            })
        }
        Spot::Colon { high } => match token {
            Token::Colon => Ok(Signal {
                spot: Spot::Low { high },
                ..signal
            }),
            Token::CloseBracket => sliced(signal, high, high),
            token => Err(Stop::Refused(refusal_at(&token))),
        },
        Spot::Low { high } => {
            let low = count_in(token)?;
            if low > high {
                return Err(Stop::Refused(Refusal::Grammar));
            }
            Ok(Signal {
                spot: Spot::Close { high, low },
                ..signal
            })
        }
        Spot::Close { high, low } => match token {
            Token::CloseBracket => sliced(signal, high, low),
            token => Err(Stop::Refused(refusal_at(&token))),
        },
    }
}
