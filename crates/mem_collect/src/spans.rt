//! The ports of a side of a whole memory.
ghost use Rattle.std.specs.Prelude.{◌≡◌, ◌≤◌, ◌+◌, ◌++◌, length, IfOk, OnOk};
ghost use Rattle.mem_collect.specs.Spans as table;

use lib_core::Memory;
use std::alloc::Global;

/// A port: where it begins among the port numbers, and how many words it has.
#[derive(Clone, Copy, Debug, PartialEq, Eq)]
pub struct PortSpan {
    pub first: u32,
    pub words: u32,
    /// The number of words is 2 to this power.
    pub wide: u32,
}

/// How often 1 is doubled to give so many words; 0 where they are no power of two up to 64.
pub fn wide_of(words: u32) -> u32
    ensures { result ≡ table.wide_of words }
{
    match words {
        2 => 1,
        4 => 2,
        8 => 3,
        16 => 4,
        32 => 5,
        64 => 6,
        _ => 0,
    }
}

fn span(first: u32, words: u32) -> PortSpan
    ensures { result ≡ table.span first words }
{
    PortSpan {
        first,
        words,
        wide: wide_of(words),
    }
}

#[tactic(auto, unfolding(crate::specs::Spans::spans_from))]
fn push_spans(spans: &mut Vec<PortSpan>, flags: &[bool]) -> Result<(), Memory>
    requires { 1 + length flags.now ≤ 4294967295 }
    ensures { OnOk result (spans.new.items ≡ spans.old.items ++ table.spans_from 0 1 flags.now) }
{
    let mut first = 0u32;
    let mut words = 1u32;
    let mut rest = flags;
    while let [flag, tail @ ..] = rest {
        if *flag {
            words += 1;
        } else {
            spans.push(span(first, words))?;
            first += words;
            words = 1;
        }
        rest = tail;
    }
    spans.push(span(first, words))?;
    Ok(())
}

/// The ports of port numbers of which these are continuations.
#[tactic(auto, unfolding(crate::specs::Spans::spans))]
pub fn spans(alloc: Global, flags: &[bool]) -> Result<Vec<PortSpan>, Memory>
    requires { length flags.now ≤ 4294967295 }
    ensures { IfOk result (λ spans. spans.items ≡ table.spans flags.now) }
{
    let mut spans = Vec::new(alloc);
    if let [_, more @ ..] = flags {
        push_spans(&mut spans, more)?;
    }
    Ok(spans)
}
