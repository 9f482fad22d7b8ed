//! From a text to a document.
ghost use Rattle.std.specs.Prelude.{◌≡◌, ◌≤◌, ◌⊎◌, length, map, IfOk, IfErr};
ghost use Rattle.rtlil_lex.specs.Lex.{tokens};
ghost use Rattle.rtlil_lex.specs.Limits.{limited};
ghost use Rattle.rtlil_lex.specs.Lines.{token_lines};
ghost use Rattle.rtlil_text.specs.declared.doc.Doc.{Doc};
ghost use Rattle.rtlil_text.specs.Read.{Gives};
ghost use Rattle.rtlil_text.specs.ReadState.{start};
ghost use Rattle.rtlil_text.specs.ReadText.{line_at, fault, IsMemory, StopsAt, GivesState, GivesDoc, at_line, is_closed, closed_at, finish_text, last_line, at_end, read_lines};
ghost use Rattle.rtlil_text.specs.Reads.{Reads};
ghost use Rattle.rtlil_text.specs.Text.{limited_lines, IsWithinLimits, IsReadAs, IsFirstFault, no_memory};

use crate::doc::Doc;
use crate::fault::{Refusal, Stop, TextCode, TextFault};
use crate::state::{Open, State, advance, start};
use crate::step::statement_at;
use lib_core::Memory;
use rtlil_lex::{Token, split_line};
use std::alloc::Global;

impl From<Memory> for TextFault {
    ghost from_gives = { λ _ f. IsMemory f };

    fn from(_error: Memory) -> TextFault {
        TextFault {
            line: 0,
            code: TextCode::Memory,
            seen: 0,
        }
    }
}

/// The fault of a line that is refused.
fn fault(line: u32, refusal: Refusal) -> TextFault
    ensures { result ≡ fault line refusal }
{
    let (code, seen) = match refusal {
        Refusal::Token => (TextCode::Token, 0),
        Refusal::Grammar => (TextCode::Grammar, 0),
        Refusal::Process => (TextCode::Process, 0),
        Refusal::Limit { seen } => (TextCode::Limit, seen),
    };
    TextFault { line, code, seen }
}

fn stopped(line: u32, stop: Stop) -> TextFault
    ensures { StopsAt line stop result }
{
    match stop {
        Stop::Memory => TextFault::from(Memory),
        Stop::Refused(refusal) => fault(line, refusal),
    }
}

/// The tokens of a line.
fn line_tokens(alloc: Global, line: &[u8]) -> Result<Vec<Token>, TextFault>
    ensures ok { IfOk result (λ v. v.items ≡ map limited (tokens line.now)) }
    ensures err { IfErr result IsMemory }
{
    let found = rtlil_lex::tokens(alloc, line)?;
    Ok(found)
}

/// What was read with one more line of tokens.
#[tactic(auto, unfolding(crate::specs::ReadText::line_at))]
fn line_at(alloc: Global, state: State, tokens: Vec<Token>) -> Result<State, Stop>
    ensures { Gives result (line_at 64 state tokens.items) }
{
    let statement = statement_at(alloc, &state, tokens)?;
    let next = advance(alloc, state, statement)?;
    Ok(next)
}

fn state_behind(
    alloc: Global,
    state: State,
    line: u32,
    tokens: Vec<Token>,
) -> Result<State, TextFault>
    ensures { GivesState result (at_line line (line_at 64 state tokens.items)) }
{
    match line_at(alloc, state, tokens) {
        Ok(next) => Ok(next),
        Err(stop) => Err(stopped(line, stop)),
    }
}

#[tactic(auto, unfolding(crate::specs::ReadText::is_closed))]
fn is_closed(state: &State) -> bool
    ensures { result ≡ is_closed state.now }
{
    match &state.current {
        Open::File => state.attrs.as_slice().is_empty(),
        _ => false,
    }
}

/// The document at the end of a text whose last token stands in a line.
#[tactic(auto, unfolding(crate::specs::ReadText::finish_text))]
fn finish_text(state: State, last: u32) -> Result<Doc, TextFault>
    ensures { GivesDoc result (finish_text state last) }
{
    if is_closed(&state) {
        Ok(Doc {
            modules: state.into_modules(),
        })
    } else {
        Err(fault(last, Refusal::Grammar))
    }
}

/// The number of the last line with a token.
#[tactic(auto, unfolding(crate::specs::ReadText::last_line))]
fn last_line(tokens: &[Token], line: u32, last: u32) -> u32
    ensures { result ≡ last_line tokens.now line last }
{
    match tokens {
        [] => last,
        _ => line,
    }
}

/// What stands behind the last line feed has to be blank.
#[tactic(auto, unfolding(crate::specs::ReadText::at_end))]
fn at_end(
    alloc: Global,
    state: State,
    line: u32,
    last: u32,
    tokens: Vec<Token>,
) -> Result<Doc, TextFault>
    ensures { GivesDoc result (at_end 64 state line last tokens.items) }
{
    if tokens.as_slice().is_empty() {
        return finish_text(state, last);
    }
    let _state = state_behind(alloc, state, line, tokens)?;
    Err(fault(line, Refusal::Grammar))
}

/// The document that a text of at most 16,777,216 bytes reads as, or its first fault.
pub fn read_doc(alloc: Global, bytes: &[u8]) -> Result<Doc, TextFault>
    requires { length bytes.now ≤ 16777216 }
    // What is read is what the text reads as.
    ensures found { IfOk result (λ d. Reads bytes.now d × IsWithinLimits bytes.now d) }
    // What the text reads as is read, within the limits.
    ensures only { (d : Doc) → Reads bytes.now d → IsWithinLimits bytes.now d → IsReadAs result d }
    // A fault is the first one.
    ensures first { IfErr result (λ f. (f ≡ no_memory) ⊎ IsFirstFault (limited_lines (token_lines bytes.now)) f) }
{
    read_all(alloc, bytes)
}

fn read_all(alloc: Global, bytes: &[u8]) -> Result<Doc, TextFault>
    requires { length bytes.now ≤ 16777216 }
    ensures { GivesDoc result (read_lines 64 start 1 1 (limited_lines (token_lines bytes.now))) }
{
    let mut state = start(alloc);
    let mut line: u32 = 1;
    let mut last: u32 = 1;
    let mut rest = bytes;
    loop {
        let (front, behind) = split_line(rest);
        let found = line_tokens(alloc, front)?;
        let Some(tail) = behind else {
            return at_end(alloc, state, line, last, found);
        };
        last = last_line(found.as_slice(), line, last);
        state = state_behind(alloc, state, line, found)?;
        line += 1;
        rest = tail;
    }
}
