//! From a text to its events.
ghost use Rattle.std.specs.Prelude.{◌≡◌, ◌≤◌, length, IfOk};
ghost use Rattle.stim_text.specs.Stimulus as says;
ghost use Rattle.stim_text.specs.Spoken as words;

use crate::fault::{StimCode, StimFault, Stop};
use crate::says::{Says, line_says};
use crate::tables::{Tables, tables_of};
use bstr::ByteSlice;
use lib_core::{List, Memory};
use net_core::{Bit, Edge, Event, Module};
use std::alloc::Global;

/// How many events are read.
const EVENTS: usize = 65_536;

/// What was read before a line.
#[derive(Drop)]
pub struct State {
    /// A value for each bit of all inputs.
    pub values: List<bool>,
    pub events: List<Event>,
}

impl From<Memory> for StimFault {
    ghost from_gives = { λ _ f. says.IsMemory f };

    fn from(_error: Memory) -> StimFault {
        StimFault {
            line: 0,
            code: StimCode::Memory,
            seen: 0,
        }
    }
}

/// The fault of a line that is refused.
fn fault(line: u32, code: StimCode) -> StimFault
    ensures { result ≡ says.fault line code }
{
    let seen = match code {
        StimCode::Limit => 65_537,
        _ => 0,
    };
    StimFault { line, code, seen }
}

fn stopped(line: u32, stop: Stop) -> StimFault
    ensures { says.StopsAt line stop result }
{
    match stop {
        Stop::Memory => StimFault::from(Memory),
        Stop::Refused(code) => fault(line, code),
    }
}

/// Before the first line: every value is 0.
#[tactic(auto, unfolding(crate::specs::Stimulus::start))]
fn start(alloc: Global, tables: &Tables) -> Result<State, Memory>
    ensures { IfOk result (λ state. state ≡ says.start tables.now) }
{
    let values = vec![in alloc; false; tables.bits.as_slice().len()]?;
    Ok(State {
        values: List::from_vec(values),
        events: List::from_vec(Vec::new(alloc)),
    })
}

/// Sets values from a place on.
#[tactic(auto, unfolding(crate::specs::Stimulus::put), using(crate::proofs::Placing::put_past))]
fn put(values: &mut [bool], start: usize, bits: &[bool])
    ensures { values.new ≡ says.put start bits.now values.old }
{
    let mut place = start;
    let mut rest = bits;
    while let [bit, tail @ ..] = rest {
        if place >= values.len() {
            return;
        }
        values[place] = *bit;
        place += 1;
        rest = tail;
    }
}

/// The values of the nets among the bits of inputs.
#[tactic(auto, unfolding(crate::specs::Stimulus::net_values))]
fn net_values(alloc: Global, bits: &[Bit], values: &[bool]) -> Result<List<bool>, Memory>
    ensures { IfOk result (λ list. list ≡ says.net_values bits.now values.now) }
{
    let mut list = Vec::new(alloc);
    let mut rest = bits;
    let mut others = values;
    while let [bit, tail @ ..] = rest {
        let [value, more @ ..] = others else {
            return Ok(List::from_vec(list));
        };
        if let Bit::Net(_) = bit {
            list.push(*value)?;
        }
        rest = tail;
        others = more;
    }
    Ok(List::from_vec(list))
}

/// An event ends here.
#[tactic(auto, unfolding(crate::specs::Stimulus::with_event))]
fn with_event(
    alloc: Global,
    tables: &Tables,
    mut state: State,
    edge: Option<Edge>,
) -> Result<State, Stop>
    ensures { says.Gives result (says.with_event tables.now state edge) }
{
    if state.events.as_slice().len() >= EVENTS {
        return Err(Stop::Refused(StimCode::Limit));
    }
    let values = net_values(alloc, tables.bits.as_slice(), state.values.as_slice())?;
    state.events.push(Event { values, edge })?;
    Ok(state)
}

/// With new values from a place on.
fn with_values(mut state: State, start: usize, bits: List<bool>) -> State
    ensures { result ≡ record state { values = says.put start bits state.values } }
{
    put(state.values.as_mut_slice(), start, bits.as_slice());
    state
}

/// What was read with what one more line says.
#[tactic(auto, unfolding(crate::specs::Stimulus::advance))]
fn advance(alloc: Global, tables: &Tables, state: State, meant: Says) -> Result<State, Stop>
    ensures { says.Gives result (says.advance tables.now state meant) }
{
    match meant {
        Says::Nothing => Ok(state),
        Says::Set { start, bits } => Ok(with_values(state, start, bits)),
        Says::Event(edge) => with_event(alloc, tables, state, edge),
    }
}

/// What was read with one more line.
#[tactic(auto, unfolding(crate::specs::Stimulus::line_at))]
fn line_at(alloc: Global, tables: &Tables, state: State, line: &[u8]) -> Result<State, Stop>
    ensures { says.Gives result (says.line_at tables.now state line.now) }
{
    let meant = line_says(alloc, tables, line)?;
    advance(alloc, tables, state, meant)
}

/// The events of a text.
#[tactic(auto, unfolding(crate::specs::Stimulus::read_lines))]
fn read_lines(alloc: Global, tables: &Tables, bytes: &[u8]) -> Result<List<Event>, StimFault>
    requires { length bytes.now ≤ 16777216 }
    ensures { says.GivesEvents result (says.read_lines tables.now (says.start tables.now) 1 (words.lines bytes.now)) }
{
    let mut state = start(alloc, tables)?;
    let mut line = 1u32;
    for text in bytes.lines() {
        state = match line_at(alloc, tables, state, text) {
            Ok(next) => next,
            Err(stop) => return Err(stopped(line, stop)),
        };
        line += 1;
    }
    Ok(state.events)
}

/// The events that a stimulus text sets off in a module. An error is the first fault of the text, or
/// want of memory.
#[tactic(auto, unfolding(crate::specs::Stimulus::read))]
pub fn read_stim(alloc: Global, bytes: &[u8], module: &Module) -> Result<List<Event>, StimFault>
    requires { length bytes.now ≤ 16777216 }
    ensures { says.GivesEvents result (says.read «module».now bytes.now) }
{
    let tables = tables_of(alloc, module)?;
    read_lines(alloc, &tables, bytes)
}
