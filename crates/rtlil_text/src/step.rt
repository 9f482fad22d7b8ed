//! From the tokens of a line to what it says.
ghost use Rattle.std.specs.Prelude.{◌≡◌};
ghost use Rattle.rtlil_text.specs.Read.{Gives};
ghost use Rattle.rtlil_text.specs.Grammar.{plain_wire, plain_mem};
ghost use Rattle.rtlil_text.specs.ReadLine.{name_in, new_name, number_in, const_in, file_word, module_word, cell_word, start_step, parameter_value, wire_word, wire_option, wire_number, mem_word, mem_option, mem_number, begins_slice, left_step, flag_step, step, whole_of, finish, statement_at};

use crate::doc::{DocAttr, DocConst, DocFlag, DocMem, DocParam, DocWire, Part};
use crate::fault::{Refusal, Stop, refusal_at};
use crate::names::Names;
use crate::place::{MemField, Place, Statement, WireField};
use crate::signal::{Signal, count_in, no_signal, signal_step};
use crate::state::{Open, State};
use lib_core::{List, Name};
use rtlil_lex::{Token, Word};
use std::alloc::Global;

#[tactic(auto, unfolding(crate::specs::ReadLine::name_in))]
fn name_in(token: Token) -> Result<Name, Stop>
    ensures { Gives result (name_in token) }
{
    match token {
        Token::Id(name) => Ok(name),
        token => Err(Stop::Refused(refusal_at(&token))),
    }
}

/// A name that is none of those that are taken.
#[tactic(auto, unfolding(crate::specs::ReadLine::new_name))]
fn new_name(taken: &Names, token: Token) -> Result<Name, Stop>
    ensures { Gives result (new_name taken.now token) }
{
    let name = name_in(token)?;
    if taken.has(&name) {
        return Err(Stop::Refused(Refusal::Grammar));
    }
    Ok(name)
}

#[tactic(auto, unfolding(crate::specs::ReadLine::number_in))]
fn number_in(token: Token) -> Result<i32, Stop>
    ensures { Gives result (number_in token) }
{
    match token {
        Token::Number(number) => Ok(number),
        token => Err(Stop::Refused(refusal_at(&token))),
    }
}

#[tactic(auto, unfolding(crate::specs::ReadLine::const_in))]
fn const_in(token: Token) -> Result<DocConst, Stop>
    ensures { Gives result (const_in token) }
{
    match token {
        Token::Digits(digits) => Ok(DocConst::Digits(digits)),
        Token::Number(number) => Ok(DocConst::Number(number)),
        Token::Text(text) => Ok(DocConst::Text(text)),
        token => Err(Stop::Refused(refusal_at(&token))),
    }
}

#[tactic(auto, unfolding(crate::specs::Grammar::plain_wire))]
fn plain_wire(alloc: Global) -> DocWire
    ensures { result ≡ plain_wire }
{
    DocWire {
        attrs: List::from_vec(Vec::new(alloc)),
        name: Name::from_vec(Vec::new(alloc)),
        width: 1,
        offset: 0,
        port: 0,
        input: false,
        output: false,
        upto: false,
        signed: false,
    }
}

#[tactic(auto, unfolding(crate::specs::Grammar::plain_mem))]
fn plain_mem(alloc: Global) -> DocMem
    ensures { result ≡ plain_mem }
{
    DocMem {
        attrs: List::from_vec(Vec::new(alloc)),
        name: Name::from_vec(Vec::new(alloc)),
        width: 1,
        size: 0,
        offset: 0,
    }
}

/// The first word of a line between modules; `bare` says that no attribute stands before it.
#[tactic(auto, unfolding(crate::specs::ReadLine::file_word))]
fn file_word(bare: bool, autoidx: bool, word: Word) -> Result<Place, Stop>
    ensures { Gives result (file_word bare autoidx word) }
{
    match word {
        Word::Attribute => Ok(Place::AttributeName),
        Word::Module => Ok(Place::ModuleName),
        Word::Autoidx if bare && !autoidx => Ok(Place::AutoidxNumber),
        Word::Process => Err(Stop::Refused(Refusal::Process)),
        _ => Err(Stop::Refused(Refusal::Grammar)),
    }
}

/// The first word of a line in a module.
#[tactic(auto, unfolding(crate::specs::ReadLine::module_word))]
fn module_word(alloc: Global, bare: bool, word: Word) -> Result<Place, Stop>
    ensures { Gives result (module_word bare word) }
{
    match word {
        Word::Attribute => Ok(Place::AttributeName),
        Word::Wire => Ok(Place::WireOption(plain_wire(alloc))),
        Word::Memory => Ok(Place::MemOption(plain_mem(alloc))),
        Word::Cell => Ok(Place::CellKind),
        Word::Parameter if bare => Ok(Place::ParameterName),
        Word::Connect if bare => Ok(Place::Left(no_signal(alloc))),
        Word::End if bare => Ok(Place::Done(Statement::End)),
        Word::Process => Err(Stop::Refused(Refusal::Process)),
        _ => Err(Stop::Refused(Refusal::Grammar)),
    }
}

/// The first word of a line in a cell.
#[tactic(auto, unfolding(crate::specs::ReadLine::cell_word))]
fn cell_word(word: Word) -> Result<Place, Stop>
    ensures { Gives result (cell_word word) }
{
    match word {
        Word::Parameter => Ok(Place::CellParameterFlag),
        Word::Connect => Ok(Place::PinName),
        Word::End => Ok(Place::Done(Statement::End)),
        Word::Process => Err(Stop::Refused(Refusal::Process)),
        _ => Err(Stop::Refused(Refusal::Grammar)),
    }
}

#[tactic(auto, unfolding(crate::specs::ReadLine::start_step, crate::specs::ReadLine::word_in, crate::specs::ReadLine::is_bare))]
fn start_step(alloc: Global, state: &State, token: Token) -> Result<Place, Stop>
    ensures { Gives result (start_step state.now token) }
{
    let bare = state.attrs.as_slice().is_empty();
    match token {
        Token::Word(word) => match &state.current {
            Open::File => file_word(bare, state.autoidx, word),
            Open::Module(_) => module_word(alloc, bare, word),
            Open::Cell(_, _) => cell_word(word),
        },
        token => Err(Stop::Refused(refusal_at(&token))),
    }
}

#[tactic(auto, unfolding(crate::specs::ReadLine::parameter_value))]
fn parameter_value(name: Name, token: Token) -> Result<Place, Stop>
    ensures { Gives result (parameter_value name token) }
{
    let value = const_in(token)?;
    Ok(Place::Done(Statement::Parameter(DocParam {
        flag: DocFlag::Plain,
        name,
        value: Some(value),
    })))
}

#[tactic(auto, unfolding(crate::specs::ReadLine::wire_word))]
fn wire_word(wire: DocWire, word: Word) -> Result<Place, Stop>
    ensures { Gives result (wire_word wire word) }
{
    match word {
        Word::Width => Ok(Place::WireNumber(wire, WireField::Width)),
        Word::Offset => Ok(Place::WireNumber(wire, WireField::Offset)),
        Word::Input => Ok(Place::WireNumber(wire, WireField::Input)),
        Word::Output => Ok(Place::WireNumber(wire, WireField::Output)),
        Word::Inout => Ok(Place::WireNumber(wire, WireField::Inout)),
        Word::Upto => Ok(Place::WireOption(DocWire { upto: true, ..wire })),
        Word::Signed => Ok(Place::WireOption(DocWire {
            signed: true,
            ..wire
        })),
        _ => Err(Stop::Refused(Refusal::Grammar)),
    }
}

/// An option of a wire, or its name.
#[tactic(auto, unfolding(crate::specs::ReadLine::wire_option, crate::specs::ReadLine::wire_done))]
fn wire_option(taken: &Names, wire: DocWire, token: Token) -> Result<Place, Stop>
    ensures { Gives result (wire_option taken.now wire token) }
{
    match token {
        Token::Word(word) => wire_word(wire, word),
        token => {
            let name = new_name(taken, token)?;
            Ok(Place::Done(Statement::Wire(DocWire { name, ..wire })))
        }
    }
}

#[tactic(auto, unfolding(crate::specs::ReadLine::wire_number))]
fn wire_number(wire: DocWire, field: WireField, token: Token) -> Result<DocWire, Stop>
    ensures { Gives result (wire_number wire field token) }
{
    match field {
        WireField::Width => {
            let width = count_in(token)?;
            Ok(DocWire { width, ..wire })
        }
        WireField::Offset => {
            let offset = number_in(token)?;
            Ok(DocWire { offset, ..wire })
        }
        WireField::Input => {
            let port = count_in(token)?;
            Ok(DocWire {
                port,
                input: true,
                ..wire
            })
        }
        WireField::Output => {
            let port = count_in(token)?;
            Ok(DocWire {
                port,
                output: true,
                ..wire
            })
        }
        WireField::Inout => {
            let port = count_in(token)?;
            Ok(DocWire {
                port,
                input: true,
                output: true,
                ..wire
            })
        }
    }
}

#[tactic(auto, unfolding(crate::specs::ReadLine::mem_word))]
fn mem_word(memory: DocMem, word: Word) -> Result<Place, Stop>
    ensures { Gives result (mem_word memory word) }
{
    match word {
        Word::Width => Ok(Place::MemNumber(memory, MemField::Width)),
        Word::Size => Ok(Place::MemNumber(memory, MemField::Size)),
        Word::Offset => Ok(Place::MemNumber(memory, MemField::Offset)),
        _ => Err(Stop::Refused(Refusal::Grammar)),
    }
}

/// An option of a memory, or its name.
#[tactic(auto, unfolding(crate::specs::ReadLine::mem_option, crate::specs::ReadLine::mem_done))]
fn mem_option(taken: &Names, memory: DocMem, token: Token) -> Result<Place, Stop>
    ensures { Gives result (mem_option taken.now memory token) }
{
    match token {
        Token::Word(word) => mem_word(memory, word),
        token => {
            let name = new_name(taken, token)?;
            Ok(Place::Done(Statement::Memory(DocMem { name, ..memory })))
        }
    }
}

#[tactic(auto, unfolding(crate::specs::ReadLine::mem_number, crate::specs::ReadLine::mem_set))]
fn mem_number(memory: DocMem, field: MemField, token: Token) -> Result<DocMem, Stop>
    ensures { Gives result (mem_number memory field token) }
{
    let number = count_in(token)?;
    Ok(match field {
        MemField::Width => DocMem {
            width: number,
            ..memory
        },
        MemField::Size => DocMem {
            size: number,
            ..memory
        },
        MemField::Offset => DocMem {
            offset: number,
            ..memory
        },
    })
}

#[tactic(auto, unfolding(crate::specs::ReadLine::begins_slice))]
fn begins_slice(token: &Token) -> bool
    ensures { result ≡ begins_slice token.now }
{
    match token {
        Token::OpenBracket => true,
        _ => false,
    }
}

/// In the left signal of a connect, or at the right one's begin.
#[tactic(auto, unfolding(crate::specs::ReadLine::left_step))]
fn left_step(alloc: Global, left: Signal, token: Token) -> Result<Place, Stop>
    ensures { Gives result (left_step 64 left token) }
{
    if left.is_whole() && !begins_slice(&token) {
        let right = signal_step(no_signal(alloc), token)?;
        return Ok(Place::Right(left.parts, right));
    }
    let left = signal_step(left, token)?;
    Ok(Place::Left(left))
}

/// The flag of a cell's parameter, or its name.
#[tactic(auto, unfolding(crate::specs::ReadLine::flag_step, crate::specs::ReadLine::named_step))]
fn flag_step(taken: &Names, token: Token) -> Result<Place, Stop>
    ensures { Gives result (flag_step taken.now token) }
{
    match token {
        Token::Word(Word::Signed) => Ok(Place::CellParameterName(DocFlag::Signed)),
        Token::Word(Word::Real) => Ok(Place::CellParameterName(DocFlag::Real)),
        token => {
            let name = new_name(taken, token)?;
            Ok(Place::CellParameterValue(DocFlag::Plain, name))
        }
    }
}

/// One token of a line.
#[tactic(auto, unfolding(crate::specs::ReadLine::step))]
fn step(alloc: Global, state: &State, place: Place, token: Token) -> Result<Place, Stop>
    ensures { Gives result (step 64 state.now place token) }
{
    match place {
        Place::Start => start_step(alloc, state, token),
        Place::AutoidxNumber => {
            let _number = number_in(token)?;
            Ok(Place::Done(Statement::Autoidx))
        }
        Place::AttributeName => {
            let name = name_in(token)?;
            Ok(Place::AttributeValue(name))
        }
        Place::AttributeValue(name) => {
            let value = const_in(token)?;
            Ok(Place::Done(Statement::Attribute(DocAttr { name, value })))
        }
        Place::ModuleName => {
            let name = new_name(&state.names.modules, token)?;
            Ok(Place::Done(Statement::Module(name)))
        }
        Place::ParameterName => {
            let name = name_in(token)?;
            Ok(Place::ParameterValue(name))
        }
        Place::ParameterValue(name) => parameter_value(name, token),
        Place::WireOption(wire) => wire_option(&state.names.wires, wire, token),
        Place::WireNumber(wire, field) => {
            let wire = wire_number(wire, field, token)?;
            Ok(Place::WireOption(wire))
        }
        Place::MemOption(memory) => mem_option(&state.names.memories, memory, token),
        Place::MemNumber(memory, field) => {
            let memory = mem_number(memory, field, token)?;
            Ok(Place::MemOption(memory))
        }
        Place::CellKind => {
            let kind = name_in(token)?;
            Ok(Place::CellName(kind))
        }
        Place::CellName(kind) => {
            let name = new_name(&state.names.cells, token)?;
            Ok(Place::Done(Statement::Cell { kind, name }))
        }
        Place::Left(left) => left_step(alloc, left, token),
        Place::Right(left, right) => {
            let right = signal_step(right, token)?;
            Ok(Place::Right(left, right))
        }
        Place::CellParameterFlag => flag_step(&state.names.parameters, token),
        Place::CellParameterName(flag) => {
            let name = new_name(&state.names.parameters, token)?;
            Ok(Place::CellParameterValue(flag, name))
        }
        Place::CellParameterValue(flag, name) => {
            let value = const_in(token)?;
            Ok(Place::Done(Statement::CellParameter(DocParam {
                flag,
                name,
                value: Some(value),
            })))
        }
        Place::PinName => {
            let name = new_name(&state.names.pins, token)?;
            Ok(Place::PinValue(name, no_signal(alloc)))
        }
        Place::PinValue(name, value) => {
            let value = signal_step(value, token)?;
            Ok(Place::PinValue(name, value))
        }
        Place::Done(_) => Err(Stop::Refused(refusal_at(&token))),
    }
}

/// The parts of a signal that stands by itself.
#[tactic(auto, unfolding(crate::specs::ReadLine::whole_of))]
fn whole_of(signal: Signal) -> Result<List<Part>, Stop>
    ensures { Gives result (whole_of signal) }
{
    if signal.is_whole() {
        Ok(signal.parts)
    } else {
        Err(Stop::Refused(Refusal::Grammar))
    }
}

/// What a line says that ends here.
#[tactic(auto, unfolding(crate::specs::ReadLine::finish))]
fn finish(place: Place) -> Result<Statement, Stop>
    ensures { Gives result (finish place) }
{
    match place {
        Place::Start => Ok(Statement::Blank),
        Place::ParameterValue(name) => Ok(Statement::Parameter(DocParam {
            flag: DocFlag::Plain,
            name,
            value: None,
        })),
        Place::Right(left, right) => {
            let right = whole_of(right)?;
            Ok(Statement::Connect { left, right })
        }
        Place::PinValue(name, value) => {
            let value = whole_of(value)?;
            Ok(Statement::Pin { name, value })
        }
        Place::Done(statement) => Ok(statement),
        _ => Err(Stop::Refused(Refusal::Grammar)),
    }
}

/// What a line of tokens says.
#[tactic(auto, unfolding(crate::specs::Read::steps))]
pub fn statement_at(alloc: Global, state: &State, tokens: Vec<Token>) -> Result<Statement, Stop>
    ensures { Gives result (statement_at 64 state.now tokens.items) }
{
    let mut place = Place::Start;
    for token in tokens {
        place = step(alloc, state, place, token)?;
    }
    finish(place)
}
