//! From a text to its statements.
ghost use Rattle.std.specs.Prelude.{List as Seq, ℕ, ◌≡◌, ◌≤◌, ◌<◌, ◌+◌, ◌^◌, ◌∷◌, ◌↔◌, [], length, IfErr, IfOk, IfSome, Ok, IsTrue, option_map};
ghost use Rattle.lib_tree.specs.Faults.{IsReadFault, IsText};
ghost use Rattle.lib_tree.specs.Grammar.{after};
ghost use Rattle.lib_tree.specs.declared.statement.Statement.{Statement};
ghost use Rattle.lib_tree.specs.Lex.{tokens};
ghost use Rattle.lib_tree.specs.Lexical.{AreTokens};
ghost use Rattle.lib_tree.specs.Machine.{Gives};
ghost use Rattle.lib_tree.specs.Reading.{GivesRead, at_line, depth_of, fault, fault_in, finish, lines, lines_behind, read, read_line, start, step};

use crate::fault::{LibCode, LibFault};
use crate::lex::{Class, cut, next};
use crate::partial::{Partial, Step, advance};
use crate::statement::{Place, Statement};
use crate::token::Token;
use lib_core::{List, Memory, PortKind};
use std::alloc::Global;

/// What was read of a text.
#[derive(Debug, Drop)]
pub struct Reading {
    pub statements: List<Statement>,
    /// Where the next statement stands.
    pub place: Place,
    /// The statement that is not whole yet.
    pub partial: Option<Partial>,
}

/// What was read of a text, and the line of its last token.
#[derive(Debug, Drop)]
pub struct LineRead {
    pub reading: Reading,
    pub last: u32,
}

fn start(alloc: Global) -> Reading
    ensures { result ≡ start }
{
    Reading {
        statements: List::from_vec(Vec::new(alloc)),
        place: Place::Outside,
        partial: None,
    }
}

fn fault(code: LibCode, line: u32) -> LibFault
    ensures { result ≡ fault code line }
{
    LibFault {
        line,
        code,
        seen: 0,
    }
}

/// A fault in a line. Want of memory is in none.
fn fault_in(code: LibCode, line: u32) -> LibFault
    ensures { result ≡ fault_in code line }
{
    match code {
        LibCode::Memory => fault(code, 0),
        _ => fault(code, line),
    }
}

/// Where the statement behind one stands that may stand at the place.
fn after(place: Place, statement: &Statement) -> Place
    requires { depth_of place + 1 < 2 ^ 32 }
    ensures place { result ≡ after place statement.now }
    ensures depth { depth_of result ≤ depth_of place + 1 }
{
    match place {
        Place::Outside => match statement {
            Statement::Ram { .. } => Place::Ram,
            _ => place,
        },
        Place::Ram => match statement {
            Statement::Block { .. } => Place::Options { depth: 0 },
            Statement::Port { kind, .. } => Place::Port {
                kind: *kind,
                depth: 0,
            },
            Statement::End => Place::Outside,
            _ => place,
        },
        Place::Options { depth } => match statement {
            Statement::Block { .. } => Place::Options { depth: depth + 1 },
            Statement::End => out_of_options(depth),
            _ => place,
        },
        Place::Port { kind, depth } => match statement {
            Statement::Block { .. } => Place::Port {
                kind,
                depth: depth + 1,
            },
            Statement::End => out_of_port(kind, depth),
            _ => place,
        },
    }
}

/// Where the statement behind the end of an option's block stands.
fn out_of_options(depth: u32) -> Place
    ensures place { result ≡ after (Place.Options depth) Statement.End }
    ensures depth { depth_of result ≤ depth }
{
    if depth == 0 {
        return Place::Ram;
    }
    Place::Options { depth: depth - 1 }
}

/// Where the statement behind the end of a block in a port stands, or of the port's own.
fn out_of_port(kind: PortKind, depth: u32) -> Place
    ensures place { result ≡ after (Place.Port kind depth) Statement.End }
    ensures depth { depth_of result ≤ depth }
{
    if depth == 0 {
        return Place::Ram;
    }
    Place::Port {
        kind,
        depth: depth - 1,
    }
}

/// What was read with one more token.
#[tactic(auto, unfolding(crate::specs::Reading::step))]
fn step(alloc: Global, reading: Reading, token: Token) -> Result<Reading, LibCode>
    requires { depth_of reading.place + 1 < 2 ^ 32 }
    ensures reading { Gives result (step reading token) }
    ensures depth { IfOk result (λ next. depth_of next.place ≤ depth_of reading.place + 1) }
{
    let Reading {
        mut statements,
        place,
        partial,
    } = reading;
    match advance(alloc, place, partial, token)? {
        Step::More(partial) => Ok(Reading {
            statements,
            place,
            partial: Some(partial),
        }),
        Step::Done(statement) => {
            let place = after(place, &statement);
            statements.push(statement)?;
            Ok(Reading {
                statements,
                place,
                partial: None,
            })
        }
    }
}

/// What was read with one more token, which stands in the line.
fn step_in(alloc: Global, reading: Reading, line: u32, token: Token) -> Result<Reading, LibFault>
    requires { depth_of reading.place + 1 < 2 ^ 32 }
    ensures reading { GivesRead result (at_line line (step reading token) Ok) }
    ensures depth { IfOk result (λ next. depth_of next.place ≤ depth_of reading.place + 1) }
{
    match step(alloc, reading, token) {
        Ok(reading) => Ok(reading),
        Err(code) => Err(fault_in(code, line)),
    }
}

/// What was read with the tokens of a line.
#[tactic(auto, unfolding(crate::specs::Reading::read_line))]
fn read_line(
    alloc: Global,
    mut reading: Reading,
    line: u32,
    mut last: u32,
    bytes: &[u8],
) -> Result<LineRead, LibFault>
    requires { depth_of reading.place + length bytes.now ≤ 16777216 }
    ensures read { GivesRead result (read_line reading line last (tokens line bytes.now)) }
    ensures depth { IfOk result (λ x. depth_of x.reading.place ≤ depth_of reading.place + length bytes.now) }
{
    let mut rest = bytes;
    while let Some((token, after)) = next(alloc, line, rest)? {
        reading = step_in(alloc, reading, line, token)?;
        last = line;
        rest = after;
    }
    Ok(LineRead { reading, last })
}

/// A line without its line feed, and the text behind it where there was one.
fn split_line(bytes: &[u8]) -> (&[u8], Option<&[u8]>)
    ensures lines { lines bytes.now ≡ result.0.now ∷ lines_behind (option_map (λ tail. tail.now) result.1) }
    ensures front { length result.0.now ≤ length bytes.now }
    ensures tail { IfSome result.1 (λ tail. length tail.now + length result.0.now + 1 ≤ length bytes.now) }
{
    let (front, behind) = cut(Class::Line, bytes);
    match behind {
        [] => (front, None),
        [_, tail @ ..] => (front, Some(tail)),
    }
}

/// The statements, at the end of a text whose last token stands in the line.
#[tactic(auto, unfolding(crate::specs::Reading::finish))]
fn finish(reading: Reading, last: u32) -> Result<List<Statement>, LibFault>
    ensures { result ≡ finish reading last }
{
    if reading.partial.is_some() || reading.place != Place::Outside {
        return Err(fault(LibCode::Unclosed, last));
    }
    Ok(reading.statements)
}

/// What is read of a text.
fn read(alloc: Global, bytes: &[u8]) -> Result<List<Statement>, LibFault>
    requires { length bytes.now ≤ 16777216 }
    ensures { GivesRead result (read bytes.now) }
{
    let mut reading = start(alloc);
    let mut line: u32 = 1;
    let mut last: u32 = 1;
    let mut rest = bytes;
    loop {
        let (front, behind) = split_line(rest);
        let read = read_line(alloc, reading, line, last, front)?;
        let Some(tail) = behind else {
            return finish(read.reading, read.last);
        };
        reading = read.reading;
        last = read.last;
        line += 1;
        rest = tail;
    }
}

/// The statements of a text.
pub fn read_statements(alloc: Global, bytes: &[u8]) -> Result<List<Statement>, LibFault>
    requires { length bytes.now ≤ 16777216 }
    // What is read is what the text is.
    ensures found { IfOk result (λ statements. IsText bytes.now statements) }
    // What the text is, is read, unless memory runs out.
    ensures only { (ss : Seq Statement) → IsText bytes.now ss → GivesRead result (Ok ss) }
    // A fault is the first one of the text, or want of memory.
    ensures first { IfErr result (λ fault. IsReadFault bytes.now fault) }
    // The tokens of a line are those that the cases of the lexical grammar give.
    ensures lexical { (line : ℕ) (bs : Seq ℕ) → AreTokens line bs }
{
    read(alloc, bytes)
}
