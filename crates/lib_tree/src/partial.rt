//! A statement token by token.
ghost use Rattle.std.specs.Prelude.{◌≡◌};
ghost use Rattle.lib_tree.specs.Machine.{Gives, advance, begin, begin_inside, begin_in_port, begin_in_ram, begin_item, begin_setting, begin_word, block_next, ended, fill_in, gate_next, how_widths, item_next, names_next, next, nonzero, own_in, port_next, port_width_next, port_widths_end, port_widths_next, prio_end, prio_next, ram_next, refusal, setting_next, size_of, sized, trans_end, trans_next, widths_next};

use crate::fault::LibCode;
use crate::statement::{Item, Place, Scope, Setting, Size, Statement, Targets};
use crate::token::{Token, Word};
use lib_core::{
    Choice, Fill, List, Name, OwnWrite, PortKind, Property, RamClass, Seen, Value, kind_table,
};
use std::alloc::Global;

/// What the head of a RAM wants next.
#[derive(Debug, Drop)]
pub enum RamHead {
    Class {
        line: u32,
    },
    Name {
        line: u32,
        class: RamClass,
    },
    Open {
        line: u32,
        class: RamClass,
        name: Name,
    },
}

/// What an item wants next.
#[derive(Debug, Drop)]
pub enum ItemPart {
    Number(Size),
    /// A width, or how they are had where there are widths.
    Widths(List<u32>),
    Init,
    Style,
}

/// What the head of an option's block wants next.
#[derive(Debug, Drop)]
pub enum BlockHead {
    Name(Scope),
    Value(Scope, Name),
    Open(Scope, Choice),
}

/// What the head of a port wants next.
#[derive(Debug, Drop)]
pub enum PortHead {
    Kind,
    /// A name, or the block where there are names.
    Names(PortKind, List<Name>),
}

/// What a property wants next.
#[derive(Debug, Drop)]
pub enum SettingPart {
    Edge,
    Own,
    /// The targets of `wrtrans`.
    Trans(List<Name>),
    /// What reads of all targets see.
    TransAll,
    /// The targets of `wrprio`.
    Prio(List<Name>),
    SrstFill,
    SrstGate(Fill),
    ArstFill,
    StartFill,
    /// The first width, or the word `tied`.
    Width,
    Widths { tied: bool, widths: List<u32> },
}

/// The statement that begins, by what it wants next.
#[derive(Debug, Drop)]
pub enum Partial {
    Ram(RamHead),
    Item(ItemPart),
    Block(BlockHead),
    Port(PortHead),
    Setting(SettingPart),
    /// A semicolon ends it.
    Ended(Statement),
}

/// A statement so far, or whole.
#[derive(Debug, Drop)]
pub enum Step {
    More(Partial),
    Done(Statement),
}

/// What else than marks may stand at a place.
#[derive(Clone, Copy)]
pub enum Wanted {
    /// Neither words nor numbers.
    Marks,
    Words,
    /// Numbers alone.
    Number,
    WordsOrNumber,
    /// Numbers or a mark.
    MarksOrNumber,
}

/// The fault of a token that its place does not have.
fn refusal(wanted: Wanted, token: &Token) -> LibCode
    ensures { result ≡ refusal wanted token.now }
{
    match (wanted, token) {
        (Wanted::Number, _) => LibCode::BadNumber,
        (Wanted::Words | Wanted::WordsOrNumber, Token::Ram { .. } | Token::Word(_)) => {
            LibCode::UnknownWord
        }
        (Wanted::WordsOrNumber | Wanted::MarksOrNumber, Token::Number(_) | Token::Large) => {
            LibCode::BadNumber
        }
        _ => LibCode::Token,
    }
}

/// The statement so far, where the number may stand there.
fn nonzero(number: u32, partial: Partial) -> Result<Step, LibCode>
    ensures { result ≡ nonzero number partial }
{
    if number == 0 {
        return Err(LibCode::BadNumber);
    }
    Ok(Step::More(partial))
}

fn ram_next(head: RamHead, token: Token) -> Result<Step, LibCode>
    ensures { result ≡ ram_next head token }
{
    match head {
        RamHead::Class { line } => match token {
            Token::Word(Word::Class(class)) => {
                Ok(Step::More(Partial::Ram(RamHead::Name { line, class })))
            }
            token => Err(refusal(Wanted::Words, &token)),
        },
        RamHead::Name { line, class } => match token {
            Token::Id(name) => Ok(Step::More(Partial::Ram(RamHead::Open { line, class, name }))),
            token => Err(refusal(Wanted::Marks, &token)),
        },
        RamHead::Open { line, class, name } => match token {
            Token::Open => Ok(Step::Done(Statement::Ram { line, class, name })),
            token => Err(refusal(Wanted::Marks, &token)),
        },
    }
}

fn block_next(head: BlockHead, token: Token) -> Result<Step, LibCode>
    ensures { result ≡ block_next head token }
{
    match head {
        BlockHead::Name(scope) => match token {
            Token::Text(name) => Ok(Step::More(Partial::Block(BlockHead::Value(scope, name)))),
            token => Err(refusal(Wanted::Marks, &token)),
        },
        BlockHead::Value(scope, name) => match token {
            Token::Number(number) => Ok(Step::More(Partial::Block(BlockHead::Open(
                scope,
                Choice {
                    name,
                    value: Value::Number(number),
                },
            )))),
            Token::Text(text) => Ok(Step::More(Partial::Block(BlockHead::Open(
                scope,
                Choice {
                    name,
                    value: Value::Text(text),
                },
            )))),
            token => Err(refusal(Wanted::MarksOrNumber, &token)),
        },
        BlockHead::Open(scope, choice) => match token {
            Token::Open => Ok(Step::Done(Statement::Block { scope, choice })),
            token => Err(refusal(Wanted::Marks, &token)),
        },
    }
}

/// One more width of a RAM, or how its widths are had.
fn widths_next(mut widths: List<u32>, token: Token) -> Result<Step, LibCode>
    ensures { Gives result (widths_next widths token) }
{
    match token {
        Token::Number(number) => {
            widths.push(number)?;
            nonzero(number, Partial::Item(ItemPart::Widths(widths)))
        }
        token => how_widths(widths, token),
    }
}

/// How the widths of a RAM are had, where there are widths.
fn how_widths(widths: List<u32>, token: Token) -> Result<Step, LibCode>
    ensures { result ≡ how_widths widths token }
{
    if widths.as_slice().is_empty() {
        return Err(refusal(Wanted::Number, &token));
    }
    let per_port = match token {
        Token::Word(Word::PerPort) => true,
        Token::Word(Word::Global) => false,
        token => return Err(refusal(Wanted::WordsOrNumber, &token)),
    };
    Ok(ended(Statement::Item(Item::Widths { widths, per_port })))
}

/// A statement that wants a semicolon.
fn ended(statement: Statement) -> Step
    ensures { result ≡ ended statement }
{
    Step::More(Partial::Ended(statement))
}

/// The statement of a number, where the number may stand there.
fn sized(size: Size, number: u32) -> Result<Step, LibCode>
    ensures { result ≡ sized size number }
{
    let statement = Statement::Item(Item::Size(size, number));
    match size {
        Size::Abits | Size::Cost => Ok(ended(statement)),
        Size::Width | Size::Byte => nonzero(number, Partial::Ended(statement)),
    }
}

fn item_next(part: ItemPart, token: Token) -> Result<Step, LibCode>
    ensures { Gives result (item_next part token) }
{
    match part {
        ItemPart::Number(size) => match token {
            Token::Number(number) => sized(size, number),
            token => Err(refusal(Wanted::Number, &token)),
        },
        ItemPart::Widths(widths) => widths_next(widths, token),
        ItemPart::Init => match token {
            Token::Word(Word::Fill(fill)) => Ok(ended(Statement::Item(Item::Init(fill)))),
            token => Err(refusal(Wanted::Words, &token)),
        },
        ItemPart::Style => match token {
            Token::Text(style) => Ok(ended(Statement::Item(Item::Style(style)))),
            token => Err(refusal(Wanted::Marks, &token)),
        },
    }
}

/// One more name of a port, or its block where there are names.
fn names_next(kind: PortKind, mut names: List<Name>, token: Token) -> Result<Step, LibCode>
    ensures { Gives result (names_next kind names token) }
{
    match token {
        Token::Text(name) => {
            names.push(name)?;
            Ok(Step::More(Partial::Port(PortHead::Names(kind, names))))
        }
        Token::Open => {
            if names.as_slice().is_empty() {
                return Err(LibCode::Token);
            }
            Ok(Step::Done(Statement::Port { kind, names }))
        }
        token => Err(refusal(Wanted::Marks, &token)),
    }
}

fn port_next(alloc: Global, head: PortHead, token: Token) -> Result<Step, LibCode>
    ensures { Gives result (port_next head token) }
{
    match head {
        PortHead::Kind => match token {
            Token::Word(Word::Kind(kind)) => Ok(Step::More(Partial::Port(PortHead::Names(
                kind,
                List::from_vec(Vec::new(alloc)),
            )))),
            token => Err(refusal(Wanted::Words, &token)),
        },
        PortHead::Names(kind, names) => names_next(kind, names, token),
    }
}

/// One more target of `wrtrans`, all of them, or what reads of those that are there see.
fn trans_next(mut names: List<Name>, token: Token) -> Result<Step, LibCode>
    ensures { Gives result (trans_next names token) }
{
    match token {
        Token::Text(name) => {
            names.push(name)?;
            Ok(Step::More(Partial::Setting(SettingPart::Trans(names))))
        }
        token => trans_end(names, token),
    }
}

/// What reads of the targets see, or that all are targets where none is named yet.
fn trans_end(names: List<Name>, token: Token) -> Result<Step, LibCode>
    ensures { result ≡ trans_end names token }
{
    let none = names.as_slice().is_empty();
    match token {
        Token::Word(Word::All) if none => {
            Ok(Step::More(Partial::Setting(SettingPart::TransAll)))
        }
        Token::Word(Word::Seen(seen)) if !none => {
            Ok(ended(Statement::Setting(Setting::Wrtrans {
                targets: Targets::Named(names),
                seen,
            })))
        }
        token => Err(refusal(Wanted::Words, &token)),
    }
}

/// One more target of `wrprio`, all of them, or its end.
fn prio_next(mut names: List<Name>, token: Token) -> Result<Step, LibCode>
    ensures { Gives result (prio_next names token) }
{
    match token {
        Token::Text(name) => {
            names.push(name)?;
            Ok(Step::More(Partial::Setting(SettingPart::Prio(names))))
        }
        token => prio_end(names, token),
    }
}

/// The end of `wrprio`, or that all are targets where none is named yet.
fn prio_end(names: List<Name>, token: Token) -> Result<Step, LibCode>
    ensures { result ≡ prio_end names token }
{
    if names.as_slice().is_empty() {
        return match token {
            Token::Word(Word::All) => Ok(ended(Statement::Setting(Setting::Wrprio(Targets::All)))),
            token => Err(refusal(Wanted::Words, &token)),
        };
    }
    match token {
        Token::Semicolon => Ok(Step::Done(Statement::Setting(Setting::Wrprio(Targets::Named(
            names,
        ))))),
        token => Err(refusal(Wanted::Marks, &token)),
    }
}

/// One more width of a port, or the end of its widths where there are some.
fn port_widths_next(tied: bool, mut widths: List<u32>, token: Token) -> Result<Step, LibCode>
    ensures { Gives result (port_widths_next tied widths token) }
{
    match token {
        Token::Number(number) => {
            widths.push(number)?;
            nonzero(
                number,
                Partial::Setting(SettingPart::Widths { tied, widths }),
            )
        }
        token => port_widths_end(tied, widths, token),
    }
}

/// The end of the widths of a port, where there are some.
fn port_widths_end(tied: bool, widths: List<u32>, token: Token) -> Result<Step, LibCode>
    ensures { result ≡ port_widths_end tied widths token }
{
    if widths.as_slice().is_empty() {
        return Err(refusal(Wanted::Number, &token));
    }
    match token {
        Token::Semicolon => Ok(Step::Done(Statement::Setting(Setting::Width { tied, widths }))),
        token => Err(refusal(Wanted::MarksOrNumber, &token)),
    }
}

/// The first width of a port, or that its widths are tied.
fn port_width_next(alloc: Global, token: Token) -> Result<Step, LibCode>
    ensures { Gives result (port_width_next token) }
{
    match token {
        Token::Word(Word::Tied) => Ok(Step::More(Partial::Setting(SettingPart::Widths {
            tied: true,
            widths: List::from_vec(Vec::new(alloc)),
        }))),
        Token::Number(number) => {
            let mut widths = List::from_vec(Vec::new(alloc));
            widths.push(number)?;
            nonzero(
                number,
                Partial::Setting(SettingPart::Widths {
                    tied: false,
                    widths,
                }),
            )
        }
        token => Err(refusal(Wanted::WordsOrNumber, &token)),
    }
}

/// What a port shows of its own write.
fn own_of(token: Token) -> Result<OwnWrite, LibCode>
    ensures { result ≡ own_in token }
{
    match token {
        Token::Word(Word::Undefined) => Ok(OwnWrite::Undefined),
        Token::Word(Word::NoChange) => Ok(OwnWrite::NoChange),
        Token::Word(Word::Seen(Seen::Old)) => Ok(OwnWrite::Old),
        Token::Word(Word::Seen(Seen::New)) => Ok(OwnWrite::New),
        Token::Word(Word::NewOnly) => Ok(OwnWrite::NewOnly),
        token => Err(refusal(Wanted::Words, &token)),
    }
}

fn fill_in(token: Token) -> Result<Fill, LibCode>
    ensures { result ≡ fill_in token }
{
    match token {
        Token::Word(Word::Fill(fill)) => Ok(fill),
        token => Err(refusal(Wanted::Words, &token)),
    }
}

/// What a synchronous reset waits for, or the end of its statement.
fn gate_next(fill: Fill, token: Token) -> Result<Step, LibCode>
    ensures { result ≡ gate_next fill token }
{
    match token {
        Token::Word(Word::Gate(gate)) => Ok(ended(Statement::Setting(Setting::Rdsrst {
            fill,
            gate: Some(gate),
        }))),
        Token::Semicolon => Ok(Step::Done(Statement::Setting(Setting::Rdsrst {
            fill,
            gate: None,
        }))),
        token => Err(refusal(Wanted::Words, &token)),
    }
}

fn setting_next(alloc: Global, part: SettingPart, token: Token) -> Result<Step, LibCode>
    ensures { Gives result (setting_next part token) }
{
    match part {
        SettingPart::Edge => match token {
            Token::Word(Word::Edge(edge)) => Ok(ended(Statement::Setting(Setting::Clock(edge)))),
            token => Err(refusal(Wanted::Words, &token)),
        },
        SettingPart::Own => Ok(ended(Statement::Setting(Setting::Rdwr(own_of(token)?)))),
        SettingPart::Trans(names) => trans_next(names, token),
        SettingPart::TransAll => match token {
            Token::Word(Word::Seen(seen)) => Ok(ended(Statement::Setting(Setting::Wrtrans {
                targets: Targets::All,
                seen,
            }))),
            token => Err(refusal(Wanted::Words, &token)),
        },
        SettingPart::Prio(names) => prio_next(names, token),
        SettingPart::SrstFill => Ok(Step::More(Partial::Setting(SettingPart::SrstGate(fill_in(
            token,
        )?)))),
        SettingPart::SrstGate(fill) => gate_next(fill, token),
        SettingPart::ArstFill => { Ok(ended(Statement::Setting(Setting::Rdarst(fill_in(token)?)))) }
        SettingPart::StartFill => {
            Ok(ended(Statement::Setting(Setting::Rdinit(fill_in(token)?))))
        }
        SettingPart::Width => port_width_next(alloc, token),
        SettingPart::Widths { tied, widths } => port_widths_next(tied, widths, token),
    }
}

/// The statement so far with one more token.
fn next(alloc: Global, partial: Partial, token: Token) -> Result<Step, LibCode>
    ensures { Gives result (next partial token) }
{
    match partial {
        Partial::Ram(head) => ram_next(head, token),
        Partial::Item(part) => item_next(part, token),
        Partial::Block(head) => block_next(head, token),
        Partial::Port(head) => port_next(alloc, head, token),
        Partial::Setting(part) => setting_next(alloc, part, token),
        Partial::Ended(statement) => match token {
            Token::Semicolon => Ok(Step::Done(statement)),
            token => Err(refusal(Wanted::Marks, &token)),
        },
    }
}

fn size_of(word: Word) -> Option<Size>
    ensures { result ≡ size_of word }
{
    match word {
        Word::Abits => Some(Size::Abits),
        Word::Property(Property::Width) => Some(Size::Width),
        Word::Byte => Some(Size::Byte),
        Word::Cost => Some(Size::Cost),
        _ => None,
    }
}

/// What a word begins that may stand in the block of an option of a RAM.
fn begin_item(alloc: Global, word: Word) -> Option<Partial>
    ensures { result ≡ begin_item word }
{
    if let Some(size) = size_of(word) {
        return Some(Partial::Item(ItemPart::Number(size)));
    }
    match word {
        Word::Widths => Some(Partial::Item(ItemPart::Widths(List::from_vec(Vec::new(alloc))))),
        Word::Init => Some(Partial::Item(ItemPart::Init)),
        Word::RamOption => Some(Partial::Block(BlockHead::Name(Scope::Ram))),
        _ => None,
    }
}

/// What a word begins in the block of a RAM.
fn begin_in_ram(alloc: Global, word: Word) -> Option<Partial>
    ensures { result ≡ begin_in_ram word }
{
    match word {
        Word::Style => Some(Partial::Item(ItemPart::Style)),
        Word::Port => Some(Partial::Port(PortHead::Kind)),
        word => begin_item(alloc, word),
    }
}

/// What the word of a property begins.
fn begin_setting(alloc: Global, property: Property) -> Partial
    ensures { result ≡ begin_setting property }
{
    match property {
        Property::Clock => Partial::Setting(SettingPart::Edge),
        Property::Clken => Partial::Ended(Statement::Setting(Setting::Clken)),
        Property::Rden => Partial::Ended(Statement::Setting(Setting::Rden)),
        Property::Rdwr => Partial::Setting(SettingPart::Own),
        Property::Wrtrans => {
            Partial::Setting(SettingPart::Trans(List::from_vec(Vec::new(alloc))))
        }
        Property::Wrprio => Partial::Setting(SettingPart::Prio(List::from_vec(Vec::new(alloc)))),
        Property::Rdsrst => Partial::Setting(SettingPart::SrstFill),
        Property::Rdarst => Partial::Setting(SettingPart::ArstFill),
        Property::Rdinit => Partial::Setting(SettingPart::StartFill),
        Property::WrbeSeparate => Partial::Ended(Statement::Setting(Setting::WrbeSeparate)),
        Property::Width => Partial::Setting(SettingPart::Width),
    }
}

/// What a word begins in the block of a port.
fn begin_in_port(alloc: Global, kind: PortKind, word: Word) -> Result<Partial, LibCode>
    ensures { result ≡ begin_in_port kind word }
{
    match word {
        Word::RamOption => Ok(Partial::Block(BlockHead::Name(Scope::Ram))),
        Word::PortOption => Ok(Partial::Block(BlockHead::Name(Scope::Port))),
        Word::Property(property) => {
            if kind_table!(kind, property) {
                Ok(begin_setting(alloc, property))
            } else {
                Err(LibCode::NotForKind)
            }
        }
        _ => Err(LibCode::UnknownWord),
    }
}

/// What a word begins in a block.
fn begin_word(alloc: Global, place: Place, word: Word) -> Result<Partial, LibCode>
    ensures { result ≡ begin_word place word }
{
    let partial = match place {
        Place::Outside => None,
        Place::Ram => begin_in_ram(alloc, word),
        Place::Options { .. } => begin_item(alloc, word),
        Place::Port { kind, .. } => return begin_in_port(alloc, kind, word),
    };
    match partial {
        Some(partial) => Ok(partial),
        None => Err(LibCode::UnknownWord),
    }
}

/// The first token of a statement in a block.
fn begin_inside(alloc: Global, place: Place, token: Token) -> Result<Step, LibCode>
    ensures { result ≡ begin_inside place token }
{
    match token {
        Token::Close => Ok(Step::Done(Statement::End)),
        Token::Word(word) => Ok(Step::More(begin_word(alloc, place, word)?)),
        token => Err(refusal(Wanted::Words, &token)),
    }
}

/// The first token of a statement.
fn begin(alloc: Global, place: Place, token: Token) -> Result<Step, LibCode>
    ensures { result ≡ begin place token }
{
    if place != Place::Outside {
        return begin_inside(alloc, place, token);
    }
    match token {
        Token::Ram { line } => Ok(Step::More(Partial::Ram(RamHead::Class { line }))),
        token => Err(refusal(Wanted::Words, &token)),
    }
}

/// One more token of a statement, or the first of the next.
pub fn advance(
    alloc: Global,
    place: Place,
    partial: Option<Partial>,
    token: Token,
) -> Result<Step, LibCode>
    ensures { Gives result (advance place partial token) }
{
    match partial {
        None => begin(alloc, place, token),
        Some(partial) => next(alloc, partial, token),
    }
}
