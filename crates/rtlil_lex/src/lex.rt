//! From the bytes of a line to its tokens.
ghost use Rattle.std.specs.Prelude.{◌≡◌, List, map, IfOk, option_map};
ghost use Rattle.rtlil_lex.specs.declared.token.Token.{Token};
ghost use Rattle.rtlil_lex.specs.declared.token.Token.TheVariants as token;
ghost use Rattle.rtlil_lex.specs.Limits.{limited, limited_first};
ghost use Rattle.rtlil_lex.specs.Values.{identifier_token, word_of, single_token};
ghost use Rattle.rtlil_lex.specs.Lexes.{Lexes};
ghost use Rattle.rtlil_lex.specs.Lex.{string_or_bad, token_at, next, tokens};
ghost use Rattle.rtlil_lex.specs.declared.string.Place.TheVariants.{Plain};
ghost use Rattle.rtlil_lex.specs.Lex.{string_at};

use crate::bytes::{Class, Start, cut, cut_behind_first, start_of};
use crate::numeral::{negative_at, number_at};
use crate::string::string_at;
use crate::token::{MAX_TEXT, Token, Word};
use lib_core::{Memory, Name};
use std::alloc::Global;

#[tactic(auto, unfolding(crate::specs::Values::word_of))]
fn word_of(bytes: &[u8]) -> Word
    ensures { result ≡ word_of bytes.now }
{
    if bytes == b"autoidx".as_slice() {
        Word::Autoidx
    } else if bytes == b"module".as_slice() {
        Word::Module
    } else if bytes == b"end".as_slice() {
        Word::End
    } else if bytes == b"attribute".as_slice() {
        Word::Attribute
    } else if bytes == b"parameter".as_slice() {
        Word::Parameter
    } else if bytes == b"signed".as_slice() {
        Word::Signed
    } else if bytes == b"real".as_slice() {
        Word::Real
    } else if bytes == b"wire".as_slice() {
        Word::Wire
    } else if bytes == b"width".as_slice() {
        Word::Width
    } else if bytes == b"offset".as_slice() {
        Word::Offset
    } else if bytes == b"input".as_slice() {
        Word::Input
    } else if bytes == b"output".as_slice() {
        Word::Output
    } else if bytes == b"inout".as_slice() {
        Word::Inout
    } else if bytes == b"upto".as_slice() {
        Word::Upto
    } else if bytes == b"memory".as_slice() {
        Word::Memory
    } else if bytes == b"size".as_slice() {
        Word::Size
    } else if bytes == b"cell".as_slice() {
        Word::Cell
    } else if bytes == b"connect".as_slice() {
        Word::Connect
    } else if bytes == b"process".as_slice() {
        Word::Process
    } else {
        Word::Other
    }
}

fn identifier_token(alloc: Global, bytes: &[u8]) -> Result<Token, Memory>
    ensures { IfOk result (λ t. t ≡ limited (identifier_token bytes.now)) }
{
    if bytes.len() < 2 {
        return Ok(Token::Bad);
    }
    if bytes.len() > MAX_TEXT {
        return Ok(Token::Over {
            seen: MAX_TEXT as u64 + 1,
        });
    }
    Ok(Token::Id(Name::from_vec(Vec::from_slice(alloc, bytes)?)))
}

fn string_token(text: Name) -> Token
    ensures { result ≡ limited (token.Text text) }
{
    if text.as_slice().len() > MAX_TEXT {
        return Token::Over {
            seen: MAX_TEXT as u64 + 1,
        };
    }
    Token::Text(text)
}

/// The string behind a quote, and what follows it.
fn string_or_bad(alloc: Global, bytes: &[u8]) -> Result<(Token, &[u8]), Memory>
    ensures { IfOk result (λ x. (x.0, x.1.now) ≡ limited_first (string_or_bad (string_at Plain bytes.now))) }
{
    Ok(match string_at(alloc, bytes)? {
        Some((text, rest)) => (string_token(text), rest),
        None => (Token::Bad, &[]),
    })
}

fn single_token(b: u8) -> Token
    ensures { result ≡ single_token b }
{
    match b {
        b'{' => Token::OpenBrace,
        b'}' => Token::CloseBrace,
        b'[' => Token::OpenBracket,
        b']' => Token::CloseBracket,
        b':' => Token::Colon,
        _ => Token::Bad,
    }
}

/// The token at the first byte, where one begins there, and what follows it.
#[tactic(auto, unfolding(crate::specs::Lex::token_at, crate::specs::Lex::token_by))]
fn token_at(alloc: Global, bytes: &[u8]) -> Result<Option<(Token, &[u8])>, Memory>
    ensures { IfOk result (λ o. option_map (λ x. (x.0, x.1.now)) o ≡ option_map limited_first (token_at bytes.now)) }
{
    let [b, tail @ ..] = bytes else {
        return Ok(None);
    };
    match start_of(*b) {
        Start::Blank | Start::Comment => Ok(None),
        Start::Identifier => {
            let (name, rest) = cut_behind_first(Class::Visible, bytes);
            Ok(Some((identifier_token(alloc, name)?, rest)))
        }
        Start::Quote => Ok(Some(string_or_bad(alloc, tail)?)),
        Start::Minus => {
            let (digits, rest) = cut(Class::Decimal, tail);
            Ok(Some((negative_at(digits), rest)))
        }
        Start::Decimal => {
            let (digits, rest) = cut_behind_first(Class::Decimal, bytes);
            Ok(Some(number_at(alloc, digits, rest)?))
        }
        Start::Letter => {
            let (word, rest) = cut_behind_first(Class::WordByte, bytes);
            Ok(Some((Token::Word(word_of(word)), rest)))
        }
        Start::Single => Ok(Some((single_token(*b), tail))),
    }
}

/// The first token behind white space, and what follows it.
#[tactic(auto, unfolding(crate::specs::Lex::next))]
fn next(alloc: Global, bytes: &[u8]) -> Result<Option<(Token, &[u8])>, Memory>
    ensures { IfOk result (λ o. option_map (λ x. (x.0, x.1.now)) o ≡ option_map limited_first (next bytes.now)) }
{
    let (_, rest) = cut(Class::Blank, bytes);
    token_at(alloc, rest)
}

/// The tokens of a line, read from left to right.
fn read_tokens(alloc: Global, line: &[u8]) -> Result<Vec<Token>, Memory>
    ensures { IfOk result (λ v. v.items ≡ map limited (tokens line.now)) }
{
    let mut found = Vec::new(alloc);
    let mut rest = line;
    while let Some((token, after)) = next(alloc, rest)? {
        found.push(token)?;
        rest = after;
    }
    Ok(found)
}

/// The tokens of a line, which stands here without its line feed.
pub fn tokens(alloc: Global, line: &[u8]) -> Result<Vec<Token>, Memory>
    ensures found { IfOk result (λ v. v.items ≡ map limited (tokens line.now)) }
    // These are the tokens that the line reads as, and there is no other way to read it.
    ensures lexes { Lexes line.now (tokens line.now) }
    ensures only { (ts : List Token) → Lexes line.now ts → tokens line.now ≡ ts }
{
    read_tokens(alloc, line)
}
