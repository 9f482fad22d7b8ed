//! From the bytes of a line to its tokens. No token crosses a line's end.
ghost use Rattle.std.specs.Prelude.{◌≡◌, ◌≤◌, ◌<◌, ℕ, List, ◌∷◌, length, IfOk, option_map};
ghost use Rattle.std.specs.List.{list_all, prefix_len};
ghost use Rattle.lib_tree.specs.Lex.{begin_of, front, id_token, is_digit, is_in, next, number_in, past, run_token, string_token, token_at};

use crate::token::Token;
use crate::words::word_of;
use lib_core::{Memory, Name};
use std::alloc::Global;

/// Bytes that stand together.
#[derive(Clone, Copy)]
pub enum Class {
    /// White space in a line.
    Blank,
    /// What an identifier goes on with.
    Visible,
    /// What a string holds.
    Quoted,
    /// Letters, digits and `_`.
    Letter,
    /// All of a line.
    Line,
}

fn is_digit(byte: u8) -> bool
    ensures { result ≡ is_digit byte }
{
    byte >= b'0' && byte <= b'9'
}

fn is_blank(byte: u8) -> bool
    ensures { result ≡ is_in Class.Blank byte }
{
    byte == b' ' || byte == b'\t' || byte == b'\r'
}

fn is_letter(byte: u8) -> bool
    ensures { result ≡ is_in Class.Letter byte }
{
    is_digit(byte)
        || (byte >= b'a' && byte <= b'z')
        || (byte >= b'A' && byte <= b'Z')
        || byte == b'_'
}

fn is_in(class: Class, byte: u8) -> bool
    ensures { result ≡ is_in class byte }
{
    match class {
        Class::Blank => is_blank(byte),
        Class::Visible => !is_blank(byte),
        Class::Quoted => !(is_blank(byte) || byte == b'"'),
        Class::Letter => is_letter(byte),
        Class::Line => byte != b'\n',
    }
}

/// How many bytes at the front belong to the class.
fn front_len(class: Class, bytes: &[u8]) -> usize
    ensures length { result ≡ prefix_len (is_in class) bytes.now }
    ensures within { result ≤ length bytes.now }
{
    for (i, byte) in bytes.iter().enumerate() {
        if !is_in(class, *byte) {
            return i;
        }
    }
    bytes.len()
}

/// The bytes at the front that belong to the class, and the rest.
pub fn cut(class: Class, bytes: &[u8]) -> (&[u8], &[u8])
    ensures front { result.0.now ≡ front class bytes.now }
    ensures rest { result.1.now ≡ past class bytes.now }
{
    bytes.split_at(front_len(class, bytes))
}

/// The first byte with the bytes behind it that belong to the class, and the rest.
fn cut_with_first(class: Class, bytes: &[u8]) -> (&[u8], &[u8])
    requires { 0 < length bytes.now }
    ensures { (b : ℕ) (bs : List ℕ) → bytes.now ≡ b ∷ bs → (result.0.now ≡ b ∷ front class bs) × (result.1.now ≡ past class bs) }
{
    bytes.split_at(1 + front_len(class, &bytes[1..]))
}

/// The number that the digits are, where it is below 2 ^ 32.
#[tactic(auto, unfolding(crate::specs::Lex::number_in, crate::specs::Lex::number_from), using(crate::proofs::Numbers::too_large))]
fn number_in(digits: &[u8]) -> Option<u32>
    ensures { result ≡ number_in digits.now }
{
    let mut number: u32 = 0;
    let mut rest = digits;
    while let [digit, tail @ ..] = rest {
        let more = 10 * number as u64 + digit.saturating_sub(b'0') as u64;
        if more >= 0x1_0000_0000 {
            return None;
        }
        number = more as u32;
        rest = tail;
    }
    Some(number)
}

fn all_digits(bytes: &[u8]) -> bool
    ensures { result ≡ list_all is_digit bytes.now }
{
    bytes.iter().all(|byte| is_digit(*byte))
}

/// A number or a word.
#[tactic(auto, unfolding(crate::specs::Lex::run_token))]
fn run_token(line: u32, bytes: &[u8]) -> Token
    ensures { result ≡ run_token line bytes.now }
{
    if bytes == b"ram".as_slice() {
        return Token::Ram { line };
    }
    if !all_digits(bytes) {
        return Token::Word(word_of(bytes));
    }
    match number_in(bytes) {
        Some(number) => Token::Number(number),
        None => Token::Large,
    }
}

fn id_token(alloc: Global, bytes: &[u8]) -> Result<Token, Memory>
    ensures { IfOk result (λ token. token ≡ id_token bytes.now) }
{
    if bytes.len() < 2 {
        return Ok(Token::Bad);
    }
    Ok(Token::Id(Name::from_vec(Vec::from_slice(alloc, bytes)?)))
}

/// The string whose text begins the bytes, and what follows its end.
fn string_token(alloc: Global, bytes: &[u8]) -> Result<(Token, &[u8]), Memory>
    ensures { IfOk result (λ x. (x.0, x.1.now) ≡ string_token (front Class.Quoted bytes.now) (past Class.Quoted bytes.now)) }
{
    let (text, rest) = cut(Class::Quoted, bytes);
    match rest {
        [b'"', after @ ..] => Ok((
            Token::Text(Name::from_vec(Vec::from_slice(alloc, text)?)),
            after,
        )),
        _ => Ok((Token::Bad, &[])),
    }
}

/// What begins at a byte that is no blank.
#[derive(Clone, Copy)]
pub enum Begin {
    Comment,
    Name,
    Quote,
    Open,
    Close,
    Semicolon,
    Run,
    Nothing,
}

fn begin_of(byte: u8) -> Begin
    ensures { result ≡ begin_of byte }
{
    match byte {
        b'#' => Begin::Comment,
        b'\\' | b'$' => Begin::Name,
        b'"' => Begin::Quote,
        b'{' => Begin::Open,
        b'}' => Begin::Close,
        b';' => Begin::Semicolon,
        _ => {
            if is_letter(byte) {
                Begin::Run
            } else {
                Begin::Nothing
            }
        }
    }
}

/// The token that a line goes on with at a byte that is no blank, and what follows it.
#[tactic(auto, unfolding(crate::specs::Lex::token_at, crate::specs::Lex::token_by))]
fn token_at(alloc: Global, line: u32, bytes: &[u8]) -> Result<Option<(Token, &[u8])>, Memory>
    ensures { IfOk result (λ o. option_map (λ x. (x.0, x.1.now)) o ≡ token_at line bytes.now) }
{
    let [byte, tail @ ..] = bytes else {
        return Ok(None);
    };
    Ok(match begin_of(*byte) {
        Begin::Comment => None,
        Begin::Name => {
            let (name, rest) = cut_with_first(Class::Visible, bytes);
            Some((id_token(alloc, name)?, rest))
        }
        Begin::Quote => Some(string_token(alloc, tail)?),
        Begin::Open => Some((Token::Open, tail)),
        Begin::Close => Some((Token::Close, tail)),
        Begin::Semicolon => Some((Token::Semicolon, tail)),
        Begin::Run => {
            let (run, rest) = cut_with_first(Class::Letter, bytes);
            Some((run_token(line, run), rest))
        }
        Begin::Nothing => Some((Token::Bad, tail)),
    })
}

/// The next token of a line, and what follows it.
#[tactic(auto, unfolding(crate::specs::Lex::next))]
pub fn next(alloc: Global, line: u32, bytes: &[u8]) -> Result<Option<(Token, &[u8])>, Memory>
    ensures { IfOk result (λ o. option_map (λ x. (x.0, x.1.now)) o ≡ next line bytes.now) }
{
    let (_, rest) = cut(Class::Blank, bytes);
    token_at(alloc, line, rest)
}
