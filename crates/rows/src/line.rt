//! The lines of a file of rows.
use crate::fault::{Halt, Wrong};
use std::alloc::Global;
use std::str;

/// A part of a text.
#[derive(Clone, Copy)]
pub enum Piece<'a> {
    /// So many times these bytes, each time with a line feed behind them or without.
    Add {
        times: u64,
        bytes: &'a [u8],
        fed: bool,
    },
    /// Another text.
    Copy {
        name: &'a [u8],
    },
    /// Cuts what stands behind a line.
    Upto {
        line: &'a [u8],
    },
    /// Takes a line out.
    Out {
        line: &'a [u8],
    },
    /// Puts a line in the place of one that was taken out.
    In {
        line: &'a [u8],
    },
}

/// What a line says.
#[derive(Clone, Copy)]
pub enum Form<'a> {
    Text { name: &'a [u8] },
    Row { name: &'a [u8] },
    Piece(Piece<'a>),
    Words { words: &'a [u8] },
    Before { file: &'a [u8], text: &'a [u8] },
    Fails { calls: &'a [u8] },
    Status { status: u8 },
    Error { line: &'a [u8] },
    After { file: &'a [u8] },
    Half { file: &'a [u8] },
    Absent { files: &'a [u8] },
}

/// A line that says something, and its number in the file.
#[derive(Clone, Copy)]
pub struct Line<'a> {
    pub number: u64,
    pub form: Form<'a>,
}

impl<'a> Line<'a> {
    /// Whether the line is a part of a text.
    pub fn is_piece(&self) -> bool {
        matches!(self.form, Form::Piece(_))
    }

    /// The halt at this line.
    pub fn halt(&self, wrong: Wrong) -> Halt {
        Halt::Wrong {
            line: self.number,
            wrong,
        }
    }

    /// Whether a text or a row begins here.
    pub fn is_head(&self) -> bool {
        matches!(self.form, Form::Text { .. } | Form::Row { .. })
    }
}

/// The first word of some bytes, and what stands behind the space after it.
pub fn first_word(bytes: &[u8]) -> (&[u8], &[u8]) {
    let at = bytes
        .iter()
        .position(|byte| *byte == b' ')
        .unwrap_or(bytes.len());
    let (word, rest) = bytes.split_at(at.min(bytes.len()));
    match rest {
        [_, tail @ ..] => (word, tail),
        [] => (word, rest),
    }
}

/// The number that digits spell.
pub fn number_of(digits: &[u8]) -> Option<u64> {
    let text = str::from_utf8(digits).ok()?;
    text.parse::<u64>().ok()
}

/// A line of a text, or a part of a line, so many times.
fn add(times: u64, bytes: &[u8]) -> Option<Piece<'_>> {
    match bytes {
        [b'|', bytes @ ..] => Some(Piece::Add {
            times,
            bytes,
            fed: true,
        }),
        [b'.', bytes @ ..] => Some(Piece::Add {
            times,
            bytes,
            fed: false,
        }),
        _ => None,
    }
}

/// The piece that a line begins with a word.
fn piece_of<'a>(word: &[u8], rest: &'a [u8]) -> Option<Piece<'a>> {
    if word == b"copy".as_slice() {
        return Some(Piece::Copy { name: rest });
    }
    if word == b"upto".as_slice() {
        let line = rest.strip_prefix(b"|".as_slice())?;
        return Some(Piece::Upto { line });
    }
    if word == b"times".as_slice() {
        let (count, rest) = first_word(rest);
        return add(number_of(count)?, rest);
    }
    None
}

/// What a line of a row says that tells of a file.
fn file_form<'a>(word: &[u8], rest: &'a [u8]) -> Option<Form<'a>> {
    if word == b"before".as_slice() {
        let (file, text) = first_word(rest);
        return Some(Form::Before { file, text });
    }
    if word == b"after".as_slice() {
        return Some(Form::After { file: rest });
    }
    if word == b"half".as_slice() {
        return Some(Form::Half { file: rest });
    }
    if word == b"absent".as_slice() {
        return Some(Form::Absent { files: rest });
    }
    None
}

/// What a line says that begins with a word.
fn word_form<'a>(word: &[u8], rest: &'a [u8]) -> Option<Form<'a>> {
    if word == b"text".as_slice() {
        return Some(Form::Text { name: rest });
    }
    if word == b"row".as_slice() {
        return Some(Form::Row { name: rest });
    }
    if word == b"words".as_slice() {
        return Some(Form::Words { words: rest });
    }
    if word == b"fails".as_slice() {
        return Some(Form::Fails { calls: rest });
    }
    if word == b"error".as_slice() {
        return Some(Form::Error { line: rest });
    }
    if word == b"status".as_slice() {
        let status = u8::try_from(number_of(rest)?).ok()?;
        return Some(Form::Status { status });
    }
    match piece_of(word, rest) {
        Some(piece) => Some(Form::Piece(piece)),
        None => file_form(word, rest),
    }
}

/// What a line says, where it has a form.
fn form_of(line: &[u8]) -> Option<Form<'_>> {
    match line {
        [b'|' | b'.', ..] => Some(Form::Piece(add(1, line)?)),
        [b'-', b'|', line @ ..] => Some(Form::Piece(Piece::Out { line })),
        [b'+', b'|', line @ ..] => Some(Form::Piece(Piece::In { line })),
        _ => {
            let (word, rest) = first_word(line);
            word_form(word, rest)
        }
    }
}

/// The lines of a file that say something.
pub fn lines_of(alloc: Global, bytes: &[u8]) -> Result<Vec<Line<'_>>, Halt> {
    let mut lines = Vec::new(alloc);
    for (place, line) in bytes.split(|byte| *byte == b'\n').enumerate() {
        let number = (place as u64).saturating_add(1);
        if line.is_empty() || line.starts_with(b"#") {
            continue;
        }
        let Some(form) = form_of(line) else {
            let wrong = Wrong::Form;
            return Err(Halt::Wrong {
                line: number,
                wrong,
            });
        };
        lines.push(Line { number, form })?;
    }
    Ok(lines)
}
