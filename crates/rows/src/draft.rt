//! Texts, and how they are made of pieces.
use crate::fault::{Halt, Wrong};
use crate::line::{Form, Line, Piece};
use std::alloc::{AllocError, Global};

/// A text and its name.
#[derive(Drop)]
pub struct NamedText {
    pub name: Vec<u8>,
    pub bytes: Vec<u8>,
}

/// The bytes of the text of a name.
pub fn text_named<'a>(texts: &'a [NamedText], name: &[u8]) -> Option<&'a [u8]> {
    let text = texts.iter().find(|text| text.name.as_slice() == name)?;
    Some(text.bytes.as_slice())
}

/// A text that is being made. Where a line was taken out, `behind` is what stood behind it.
#[derive(Drop)]
struct Draft {
    text: Vec<u8>,
    behind: Vec<u8>,
    is_open: bool,
}

/// Where a line of a text stands, its line feed included.
#[derive(Clone, Copy)]
struct Span {
    start: usize,
    end: usize,
}

/// The span of a line, where it stands in a text exactly once.
fn span_of(text: &[u8], line: &[u8]) -> Option<Span> {
    let mut found = None;
    let mut start = 0usize;
    let lines = text.strip_suffix(b"\n".as_slice()).unwrap_or(text);
    for each in lines.split(|byte| *byte == b'\n') {
        let end = start.saturating_add(each.len()).saturating_add(1);
        if each == line {
            if found.is_some() {
                return None;
            }
            found = Some(Span { start, end });
        }
        start = end;
    }
    found
}

/// What stands from a place on.
fn behind(text: &[u8], place: usize) -> &[u8] {
    match text.split_at_checked(place) {
        Some((_, rest)) => rest,
        None => b"",
    }
}

impl Draft {
    /// Puts what stood behind a line that was taken out behind what stands in its place.
    fn close(&mut self) -> Result<(), AllocError> {
        self.text.extend_from_slice(self.behind.as_slice())?;
        self.behind.clear();
        self.is_open = false;
        Ok(())
    }

    /// Appends so many times these bytes.
    fn add(&mut self, times: u64, bytes: &[u8], fed: bool) -> Result<(), AllocError> {
        for _ in 0..times {
            self.text.extend_from_slice(bytes)?;
            if fed {
                self.text.extend_from_slice(b"\n")?;
            }
        }
        Ok(())
    }

    /// Takes a line out; what stood behind it waits.
    fn open(&mut self, span: Span) -> Result<(), AllocError> {
        self.behind
            .extend_from_slice(behind(self.text.as_slice(), span.end))?;
        self.text.truncate(span.start);
        self.is_open = true;
        Ok(())
    }

    /// Does what a piece says.
    fn take(&mut self, line: &Line<'_>, piece: Piece<'_>, texts: &[NamedText]) -> Result<(), Halt> {
        if let Piece::In { line: bytes } = piece {
            if !self.is_open {
                return Err(line.halt(Wrong::Place));
            }
            return Ok(self.add(1, bytes, true)?);
        }
        self.close()?;
        match piece {
            Piece::Add { times, bytes, fed } => self.add(times, bytes, fed)?,
            Piece::Copy { name } => {
                let Some(bytes) = text_named(texts, name) else {
                    return Err(line.halt(Wrong::UnknownText));
                };
                self.add(1, bytes, false)?;
            }
            Piece::Upto { line: bytes } => {
                let Some(span) = span_of(self.text.as_slice(), bytes) else {
                    return Err(line.halt(Wrong::NotOnce));
                };
                self.text.truncate(span.end);
            }
            Piece::Out { line: bytes } => {
                let Some(span) = span_of(self.text.as_slice(), bytes) else {
                    return Err(line.halt(Wrong::NotOnce));
                };
                self.open(span)?;
            }
            Piece::In { .. } => {}
        }
        Ok(())
    }
}

/// The text that pieces make.
pub fn text_of(alloc: Global, pieces: &[Line<'_>], texts: &[NamedText]) -> Result<Vec<u8>, Halt> {
    let mut draft = Draft {
        text: Vec::new(alloc),
        behind: Vec::new(alloc),
        is_open: false,
    };
    for line in pieces {
        let Form::Piece(piece) = line.form else {
            return Err(line.halt(Wrong::Place));
        };
        draft.take(line, piece, texts)?;
    }
    draft.close()?;
    Ok(draft.text)
}
