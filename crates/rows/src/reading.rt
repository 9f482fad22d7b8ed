//! Reading a file of rows.
use crate::draft::{NamedText, text_named, text_of};
use crate::fault::{Halt, Wrong};
use crate::line::{Form, Line, first_word, lines_of, number_of};
use crate::row::{Row, Told, ToldFile};
use flow_io::DeskFile;
use lib_core::{List, Name};
use std::alloc::{AllocError, Global};
use std::str;

fn bytes_of(alloc: Global, bytes: &[u8]) -> Result<List<u8>, AllocError> {
    Ok(List::from_vec(Vec::from_slice(alloc, bytes)?))
}

fn name_of(alloc: Global, bytes: &[u8]) -> Result<Name, AllocError> {
    Ok(Name::from_vec(Vec::from_slice(alloc, bytes)?))
}

/// The text of bytes of a line.
fn string_of(alloc: Global, line: &Line<'_>, bytes: &[u8]) -> Result<String, Halt> {
    let Ok(text) = str::from_utf8(bytes) else {
        return Err(line.halt(Wrong::Word));
    };
    Ok(String::from_str(alloc, text)?)
}

/// A row that says nothing yet.
fn new_row(alloc: Global, name: &[u8]) -> Result<Row, AllocError> {
    Ok(Row {
        name: name_of(alloc, name)?,
        commands: Vec::new(alloc),
        before: List::from_vec(Vec::new(alloc)),
        fails: List::from_vec(Vec::new(alloc)),
        told: Told {
            status: 0,
            line: List::from_vec(Vec::new(alloc)),
            files: List::from_vec(Vec::new(alloc)),
            absent: List::from_vec(Vec::new(alloc)),
        },
    })
}

impl Row {
    /// Enters a command.
    fn command(&mut self, alloc: Global, line: &Line<'_>, words: &[u8]) -> Result<(), Halt> {
        let Ok(words) = str::from_utf8(words) else {
            return Err(line.halt(Wrong::Word));
        };
        let mut command = Vec::new(alloc);
        for word in words.split_whitespace() {
            command.push(String::from_str(alloc, word)?)?;
        }
        self.commands.push(command)?;
        Ok(())
    }

    /// Enters the numbers of the calls that fail.
    fn fail(&mut self, line: &Line<'_>, calls: &[u8]) -> Result<(), Halt> {
        for call in calls.split(|byte| *byte == b' ') {
            let Some(call) = number_of(call) else {
                return Err(line.halt(Wrong::Form));
            };
            self.fails.push(call).map_err(|_| Halt::Memory)?;
        }
        Ok(())
    }

    /// Enters a file that stands before.
    fn give(
        &mut self,
        alloc: Global,
        line: &Line<'_>,
        file: &[u8],
        text: &[u8],
        texts: &[NamedText],
    ) -> Result<(), Halt> {
        let Some(bytes) = text_named(texts, text) else {
            return Err(line.halt(Wrong::UnknownText));
        };
        let file = DeskFile {
            name: name_of(alloc, file)?,
            bytes: bytes_of(alloc, bytes)?,
        };
        self.before.push(file).map_err(|_| Halt::Memory)
    }

    /// Enters what a file is to hold.
    fn tell(
        &mut self,
        alloc: Global,
        line: &Line<'_>,
        file: &[u8],
        bytes: Vec<u8>,
    ) -> Result<(), Halt> {
        let name = string_of(alloc, line, file)?;
        let bytes = List::from_vec(bytes);
        let told = ToldFile { name, bytes };
        self.told.files.push(told).map_err(|_| Halt::Memory)
    }

    /// Enters files that are not there.
    fn miss(&mut self, alloc: Global, line: &Line<'_>, files: &[u8]) -> Result<(), Halt> {
        for file in files.split(|byte| *byte == b' ') {
            let name = string_of(alloc, line, file)?;
            self.told.absent.push(name).map_err(|_| Halt::Memory)?;
        }
        Ok(())
    }

    /// Whether the row tells what a file is to hold, or that it is not there.
    fn tells(&self, file: &[u8]) -> bool {
        let files = self.told.files.as_slice();
        let absent = self.told.absent.as_slice();
        files.iter().any(|told| told.name.as_bytes() == file)
            || absent.iter().any(|name| name.as_bytes() == file)
    }

    /// Whether the row tells of a file that a word names. A number names none.
    fn tells_word(&self, word: &String) -> bool {
        number_of(word.as_bytes()).is_some() || self.tells(word.as_bytes())
    }

    /// Tells of each file that stands before and of which nothing is told that it is as it was.
    fn keep(&mut self, alloc: Global, head: &Line<'_>) -> Result<(), Halt> {
        let mut kept = Vec::new(alloc);
        for file in self.before.as_slice() {
            if !self.tells(file.name.as_slice()) {
                kept.push(ToldFile {
                    name: string_of(alloc, head, file.name.as_slice())?,
                    bytes: bytes_of(alloc, file.bytes.as_slice())?,
                })?;
            }
        }
        for file in kept {
            self.told.files.push(file).map_err(|_| Halt::Memory)?;
        }
        Ok(())
    }

    /// Whether the row tells of each file among the words of its commands.
    fn tells_all(&self) -> bool {
        for command in &self.commands {
            if !command
                .as_slice()
                .iter()
                .skip(1)
                .all(|word| self.tells_word(word))
            {
                return false;
            }
        }
        true
    }

    /// Enters what a line says, with the pieces of a text that stand behind it.
    fn take(
        &mut self,
        alloc: Global,
        line: &Line<'_>,
        pieces: &[Line<'_>],
        texts: &[NamedText],
    ) -> Result<(), Halt> {
        let text = text_of(alloc, pieces, texts)?;
        match line.form {
            Form::After { file } => {
                return self.tell(alloc, line, file, text);
            }
            Form::Half { file } => {
                let half = text.len() / 2;
                let mut text = text;
                text.truncate(half);
                return self.tell(alloc, line, file, text);
            }
            _ => {}
        }
        if !pieces.is_empty() {
            return Err(line.halt(Wrong::Place));
        }
        match line.form {
            Form::Words { words } => self.command(alloc, line, words),
            Form::Fails { calls } => self.fail(line, calls),
            Form::Before { file, text } => self.give(alloc, line, file, text, texts),
            Form::Absent { files } => self.miss(alloc, line, files),
            Form::Status { status } => {
                self.told.status = status;
                Ok(())
            }
            Form::Error { line: error } => {
                let mut bytes = Vec::from_slice(alloc, error)?;
                bytes.push(b'\n')?;
                self.told.line = List::from_vec(bytes);
                Ok(())
            }
            _ => Err(line.halt(Wrong::Place)),
        }
    }
}

/// The row that lines make.
fn row_of(
    alloc: Global,
    head: &Line<'_>,
    name: &[u8],
    lines: &[Line<'_>],
    texts: &[NamedText],
) -> Result<Row, Halt> {
    let mut row = new_row(alloc, name)?;
    for part in lines.chunk_by(|_, next| next.is_piece()) {
        if let [line, pieces @ ..] = part {
            row.take(alloc, line, pieces, texts)?;
        }
    }
    row.keep(alloc, head)?;
    if row.commands.is_empty() {
        return Err(head.halt(Wrong::NoCommand));
    }
    if !row.tells_all() {
        return Err(head.halt(Wrong::FileNotTold));
    }
    Ok(row)
}

/// Enters the text that lines make under a name.
fn enter_text(
    alloc: Global,
    head: &Line<'_>,
    name: &[u8],
    lines: &[Line<'_>],
    texts: &mut Vec<NamedText>,
) -> Result<(), Halt> {
    if text_named(texts.as_slice(), name).is_some() {
        return Err(head.halt(Wrong::NameTwice));
    }
    let bytes = text_of(alloc, lines, texts.as_slice())?;
    let name = Vec::from_slice(alloc, name)?;
    texts.push(NamedText { name, bytes })?;
    Ok(())
}

/// Reads a file: its texts stand behind those of earlier files, and its rows behind earlier rows.
pub fn read_rows(
    alloc: Global,
    bytes: &[u8],
    texts: &mut Vec<NamedText>,
    rows: &mut Vec<Row>,
) -> Result<(), Halt> {
    let lines = lines_of(alloc, bytes)?;
    for block in lines.as_slice().chunk_by(|_, next| !next.is_head()) {
        let [head, rest @ ..] = block else {
            continue;
        };
        match head.form {
            Form::Text { name } => enter_text(alloc, head, name, rest, texts)?,
            Form::Row { name } => {
                if rows.iter().any(|row| row.name.as_slice() == name) {
                    return Err(head.halt(Wrong::NameTwice));
                }
                rows.push(row_of(alloc, head, name, rest, texts.as_slice())?)?;
            }
            _ => return Err(head.halt(Wrong::Place)),
        }
    }
    Ok(())
}
