//! Why a file of rows can't be taken.
use std::alloc::{AllocError, AllocFailed};

/// What is wrong with a line.
#[derive(Clone, Copy, Debug, PartialEq, Eq)]
pub enum Wrong {
    /// The line has no form.
    Form,
    /// It stands where no such line may stand.
    Place,
    /// There is no text of this name.
    UnknownText,
    /// There is a text or a row of this name.
    NameTwice,
    /// The line that is to be cut or changed does not stand exactly once.
    NotOnce,
    /// A word of a command is no text.
    Word,
    /// A row has no command.
    NoCommand,
    /// A row says nothing of a file among its words.
    FileNotTold,
}

impl Wrong {
    /// The fault in words.
    pub fn words(self) -> &'static str {
        match self {
            Wrong::Form => "a line of no form",
            Wrong::Place => "no such line may stand here",
            Wrong::UnknownText => "there is no such text",
            Wrong::NameTwice => "the name is there already",
            Wrong::NotOnce => "the line does not stand exactly once",
            Wrong::Word => "a word is no text",
            Wrong::NoCommand => "the row has no words",
            Wrong::FileNotTold => "the row says nothing of a file among its words",
        }
    }
}

/// Why reading stopped.
#[derive(Clone, Copy, Debug, PartialEq, Eq)]
pub enum Halt {
    Memory,
    Wrong { line: u64, wrong: Wrong },
}

impl From<AllocError> for Halt {
    fn from(_error: AllocError) -> Halt {
        Halt::Memory
    }
}

impl<T: Drop> From<AllocFailed<T>> for Halt {
    fn from(_failed: AllocFailed<T>) -> Halt {
        Halt::Memory
    }
}
