//! The text of a RAM library as statements.
#![tactic(auto)]

mod copies;
mod fault;
mod lex;
mod partial;
mod statement;
mod text;
mod token;
mod words;

pub use fault::{LibCode, LibFault};
pub use lex::{Begin, Class};
pub use partial::{
    BlockHead, ItemPart, Partial, PortHead, RamHead, SettingPart, Step, Wanted, advance,
};
pub use statement::{Item, Place, Scope, Setting, Size, Statement, Targets};
pub use text::{LineRead, Reading, read_statements};
pub use token::{Token, Word};
