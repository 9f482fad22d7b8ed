//! The tokens of RTLIL text, the text form of Yosys: from the bytes of a line to its tokens, and
//! back.
#![tactic(auto)]

mod bytes;
mod laws;
mod lex;
mod lines;
mod numeral;
mod print;
mod string;
pub mod token;

pub use laws::{printed_line_reads_back, read_tokens_can_be_printed};
pub use lex::tokens;
pub use lines::split_line;
pub use print::{push_constant, push_identifier, push_number, push_string, push_word};
pub use token::{Digit, Token, Word};
