//! Laws of the definitions. These calls do nothing: each contract is a law.
ghost use Rattle.rtlil_lex.specs.Lexes.{Lexes};
ghost use Rattle.rtlil_lex.specs.Lines.{token_lines};
ghost use Rattle.rtlil_lex.specs.Spelling.{AllFit, AllKnownFit, line_text};

use crate::token::Token;

/// A line that is printed from tokens reads as these tokens again.
pub fn printed_line_reads_back(line: &[Token])
    requires { AllFit line.now }
    ensures { Lexes (line_text line.now) line.now }
{}

/// Each token of a text that is no fault has a printed form.
pub fn read_tokens_can_be_printed(text: &[u8])
    ensures { AllKnownFit (token_lines text.now) }
{}
