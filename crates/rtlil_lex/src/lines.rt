//! The lines of a text.
ghost use Rattle.std.specs.Prelude.{◌≡◌, ◌∷◌, [], MatchOption};
ghost use Rattle.rtlil_lex.specs.Lines.{lines, BeginsWithLine};

use crate::bytes::{Class, cut};

/// The first line of a text without its line feed, and the text behind its line feed where it has
/// one.
pub fn split_line(bytes: &[u8]) -> (&[u8], Option<&[u8]>)
    ensures { MatchOption result.1 (lines bytes.now ≡ result.0.now ∷ []) (λ tail. BeginsWithLine bytes.now result.0.now tail.now) }
{
    let (line, behind) = cut(Class::OnLine, bytes);
    match behind {
        [] => (line, None),
        [_, tail @ ..] => (line, Some(tail)),
    }
}
