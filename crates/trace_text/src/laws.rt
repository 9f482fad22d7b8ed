//! A law about the text of traces: the contract of a function that does nothing.
ghost use Rattle.trace_text.specs.Lengths.{TextHasBytes};

/// The text of traces has as many bytes as is said of it before they are there.
pub fn text_has_bytes()
    ensures { TextHasBytes }
{}
