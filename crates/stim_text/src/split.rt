//! The words of a line.
ghost use Rattle.std.specs.Prelude.{◌≡◌, map, filter, IfOk};
ghost use Rattle.std.specs.List.{slice_split};
ghost use Rattle.stim_text.specs.Spoken.{is_gap, is_word, is_comment, words, spoken};

use lib_core::Memory;
use std::alloc::{AllocError, Global};

fn is_gap(byte: u8) -> bool
    ensures { result ≡ is_gap byte }
{
    byte == b' ' || byte == b'\t'
}

/// What stands between spaces and tabs, also where it is nothing.
fn pieces(alloc: Global, line: &[u8]) -> Result<Vec<&[u8]>, AllocError>
    ensures { IfOk result (λ found. map (λ w. w.now) found.items ≡ slice_split is_gap line.now) }
{
    line.split(|byte| is_gap(*byte)).collect(alloc)
}

/// What stands between spaces and tabs.
#[tactic(auto, unfolding(crate::specs::Spoken::words))]
fn words(alloc: Global, line: &[u8]) -> Result<Vec<&[u8]>, Memory>
    ensures { IfOk result (λ found. map (λ w. w.now) found.items ≡ words line.now) }
{
    let pieces = pieces(alloc, line)?;
    some_words(alloc, pieces.as_slice())
}

/// The pieces that have bytes.
fn some_words<'a>(alloc: Global, pieces: &[&'a [u8]]) -> Result<Vec<&'a [u8]>, Memory>
    ensures { IfOk result (λ found. map (λ w. w.now) found.items ≡ filter is_word (map (λ w. w.now) pieces.now)) }
{
    let mut words = Vec::new(alloc);
    for piece in pieces {
        if !piece.is_empty() {
            words.push(*piece)?;
        }
    }
    Ok(words)
}

fn is_comment(line: &[u8]) -> bool
    ensures { result ≡ is_comment line.now }
{
    match line {
        [first, ..] => *first == b'#',
        [] => false,
    }
}

/// The words of a line, of which a line that begins with `#` has none.
#[tactic(auto, unfolding(crate::specs::Spoken::spoken))]
pub fn spoken(alloc: Global, line: &[u8]) -> Result<Vec<&[u8]>, Memory>
    ensures { IfOk result (λ found. map (λ w. w.now) found.items ≡ spoken line.now) }
{
    if is_comment(line) {
        return Ok(Vec::new(alloc));
    }
    words(alloc, line)
}
