//! Words between spaces, and words that are written if they are wanted.

ghost use Rattle.std.specs.Prelude.{◌≡◌, ◌++◌, map, IfOk, OnOk, string_bytes};
ghost use Rattle.tokens.specs.Words.{word_if, words_of};

use point_codes::split_at_byte;
use smallvec::SmallVec;
use std::alloc::{AllocError, Global};

/// The words between spaces, in order. Spaces at the start, at the end and beside each other make no word.
///
/// Up to four words take no memory.
pub fn split_words<'a>(alloc: Global, text: &'a [u8]) -> Result<SmallVec<&'a [u8], 4>, AllocError>
    ensures { IfOk result (λ words. map (λ w. w.now) words.items ≡ words_of text.entry.now) }
{
    let mut words = SmallVec::new(alloc);
    let mut rest = text;
    while let Some((first, after)) = split_at_byte(rest, b' ') {
        if !first.is_empty() {
            words.push(first)?;
        }
        rest = after;
    }
    if rest.is_empty() {
        return Ok(words);
    }
    words.push(rest)?;
    Ok(words)
}

/// Adds a word if it is wanted.
pub fn put_if(text: &mut String, wanted: bool, word: &str) -> Result<(), AllocError>
    ensures { OnOk result (string_bytes text.new ≡ string_bytes text.old ++ word_if wanted word.now) }
{
    if wanted {
        text.push_str(word)?;
    }
    Ok(())
}
