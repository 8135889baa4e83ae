//! MARKED: a link with its marks, in the two formats of a network text.

ghost use Rattle.std.specs.Prelude.{◌≡◌, ◌<◌, ◌≤◌, ◌∷◌, ◌++◌, not, length, drop, if◌then◌else◌, Some, IfOk, IfSome, OnOk, position, string_bytes};
ghost use Rattle.std.specs.Char.{is_ascii_digit};
ghost use Rattle.std.specs.List.{flat_map};
ghost use Rattle.net_items.specs.declared.links.Link.{Link};
ghost use Rattle.tokens.specs.Marked.{starts_with, marks_in_one, marks_in_two, digits_len, marked_of, marks_text, marked_text};
ghost use Rattle.tokens.specs.declared.marked.Format.TheVariants.{Two};

use crate::numbers::read_slc;
use crate::words::put_if;
use link_state::Marks;
use net_items::Link;
use std::alloc::{AllocError, Global};

/// The format of a network text.
#[derive(Clone, Copy, Debug, PartialEq, Eq)]
pub enum Format {
    /// Format 1: its marks are of the first end alone.
    One,
    /// Format 2: its marks are of either end.
    Two,
}

/// Whether a word stands at the front, and what comes after it.
fn take_word<'a>(text: &'a [u8], word: &[u8]) -> (bool, &'a [u8])
    ensures stands { result.0 ≡ starts_with word.now text.entry.now }
    ensures rest { result.1.now ≡ (if starts_with word.now text.entry.now then drop (length word.now) text.entry.now else text.entry.now) }
{
    let n = word.len();
    if n <= text.len() && &text[..n] == word {
        (true, &text[n..])
    } else {
        (false, text)
    }
}

/// Marks as format 1 writes them.
fn read_marks_one(text: &[u8]) -> Option<Marks>
    ensures { result ≡ marks_in_one text.now }
{
    let (failed, text) = take_word(text, b"f".as_slice());
    let (blocked_a, text) = take_word(text, b"b".as_slice());
    let (inhibited_a, text) = take_word(text, b"i".as_slice());
    match text {
        [] => Some(Marks {
            failed,
            blocked_a,
            blocked_b: false,
            inhibited_a,
            inhibited_b: false,
        }),
        [_, ..] => None,
    }
}

/// Marks as format 2 writes them.
fn read_marks_two(text: &[u8]) -> Option<Marks>
    ensures { result ≡ marks_in_two text.now }
{
    let (failed, text) = take_word(text, b"f".as_slice());
    let (blocked_a, text) = take_word(text, b"ba".as_slice());
    let (blocked_b, text) = take_word(text, b"bb".as_slice());
    let (inhibited_a, text) = take_word(text, b"ia".as_slice());
    let (inhibited_b, text) = take_word(text, b"ib".as_slice());
    match text {
        [] => Some(Marks {
            failed,
            blocked_a,
            blocked_b,
            inhibited_a,
            inhibited_b,
        }),
        [_, ..] => None,
    }
}

/// Where the first byte that is no digit stands.
fn find_no_digit(text: &[u8]) -> Option<usize>
    ensures place { result ≡ position (λ b. not (is_ascii_digit b)) text.now }
    ensures within { IfSome result (λ i. i < length text.now) }
{
    text.iter().position(|b| !b.is_ascii_digit())
}

/// How many digits stand at the front.
fn count_digits(text: &[u8]) -> usize
    ensures len { result ≡ digits_len text.now }
    ensures within { result ≤ length text.now }
{
    match find_no_digit(text) {
        Some(n) => n,
        None => text.len(),
    }
}

/// The link that a token is, in this format. `None` if the token is none.
pub fn read_marked(format: Format, text: &[u8]) -> Option<Link>
    ensures { result ≡ marked_of format text.now }
{
    let n = count_digits(text);
    let slc = read_slc(&text[..n])?;
    let marks = match format {
        Format::One => read_marks_one(&text[n..])?,
        Format::Two => read_marks_two(&text[n..])?,
    };
    Some(Link { slc, marks })
}

/// Adds marks as format 2 writes them.
fn put_marks(text: &mut String, marks: Marks) -> Result<(), AllocError>
    ensures { OnOk result (string_bytes text.new ≡ string_bytes text.old ++ marks_text Two marks) }
{
    put_if(text, marks.failed, "f")?;
    put_if(text, marks.blocked_a, "ba")?;
    put_if(text, marks.blocked_b, "bb")?;
    put_if(text, marks.inhibited_a, "ia")?;
    put_if(text, marks.inhibited_b, "ib")
}

/// A link with its marks in text, as format 2 writes it.
pub fn write_marked(alloc: Global, link: &Link) -> Result<String, AllocError>
    ensures { IfOk result (λ text. string_bytes text ≡ marked_text Two link.now) }
{
    let slc = link.slc;
    let mut text = format!(in alloc; "{slc}")?;
    put_marks(&mut text, link.marks)?;
    Ok(text)
}

/// Adds links with their marks, each after a space, as format 2 writes them.
///
/// # Errors
///
/// `AllocError` if memory is refused; some of the links may stand in the text then.
pub fn put_links(alloc: Global, text: &mut String, links: &[Link]) -> Result<(), AllocError>
    ensures { OnOk result (string_bytes text.new ≡ string_bytes text.old ++ flat_map (λ x. 32 ∷ marked_text Two x) links.now) }
{
    for link in links {
        let word = write_marked(alloc, link)?;
        text.push_str(" ")?;
        text.push_str(word.as_str())?;
    }
    Ok(())
}
