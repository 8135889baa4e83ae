//! Changes of a link's state.

ghost use Rattle.std.specs.Prelude.{◌≡◌, map};
ghost use Rattle.script_words.specs.Events.{change_by, change_of, at_end, end_change_of};

use crate::words::is_word;
use link_state::LinkChange;
use net_data::Event;
use tokens::{read_id, read_slc};

/// The change of the link with this id and link code.
fn read_change_by(change: LinkChange, id: &[u8], slc: &[u8]) -> Option<Event>
    ensures { result ≡ change_by change id.now slc.now }
{
    let id = read_id(id)?;
    let slc = read_slc(slc)?;
    Some(Event::Link(id, slc, change))
}

/// `ID SLC`.
pub fn read_change(change: LinkChange, words: &[&[u8]]) -> Option<Event>
    ensures { result ≡ change_of change (map (λ w. w.now) words.now) }
{
    match words {
        [id, slc] => read_change_by(change, *id, *slc),
        [] => None,
        [_] => None,
        [_, _, _, ..] => None,
    }
}

/// The first of two changes at `a`, the second at `b`.
pub(crate) fn pick_change(first: LinkChange, second: LinkChange, word: &[u8]) -> Option<LinkChange>
    ensures { result ≡ at_end first second word.now }
{
    if is_word(word, "a") {
        return Some(first);
    }
    if is_word(word, "b") {
        return Some(second);
    }
    None
}

/// `ID SLC`, `ID SLC a` or `ID SLC b`: the first of two changes if no end is named.
pub fn read_end_change(first: LinkChange, second: LinkChange, words: &[&[u8]]) -> Option<Event>
    ensures { result ≡ end_change_of first second (map (λ w. w.now) words.now) }
{
    match words {
        [id, slc] => read_change_by(first, *id, *slc),
        [id, slc, end] => {
            let change = pick_change(first, second, *end)?;
            read_change_by(change, *id, *slc)
        }
        [] => None,
        [_] => None,
        [_, _, _, _, ..] => None,
    }
}
