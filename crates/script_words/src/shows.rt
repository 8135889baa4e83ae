//! What a line asks to be shown of the published network.

ghost use Rattle.std.specs.Prelude.{◌≡◌, map};
ghost use Rattle.point_codes.specs.Codes.{code_of};
ghost use Rattle.tokens.specs.Numbers.{id_of};
ghost use Rattle.script_words.specs.Commands.{shown_by, show_of, statuses_asked};

use crate::words::is_word;
use point_codes::PointCode;
use tokens::{read_code, read_id};

/// What is to be shown of the published network.
#[derive(Clone, Copy)]
pub enum Show {
    /// How large it is: `show`.
    Size,
    /// The links that aren't available: `show down`.
    Down,
    /// A set with its marks: `show set ID`.
    Set(u16),
    /// A point, its mate and its sets: `show point CODE`.
    Point(PointCode),
    /// The plan of a destination: `show plan X`.
    Plan(PointCode),
    /// How each point of a plan reaches its destination: `statuses X`.
    Statuses(PointCode),
}

/// `set ID`, `point CODE` or `plan X`.
fn read_shown(what: &[u8], which: &[u8]) -> Option<Show>
    ensures { result ≡ shown_by what.now which.now }
{
    match what {
        _ if is_word(what, "set") => read_id(which).map(Show::Set),
        _ if is_word(what, "point") => read_code(which).map(Show::Point),
        _ if is_word(what, "plan") => read_code(which).map(Show::Plan),
        _ => None,
    }
}

/// No word, `down`, `set ID`, `point CODE` or `plan X`.
pub fn read_show(words: &[&[u8]]) -> Option<Show>
    ensures { result ≡ show_of (map (λ w. w.now) words.now) }
{
    match words {
        [] => Some(Show::Size),
        [what] => is_word(*what, "down").then_some(Show::Down),
        [what, which] => read_shown(*what, *which),
        [_, _, _, ..] => None,
    }
}

/// `X`.
pub fn read_statuses(words: &[&[u8]]) -> Option<Show>
    ensures { result ≡ statuses_asked (map (λ w. w.now) words.now) }
{
    match words {
        [dest] => read_code(*dest).map(Show::Statuses),
        [] => None,
        [_, _, ..] => None,
    }
}
