//! Questions about the tables.

ghost use Rattle.std.specs.Prelude.{◌≡◌, map, IfSome};
ghost use Rattle.point_codes.specs.Codes.{code_of};
ghost use Rattle.script_words.specs.Commands.{IsWithin, about, about_of, about_either, octets_of, trace_of};

use crate::commands::Command;
use crate::numbers::read_selection;
use crate::questions::Question;
use crate::words::is_word;
use tokens::read_code;

/// Something of the row of a point in the table of a destination, if both are codes.
fn ask_about(asked: Question, y: &[u8], x: &[u8]) -> Option<Command>
    ensures value { result ≡ about asked (code_of y.now) (code_of x.now) }
    ensures within { IfSome result IsWithin }
{
    let point = read_code(y)?;
    let dest = read_code(x)?;
    Some(Command::About(asked, point, dest))
}

/// `Y X`.
pub fn read_about(asked: Question, words: &[&[u8]]) -> Option<Command>
    ensures value { result ≡ about_of asked (map (λ w. w.now) words.now) }
    ensures within { IfSome result IsWithin }
{
    match words {
        [y, x] => ask_about(asked, *y, *x),
        [] => None,
        [_] => None,
        [_, _, _, ..] => None,
    }
}

/// `Y X`, of which the first question is asked, or `allowed Y X`, of which the second is.
pub fn read_either(reached: Question, allowed: Question, words: &[&[u8]]) -> Option<Command>
    ensures value { result ≡ about_either reached allowed (map (λ w. w.now) words.now) }
    ensures within { IfSome result IsWithin }
{
    match words {
        [goal, rest @ ..] if is_word(*goal, "allowed") => read_about(allowed, rest),
        _ => read_about(reached, words),
    }
}

/// `Y Z X`.
pub fn read_octets(words: &[&[u8]]) -> Option<Command>
    ensures value { result ≡ octets_of (map (λ w. w.now) words.now) }
    ensures within { IfSome result IsWithin }
{
    match words {
        [y, z, x] => {
            let to = read_code(*z)?;
            ask_about(Question::Octets(to), *y, *x)
        }
        [] => None,
        [_] => None,
        [_, _] => None,
        [_, _, _, _, ..] => None,
    }
}

/// `Y X S`.
pub fn read_trace(words: &[&[u8]]) -> Option<Command>
    ensures value { result ≡ trace_of (map (λ w. w.now) words.now) }
    ensures within { IfSome result IsWithin }
{
    match words {
        [y, x, s] => {
            let point = read_code(*y)?;
            let dest = read_code(*x)?;
            let selection = read_selection(*s)?;
            Some(Command::Trace(point, dest, selection))
        }
        [] => None,
        [_] => None,
        [_, _] => None,
        [_, _, _, _, ..] => None,
    }
}
