//! Which of what moved a line asks for.

ghost use Rattle.std.specs.Prelude.{◌≡◌, map, IfSome};
ghost use Rattle.script_words.specs.Commands.{IsWithin, changes_by, changes_of, moves_of};

use crate::commands::Command;
use crate::numbers::read_sequence;
use crate::words::is_word;

/// Which of what moved is told.
#[derive(Clone, Copy, Debug, PartialEq, Eq)]
pub enum Moves {
    /// All that moved.
    All,
    /// What was lost.
    Lost,
    /// What was regained.
    Regained,
    /// What was neither lost nor regained.
    Moved,
}

/// `lost`, `regained` or `moved`.
fn read_moves(word: &[u8]) -> Option<Moves>
    ensures { result ≡ moves_of word.now }
{
    match word {
        _ if is_word(word, "lost") => Some(Moves::Lost),
        _ if is_word(word, "regained") => Some(Moves::Regained),
        _ if is_word(word, "moved") => Some(Moves::Moved),
        _ => None,
    }
}

/// `N`, or `lost`, `regained` or `moved`.
fn read_changes_by(word: &[u8]) -> Option<Command>
    ensures value { result ≡ changes_by word.now }
    ensures within { IfSome result IsWithin }
{
    if let Some(moves) = read_moves(word) {
        return Some(Command::Changes(None, moves));
    }
    let number = read_sequence(word)?;
    Some(Command::Changes(Some(number), Moves::All))
}

/// No word, `N`, `lost`, `regained` or `moved`, or `N` and one of these.
pub fn read_changes(words: &[&[u8]]) -> Option<Command>
    ensures value { result ≡ changes_of (map (λ w. w.now) words.now) }
    ensures within { IfSome result IsWithin }
{
    match words {
        [] => Some(Command::Changes(None, Moves::All)),
        [word] => read_changes_by(*word),
        [number, kind] => {
            let number = read_sequence(*number)?;
            let moves = read_moves(*kind)?;
            Some(Command::Changes(Some(number), moves))
        }
        [_, _, _, ..] => None,
    }
}
