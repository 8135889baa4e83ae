//! The first word of an event.

ghost use Rattle.std.specs.Prelude.{◌≡◌};
ghost use Rattle.script_words.specs.Events.{verb_of};

use crate::words::is_word;

/// What an event begins with.
#[derive(Clone, Copy, Debug, PartialEq, Eq)]
pub enum Verb {
    /// `fail`.
    Fail,
    /// `restore`.
    Restore,
    /// `block`.
    Block,
    /// `unblock`.
    Unblock,
    /// `inhibit`.
    Inhibit,
    /// `uninhibit`.
    Uninhibit,
    /// `point`.
    Point,
    /// `pair`.
    Pair,
    /// `unpair`.
    Unpair,
    /// `set`.
    Set,
    /// `link`.
    Link,
    /// `plan`.
    Plan,
    /// `tfr`.
    Tfr,
}

/// The first word of an event.
pub fn read_verb(word: &[u8]) -> Option<Verb>
    ensures { result ≡ verb_of word.now }
{
    match word {
        _ if is_word(word, "fail") => Some(Verb::Fail),
        _ if is_word(word, "restore") => Some(Verb::Restore),
        _ if is_word(word, "block") => Some(Verb::Block),
        _ if is_word(word, "unblock") => Some(Verb::Unblock),
        _ if is_word(word, "inhibit") => Some(Verb::Inhibit),
        _ if is_word(word, "uninhibit") => Some(Verb::Uninhibit),
        _ if is_word(word, "point") => Some(Verb::Point),
        _ if is_word(word, "pair") => Some(Verb::Pair),
        _ if is_word(word, "unpair") => Some(Verb::Unpair),
        _ if is_word(word, "set") => Some(Verb::Set),
        _ if is_word(word, "link") => Some(Verb::Link),
        _ if is_word(word, "plan") => Some(Verb::Plan),
        _ if is_word(word, "tfr") => Some(Verb::Tfr),
        _ => None,
    }
}
