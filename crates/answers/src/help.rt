//! What `help` and `quit` are answered.

ghost use Rattle.std.specs.Prelude.{◌≡◌, ◌∷◌, ◌++◌, [], IfOk, OnOk, map, string_bytes};
ghost use Rattle.std.specs.List.{flat_map};
ghost use Rattle.std.specs.Str.{bytes_eq};
ghost use Rattle.script_words.specs.Forms.{value_of};
ghost use Rattle.answers.specs.Help.{all_words, example_text, form_text, help_on, is_of_workers as of_workers, other_answer, quit_on, refused_text, word_text};
ghost use Rattle.tokens.specs.Words.{words_of};

use crate::answer::{Answer, Reason, Reply};
use crate::text::Text;
use script_words::{Form, form_of, forms};
use std::alloc::{AllocError, Global};
use tokens::{put_if, split_words};

/// Adds the word of a form after a space.
fn put_word(text: &mut String, form: &Form) -> Result<(), AllocError>
    ensures { OnOk result (string_bytes text.new ≡ string_bytes text.old ++ word_text (value_of form.now)) }
{
    text.push(' ')?;
    text.push_str(form.word)
}

/// Adds the words of some forms, each after a space.
fn put_words(text: &mut String, list: &[Form]) -> Result<(), AllocError>
    ensures { OnOk result (string_bytes text.new ≡ string_bytes text.old ++ flat_map word_text (map value_of list.now)) }
{
    for form in list {
        put_word(text, form)?;
    }
    Ok(())
}

/// The answer that tells every word that begins a command.
fn help_all(alloc: Global) -> Result<Answer, AllocError>
    ensures { IfOk result (λ answer. answer ≡ Answer.Help all_words) }
{
    let mut text = String::from_str(alloc, "help")?;
    put_words(&mut text, forms())?;
    Ok(Answer::Help(Text::from_string(text)))
}

/// Whether a word is this text.
fn is_word(word: &str, text: &str) -> bool
    ensures { result ≡ bytes_eq word.now text.now }
{
    word == text
}

/// Whether a word is one of what workers do by themselves.
fn is_of_workers(word: &str) -> bool
    ensures { result ≡ of_workers word.now }
{
    is_word(word, "open")
        || is_word(word, "take")
        || is_word(word, "give")
        || is_word(word, "abandon")
        || is_word(word, "publish")
}

/// Adds where a command of this word is refused, if it is.
fn put_refused(text: &mut String, word: &str) -> Result<(), AllocError>
    ensures { OnOk result (string_bytes text.new ≡ string_bytes text.old ++ refused_text word.now) }
{
    put_if(text, is_of_workers(word), "; refused beside workers")?;
    put_if(text, is_word(word, "who"), "; refused outside serve")
}

/// Adds the example of a form, what it means, and where it is refused.
fn put_example(text: &mut String, form: &Form) -> Result<(), AllocError>
    ensures { OnOk result (string_bytes text.new ≡ string_bytes text.old ++ example_text (value_of form.now)) }
{
    text.push_str(form.example)?;
    text.push_str(": ")?;
    text.push_str(form.meaning)?;
    put_refused(text, form.word)
}

/// The answer that tells a form, its example and what it means.
fn help_form(alloc: Global, form: &Form) -> Result<Answer, AllocError>
    ensures { IfOk result (λ answer. answer ≡ Answer.Help (form_text (value_of form.now))) }
{
    let mut text = String::from_str(alloc, "help ")?;
    text.push_str(form.form)?;
    text.push_str(", as ")?;
    put_example(&mut text, form)?;
    Ok(Answer::Help(Text::from_string(text)))
}

/// What is told about a word.
fn help_on_word(alloc: Global, word: &[u8]) -> Result<Answer, AllocError>
    ensures { IfOk result (λ answer. answer ≡ help_on (word.now ∷ [])) }
{
    match form_of(word) {
        Some(form) => help_form(alloc, form),
        None => Ok(Answer::Refused(Reason::BadLine)),
    }
}

/// What is told about the words after `help`.
fn help_on_words(alloc: Global, words: &[&[u8]]) -> Result<Answer, AllocError>
    ensures { IfOk result (λ answer. answer ≡ help_on (map (λ w. w.now) words.now)) }
{
    match words {
        [] => help_all(alloc),
        [word] => help_on_word(alloc, *word),
        [_, _, ..] => Ok(Answer::Refused(Reason::BadLine)),
    }
}

/// What is told about the words after `quit`.
fn answer_quit(words: &[&[u8]]) -> Answer
    ensures { result ≡ quit_on (map (λ w. w.now) words.now) }
{
    match words {
        [] => Answer::Reply(Reply::Quit),
        [_, ..] => Answer::Refused(Reason::BadLine),
    }
}

/// What is answered to the first word of a line that is no command, and those after it.
fn answer_word(alloc: Global, first: &[u8], rest: &[&[u8]]) -> Result<Answer, AllocError>
    ensures { IfOk result (λ answer. answer ≡ other_answer (first.now ∷ map (λ w. w.now) rest.now)) }
{
    if first == "help".as_bytes() {
        return help_on_words(alloc, rest);
    }
    if first == "quit".as_bytes() {
        return Ok(answer_quit(rest));
    }
    Ok(Answer::Refused(Reason::BadLine))
}

/// What is answered to the words of a line that is no command.
fn answer_words(alloc: Global, words: &[&[u8]]) -> Result<Answer, AllocError>
    ensures { IfOk result (λ answer. answer ≡ other_answer (map (λ w. w.now) words.now)) }
{
    match words {
        [first, rest @ ..] => answer_word(alloc, *first, rest),
        [] => Ok(Answer::Refused(Reason::BadLine)),
    }
}

/// What is answered to a line that is no command: `help` tells every word that begins one, `help WORD` the form of that word's
/// commands, with an example and what they do; `quit` that the script ends there; any other is refused as a bad line. It fails if memory is refused.
pub fn answer_other(alloc: Global, line: &[u8]) -> Result<Answer, AllocError>
    ensures { IfOk result (λ answer. answer ≡ other_answer (words_of line.now)) }
{
    let words = split_words(alloc, line)?;
    answer_words(alloc, words.as_slice())
}
