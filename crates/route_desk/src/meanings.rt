//! The order `explain`: what a refusal, a fault, a cause, a warning or a word of a script means.

use crate::reports::{Done, Teller};
use crate::saying::say;
use explanations::{
    Explanation, explanations, find, find_warning, warnings, write_explanation, write_titles,
};
use json_answers::write_texts;
use script_words::{Form, form_of};
use std::alloc::{AllocError, Global};
use std::process::ExitCode;

/// Explanations as objects of JSON, each on a line, behind others.
fn with_objects(others: Vec<u8>, list: &[Explanation]) -> Result<Vec<u8>, AllocError> {
    let mut objects = others;
    for explanation in list {
        objects = write_texts(
            objects,
            &[
                ("word", "explain"),
                ("title", explanation.title),
                ("values", explanation.values),
                ("legend", explanation.legend),
                ("meaning", explanation.meaning),
                ("action", explanation.action),
            ],
        )?;
    }
    Ok(objects)
}

/// All explanations as objects of JSON, each on a line: those of warnings are the last.
fn all_objects(alloc: Global) -> Result<Vec<u8>, AllocError> {
    let objects = with_objects(Vec::new(alloc), explanations())?;
    with_objects(objects, warnings())
}

/// The titles and the meanings of all explanations, a line each: those of warnings are the last.
fn all_titles(alloc: Global) -> Result<String, AllocError> {
    let mut text = write_titles(alloc, explanations())?;
    let more = write_titles(alloc, warnings())?;
    text.push_str(more.as_str())?;
    Ok(text)
}

/// The form of a script's word, an example and what it does, on a line.
fn write_form(alloc: Global, form: &Form) -> Result<String, AllocError> {
    let Form {
        form,
        example,
        meaning,
        ..
    } = form;
    format!(in alloc; "{form}, as {example}: {meaning}\n")
}

/// The form of a script's word, an example and what it does, as an object of JSON on a line.
fn form_object(alloc: Global, form: &Form) -> Result<Vec<u8>, AllocError> {
    write_texts(
        Vec::new(alloc),
        &[
            ("word", "explain"),
            ("title", form.word),
            ("form", form.form),
            ("example", form.example),
            ("meaning", form.meaning),
        ],
    )
}

/// Writes the form of a script's word, and what it does.
fn explain_form(teller: Teller<'_>, word: &str, json: bool) -> Done {
    let alloc = teller.alloc();
    match form_of(word.as_bytes()) {
        Some(form) if json => teller.tell_bytes(form_object(alloc, form)),
        Some(form) => teller.tell(write_form(alloc, form)),
        None => {
            say(teller.rt, &["route_desk: nothing is called ", word]);
            Ok(ExitCode::from(2))
        }
    }
}

/// Writes the explanation that a word calls; of a script's word that calls none its form.
fn explain_word(teller: Teller<'_>, word: &str, json: bool) -> Done {
    let alloc = teller.alloc();
    match find(word).or(find_warning(word)) {
        Some(explanation) if json => {
            teller.tell_bytes(with_objects(Vec::new(alloc), &[*explanation]))
        }
        Some(explanation) => teller.tell(write_explanation(alloc, explanation)),
        None => explain_form(teller, word, json),
    }
}

/// Writes the explanation that a word calls, or a line for each if there is no word.
pub fn explain(teller: Teller<'_>, what: Option<&str>, json: bool) -> Done {
    match what {
        Some(word) => explain_word(teller, word, json),
        None if json => teller.tell_bytes(all_objects(teller.alloc())),
        None => teller.tell(all_titles(teller.alloc())),
    }
}
