//! How answers are told: in text, as objects of JSON, and by who has pictures and networks put into files.

use crate::samples::worked;
use route_state::nets::Net;
use route_state::scripts::run_script;
use route_state::told::{
    Answer, Asked, Clerk, Content, Filing, Form, Outcome, Reply, print_answer, put_answer,
};
use std::alloc::{AllocError, Global};

/// Whether an answer is told so in text, with and without the line feed that ends it.
fn is_text(alloc: Global, answer: &Answer, wanted: &str) -> Option<bool> {
    let mut text = String::new(alloc);
    put_answer(alloc, &mut text, answer).ok()?;
    let is_put = text.as_str() == wanted;
    print_answer(alloc, &mut text, answer).ok()?;
    let twice = format!(in alloc; "{wanted}{wanted}\n").ok()?;
    Some(is_put && text.as_str() == twice.as_str())
}

/// Whether an answer is printed so in a form.
fn is_printed(alloc: Global, form: Form, answer: &Answer, wanted: &str) -> Option<bool> {
    let mut text = String::new(alloc);
    form.print(alloc, answer, &mut text).ok()?;
    Some(text.as_str() == wanted)
}

/// Whether the answer to an accepted event is told as it should be, in each way.
fn is_told(alloc: Global, answer: &Answer) -> Option<bool> {
    let text = is_text(alloc, answer, "taken 7")?
        && is_printed(alloc, Form::Text, answer, "taken 7\n")?;
    let object = is_printed(
        alloc,
        Form::Objects,
        answer,
        "{\"word\":\"taken\",\"number\":7}\n",
    )?;
    Some(text && object)
}

/// The answer to an accepted event, told.
fn tells_taken(alloc: Global) -> Option<bool> {
    let answer = Answer::Reply(Reply::Taken(7));
    is_told(alloc, &answer)
}

/// A clerk who puts a picture and a network under one name each, can't write others, and may not write a network under others.
#[derive(Drop)]
struct Keeper;

/// What becomes of a picture.
fn outcome_of_picture(file: &str, picture: &str) -> Outcome {
    if file == "kept.svg" && picture.starts_with("<svg") {
        Outcome::Written
    } else {
        Outcome::Failed
    }
}

/// What becomes of a network.
fn outcome_of_net(file: &str, net: &Net) -> Outcome {
    if file == "kept.toml" && net.points().len() == 5 {
        Outcome::Written
    } else {
        Outcome::Forbidden
    }
}

impl Clerk for Keeper {
    fn put(
        &self,
        _alloc: Global,
        _asked: Asked<'_>,
        file: &str,
        content: Content<'_>,
    ) -> Result<Outcome, AllocError> {
        Ok(match content {
            Content::Picture(picture) => outcome_of_picture(file, picture),
            Content::Net(net) => outcome_of_net(file, net),
        })
    }

    fn see(&self, _alloc: Global, _asked: Asked<'_>, _answer: &Answer) {}
}

/// The lines that ask for files.
const FILED_LINES: &str = "picture kept.svg\npicture lost.svg\nsave kept.toml\nsave lost.toml\n";

/// What they are answered.
const FILED_ANSWERS: &str =
    "picture kept.svg\nrefused 64 Write\nsaved kept.toml\nrefused 62 BadLine\n";

/// A script that asks for two pictures and two networks, of which the clerk keeps one each.
fn puts_files(alloc: Global) -> Option<bool> {
    let filing = Filing {
        form: Form::Text,
        clerk: Keeper,
    };
    let net = worked(alloc)?;
    let mut reader = FILED_LINES.as_bytes();
    let mut written: Vec<u8> = Vec::new(alloc);
    let end = run_script(alloc, &filing, &mut reader, &mut written, net);
    if end.fault.is_some() {
        return None;
    }
    Some(written.as_slice() == FILED_ANSWERS.as_bytes())
}

/// An answer, pictures and networks, told.
pub(crate) fn told(alloc: Global) -> Option<bool> {
    let taken = tells_taken(alloc)?;
    Some(taken && puts_files(alloc)?)
}
