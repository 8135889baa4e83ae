//! What a desk's replies are answered with, and how that is told.

ghost use Rattle.std.specs.Prelude.{◌≡◌, ◌++◌, Ok, OnOk, string_bytes};
ghost use Rattle.std.specs.Fmt.{decimal};
ghost use Rattle.answers.specs.Answers.{reply_text};
ghost use Rattle.answers.specs.Replies.{abandoned_answer, given_answer, job_answer, opened_answer, posted_answer};

use crate::answer::{Answer, Reason, Reply};
use crate::codes::{put_numbered, write_code};
use point_codes::PointCode;
use std::alloc::AllocError;
use work_units::{Opened, Posted, Refusal, Settled};

/// The answer to a post.
pub fn answer_post(reply: Result<Posted, Refusal>) -> Answer
    ensures { result ≡ posted_answer reply }
{
    match reply {
        Ok(Posted::Taken(number)) => Answer::Reply(Reply::Taken(number)),
        Ok(Posted::Again(number)) => Answer::Reply(Reply::Again(number)),
        Err(refusal) => Answer::Refused(Reason::Desk(refusal)),
    }
}

/// The answer to an opening.
pub fn answer_open(reply: Result<Opened, Refusal>) -> Answer
    ensures { result ≡ opened_answer reply }
{
    match reply {
        Ok(opened) => Answer::Reply(Reply::Opened(opened)),
        Err(refusal) => Answer::Refused(Reason::Desk(refusal)),
    }
}

/// The answer to the taking of a job that was given and done, by its result.
pub fn answer_job(settled: &Settled) -> Answer
    ensures { result ≡ job_answer (Ok settled.now) }
{
    Answer::Reply(Reply::Job(settled.version(), settled.dest()))
}

/// The answer to the giving of a result.
pub fn answer_given(reply: &Result<(), (Settled, Refusal)>) -> Answer
    ensures { result ≡ given_answer reply.now }
{
    match reply {
        Ok(()) => Answer::Reply(Reply::Given),
        Err((_, refusal)) => Answer::Refused(Reason::Desk(*refusal)),
    }
}

/// The answer to an abandonment.
pub fn answer_abandoned(reply: Result<(), Refusal>) -> Answer
    ensures { result ≡ abandoned_answer reply }
{
    match reply {
        Ok(()) => Answer::Reply(Reply::Abandoned),
        Err(refusal) => Answer::Refused(Reason::Desk(refusal)),
    }
}

/// Adds two words, each with a number.
fn put_both(
    text: &mut String,
    word: &str,
    number: u64,
    next: &str,
    other: u64,
) -> Result<(), AllocError>
    ensures { OnOk result (string_bytes text.new ≡ string_bytes text.old ++ (word.now ++ (decimal number ++ (next.now ++ decimal other)))) }
{
    put_numbered(text, word, number)?;
    put_numbered(text, next, other)
}

/// Adds the version that a job is for, and its destination.
fn put_job(text: &mut String, version: u64, dest: PointCode) -> Result<(), AllocError>
    ensures { OnOk result (string_bytes text.new ≡ string_bytes text.old ++ reply_text (Reply.Job version dest)) }
{
    put_numbered(text, "job ", version)?;
    text.push(' ')?;
    write_code(text, dest)
}

/// Adds what the desk replies. It takes no memory but that of the text.
pub(crate) fn put_reply(text: &mut String, reply: &Reply) -> Result<(), AllocError>
    ensures { OnOk result (string_bytes text.new ≡ string_bytes text.old ++ reply_text reply.now) }
{
    match reply {
        Reply::Taken(number) => put_numbered(text, "taken ", *number),
        Reply::Again(number) => put_numbered(text, "again ", *number),
        Reply::Opened(Opened { target, waiting }) => {
            put_both(text, "opened ", *target, " waiting ", *waiting as u64)
        }
        Reply::Job(version, dest) => put_job(text, *version, *dest),
        Reply::Given => text.push_str("given"),
        Reply::Abandoned => text.push_str("abandoned"),
        Reply::Version(number, accepted) => {
            put_both(text, "version ", *number, " accepted ", *accepted)
        }
        Reply::Watch(is_on) => text.push_str(if *is_on { "watch on" } else { "watch off" }),
        Reply::Last(seq) => put_numbered(text, "last ", *seq),
        Reply::Quit => text.push_str("quit"),
    }
}
