//! Replies of the desk.

ghost use Rattle.std.specs.Prelude.{OnOk};
ghost use Rattle.json_answers.specs.Members.{Adds, member_tokens};
ghost use Rattle.json_answers.specs.Objects.{all_taken_members, reply_members};

use crate::members::{put_code, put_number, put_numbered, put_text, put_word};
use answers::{AllTaken, Reply};
use json::Writer;
use point_codes::PointCode;
use std::alloc::{AllocError, Global};
use work_units::Opened;

/// Writes the members of an opening.
fn put_opened(writer: &mut Writer, opened: Opened) -> Result<(), AllocError>
    ensures { OnOk result (Adds writer.old writer.new (member_tokens (reply_members (Reply.Opened opened)))) }
{
    put_numbered(writer, "opened", "target", opened.target)?;
    put_number(writer, "waiting", opened.waiting as u64)
}

/// Writes the members of a job.
fn put_job(
    alloc: Global,
    writer: &mut Writer,
    version: u64,
    dest: PointCode,
) -> Result<(), AllocError>
    ensures { OnOk result (Adds writer.old writer.new (member_tokens (reply_members (Reply.Job version dest)))) }
{
    put_numbered(writer, "job", "version", version)?;
    put_code(alloc, writer, "destination", dest)
}

/// Writes what is published and what is accepted.
fn put_version(writer: &mut Writer, number: u64, accepted: u64) -> Result<(), AllocError>
    ensures { OnOk result (Adds writer.old writer.new (member_tokens (reply_members (Reply.Version number accepted)))) }
{
    put_numbered(writer, "version", "published", number)?;
    put_number(writer, "accepted", accepted)
}

/// Writes whether changes are told behind publications.
fn put_watch(writer: &mut Writer, is_on: bool) -> Result<(), AllocError>
    ensures { OnOk result (Adds writer.old writer.new (member_tokens (reply_members (Reply.Watch is_on)))) }
{
    put_word(writer, "watch")?;
    put_text(writer, "text", if is_on { "on" } else { "off" })
}

/// Writes the members of a reply.
pub fn put_reply(alloc: Global, writer: &mut Writer, reply: &Reply) -> Result<(), AllocError>
    ensures { OnOk result (Adds writer.old writer.new (member_tokens (reply_members reply.now))) }
{
    match reply {
        Reply::Taken(number) => put_numbered(writer, "taken", "number", *number),
        Reply::Again(number) => put_numbered(writer, "again", "number", *number),
        Reply::Opened(opened) => put_opened(writer, *opened),
        Reply::Job(version, dest) => put_job(alloc, writer, *version, *dest),
        Reply::Given => put_word(writer, "given"),
        Reply::Abandoned => put_word(writer, "abandoned"),
        Reply::Version(number, accepted) => put_version(writer, *number, *accepted),
        Reply::Watch(is_on) => put_watch(writer, *is_on),
        Reply::Last(seq) => put_numbered(writer, "last", "sequence", *seq),
        Reply::Quit => put_word(writer, "quit"),
    }
}

/// Writes the numbers of the first and the last event of a whole set or point.
pub fn put_all_taken(writer: &mut Writer, taken: &AllTaken) -> Result<(), AllocError>
    ensures { OnOk result (Adds writer.old writer.new (member_tokens (all_taken_members taken.now))) }
{
    put_numbered(writer, "taken", "first", taken.first)?;
    put_number(writer, "last", taken.last)
}
