//! What moved from an earlier version to the published one.

ghost use Rattle.std.specs.Prelude.{◌≡◌, ◌++◌, filter, IfOk, OnOk, string_bytes};
ghost use Rattle.std.specs.Option.{option_copied, option_map};
ghost use Rattle.answers.specs.Answers.{notice_text, publication_text};
ghost use Rattle.answers.specs.Changes.{changes_answer, earlier, is_of_kind as of_kind, moved as all_moved, moved_since as since_earlier, told_of};

use crate::answer::{Answer, Moved, Publication};
use crate::boxed::Boxed;
use crate::codes::put_numbered;
use crate::reroutes::put_moved;
use net_versions::Version;
use script_words::Moves;
use std::alloc::{AllocError, Global};
use what_if::{
    Reroute, Reroutes, count_reroutes, is_lost, is_only_moved, is_regained, reroutes_since,
};

/// Whether a reroute is of a kind that is asked for.
fn is_of_kind(which: Moves, reroute: &Reroute) -> bool
    ensures { result ≡ of_kind which reroute.now }
{
    match which {
        Moves::All => true,
        Moves::Lost => is_lost(reroute),
        Moves::Regained => is_regained(reroute),
        Moves::Moved => is_only_moved(reroute),
    }
}

/// The reroutes of a kind that is asked for.
fn kept(alloc: Global, which: Moves, reroutes: &[Reroute]) -> Result<Vec<Reroute>, AllocError>
    ensures { IfOk result (λ list. list.items ≡ filter (of_kind which) reroutes.now) }
{
    let mut list = Vec::new(alloc);
    for reroute in reroutes {
        if is_of_kind(which, reroute) {
            list.push(*reroute)?;
        }
    }
    Ok(list)
}

/// The reroutes that are told.
fn told(alloc: Global, which: Moves, reroutes: Reroutes) -> Result<Reroutes, AllocError>
    ensures { IfOk result (λ list. list ≡ told_of which reroutes) }
{
    match which {
        Moves::All => Ok(reroutes),
        Moves::Lost | Moves::Regained | Moves::Moved => {
            let list = kept(alloc, which, reroutes.as_slice())?;
            Ok(Reroutes::from_vec(list))
        }
    }
}

/// What moved, and how much of each kind; told are those that are asked for.
fn moved(
    alloc: Global,
    which: Moves,
    since: Option<u64>,
    reroutes: Reroutes,
) -> Result<Boxed<Moved>, AllocError>
    ensures { IfOk result (λ moved. moved ≡ all_moved which since reroutes) }
{
    let moved = Moved {
        since,
        counts: count_reroutes(reroutes.as_slice()),
        reroutes: told(alloc, which, reroutes)?,
    };
    Boxed::new(alloc, moved)
}

/// What moved since an earlier version, all of it or what is of a kind; nothing if there is no earlier one. It fails if memory is
/// refused.
pub fn moved_since(
    alloc: Global,
    which: Moves,
    before: Option<&Version>,
    version: &Version,
) -> Result<Boxed<Moved>, AllocError>
    ensures { IfOk result (λ moved. moved ≡ since_earlier which (option_map earlier (option_copied before.entry)) version.now.network) }
{
    match before {
        Some(before) => {
            let reroutes = reroutes_since(alloc, before, version)?;
            moved(alloc, which, Some(before.number()), reroutes)
        }
        None => moved(alloc, which, None, Reroutes::from_vec(Vec::new(alloc))),
    }
}

/// What moved from an earlier version to this one, all of it or what is of a kind; nothing if there is no earlier one. It fails if
/// memory is refused.
pub fn answer_changes(
    alloc: Global,
    which: Moves,
    before: Option<&Version>,
    version: &Version,
) -> Result<Answer, AllocError>
    ensures { IfOk result (λ answer. answer ≡ changes_answer which (option_map earlier (option_copied before.entry)) version.now.number version.now.network) }
{
    let moved = moved_since(alloc, which, before, version)?;
    Ok(Answer::Publication(Publication::Changes(version.number(), moved)))
}

/// Adds what a publication moved on a line of its own, if that is told.
fn put_notice(
    text: &mut String,
    number: u64,
    moved: &Option<Boxed<Moved>>,
) -> Result<(), AllocError>
    ensures { OnOk result (string_bytes text.new ≡ string_bytes text.old ++ notice_text number moved.now) }
{
    match moved {
        Some(moved) => {
            put_numbered(text, "\n*changes ", number)?;
            put_moved(text, moved.get())
        }
        None => Ok(()),
    }
}

/// Adds what was published, and what that moved. It takes no memory but that of the text.
pub(crate) fn put_publication(
    text: &mut String,
    publication: &Publication,
) -> Result<(), AllocError>
    ensures { OnOk result (string_bytes text.new ≡ string_bytes text.old ++ publication_text publication.now) }
{
    match publication {
        Publication::Published(number, moved) => {
            put_numbered(text, "published ", *number)?;
            put_notice(text, *number, moved)
        }
        Publication::Synced(number, moved) => {
            put_numbered(text, "synced ", *number)?;
            put_notice(text, *number, moved)
        }
        Publication::Changes(number, moved) => {
            put_numbered(text, "changes ", *number)?;
            put_moved(text, moved.get())
        }
    }
}
