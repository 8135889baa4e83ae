//! What moves, what changes, and publications.

ghost use Rattle.std.specs.Prelude.{◌∷◌, [], OnOk, codes};
ghost use Rattle.json_answers.specs.Members.{Adds, member_tokens};
ghost use Rattle.json_answers.specs.Objects.{change_members, choice_value, move_counts, move_members, moved_members, publication_members, row_of_members, side_members, status_value, told_changes, told_members};
ghost use Rattle.json_answers.specs.Values.{list_member};

use crate::members::{
    put_code, put_null, put_number, put_number_if, put_numbered, put_text, put_two,
};
use crate::told::{Told, put_list, put_told};
use answers::{Moved, Publication, far_word};
use json::Writer;
use point_codes::PointCode;
use route_choice::{Choice, Far};
use std::alloc::{AllocError, Global};
use what_if::{Change, Changes, Reroute, RerouteCounts, Reroutes, count_reroutes};

/// Writes a point and a destination.
fn put_row_of(
    alloc: Global,
    writer: &mut Writer,
    point: PointCode,
    dest: PointCode,
) -> Result<(), AllocError>
    ensures { OnOk result (Adds writer.old writer.new (member_tokens (row_of_members point dest))) }
{
    put_code(alloc, writer, "point", point)?;
    put_code(alloc, writer, "destination", dest)
}

/// Writes a status, null if there is no row.
fn put_status(writer: &mut Writer, name: &str, status: Option<Far>) -> Result<(), AllocError>
    ensures { OnOk result (Adds writer.old writer.new (member_tokens ((name.now, status_value status) ∷ []))) }
{
    match status {
        Some(far) => put_text(writer, name, far_word(far)),
        None => put_null(writer, name),
    }
}

impl Told for Change {
    ghost use Rattle.json_answers.specs.Objects.{change_members};

    ghost members = { change_members };

    fn put_members(&self, alloc: Global, writer: &mut Writer) -> Result<(), AllocError> {
        put_code(alloc, writer, "point", self.point)?;
        put_code(alloc, writer, "destination", self.dest)?;
        put_status(writer, "before", self.before)?;
        put_status(writer, "after", self.after)
    }
}

/// Writes changes.
pub fn put_change_list(
    alloc: Global,
    writer: &mut Writer,
    changes: &Changes,
) -> Result<(), AllocError>
    ensures { OnOk result (Adds writer.old writer.new (member_tokens (list_member (codes "changes") change_members changes.now ∷ []))) }
{
    put_list(alloc, writer, "changes", changes.as_slice())
}

/// Writes a choice, null if there is no row.
fn put_choice(
    alloc: Global,
    writer: &mut Writer,
    name: &str,
    choice: Option<Choice>,
) -> Result<(), AllocError>
    ensures { OnOk result (Adds writer.old writer.new (member_tokens ((name.now, choice_value choice) ∷ []))) }
{
    match choice {
        Some(choice) => put_told(alloc, writer, name, &choice),
        None => put_null(writer, name),
    }
}

/// Writes what is used before and after.
fn put_sides(alloc: Global, writer: &mut Writer, reroute: &Reroute) -> Result<(), AllocError>
    ensures { OnOk result (Adds writer.old writer.new (member_tokens (side_members reroute.now))) }
{
    put_choice(alloc, writer, "before", reroute.before)?;
    put_choice(alloc, writer, "after", reroute.after)
}

impl Told for Reroute {
    ghost use Rattle.json_answers.specs.Objects.{reroute_members};

    ghost members = { reroute_members };

    fn put_members(&self, alloc: Global, writer: &mut Writer) -> Result<(), AllocError> {
        put_row_of(alloc, writer, self.point, self.dest)?;
        put_sides(alloc, writer, self)
    }
}

/// Writes how many are lost, regained and moved.
fn put_move_counts(writer: &mut Writer, counts: RerouteCounts) -> Result<(), AllocError>
    ensures { OnOk result (Adds writer.old writer.new (member_tokens (move_counts counts))) }
{
    put_number(writer, "lost", counts.lost as u64)?;
    let RerouteCounts {
        regained,
        moved,
        ..
    } = counts;
    put_two(writer, "regained", regained as u64, "moved", moved as u64)
}

/// Writes how many are lost, regained and moved, and each of those that are told.
fn put_told_moves(
    alloc: Global,
    writer: &mut Writer,
    counts: RerouteCounts,
    list: &[Reroute],
) -> Result<(), AllocError>
    ensures { OnOk result (Adds writer.old writer.new (member_tokens (told_members counts list.now))) }
{
    put_move_counts(writer, counts)?;
    put_list(alloc, writer, "changes", list)
}

/// Writes how many are lost, regained and moved, and each of them.
pub fn put_moves(alloc: Global, writer: &mut Writer, reroutes: &Reroutes) -> Result<(), AllocError>
    ensures { OnOk result (Adds writer.old writer.new (member_tokens (move_members reroutes.now))) }
{
    let reroutes = reroutes.as_slice();
    put_told_moves(alloc, writer, count_reroutes(reroutes), reroutes)
}

/// Writes what moved, and since which version.
fn put_moved(alloc: Global, writer: &mut Writer, moved: &Moved) -> Result<(), AllocError>
    ensures { OnOk result (Adds writer.old writer.new (member_tokens (moved_members moved.now))) }
{
    put_number_if(writer, "since", moved.since)?;
    put_told_moves(alloc, writer, moved.counts, moved.reroutes.as_slice())
}

/// Writes what moved, and the number of the version that it leads to, behind a word.
pub fn put_changes(
    alloc: Global,
    writer: &mut Writer,
    word: &str,
    number: u64,
    moved: &Moved,
) -> Result<(), AllocError>
    ensures { OnOk result (Adds writer.old writer.new (member_tokens (told_changes word.now number moved.now))) }
{
    put_numbered(writer, word, "published", number)?;
    put_moved(alloc, writer, moved)
}

/// Writes what was published. What that moved is an object of its own.
pub fn put_publication(
    alloc: Global,
    writer: &mut Writer,
    publication: &Publication,
) -> Result<(), AllocError>
    ensures { OnOk result (Adds writer.old writer.new (member_tokens (publication_members publication.now))) }
{
    match publication {
        Publication::Published(number, _) => put_numbered(writer, "published", "version", *number),
        Publication::Synced(number, _) => put_numbered(writer, "synced", "version", *number),
        Publication::Changes(number, moved) => {
            put_changes(alloc, writer, "changes", *number, moved.get())
        }
    }
}
