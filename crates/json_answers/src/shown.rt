//! What is shown of a network.

ghost use Rattle.std.specs.Prelude.{◌∷◌, [], OnOk, codes, map};
ghost use Rattle.json.specs.Json.{array, boolean};
ghost use Rattle.json.specs.Tree.{json_tokens};
ghost use Rattle.json.specs.Value.{items_of};
ghost use Rattle.json_answers.specs.Members.{Adds, member_tokens};
ghost use Rattle.json_answers.specs.Shown.{count_members, counted_members, end_members, id_value, kind_members, part_members, point_members, set_members, show_members, shown_members, size_members, state_members};

use crate::members::{put_code, put_code_if, put_number, put_set, put_text, put_two, put_word};
use crate::told::{Told, put_list};
use crate::ways::put_marked_links;
use answers::{NetSize, PointStatus, Shown, StatusCounts, far_word};
use json::Writer;
use net_items::{LinkSet, Point};
use point_codes::PointCode;
use std::alloc::{AllocError, Global};
use tokens::point_kind_word;

impl Told for PointStatus {
    ghost use Rattle.json_answers.specs.Shown.{point_status_members};

    ghost members = { point_status_members };

    fn put_members(&self, alloc: Global, writer: &mut Writer) -> Result<(), AllocError> {
        put_code(alloc, writer, "point", self.point)?;
        put_text(writer, "status", far_word(self.status))
    }
}

/// Writes what is shown, behind the word.
fn put_show(writer: &mut Writer, what: &str) -> Result<(), AllocError>
    ensures { OnOk result (Adds writer.old writer.new (member_tokens (show_members what.now []))) }
{
    put_word(writer, "show")?;
    put_text(writer, "what", what)
}

/// Writes whether there are transfer-restricted messages.
fn put_tfr(writer: &mut Writer, tfr: bool) -> Result<(), AllocError>
    ensures { OnOk result (Adds writer.old writer.new (member_tokens ((codes "tfr", boolean tfr) ∷ []))) }
{
    writer.key("tfr")?;
    writer.boolean(tfr)
}

/// Writes how many points, sets and links there are.
fn put_parts(writer: &mut Writer, size: &NetSize) -> Result<(), AllocError>
    ensures { OnOk result (Adds writer.old writer.new (member_tokens (part_members size.now))) }
{
    put_number(writer, "points", size.points as u64)?;
    put_two(writer, "sets", size.sets as u64, "links", size.links as u64)
}

/// Writes how many links aren't available, how many plans there are, and the option of transfer-restricted messages.
fn put_state(writer: &mut Writer, size: &NetSize) -> Result<(), AllocError>
    ensures { OnOk result (Adds writer.old writer.new (member_tokens (state_members size.now))) }
{
    put_two(writer, "down", size.down as u64, "plans", size.plans as u64)?;
    put_tfr(writer, size.tfr)
}

/// Writes how large a network is.
fn put_size(writer: &mut Writer, size: &NetSize) -> Result<(), AllocError>
    ensures { OnOk result (Adds writer.old writer.new (member_tokens (size_members size.now))) }
{
    put_parts(writer, size)?;
    put_state(writer, size)
}

/// Writes the ends of a set.
fn put_ends(alloc: Global, writer: &mut Writer, set: &LinkSet) -> Result<(), AllocError>
    ensures { OnOk result (Adds writer.old writer.new (member_tokens (end_members set.now))) }
{
    put_code(alloc, writer, "first", set.a)?;
    put_code(alloc, writer, "second", set.b)
}

/// Writes a set, with its ends and its links.
pub fn put_set_members(alloc: Global, writer: &mut Writer, set: &LinkSet) -> Result<(), AllocError>
    ensures { OnOk result (Adds writer.old writer.new (member_tokens (set_members set.now))) }
{
    put_set(writer, set.id)?;
    put_ends(alloc, writer, set)?;
    let links = set.links.listed();
    put_marked_links(alloc, writer, links.as_slice())
}

/// Writes ids as an array.
fn put_ids(writer: &mut Writer, ids: &[u16]) -> Result<(), AllocError>
    ensures { OnOk result (Adds writer.old writer.new (json_tokens (array (items_of (map id_value ids.now))))) }
{
    writer.begin_array()?;
    for id in ids {
        writer.u64(u64::from(*id))?;
    }
    writer.end_array()
}

/// Writes the sets that end at a point.
fn put_sets(writer: &mut Writer, ids: &[u16]) -> Result<(), AllocError>
    ensures { OnOk result (Adds writer.old writer.new (member_tokens ((codes "sets", array (items_of (map id_value ids.now))) ∷ []))) }
{
    writer.key("sets")?;
    put_ids(writer, ids)
}

/// Writes a point with its kind.
fn put_kind(alloc: Global, writer: &mut Writer, point: &Point) -> Result<(), AllocError>
    ensures { OnOk result (Adds writer.old writer.new (member_tokens (kind_members point.now))) }
{
    put_code(alloc, writer, "point", point.code)?;
    put_text(writer, "kind", point_kind_word(point.kind))
}

/// Writes a point, with its mate and its sets.
fn put_point(
    alloc: Global,
    writer: &mut Writer,
    point: &Point,
    ids: &[u16],
) -> Result<(), AllocError>
    ensures { OnOk result (Adds writer.old writer.new (member_tokens (point_members point.now ids.now))) }
{
    put_kind(alloc, writer, point)?;
    put_code_if(alloc, writer, "mate", point.mate)?;
    put_sets(writer, ids)
}

/// Writes how many points have each status.
fn put_counts(writer: &mut Writer, counts: &StatusCounts) -> Result<(), AllocError>
    ensures { OnOk result (Adds writer.old writer.new (member_tokens (count_members counts.now))) }
{
    put_number(writer, "allowed", counts.allowed as u64)?;
    put_two(
        writer,
        "restricted",
        counts.restricted as u64,
        "prohibited",
        counts.prohibited as u64,
    )
}

/// Writes how the points of a plan reach its destination.
fn put_statuses(
    alloc: Global,
    writer: &mut Writer,
    counts: &StatusCounts,
    statuses: &[PointStatus],
) -> Result<(), AllocError>
    ensures { OnOk result (Adds writer.old writer.new (member_tokens (counted_members counts.now statuses.now))) }
{
    put_counts(writer, counts)?;
    put_list(alloc, writer, "points", statuses)
}

/// Writes how large a network is, behind the word.
fn show_size(writer: &mut Writer, size: &NetSize) -> Result<(), AllocError>
    ensures { OnOk result (Adds writer.old writer.new (member_tokens (shown_members (Shown.Size size.now)))) }
{
    put_show(writer, "size")?;
    put_size(writer, size)
}

/// Writes a set, behind the word.
fn show_set(alloc: Global, writer: &mut Writer, set: &LinkSet) -> Result<(), AllocError>
    ensures { OnOk result (Adds writer.old writer.new (member_tokens (shown_members (Shown.Set set.now)))) }
{
    put_show(writer, "set")?;
    put_set_members(alloc, writer, set)
}

/// Writes how the points of a plan reach its destination, behind the word.
fn show_statuses(
    alloc: Global,
    writer: &mut Writer,
    counts: &StatusCounts,
    statuses: &[PointStatus],
) -> Result<(), AllocError>
    ensures { OnOk result (Adds writer.old writer.new (member_tokens (shown_members (Shown.Statuses counts.now statuses.now)))) }
{
    put_word(writer, "statuses")?;
    put_statuses(alloc, writer, counts, statuses)
}

/// Writes what is shown of a network.
pub fn put_shown(alloc: Global, writer: &mut Writer, shown: &Shown) -> Result<(), AllocError>
    ensures { OnOk result (Adds writer.old writer.new (member_tokens (shown_members shown.now))) }
{
    match shown {
        Shown::Size(size) => show_size(writer, size),
        Shown::Down(links) => {
            put_show(writer, "down")?;
            put_list(alloc, writer, "links", links.as_slice())
        }
        Shown::Set(set) => show_set(alloc, writer, set),
        Shown::Point(point, ids) => {
            put_show(writer, "point")?;
            put_point(alloc, writer, point, ids.as_slice())
        }
        Shown::Plan(entry) => {
            put_show(writer, "plan")?;
            put_text(writer, "plan", entry.as_str())
        }
        Shown::Statuses(counts, statuses) => {
            show_statuses(alloc, writer, counts, statuses.as_slice())
        }
    }
}
