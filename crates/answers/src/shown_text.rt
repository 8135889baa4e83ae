//! How what is shown of a network is told in text.

ghost use Rattle.std.specs.Prelude.{◌≡◌, ◌++◌, OnOk, string_bytes};
ghost use Rattle.std.specs.List.{flat_map};
ghost use Rattle.answers.specs.Shown.{id_word, mate_text, parts_text, point_status_word, rest_text, shown_point_text, shown_text, size_text, state_text, statuses_text, switch_text, usable_text};

use crate::codes::{put_numbered, write_code};
use crate::mend::put_set_links;
use crate::shown::{NetSize, PointStatus, Shown, StatusCounts};
use crate::status::far_word;
use net_items::{LinkSet, Point};
use point_codes::PointCode;
use std::alloc::{AllocError, Global};
use tokens::{write_point, write_set};

/// `on` or `off`.
fn switch_word(is_on: bool) -> &'static str
    ensures { result.now ≡ switch_text is_on }
{
    if is_on { "on" } else { "off" }
}

/// Adds how many points, sets and links a network has.
fn put_parts(text: &mut String, size: &NetSize) -> Result<(), AllocError>
    ensures { OnOk result (string_bytes text.new ≡ string_bytes text.old ++ parts_text size.now) }
{
    put_numbered(text, "show points ", size.points as u64)?;
    put_numbered(text, " sets ", size.sets as u64)?;
    put_numbered(text, " links ", size.links as u64)
}

/// Adds how many links aren't available, how many plans there are, and the option of transfer-restricted messages.
fn put_state(text: &mut String, size: &NetSize) -> Result<(), AllocError>
    ensures { OnOk result (string_bytes text.new ≡ string_bytes text.old ++ state_text size.now) }
{
    put_numbered(text, " down ", size.down as u64)?;
    put_numbered(text, " plans ", size.plans as u64)?;
    text.push_str(" tfr ")?;
    text.push_str(switch_word(size.tfr))
}

/// Adds how large a network is.
fn put_size(text: &mut String, size: &NetSize) -> Result<(), AllocError>
    ensures { OnOk result (string_bytes text.new ≡ string_bytes text.old ++ size_text size.now) }
{
    put_parts(text, size)?;
    put_state(text, size)
}

/// Adds a set.
fn put_set(alloc: Global, text: &mut String, set: &LinkSet) -> Result<(), AllocError>
    ensures { OnOk result (string_bytes text.new ≡ string_bytes text.old ++ shown_text (Shown.Set set.now)) }
{
    let entry = write_set(alloc, set)?;
    text.push_str("show set ")?;
    text.push_str(entry.as_str())
}

/// Adds the mate of a point, if it has one.
fn put_mate(text: &mut String, mate: Option<PointCode>) -> Result<(), AllocError>
    ensures { OnOk result (string_bytes text.new ≡ string_bytes text.old ++ mate_text mate) }
{
    let Some(mate) = mate else {
        return Ok(());
    };
    text.push_str(" mate ")?;
    write_code(text, mate)
}

/// Adds ids, each after a space.
fn put_ids(text: &mut String, ids: &[u16]) -> Result<(), AllocError>
    ensures { OnOk result (string_bytes text.new ≡ string_bytes text.old ++ flat_map id_word ids.now) }
{
    for id in ids {
        put_numbered(text, " ", u64::from(*id))?;
    }
    Ok(())
}

/// Adds a point, with its mate and its sets.
fn put_point(alloc: Global, text: &mut String, point: &Point, ids: &[u16]) -> Result<(), AllocError>
    ensures { OnOk result (string_bytes text.new ≡ string_bytes text.old ++ shown_point_text point.now ids.now) }
{
    let entry = write_point(alloc, point)?;
    text.push_str("show point ")?;
    text.push_str(entry.as_str())?;
    put_mate(text, point.mate)?;
    text.push_str(" sets")?;
    put_ids(text, ids)
}

/// Adds the status of a point after a space.
fn put_point_status(text: &mut String, status: PointStatus) -> Result<(), AllocError>
    ensures { OnOk result (string_bytes text.new ≡ string_bytes text.old ++ point_status_word status) }
{
    text.push(' ')?;
    write_code(text, status.point)?;
    text.push(':')?;
    text.push_str(far_word(status.status))
}

/// Adds statuses, each after a space.
fn put_each_status(text: &mut String, statuses: &[PointStatus]) -> Result<(), AllocError>
    ensures { OnOk result (string_bytes text.new ≡ string_bytes text.old ++ flat_map point_status_word statuses.now) }
{
    for status in statuses {
        put_point_status(text, *status)?;
    }
    Ok(())
}

/// Adds how many points have the status allowed, and how many restricted.
fn put_usable(text: &mut String, counts: &StatusCounts) -> Result<(), AllocError>
    ensures { OnOk result (string_bytes text.new ≡ string_bytes text.old ++ usable_text counts.now) }
{
    put_numbered(text, " allowed ", counts.allowed as u64)?;
    put_numbered(text, " restricted ", counts.restricted as u64)
}

/// Adds how many points have the status prohibited, and the status of each.
fn put_rest(
    text: &mut String,
    counts: &StatusCounts,
    statuses: &[PointStatus],
) -> Result<(), AllocError>
    ensures { OnOk result (string_bytes text.new ≡ string_bytes text.old ++ rest_text counts.now statuses.now) }
{
    put_numbered(text, " prohibited ", counts.prohibited as u64)?;
    put_each_status(text, statuses)?;
    Ok(())
}

/// Adds how the points of a plan reach its destination, and how many of them so.
fn put_statuses(
    text: &mut String,
    counts: &StatusCounts,
    statuses: &[PointStatus],
) -> Result<(), AllocError>
    ensures { OnOk result (string_bytes text.new ≡ string_bytes text.old ++ statuses_text counts.now statuses.now) }
{
    text.push_str("statuses")?;
    put_usable(text, counts)?;
    put_rest(text, counts, statuses)
}

/// Adds what is shown of a network.
pub(crate) fn put_shown(alloc: Global, text: &mut String, shown: &Shown) -> Result<(), AllocError>
    ensures { OnOk result (string_bytes text.new ≡ string_bytes text.old ++ shown_text shown.now) }
{
    match shown {
        Shown::Size(size) => put_size(text, size),
        Shown::Down(links) => {
            text.push_str("show down")?;
            put_set_links(alloc, text, links.as_slice())
        }
        Shown::Set(set) => put_set(alloc, text, set),
        Shown::Point(point, ids) => put_point(alloc, text, point, ids.as_slice()),
        Shown::Plan(entry) => {
            text.push_str("show plan ")?;
            text.push_str(entry.as_str())
        }
        Shown::Statuses(counts, statuses) => put_statuses(text, counts, statuses.as_slice()),
    }
}
