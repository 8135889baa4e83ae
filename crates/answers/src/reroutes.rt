//! What moves: the answer to `reroutes`, and how it is told.

ghost use Rattle.std.specs.Prelude.{◌≡◌, ◌++◌, IfOk, OnOk, string_bytes};
ghost use Rattle.std.specs.List.{flat_map};
ghost use Rattle.std.specs.Option.{option_to_list};
ghost use Rattle.tokens.specs.Rows.{vias_text};
ghost use Rattle.what_if.specs.Listed.{reroutes_listed as the_reroutes};
ghost use Rattle.answers.specs.Reroutes.{choice_status, choice_text, choice_word, counts_text, keeps_status as the_status_stays, moved_text, reroute_text, reroutes_answer, reroutes_text, row_of_text, side_text, sides_text, since_text, told_text};

use crate::answer::{Answer, Moved, NetAnswer, Reason};
use crate::codes::{put_number, put_numbered, write_code};
use crate::status::far_word;
use crate::what_ifs::status_word;
use net_building::Listed;
use net_versions::Version;
use point_codes::PointCode;
use route_choice::{Choice, Far};
use std::alloc::{AllocError, Global};
use what_if::{Reroute, RerouteCounts, Reroutes, count_reroutes, reroutes_listed};

/// The status of a choice, if there is one.
fn status_of(choice: Option<Choice>) -> Option<Far>
    ensures { result ≡ choice_status choice }
{
    match choice {
        Some(choice) => Some(choice.status),
        None => None,
    }
}

/// Whether the status stays.
fn keeps_status(reroute: &Reroute) -> bool
    ensures { result ≡ the_status_stays reroute.now }
{
    status_of(reroute.before) == status_of(reroute.after)
}

/// Adds the vias of a choice, joined by `+`.
fn put_vias(text: &mut String, members: [Option<PointCode>; 2]) -> Result<(), AllocError>
    ensures { OnOk result (string_bytes text.new ≡ string_bytes text.old ++ vias_text (flat_map option_to_list members)) }
{
    match members {
        [Some(first), Some(second)] => {
            write_code(text, first)?;
            text.push('+')?;
            write_code(text, second)
        }
        [Some(via), None] | [None, Some(via)] => write_code(text, via),
        [None, None] => Ok(()),
    }
}

/// Adds a choice with its vias; `none` if there is no row.
fn put_choice(text: &mut String, choice: Option<Choice>) -> Result<(), AllocError>
    ensures { OnOk result (string_bytes text.new ≡ string_bytes text.old ++ choice_word choice) }
{
    let Some(choice) = choice else {
        return text.push_str("none");
    };
    text.push_str(far_word(choice.status))?;
    text.push(':')?;
    put_number(text, u16::from(choice.class))?;
    text.push(':')?;
    put_vias(text, choice.members)
}

/// Adds a choice before or after.
fn put_side(text: &mut String, reroute: &Reroute, choice: Option<Choice>) -> Result<(), AllocError>
    ensures { OnOk result (string_bytes text.new ≡ string_bytes text.old ++ side_text reroute.now choice) }
{
    if keeps_status(reroute) {
        return put_choice(text, choice);
    }
    text.push_str(status_word(status_of(choice)))
}

/// Adds the point and the destination.
fn put_row_of(text: &mut String, reroute: &Reroute) -> Result<(), AllocError>
    ensures { OnOk result (string_bytes text.new ≡ string_bytes text.old ++ row_of_text reroute.now) }
{
    write_code(text, reroute.point)?;
    text.push('/')?;
    write_code(text, reroute.dest)
}

/// Adds what is used before and after.
fn put_sides(text: &mut String, reroute: &Reroute) -> Result<(), AllocError>
    ensures { OnOk result (string_bytes text.new ≡ string_bytes text.old ++ sides_text reroute.now) }
{
    put_side(text, reroute, reroute.before)?;
    text.push('>')?;
    put_side(text, reroute, reroute.after)
}

/// Adds what moves after a space.
fn put_reroute(text: &mut String, reroute: &Reroute) -> Result<(), AllocError>
    ensures { OnOk result (string_bytes text.new ≡ string_bytes text.old ++ reroute_text reroute.now) }
{
    text.push(' ')?;
    put_row_of(text, reroute)?;
    text.push(' ')?;
    put_sides(text, reroute)
}

/// Adds all that moves, each after a space.
fn put_each(text: &mut String, list: &[Reroute]) -> Result<(), AllocError>
    ensures { OnOk result (string_bytes text.new ≡ string_bytes text.old ++ flat_map reroute_text list.now) }
{
    for reroute in list {
        put_reroute(text, reroute)?;
    }
    Ok(())
}

/// Adds how many are lost, regained and moved.
fn put_counts(text: &mut String, counts: RerouteCounts) -> Result<(), AllocError>
    ensures { OnOk result (string_bytes text.new ≡ string_bytes text.old ++ counts_text counts) }
{
    put_numbered(text, " lost ", counts.lost as u64)?;
    put_numbered(text, " regained ", counts.regained as u64)?;
    put_numbered(text, " moved ", counts.moved as u64)
}

/// Adds how many are lost, regained and moved, and each of those that are told.
fn put_told(text: &mut String, counts: RerouteCounts, list: &[Reroute]) -> Result<(), AllocError>
    ensures { OnOk result (string_bytes text.new ≡ string_bytes text.old ++ told_text counts list.now) }
{
    put_counts(text, counts)?;
    put_each(text, list)
}

/// Adds how many are lost, regained and moved, and each of them. It takes no memory but that of the text.
pub(crate) fn put_reroutes(text: &mut String, reroutes: &Reroutes) -> Result<(), AllocError>
    ensures { OnOk result (string_bytes text.new ≡ string_bytes text.old ++ reroutes_text reroutes.now) }
{
    let reroutes = reroutes.as_slice();
    put_told(text, count_reroutes(reroutes), reroutes)
}

/// Adds the version before, if there is one.
fn put_since(text: &mut String, since: Option<u64>) -> Result<(), AllocError>
    ensures { OnOk result (string_bytes text.new ≡ string_bytes text.old ++ since_text since) }
{
    match since {
        Some(number) => put_numbered(text, " since ", number),
        None => Ok(()),
    }
}

/// Adds what moved, and since which version.
pub(crate) fn put_moved(text: &mut String, moved: &Moved) -> Result<(), AllocError>
    ensures { OnOk result (string_bytes text.new ≡ string_bytes text.old ++ moved_text moved.now) }
{
    put_since(text, moved.since)?;
    put_told(text, moved.counts, moved.reroutes.as_slice())
}

/// What a list of events would move, made one after the other on the network of a version. The change of a whole set or point stands
/// for its events. The first entry that is refused is told, with its place (own). It fails if memory is refused.
pub fn answer_reroutes(
    alloc: Global,
    version: &Version,
    entries: &[Listed],
) -> Result<Answer, AllocError>
    ensures { IfOk result (λ answer. answer ≡ reroutes_answer (the_reroutes version.now.network entries.now)) }
{
    match reroutes_listed(alloc, version, entries)? {
        Ok(reroutes) => Ok(Answer::Net(NetAnswer::Reroutes(reroutes))),
        Err(refused) => Ok(Answer::Refused(Reason::Event(refused))),
    }
}
