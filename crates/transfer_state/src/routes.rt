//! What a row uses, by what is kept of the choices of all rows.

ghost use Rattle.std.specs.Prelude.{◌≡◌, ◌==◌, ◌<◌, None, Some, IfOk, find, is_some, true};
ghost use Rattle.std.specs.Option.{MatchOption, option_map};
ghost use Rattle.net_items.specs.Lookups.{row_at};
ghost use Rattle.profile.specs.Status.{choice, status};
ghost use Rattle.profile.specs.Traces.{hop_of};
ghost use Rattle.profile.specs.Valid.{IsSmall};
ghost use Rattle.profile.specs.Whole.{state_of, size_of as size_by, member as member_of};
ghost use Rattle.excerpts.specs.Excerpt.{source_of};
ghost use Rattle.transfer_state.specs.Routing.{direct_status, state_at, hop_by, IsChosen, IsFoundRow};

use crate::choosing::{Statuses, far_by_choices, fars_of, rows_of};
use crate::kept::{Kept, opened_choice};
use crate::states::{links_of, member, message_to, messages_of, used_size};
use excerpts::Excerpt;
use net_items::Row;
use point_codes::PointCode;
use profile::{Hop, LinkRef, Message, Messages, RowLinks};
use route_choice::{Choice, Far, direct};
use sls_share::{link_for, member_for};
use std::alloc::{AllocError, Global};

/// The row of a point with its choice.
#[tactic(auto, using(crate::proofs::RouteLemmas::found_row, crate::proofs::RouteLemmas::state_none))]
pub(crate) fn found<'a>(
    e: &'a Excerpt,
    choices: &[Kept],
    point: PointCode,
) -> Option<(&'a Row, Choice)>
    requires { IsChosen e.now choices.now }
    ensures { MatchOption result (state_at e.now point ≡ None) (λ f. IsFoundRow e.now point f.0.now f.1) }
{
    e.validity();
    let rows = rows_of(e);
    match e.position_of_row(point) {
        Ok(at) => {
            let row = &rows[at];
            Some((row, opened_choice(e, row, choices[at])))
        }
        Err(_) => None,
    }
}

/// The status of a point's row, if it has one. No row is read for it.
#[tactic(auto, using(crate::proofs::RouteLemmas::state_none))]
pub(crate) fn row_status_at(e: &Excerpt, choices: &[Kept], point: PointCode) -> Option<Far>
    requires { IsChosen e.now choices.now }
    ensures { result ≡ option_map (λ s. s.choice.status) (state_at e.now point) }
{
    e.validity();
    let rows = rows_of(e);
    match e.position_by_code(point) {
        Ok(at) => {
            // The proof reads the row from this.
            let _row = &rows[at];
            Some(choices[at].status())
        }
        Err(_) => None,
    }
}

/// The status of a point.
#[tactic(auto, using(crate::proofs::ReasonLemmas::status_told))]
pub(crate) fn status_at(e: &Excerpt, choices: &[Kept], point: PointCode) -> Far
    requires { IsChosen e.now choices.now }
    ensures { result ≡ status (source_of e.now) point }
{
    e.validity();
    far_by_choices(e, choices, point)
}

/// The direct status of a point.
pub(crate) fn direct_at(e: &Excerpt, choices: &[Kept], point: PointCode) -> Far
    requires { IsChosen e.now choices.now }
    ensures { result ≡ direct_status (source_of e.now) point }
{
    e.validity();
    match found(e, choices, point) {
        Some((row, _)) => direct(row, &fars_of(e, &Statuses::Choices(choices), row), e.tfr()),
        None => Far::Prohibited,
    }
}

/// What a point uses, if it has a row.
pub(crate) fn choice_at(e: &Excerpt, choices: &[Kept], point: PointCode) -> Option<Choice>
    requires { IsChosen e.now choices.now }
    ensures { result ≡ option_map (λ s. s.choice) (state_at e.now point) }
{
    match found(e, choices, point) {
        Some((_, choice)) => Some(choice),
        None => None,
    }
}

/// The links of a point, if it has a row.
pub(crate) fn links_at(e: &Excerpt, choices: &[Kept], point: PointCode) -> Option<RowLinks>
    requires { IsChosen e.now choices.now }
    ensures { result ≡ option_map (λ s. s.links) (state_at e.now point) }
{
    match found(e, choices, point) {
        Some((row, choice)) => {
            let size = used_size(row, &choice);
            Some(links_of(e, row, &choice, size))
        }
        None => None,
    }
}

/// The messages in force from a point, if it has a row.
pub(crate) fn messages_at(
    alloc: Global,
    e: &Excerpt,
    choices: &[Kept],
    point: PointCode,
) -> Result<Option<Messages>, AllocError>
    requires { IsChosen e.now choices.now }
    ensures { IfOk result (λ m. m ≡ option_map (λ s. s.messages) (state_at e.now point)) }
{
    match found(e, choices, point) {
        Some((row, choice)) => Ok(Some(messages_of(alloc, e, row, &choice)?)),
        None => Ok(None),
    }
}

/// The message in force from a point to another, if it has a row and sends one.
pub(crate) fn message_at(
    e: &Excerpt,
    choices: &[Kept],
    point: PointCode,
    neighbour: PointCode,
) -> Option<Option<Message>>
    requires { IsChosen e.now choices.now }
    ensures { result ≡ option_map (λ s. find (λ m. m.to == neighbour) s.messages) (state_at e.now point) }
{
    match found(e, choices, point) {
        Some((row, choice)) => Some(message_to(e, row, &choice, neighbour)),
        None => None,
    }
}

/// The link that a signalling link selection takes from a row's point by a choice, with both its ends.
fn hop_by_choice(e: &Excerpt, row: &Row, choice: &Choice, s: u8) -> Option<Hop>
    requires sls { s < 16 }
    requires small { IsSmall row.now }
    requires two { is_some (member_of choice.now 1) ≡ true → size_by row.now choice.now.class ≡ 2 }
    ensures { result ≡ hop_by (source_of e.now) row.now choice.now s }
{
    e.validity();
    let used = [member(choice, 0).is_some(), member(choice, 1).is_some()];
    let (position, share) = member_for(used_size(row, choice), used, s);
    let to = member(choice, usize::from(position))?;
    let set = e.set_between(row.point, to)?;
    let slc = link_for(set, share)?;
    Some(Hop {
        from: row.point,
        link: LinkRef { id: set.id, slc },
        to,
    })
}

/// The link that a signalling link selection takes from a point, with both its ends, if it takes one.
pub(crate) fn hop_at(e: &Excerpt, choices: &[Kept], point: PointCode, s: u8) -> Option<Hop>
    requires chosen { IsChosen e.now choices.now }
    requires sls { s < 16 }
    ensures { result ≡ hop_of (source_of e.now) point s }
{
    match found(e, choices, point) {
        Some((row, choice)) => hop_by_choice(e, row, &choice, s),
        None => None,
    }
}
