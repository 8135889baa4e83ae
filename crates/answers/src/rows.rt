//! What is asked of the row of a point, in the settled table of a destination.

ghost use Rattle.std.specs.Prelude.{◌≡◌, ◌<◌, IfOk, option_map};
ghost use Rattle.excerpts.specs.Excerpt.{source_of};
ghost use Rattle.transfer_state.specs.Routing.{state_at};
ghost use Rattle.net_items.specs.Keyed.{IsRising};
ghost use Rattle.net_items.specs.declared.items.LinkSet.{LinkSet};
ghost use Rattle.what_if.specs.Mending.{mend as the_mend};
ghost use Rattle.answers.specs.Messages.{octets_to};
ghost use Rattle.answers.specs.Rows.{answer_about as the_answer, asked_of, point_answer, remedy};
ghost use Rattle.answers.specs.Ways.{ways_at};

use crate::answer::{Answer, Reason, RowAnswer};
use crate::remedies::Remedy;
use crate::ways::Ways;
use net_data::Net;
use net_items::LinkSet;
use net_versions::Version;
use point_codes::{PointCode, tfm_octets};
use script_words::Question;
use std::alloc::{AllocError, Global};
use transfer_state::Routing;
use what_if::{Wanted, find_mend};

/// The class and the links of a point.
fn ask_links(routing: &Routing, point: PointCode) -> Option<RowAnswer>
    ensures { result ≡ option_map (λ state. RowAnswer.Links state.choice.class state.links) (state_at routing.now.excerpt point) }
{
    match (routing.choice(point), routing.links(point)) {
        (Some(choice), Some(links)) => Some(RowAnswer::Links(choice.class, links)),
        _ => None,
    }
}

/// The messages in force from a point.
fn ask_messages(
    alloc: Global,
    routing: &Routing,
    point: PointCode,
) -> Result<Option<RowAnswer>, AllocError>
    ensures { IfOk result (λ row. row ≡ option_map (λ state. RowAnswer.Messages state.messages) (state_at routing.now.excerpt point)) }
{
    match routing.messages(alloc, point)? {
        Some(messages) => Ok(Some(RowAnswer::Messages(messages))),
        None => Ok(None),
    }
}

/// The octets of the message in force from a point to another, with the network indicator.
fn ask_octets(
    ni: u8,
    routing: &Routing,
    point: PointCode,
    neighbour: PointCode,
) -> Option<RowAnswer>
    requires { ni < 4 }
    ensures { result ≡ option_map (λ state. RowAnswer.Octets (octets_to ni routing.now.excerpt.plan.dest state neighbour)) (state_at routing.now.excerpt point) }
{
    match routing.message(point, neighbour) {
        Some(Some(message)) => {
            let octets = tfm_octets(ni, neighbour, point, message.kind, routing.dest());
            Some(RowAnswer::Octets(Some(octets)))
        }
        Some(None) => Some(RowAnswer::Octets(None)),
        None => None,
    }
}

/// Why a point uses what it uses.
fn ask_why(
    alloc: Global,
    routing: &Routing,
    point: PointCode,
) -> Result<Option<RowAnswer>, AllocError>
    ensures { IfOk result (λ row. row ≡ option_map (λ state. RowAnswer.Why state.choice.status (ways_at (source_of routing.now.excerpt) state)) (state_at routing.now.excerpt point)) }
{
    match routing.row(point) {
        Some((row, choice)) => {
            let ways = Ways::of(alloc, routing, row, &choice)?;
            Ok(Some(RowAnswer::Why(choice.status, ways)))
        }
        None => Ok(None),
    }
}

/// Which links have to be restored for a point to have the status that is wanted.
fn ask_mend(
    alloc: Global,
    wanted: Wanted,
    routing: &Routing,
    point: PointCode,
) -> Result<Option<RowAnswer>, AllocError>
    ensures { IfOk result (λ row. row ≡ option_map (λ state. RowAnswer.Mend (the_mend (source_of routing.now.excerpt) wanted state.point)) (state_at routing.now.excerpt point)) }
{
    match routing.row(point) {
        Some((row, _choice)) => {
            let mend = find_mend(alloc, routing, wanted, row.point)?;
            Ok(Some(RowAnswer::Mend(mend)))
        }
        None => Ok(None),
    }
}

/// What restores the links which have to be restored for a point to have the status that is wanted.
fn find_remedy(
    alloc: Global,
    wanted: Wanted,
    sets: &[LinkSet],
    routing: &Routing,
    point: PointCode,
) -> Result<Option<Remedy>, AllocError>
    requires rising { IsRising (λ (s : LinkSet). s.id) sets.now }
    requires same { sets.now ≡ (source_of routing.now.excerpt).sets }
    ensures { IfOk result (λ found. found ≡ remedy (source_of routing.now.excerpt) wanted point) }
{
    match find_mend(alloc, routing, wanted, point)? {
        Some(mend) => Ok(Some(Remedy::of(alloc, sets, mend.as_slice())?)),
        None => Ok(None),
    }
}

/// The same of the row of a point, if it has one.
fn ask_remedy(
    alloc: Global,
    wanted: Wanted,
    sets: &[LinkSet],
    routing: &Routing,
    point: PointCode,
) -> Result<Option<RowAnswer>, AllocError>
    requires rising { IsRising (λ (s : LinkSet). s.id) sets.now }
    requires same { sets.now ≡ (source_of routing.now.excerpt).sets }
    ensures { IfOk result (λ row. row ≡ option_map (λ state. RowAnswer.Remedy (remedy (source_of routing.now.excerpt) wanted state.point)) (state_at routing.now.excerpt point)) }
{
    match routing.row(point) {
        Some((row, _choice)) => {
            let found = find_remedy(alloc, wanted, sets, routing, row.point)?;
            Ok(Some(RowAnswer::Remedy(found)))
        }
        None => Ok(None),
    }
}

/// What is asked of the row of a point, if it has one.
fn ask(
    alloc: Global,
    asked: Question,
    net: &Net,
    routing: &Routing,
    point: PointCode,
) -> Result<Option<RowAnswer>, AllocError>
    requires { net.now.sets ≡ (source_of routing.now.excerpt).sets }
    ensures { IfOk result (λ row. row ≡ option_map (asked_of asked net.now.ni (source_of routing.now.excerpt)) (state_at routing.now.excerpt point)) }
{
    net.validity();
    match asked {
        Question::Status => Ok(routing.choice(point).map(RowAnswer::Status)),
        Question::Links => Ok(ask_links(routing, point)),
        Question::Messages => ask_messages(alloc, routing, point),
        Question::Octets(z) => Ok(ask_octets(net.ni(), routing, point, z)),
        Question::Why => ask_why(alloc, routing, point),
        Question::Mend => ask_mend(alloc, Wanted::Reached, routing, point),
        Question::MendAllowed => ask_mend(alloc, Wanted::Allowed, routing, point),
        Question::Remedy => ask_remedy(alloc, Wanted::Reached, net.sets(), routing, point),
        Question::RemedyAllowed => ask_remedy(alloc, Wanted::Allowed, net.sets(), routing, point),
    }
}

/// The answer about the row of a point by a routing.
fn answer_row(
    alloc: Global,
    asked: Question,
    net: &Net,
    routing: &Routing,
    point: PointCode,
) -> Result<Answer, AllocError>
    requires { net.now.sets ≡ (source_of routing.now.excerpt).sets }
    ensures { IfOk result (λ answer. answer ≡ point_answer asked net.now.ni (source_of routing.now.excerpt) point) }
{
    match ask(alloc, asked, net, routing, point)? {
        Some(row) => Ok(Answer::Row(row)),
        None => Ok(Answer::Refused(Reason::NoRow)),
    }
}

/// The answer about the row of a point in the table of a destination. It is refused 26 NoPlan if the destination has no plan, then 29
/// NoRow if the point has no row. It fails if memory is refused.
pub fn answer_about(
    alloc: Global,
    asked: Question,
    version: &Version,
    point: PointCode,
    dest: PointCode,
) -> Result<Answer, AllocError>
    ensures { IfOk result (λ answer. answer ≡ the_answer asked version.now.network point dest) }
{
    let net = version.net();
    net.validity();
    match version.routing(dest) {
        Some(routing) => answer_row(alloc, asked, net.net(), &routing, point),
        None => Ok(Answer::Refused(Reason::NoPlan)),
    }
}
