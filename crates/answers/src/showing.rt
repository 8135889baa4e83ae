//! What is shown of a network.

ghost use Rattle.std.specs.Prelude.{◌≡◌, ◌++◌, IfOk, OnOk, filter, map};
ghost use Rattle.std.specs.List.{flat_map};
ghost use Rattle.excerpts.specs.Excerpt.{source_of};
ghost use Rattle.answers.specs.Shown.{counted, down_links, ends_at, is_down, is_status as the_status, links_in, point_answer, point_statuses, set_answer, shown_answer, shown_plan, shown_statuses, size_shown, status_count, status_counts};

use crate::answer::{Answer, Reason};
use crate::boxed::Boxed;
use crate::shown::{DownLinks, NetSize, PointStatus, SetNumbers, Shown, StatusCounts, Statuses};
use crate::text::Text;
use net_data::{Net, Refusal as EditRefusal};
use net_items::copies::copy_set;
use net_items::lookups::{find_point, position_of_set};
use net_items::{LinkSet, Plan};
use net_versions::Version;
use point_codes::PointCode;
use route_choice::Far;
use script_words::Show;
use std::alloc::{AllocError, Global};
use tokens::write_plan;
use transfer_state::Routing;
use what_if::SetLink;
use work_units::Refusal;

/// Adds the links of a set.
fn add_links(links: &mut Vec<SetLink>, set: &LinkSet) -> Result<(), AllocError>
    ensures { OnOk result (links.new.items ≡ links.old.items ++ links_in set.now) }
{
    let list = set.links.listed();
    for link in list.as_slice() {
        links.push(SetLink {
            id: set.id,
            link: *link,
        })?;
    }
    Ok(())
}

/// The links of sets.
fn links_of(alloc: Global, sets: &[LinkSet]) -> Result<Vec<SetLink>, AllocError>
    ensures { IfOk result (λ links. links.items ≡ flat_map links_in sets.now) }
{
    let mut links = Vec::new(alloc);
    for set in sets {
        add_links(&mut links, set)?;
    }
    Ok(links)
}

/// The links among these that aren't available.
fn down_among(alloc: Global, links: &[SetLink]) -> Result<Vec<SetLink>, AllocError>
    ensures { IfOk result (λ down. down.items ≡ filter is_down links.now) }
{
    let mut down = Vec::new(alloc);
    for link in links {
        if !link.link.marks.available() {
            down.push(*link)?;
        }
    }
    Ok(down)
}

/// The answer that shows this.
fn show(alloc: Global, shown: Shown) -> Result<Answer, AllocError>
    ensures { IfOk result (λ answer. answer ≡ Answer.Shown shown) }
{
    Ok(Answer::Shown(Boxed::new(alloc, shown)?))
}

/// How large a network is.
fn show_size(alloc: Global, net: &Net) -> Result<Answer, AllocError>
    ensures { IfOk result (λ answer. answer ≡ size_shown net.now) }
{
    let links = links_of(alloc, net.sets())?;
    let down = down_among(alloc, links.as_slice())?;
    let size = NetSize {
        points: net.points().len(),
        sets: net.sets().len(),
        links: links.len(),
        down: down.len(),
        plans: net.plans().len(),
        tfr: net.tfr(),
    };
    show(alloc, Shown::Size(size))
}

/// The links of a network that aren't available.
fn show_down(alloc: Global, net: &Net) -> Result<Answer, AllocError>
    ensures { IfOk result (λ answer. answer ≡ Answer.Shown (Shown.Down (down_links net.now))) }
{
    let links = links_of(alloc, net.sets())?;
    let down = down_among(alloc, links.as_slice())?;
    show(alloc, Shown::Down(DownLinks::from_vec(down)))
}

/// That the network refuses to show what it doesn't have.
fn refuse(refusal: EditRefusal) -> Answer
    ensures { result ≡ Answer.Refused (Reason.Desk (Refusal.Edit refusal)) }
{
    Answer::Refused(Reason::Desk(Refusal::Edit(refusal)))
}

/// A set of a network.
fn show_set(alloc: Global, net: &Net, id: u16) -> Result<Answer, AllocError>
    ensures { IfOk result (λ answer. answer ≡ set_answer net.now id) }
{
    net.validity();
    match position_of_set(net.sets(), id) {
        Ok(at) => {
            let set = copy_set(&net.sets()[at]);
            show(alloc, Shown::Set(set))
        }
        Err(_) => Ok(refuse(EditRefusal::NoSet)),
    }
}

/// The ids of the sets that end at a point.
fn sets_at(alloc: Global, sets: &[LinkSet], point: PointCode) -> Result<Vec<u16>, AllocError>
    ensures { IfOk result (λ ids. ids.items ≡ map (λ s. s.id) (filter (ends_at point) sets.now)) }
{
    let mut ids = Vec::new(alloc);
    for set in sets {
        if set.a == point || set.b == point {
            ids.push(set.id)?;
        }
    }
    Ok(ids)
}

/// A point of a network, with its sets.
fn show_point(alloc: Global, net: &Net, code: PointCode) -> Result<Answer, AllocError>
    ensures { IfOk result (λ answer. answer ≡ point_answer net.now code) }
{
    net.validity();
    match find_point(net.points(), code) {
        Some(point) => {
            let ids = sets_at(alloc, net.sets(), code)?;
            show(alloc, Shown::Point(point, SetNumbers::from_vec(ids)))
        }
        None => Ok(refuse(EditRefusal::NoPoint)),
    }
}

/// A plan.
fn show_plan(alloc: Global, plan: &Plan) -> Result<Answer, AllocError>
    ensures { IfOk result (λ answer. answer ≡ shown_plan plan.now) }
{
    let text = write_plan(alloc, plan)?;
    show(alloc, Shown::Plan(Text::from_string(text)))
}

/// How points reach a destination.
fn statuses_by(
    alloc: Global,
    routing: &Routing,
    points: &[PointCode],
) -> Result<Vec<PointStatus>, AllocError>
    ensures { IfOk result (λ statuses. statuses.items ≡ map (λ y. point_statuses (source_of routing.now.excerpt) y) points.now) }
{
    let mut statuses = Vec::with_capacity(alloc, points.len())?;
    for point in points {
        statuses.push(PointStatus {
            point: *point,
            status: routing.status(*point),
        })?;
    }
    Ok(statuses)
}

/// Whether a status is this one.
fn is_status(one: Far, other: Far) -> bool
    ensures { result ≡ the_status one other }
{
    one == other
}

/// How many points have a status.
fn count_status(far: Far, statuses: &[PointStatus]) -> usize
    ensures { result ≡ status_count far statuses.now }
{
    statuses
        .iter()
        .filter(|point| is_status(far, point.status))
        .count()
}

/// How many points have each status.
fn counts_of(statuses: &[PointStatus]) -> StatusCounts
    ensures { result ≡ status_counts statuses.now }
{
    StatusCounts {
        allowed: count_status(Far::Allowed, statuses),
        restricted: count_status(Far::Restricted, statuses),
        prohibited: count_status(Far::Prohibited, statuses),
    }
}

/// How points reach a destination, and how many of them so.
fn show_counted(alloc: Global, statuses: Vec<PointStatus>) -> Result<Answer, AllocError>
    ensures { IfOk result (λ answer. answer ≡ counted statuses.items) }
{
    let counts = counts_of(statuses.as_slice());
    show(alloc, Shown::Statuses(counts, Statuses::from_vec(statuses)))
}

/// How each point of the plan of a routing reaches its destination.
fn show_statuses(alloc: Global, routing: &Routing) -> Result<Answer, AllocError>
    ensures { IfOk result (λ answer. answer ≡ shown_statuses (source_of routing.now.excerpt) routing.now.excerpt.plan) }
{
    let points = routing.excerpt().plan().rows.codes();
    let statuses = statuses_by(alloc, routing, points)?;
    show_counted(alloc, statuses)
}

/// The plan of a destination.
fn show_plan_of(alloc: Global, net: &Net, dest: PointCode) -> Result<Answer, AllocError>
    ensures { IfOk result (λ answer. answer ≡ shown_answer (Show.Plan dest) net.now) }
{
    match net.plan(dest) {
        Some(plan) => show_plan(alloc, plan),
        None => Ok(Answer::Refused(Reason::NoPlan)),
    }
}

/// How each point of the plan of a destination reaches it.
fn show_statuses_of(alloc: Global, version: &Version, dest: PointCode) -> Result<Answer, AllocError>
    ensures { IfOk result (λ answer. answer ≡ shown_answer (Show.Statuses dest) version.now.network) }
{
    match version.routing(dest) {
        Some(routing) => show_statuses(alloc, &routing),
        None => Ok(Answer::Refused(Reason::NoPlan)),
    }
}

/// What is shown of the network of a version. It is refused 17 NoSet, 10 NoPoint or 26 NoPlan if there is no such set, point or plan. It
/// fails if memory is refused.
pub fn answer_shown(alloc: Global, version: &Version, show: Show) -> Result<Answer, AllocError>
    ensures { IfOk result (λ answer. answer ≡ shown_answer show version.now.network) }
{
    let net = version.net().net();
    match show {
        Show::Size => show_size(alloc, net),
        Show::Down => show_down(alloc, net),
        Show::Set(id) => show_set(alloc, net, id),
        Show::Point(code) => show_point(alloc, net, code),
        Show::Plan(dest) => show_plan_of(alloc, net, dest),
        Show::Statuses(dest) => show_statuses_of(alloc, version, dest),
    }
}
