//! Questions about a version.

use crate::samples::{change, code, worked};
use route_state::codes::PointCode;
use route_state::desks::Version;
use route_state::marks::{End, LinkChange};
use route_state::nets::{Event, Listed, Surveyed, Whole, events_of_whole, refusal_of_whole};
use route_state::traces::{Hop, Trace, trace};
use route_state::what_ifs::{
    Wanted, count_reroutes, find_mend, report_listed, reroutes_by, reroutes_listed, reroutes_since,
    survey_listed, what_if as report_on,
};
use std::alloc::Global;

/// Version 0 of the worked network.
fn version(alloc: Global) -> Option<Version> {
    Version::opening(alloc, worked(alloc)?).ok()
}

/// Whether two hops lead over these points.
fn leads_over(hops: &[Hop], points: [PointCode; 3]) -> bool {
    match hops {
        [one, two] => [one.from, one.to, two.to] == points,
        _ => false,
    }
}

/// Whether a trace leads over these points.
fn is_way(trace: &Trace, points: [PointCode; 3]) -> bool {
    match trace {
        Trace::Reached(hops) => leads_over(hops.as_slice(), points),
        Trace::Stopped => false,
    }
}

/// The way of the signalling link selection 1 between the first and the last of three points, over the other.
fn leads(alloc: Global, version: &Version, points: [PointCode; 3]) -> Option<bool> {
    let way = trace(alloc, version, points[0], points[2], 1).ok()?;
    Some(is_way(&way, points))
}

/// The way of a signalling link selection from 2-1-1 to 2-1-2: over 2-10-2.
pub(crate) fn traces(alloc: Global) -> Option<bool> {
    let points = [code("2-1-1")?, code("2-10-2")?, code("2-1-2")?];
    leads(alloc, &version(alloc)?, points)
}

/// How many changes some events would make, and whether an inhibition among them is denied.
fn reported(alloc: Global, version: &Version, events: &[Event]) -> Option<(usize, bool)> {
    let report = report_on(alloc, version, events).ok()?;
    Some((report.changes.as_slice().len(), report.denied))
}

/// What the failure of a link would change.
fn fails(alloc: Global, version: &Version) -> Option<(usize, bool)> {
    let events = [change(LinkChange::Fail)];
    reported(alloc, version, &events)
}

/// What the inhibition of a link among several would change.
fn inhibits(alloc: Global, version: &Version) -> Option<(usize, bool)> {
    let events = [Event::Link(3, 0, LinkChange::Inhibit(End::First))];
    reported(alloc, version, &events)
}

/// Whether nothing moved since a version that is published.
fn is_unmoved(alloc: Global, version: &Version) -> Option<bool> {
    let reroutes = reroutes_since(alloc, version, version).ok()?;
    Some(reroutes.as_slice().is_empty())
}

/// How many pairs of a point and a destination the failure of a link would move, and whether none is lost.
fn moves(alloc: Global, version: &Version) -> Option<(usize, bool)> {
    let events = [change(LinkChange::Fail)];
    let reroutes = reroutes_by(alloc, version, &events).ok()?;
    let reroutes = reroutes.as_slice();
    Some((reroutes.len(), count_reroutes(reroutes).lost == 0))
}

/// How many statuses the failure of a whole set would change, and how many pairs of a point and a destination it would move.
fn whole_fails(alloc: Global, version: &Version) -> Option<(usize, usize)> {
    let entries = [Listed::Whole(Whole::Set(4, LinkChange::Fail))];
    let report = report_listed(alloc, version, &entries).ok()?.ok()?;
    let reroutes = reroutes_listed(alloc, version, &entries).ok()?.ok()?;
    Some((report.changes.as_slice().len(), reroutes.as_slice().len()))
}

/// How many failures of sets are tried alone once a set has failed, and of each that takes some pair how many it takes.
fn surveyed(alloc: Global, version: &Version) -> Option<(usize, [usize; 2])> {
    let entries = [Listed::Whole(Whole::Set(4, LinkChange::Fail))];
    let survey = survey_listed(alloc, version, Surveyed::Sets, &entries)
        .ok()?
        .ok()?;
    match survey.effects.as_slice() {
        [one, other] => Some((survey.tried, [one.pairs, other.pairs])),
        _ => None,
    }
}

/// Whether the change of a whole point is that of each of its four links, and nothing refuses it.
fn is_each_link(alloc: Global) -> Option<bool> {
    let net = worked(alloc)?;
    let whole = Whole::Point(code("2-10-2")?, LinkChange::Block(End::First));
    let events = events_of_whole(alloc, &net, whole).ok()?;
    Some(refusal_of_whole(&net, whole).is_none() && events.len() == 4)
}

/// Whether a point that lacks nothing is mended by no link.
fn lacks_nothing(alloc: Global, version: &Version) -> Option<bool> {
    let (q, x) = (code("2-10-2")?, code("2-1-2")?);
    let routing = version.routing(x)?;
    let mend = find_mend(alloc, &routing, Wanted::Allowed, q).ok()??;
    Some(mend.as_slice().is_empty())
}

/// What is asked of a version besides.
fn asks(alloc: Global, version: &Version) -> Option<bool> {
    let reports = [fails(alloc, version)?, inhibits(alloc, version)?];
    let quiet = is_unmoved(alloc, version)? && lacks_nothing(alloc, version)?;
    Some(quiet && reports == [(1, false), (0, false)] && moves(alloc, version)? == (2, true))
}

/// What events would change and move, what moved, what would mend a point, and what single failures would take.
pub(crate) fn what_ifs(alloc: Global) -> Option<bool> {
    let version = version(alloc)?;
    let wholes = whole_fails(alloc, &version)? == (1, 2) && is_each_link(alloc)?;
    Some(asks(alloc, &version)? && wholes && surveyed(alloc, &version)? == (4, [3, 1]))
}
