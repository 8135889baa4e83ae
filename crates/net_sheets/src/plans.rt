//! Plans of tables, added to a network.

ghost use Rattle.std.specs.Prelude.{◌≡◌, ◌≢◌, ◌∷◌, [], ℕ, List, length, true, OnOk, IfOk, IfErr};
ghost use Rattle.net_items.specs.declared.items.Point.{Point};
ghost use Rattle.net_items.specs.declared.lists.Row.{Row};
ghost use Rattle.net_sets.specs.Sets.{is_distinct};
ghost use Rattle.net_data.specs.Network.{Network};
ghost use Rattle.net_sheets.specs.declared.routes.Route.{Route};
ghost use Rattle.plan_ranks.specs.Loops.{IsRankFault};
ghost use Rattle.net_sheets.specs.Faults.{IsUnranked, IsPlanFault, IsRoutesFault, Refuses};
ghost use Rattle.plan_ranks.specs.Ranks.{with_ranks};
ghost use Rattle.net_sheets.specs.Events.{Leads, AddsPlan, AddsPlans};

use crate::building::refused;
use crate::faults::{Reason, SpotFault};
use crate::lists::push;
use crate::places::Spot;
use crate::records::spot_of;
use crate::routes::Route;
use crate::rows::{dest_of, point_of, read_rows};
use csv::ByteRecord;
use net_data::{Event, Net, Refusal};
use net_items::lookups::is_point;
use net_items::{GivenPlan, Plan, Row, Rows};
use plan_ranks::{RankFault, least_ranks};
use plan_rows::uses::is_in;
use point_codes::PointCode;
use std::alloc::{AllocError, Global};

/// Gives each row its rank.
fn set_ranks(rows: &mut Vec<Row>, ranks: &[u8])
    requires { length rows.old.items ≡ length ranks.now }
    ensures { rows.new.items ≡ with_ranks rows.old.items ranks.now }
{
    for (i, rank) in ranks.iter().enumerate() {
        let row = &mut rows[i];
        row.rank = *rank;
    }
}

/// The event of a plan.
pub(crate) fn plan_event(
    alloc: Global,
    dest: PointCode,
    rows: Vec<Row>,
) -> Result<Event, AllocError>
    ensures { IfOk result (λ event. event ≡ Event.SetPlan (record { dest = dest; rows = rows.items })) }
{
    let rows = Rows::from_vec(alloc, rows)?;
    Ok(Event::SetPlan(GivenPlan::new(alloc, Plan { dest, rows })?))
}

/// Applies an event.
pub(crate) fn apply_one(alloc: Global, net: &mut Net, event: Event) -> Result<(), Refusal>
    ensures ok { OnOk result (Leads net.old (event ∷ []) net.new) }
    ensures err { IfErr result (λ e. e ≢ Refusal.OutOfMemory → Refuses net.old event e) }
{
    net.apply_owned(alloc, event)
}

/// What is told of a plan whose rows have no ranks.
fn unranked(fault: RankFault) -> Reason
    ensures { (points : List Point) (dest : ℕ) (rows : List Row) → IsRankFault points dest rows fault → IsUnranked points dest rows result }
{
    match fault {
        RankFault::OutOfMemory => Reason::OutOfMemory,
        RankFault::MateLoop(one, other) => Reason::MateLoop(one, other),
        RankFault::Loop(points) => Reason::Loop(points),
        RankFault::TooDeep => Reason::TooDeep,
    }
}

/// Adds a plan of rows, with the least ranks.
fn add_plan(alloc: Global, net: &mut Net, dest: PointCode, mut rows: Vec<Row>) -> Result<(), Reason>
    ensures ok { OnOk result (AddsPlan net.old dest rows.items net.new) }
    ensures err { IfErr result (λ reason. IsPlanFault net.old dest rows.items reason) }
{
    let ranks = match least_ranks(alloc, net, dest, rows.as_slice()) {
        Ok(ranks) => ranks,
        Err(fault) => return Err(unranked(fault)),
    };
    set_ranks(&mut rows, ranks.as_slice());
    let event = plan_event(alloc, dest, rows)?;
    match apply_one(alloc, net, event) {
        Ok(()) => Ok(()),
        Err(refusal) => Err(refused(refusal)),
    }
}

/// The spot of the first way from a place on that is of a point, or of the way at the place.
fn spot_of_row(table: &[ByteRecord], routes: &[Route], start: usize, point: PointCode) -> Spot {
    for place in start..routes.len() {
        if point_of(&routes[place]) == point {
            return spot_of(table, place, 0);
        }
    }
    spot_of(table, start, 0)
}

/// The spot of the first point from a place on that the network doesn't have, or of the way at the place.
fn spot_of_missing(table: &[ByteRecord], net: &Net, routes: &[Route], start: usize) -> Spot {
    // The proof reads from this that the points stand in rising code.
    net.validity();
    for place in start..routes.len() {
        if !is_point(net.points(), dest_of(&routes[place])) {
            return spot_of(table, place, 1);
        }
        if !is_point(net.points(), point_of(&routes[place])) {
            return spot_of(table, place, 2);
        }
    }
    spot_of(table, start, 0)
}

/// The point whose row what is wrong with a plan is of.
fn point_in(reason: &Reason) -> Option<PointCode> {
    match reason {
        Reason::Refused(Refusal::BadRow(point, _)) => Some(*point),
        Reason::MateLoop(point, _) => Some(*point),
        Reason::Loop(points) => points.as_slice().first().copied(),
        _ => None,
    }
}

/// The spot of what is wrong with the plan whose ways begin at a place.
fn spot_in_plan(
    table: &[ByteRecord],
    net: &Net,
    routes: &[Route],
    start: usize,
    reason: &Reason,
) -> Spot {
    match point_in(reason) {
        Some(point) => spot_of_row(table, routes, start, point),
        None => match reason {
            Reason::Refused(Refusal::NoPoint) => spot_of_missing(table, net, routes, start),
            _ => spot_of(table, start, 0),
        },
    }
}

/// What is told of routes of a destination that has a plan among these, of which the first few have no rows.
fn repeated(dests: &[PointCode], bare: usize, dest: PointCode) -> Reason
    ensures { (old : Network) (bare : List ℕ) (routes : List Route) → IsRoutesFault old bare routes result }
{
    match dests.iter().position(|other| *other == dest) {
        Some(place) if place < bare => Reason::PlanBare,
        _ => Reason::SplitDestination,
    }
}

/// Adds the plans of ways, with the least ranks. There are plans of these destinations, which have no rows.
pub(crate) fn add_plans(
    alloc: Global,
    net: &mut Net,
    mut dests: Vec<PointCode>,
    table: &[ByteRecord],
    routes: &[Route],
) -> Result<(), SpotFault>
    requires { is_distinct dests.items ≡ true }
    ensures ok { OnOk result (AddsPlans net.old dests.items routes.now net.new) }
    ensures err { IfErr result (λ fault. IsRoutesFault net.old dests.items routes.now fault.reason) }
{
    let bare = dests.len();
    let mut at = 0;
    while at < routes.len() {
        let dest = dest_of(&routes[at]);
        if is_in(dests.as_slice(), dest) {
            let spot = spot_of(table, at, 0);
            let reason = repeated(dests.as_slice(), bare, dest);
            return Err(SpotFault { spot, reason });
        }
        let (rows, end) = read_rows(alloc, table, routes, dest, at)?;
        if let Err(reason) = add_plan(alloc, net, dest, rows) {
            let spot = spot_in_plan(table, net, routes, at, &reason);
            return Err(SpotFault { spot, reason });
        }
        push(&mut dests, dest)?;
        at = end;
    }
    Ok(())
}
