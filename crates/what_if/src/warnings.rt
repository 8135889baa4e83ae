//! What a planner is warned of.

ghost use Rattle.std.specs.Prelude.{◌≡◌, ◌++◌, IfOk, OnOk};
ghost use Rattle.std.specs.List.{flat_map, list_any};
ghost use Rattle.what_if.specs.Warnings.{failure, is_joined_in as joined_in, is_reached as reached, lacks_row as row_lacking, missing_plan, missing_row, plan_warnings, point_warnings, shape_warnings, unnamed, unreached, unused, warnings_by as the_warnings_by, warnings_of as the_warnings};

use crate::survey::{Effect, Single, Survey, survey_version};
use link_sets::other_end;
use net_building::Surveyed;
use net_data::Net;
use net_items::{LinkSet, Listing, Plan, Point};
use net_versions::Version;
use plan_rows::uses::uses_point;
use point_codes::PointCode;
use std::alloc::{AllocError, Global};

/// What a planner is warned of.
#[derive(Clone, Copy, Debug, PartialEq, Eq)]
pub enum Warning {
    /// The point has no row in the plan of the destination, though a set joins it to a point that has one, or to the destination.
    MissingRow(PointCode, PointCode),
    /// The point has no plan, though the destination, whose mate it is, has one.
    MissingPlan(PointCode, PointCode),
    /// No row leads traffic to the point: it has no plan, or one without rows.
    Unreached(PointCode),
    /// No plan is of the point or has a row of it.
    Unnamed(PointCode),
    /// No row of any plan leads over the set of this id.
    Unused(u16),
    /// The failure of the set of this id alone takes so many pairs of a point and a destination.
    SetFails(u16, usize),
    /// The failure of the transfer point of this code alone, with all sets that end there, takes so many.
    PointFails(PointCode, usize),
}

/// Warnings in their order.
pub type Warnings = Listing<Warning>;

/// Whether a set joins a point to one that a plan has a row of, or to its destination.
fn is_joined_in(plan: &Plan, point: PointCode, set: &LinkSet) -> bool
    ensures { result ≡ joined_in plan.now point set.now }
{
    match other_end(set, point) {
        Some(other) => uses_point(other, plan),
        None => false,
    }
}

/// Whether a set of these joins a point to one that a plan has a row of, or to its destination.
fn is_joined_by(sets: &[LinkSet], plan: &Plan, point: PointCode) -> bool
    ensures { result ≡ list_any (joined_in plan.now point) sets.now }
{
    sets.iter().any(|set| is_joined_in(plan, point, set))
}

/// Whether a plan has no row of a point, though a set joins it to one that has one, or to the destination.
fn lacks_row(sets: &[LinkSet], plan: &Plan, point: &Point) -> bool
    ensures { result ≡ row_lacking sets.now plan.now point.now }
{
    !uses_point(point.code, plan) && is_joined_by(sets, plan, point.code)
}

/// Adds that points lack a row of a plan.
fn put_missing_rows(warnings: &mut Vec<Warning>, net: &Net, plan: &Plan) -> Result<(), AllocError>
    ensures { OnOk result (warnings.new.items ≡ warnings.old.items ++ flat_map (missing_row net.now.sets plan.now) net.now.points) }
{
    let sets = net.sets();
    for point in net.points() {
        if lacks_row(sets, plan, point) {
            warnings.push(Warning::MissingRow(point.code, plan.dest))?;
        }
    }
    Ok(())
}

/// Adds that the destination's mate has no plan, if it has a mate without one.
fn put_missing_plan(warnings: &mut Vec<Warning>, net: &Net, plan: &Plan) -> Result<(), AllocError>
    ensures { OnOk result (warnings.new.items ≡ warnings.old.items ++ missing_plan net.now plan.now) }
{
    net.validity();
    match net.mate_of(plan.dest) {
        Some(mate) if !net.plans().has(mate) => {
            Ok(warnings.push(Warning::MissingPlan(mate, plan.dest))?)
        }
        _ => Ok(()),
    }
}

/// Adds what is missing in a plan, or beside it.
fn put_of_plan(warnings: &mut Vec<Warning>, net: &Net, plan: &Plan) -> Result<(), AllocError>
    ensures { OnOk result (warnings.new.items ≡ warnings.old.items ++ plan_warnings net.now plan.now) }
{
    put_missing_rows(warnings, net, plan)?;
    put_missing_plan(warnings, net, plan)
}

/// Adds what is missing in the plans of a network, or beside them.
fn put_of_plans(warnings: &mut Vec<Warning>, net: &Net) -> Result<(), AllocError>
    ensures { OnOk result (warnings.new.items ≡ warnings.old.items ++ flat_map (plan_warnings net.now) net.now.plans) }
{
    let plans = net.plans();
    for position in 0..plans.len() {
        put_of_plan(warnings, net, plans.at(position))?;
    }
    Ok(())
}

/// Whether a point has a plan with a row.
fn is_reached(net: &Net, point: PointCode) -> bool
    ensures { result ≡ reached net.now.plans point }
{
    net.validity();
    match net.plans().find(point) {
        Some(plan) => !plan.rows.as_slice().is_empty(),
        None => false,
    }
}

/// Adds that no row leads traffic to a point, if none does.
fn put_unreached(warnings: &mut Vec<Warning>, net: &Net, point: &Point) -> Result<(), AllocError>
    ensures { OnOk result (warnings.new.items ≡ warnings.old.items ++ unreached net.now.plans point.now) }
{
    if is_reached(net, point.code) {
        return Ok(());
    }
    Ok(warnings.push(Warning::Unreached(point.code))?)
}

/// Adds that no plan is of a point or has a row of it, if none is or has.
fn put_unnamed(warnings: &mut Vec<Warning>, net: &Net, point: &Point) -> Result<(), AllocError>
    ensures { OnOk result (warnings.new.items ≡ warnings.old.items ++ unnamed net.now.plans point.now) }
{
    if net.plans().any_uses_point(point.code) {
        return Ok(());
    }
    Ok(warnings.push(Warning::Unnamed(point.code))?)
}

/// Adds what no plan does for the points of a network.
fn put_of_points(warnings: &mut Vec<Warning>, net: &Net) -> Result<(), AllocError>
    ensures { OnOk result (warnings.new.items ≡ warnings.old.items ++ flat_map (point_warnings net.now.plans) net.now.points) }
{
    for point in net.points() {
        put_unreached(warnings, net, point)?;
        put_unnamed(warnings, net, point)?;
    }
    Ok(())
}

/// Adds that no row leads over a set, if none does.
fn put_unused(warnings: &mut Vec<Warning>, net: &Net, set: &LinkSet) -> Result<(), AllocError>
    ensures { OnOk result (warnings.new.items ≡ warnings.old.items ++ unused net.now set.now) }
{
    net.validity();
    if net.plans().any_uses_set(net.points(), set) {
        return Ok(());
    }
    Ok(warnings.push(Warning::Unused(set.id))?)
}

/// Adds which sets of a network no row leads over.
fn put_of_sets(warnings: &mut Vec<Warning>, net: &Net) -> Result<(), AllocError>
    ensures { OnOk result (warnings.new.items ≡ warnings.old.items ++ flat_map (unused net.now) net.now.sets) }
{
    for set in net.sets() {
        put_unused(warnings, net, set)?;
    }
    Ok(())
}

/// Adds what is missing in a network, and what isn't used.
fn put_shape(warnings: &mut Vec<Warning>, net: &Net) -> Result<(), AllocError>
    ensures { OnOk result (warnings.new.items ≡ warnings.old.items ++ shape_warnings net.now) }
{
    put_of_plans(warnings, net)?;
    put_of_points(warnings, net)?;
    put_of_sets(warnings, net)
}

/// Adds what a single failure takes; nothing of a repair.
fn put_failure(warnings: &mut Vec<Warning>, effect: &Effect) -> Result<(), AllocError>
    ensures { OnOk result (warnings.new.items ≡ warnings.old.items ++ failure effect.now) }
{
    match effect.single {
        Single::SetFails(id) => Ok(warnings.push(Warning::SetFails(id, effect.pairs))?),
        Single::PointFails(code) => Ok(warnings.push(Warning::PointFails(code, effect.pairs))?),
        Single::SetRestored(_) => Ok(()),
    }
}

/// Adds what single failures take.
fn put_failures(warnings: &mut Vec<Warning>, effects: &[Effect]) -> Result<(), AllocError>
    ensures { OnOk result (warnings.new.items ≡ warnings.old.items ++ flat_map failure effects.now) }
{
    for effect in effects {
        put_failure(warnings, effect)?;
    }
    Ok(())
}

/// All that a planner is warned of in a network, by the surveys of its sets and of its transfer points.
///
/// # Errors
///
/// `AllocError` if memory is refused.
pub fn warnings_by(
    alloc: Global,
    net: &Net,
    sets: &Survey,
    points: &Survey,
) -> Result<Warnings, AllocError>
    ensures { IfOk result (λ warnings. warnings ≡ the_warnings_by net.now sets.now.effects points.now.effects) }
{
    let mut list = Vec::new(alloc);
    put_shape(&mut list, net)?;
    put_failures(&mut list, sets.effects.as_slice())?;
    put_failures(&mut list, points.effects.as_slice())?;
    Ok(Warnings::from_vec(list))
}

/// All that a planner is warned of in a version's network (own, after Q.704 clauses 3.2 and 4).
///
/// # Errors
///
/// `AllocError` if memory is refused.
pub fn warnings_of(alloc: Global, version: &Version) -> Result<Warnings, AllocError>
    ensures { IfOk result (λ warnings. warnings ≡ the_warnings version.now.network) }
{
    let sets = survey_version(alloc, version, Surveyed::Sets)?;
    let points = survey_version(alloc, version, Surveyed::Points)?;
    warnings_by(alloc, version.net().net(), &sets, &points)
}
