//! What is told from a network to another: of each point towards each destination, where something differs.

ghost use Rattle.std.specs.Prelude.{◌≡◌, ◌++◌, ◌<◌, [], ℕ, true, Some, IfOk, OnOk, length, slice_index_or};
ghost use Rattle.std.specs.Option.{option_copied};
ghost use Rattle.net_items.specs.declared.items.Plan.{Plan};
ghost use Rattle.excerpts.specs.Excerpt.{excerpt_at};
ghost use Rattle.excerpts.specs.Turned.{HasTurned};
ghost use Rattle.net_data.specs.Edits.{replay};
ghost use Rattle.transfer_state.specs.Routing.{routed_excerpt};
ghost use Rattle.what_if.specs.Reports.{choice_of, each_dest, each_point, told_of_plan, status_of as the_status};

use crate::changes::{Change, is_same};
use crate::codes::{dests_of_both, points_of_both};
use crate::versions::add_unlike;
use excerpts::{Ends, Excerpt, Frozen};
use net_data::Event;
use net_versions::Version;
use point_codes::PointCode;
use route_choice::Far;
use std::alloc::{AllocError, Global};
use transfer_state::{Choices, Routing};

/// What is told of a point towards a destination, where it isn't the same before and after.
pub(crate) trait Difference: Copy {
    ghost use Rattle.std.specs.Prelude.{◌≡◌, ◌++◌, [], ℕ, Option, OnOk, true};
    ghost use Rattle.std.specs.Option.{option_copied};
    ghost use Rattle.excerpts.specs.Excerpt.{ExcerptValue};
    ghost use Rattle.transfer_state.specs.Routing.{routed_excerpt};
    ghost use Rattle.what_if.specs.Reports.{choice_of, IsQuiet, Account};

    // What is told of the excerpts before and after.
    ghost told: { Account Self };

    /// Adds what is told of a point towards a destination.
    fn add(
        before: Option<&Routing>,
        after: Option<&Routing>,
        dest: PointCode,
        point: PointCode,
        list: &mut Vec<Self>,
    ) -> Result<(), AllocError>
        ensures { OnOk result (list.new.items ≡ list.old.items ++ told (routed_excerpt (option_copied before.entry)) (routed_excerpt (option_copied after.entry)) dest point) };

    /// Whether nothing is told of two routings whose rows are of the same points, as far as that shows at once.
    fn is_alike(before: &Routing, after: Option<&Routing>) -> bool
        ensures { result ≡ true → IsQuiet told before.now (option_copied after.entry) };

    /// Nothing is told of a point whose choice stays. It does nothing when it runs.
    fn stays()
        ensures { (old new : Option ExcerptValue) (dest point : ℕ) → choice_of old point ≡ choice_of new point → told old new dest point ≡ [] };
}

/// The status of a point, none if there is no plan or no row.
fn status_of(routing: Option<&Routing>, point: PointCode) -> Option<Far>
    ensures { result ≡ the_status (routed_excerpt (option_copied routing.entry)) point }
{
    match routing {
        Some(routing) => routing.row_status(point),
        None => None,
    }
}

/// A change is told of a point whose status differs.
impl Difference for Change {
    ghost use Rattle.what_if.specs.Reports.{change_between};

    ghost told = { change_between };

    fn add(
        before: Option<&Routing>,
        after: Option<&Routing>,
        dest: PointCode,
        point: PointCode,
        list: &mut Vec<Self>,
    ) -> Result<(), AllocError> {
        let (old, new) = (status_of(before, point), status_of(after, point));
        if !is_same(old, new) {
            list.push(Change {
                point,
                dest,
                before: old,
                after: new,
            })?;
        }
        Ok(())
    }

    #[tactic(auto, using(crate::proofs::UnchangedLemmas::alike_quiet))]
    fn is_alike(before: &Routing, after: Option<&Routing>) -> bool {
        match after {
            Some(after) => after.has_same_statuses(before),
            None => false,
        }
    }

    fn stays() {}
}

/// Adds what is told towards a destination.
pub(crate) fn add_between<D: Difference>(
    alloc: Global,
    before: Option<&Routing>,
    after: Option<&Routing>,
    dest: PointCode,
    list: &mut Vec<D>,
) -> Result<(), AllocError>
    ensures { OnOk result (list.new.items ≡ list.old.items ++ each_point D.told (routed_excerpt (option_copied before.entry)) (routed_excerpt (option_copied after.entry)) dest) }
{
    let points = points_of_both(alloc, before, after)?;
    for point in points.as_slice() {
        D::add(before, after, dest, *point, list)?;
    }
    Ok(())
}

/// Whether a destination reads the same in a network as before, so that each choice towards it stays.
fn reads_the_same(before: Option<&Routing>, net: &Frozen, dest: PointCode) -> bool
    ensures { result ≡ true → (point : ℕ) → choice_of (routed_excerpt (option_copied before.entry)) point ≡ choice_of (excerpt_at net.now dest) point }
{
    match before {
        Some(routing) => {
            let excerpt = routing.excerpt();
            excerpt.validity();
            net.net().validity();
            excerpt.is_of(net.net(), dest)
        }
        None => false,
    }
}

/// Whether no choice towards a destination changes, as far as that can be told without choosing a row anew.
fn keeps_choices(before: &Routing, after: &Excerpt, turned: &[Ends]) -> bool
    requires dest { after.now.plan.dest ≡ before.now.excerpt.plan.dest }
    requires turned { HasTurned before.now.excerpt.network after.now.network turned.now }
    ensures { result ≡ true → (point : ℕ) → choice_of (Some before.now.excerpt) point ≡ choice_of (Some after.now) point }
{
    before.excerpt().validity();
    after.validity();
    before.keeps_statuses(turned)
}

/// Adds what is told towards a destination, by its routing before and the ends of the sets that turned since.
fn add_followed<D: Difference>(
    alloc: Global,
    before: &Routing,
    excerpt: &Excerpt,
    turned: &[Ends],
    list: &mut Vec<D>,
) -> Result<(), AllocError>
    requires dest { excerpt.now.plan.dest ≡ before.now.excerpt.plan.dest }
    requires turned { HasTurned before.now.excerpt.network excerpt.now.network turned.now }
    ensures { OnOk result (list.new.items ≡ list.old.items ++ each_point D.told (Some before.now.excerpt) (Some excerpt.now) excerpt.now.plan.dest) }
{
    D::stays();
    if keeps_choices(before, excerpt, turned) {
        return Ok(());
    }
    let choices = before.follow(alloc, excerpt, turned)?;
    let after = Routing::by(excerpt.copy(), &choices);
    add_unlike(alloc, Some(before), Some(&after), excerpt.dest(), list)
}

/// Adds what is told towards the destination of the plan in a place, by the ends of the sets that turned.
fn add_in_place<D: Difference>(
    alloc: Global,
    version: &Version,
    net: &Frozen,
    turned: &[Ends],
    position: usize,
    list: &mut Vec<D>,
) -> Result<(), AllocError>
    requires turned { HasTurned version.now.network net.now turned.now }
    requires position { position < length net.now.plans }
    ensures { OnOk result ((d : Plan) → list.new.items ≡ list.old.items ++ told_of_plan D.told version.now.network net.now (slice_index_or net.now.plans position d)) }
{
    let before = version.routing_in_place(position);
    add_followed(
        alloc,
        &before,
        &Excerpt::in_place(net, position),
        turned,
        list,
    )
}

/// What is told from a version to a network, by the ends of the sets that turned.
fn told_followed<D: Difference>(
    alloc: Global,
    version: &Version,
    net: &Frozen,
    turned: &[Ends],
) -> Result<Vec<D>, AllocError>
    requires { HasTurned version.now.network net.now turned.now }
    ensures { IfOk result (λ v. v.items ≡ each_dest D.told version.now.network net.now) }
{
    net.validity();
    let mut list = Vec::new(alloc);
    for position in 0..net.net().plans().len() {
        add_in_place(alloc, version, net, turned, position, &mut list)?;
    }
    Ok(list)
}

/// Adds what is told towards a destination, settled anew if it doesn't read the same.
fn add_settled<D: Difference>(
    alloc: Global,
    before: Option<&Routing>,
    net: &Frozen,
    dest: PointCode,
    list: &mut Vec<D>,
) -> Result<(), AllocError>
    ensures { OnOk result (list.new.items ≡ list.old.items ++ each_point D.told (routed_excerpt (option_copied before.entry)) (excerpt_at net.now dest) dest) }
{
    D::stays();
    if reads_the_same(before, net, dest) {
        return Ok(());
    }
    let Some(excerpt) = Excerpt::of(net, dest) else {
        return add_unlike(alloc, before, None, dest, list);
    };
    let choices = Choices::of(alloc, &excerpt)?;
    let after = Routing::by(excerpt, &choices);
    add_unlike(alloc, before, Some(&after), dest, list)
}

/// What is told from a version to a network, each destination by what its table reads.
fn told_settled<D: Difference>(
    alloc: Global,
    version: &Version,
    net: &Frozen,
) -> Result<Vec<D>, AllocError>
    ensures { IfOk result (λ v. v.items ≡ each_dest D.told version.now.network net.now) }
{
    let dests = dests_of_both(alloc, version.net().net(), net.net())?;
    let mut list = Vec::new(alloc);
    for dest in dests.as_slice() {
        let before = version.routing(*dest);
        add_settled(alloc, before.as_ref(), net, *dest, &mut list)?;
    }
    Ok(list)
}

/// Nothing is told from a version to a network in which no set turned.
fn none_told<D: Difference>(
    alloc: Global,
    version: &Version,
    net: &Frozen,
    turned: &[Ends],
) -> Vec<D>
    requires none { turned.now ≡ [] }
    requires turned { HasTurned version.now.network net.now turned.now }
    ensures { result.items ≡ each_dest D.told version.now.network net.now }
{
    version.net().validity();
    net.validity();
    D::stays();
    // The proof speaks of the sets that turned.
    let _none = turned;
    Vec::new(alloc)
}

/// What is told from a version to the network that events make of its own.
pub(crate) fn told_after<D: Difference>(
    alloc: Global,
    version: &Version,
    net: &Frozen,
    events: &[Event],
) -> Result<Vec<D>, AllocError>
    requires { net.now ≡ replay version.now.network events.now }
    ensures { IfOk result (λ v. v.items ≡ each_dest D.told version.now.network net.now) }
{
    let Some(turned) = net.turned_by(alloc, version.net(), events)? else {
        return told_settled(alloc, version, net);
    };
    if turned.is_empty() {
        return Ok(none_told(alloc, version, net, &turned));
    }
    told_followed(alloc, version, net, &turned)
}
