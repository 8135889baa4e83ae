//! What moved from a version to another.

ghost use Rattle.std.specs.Prelude.{◌≡◌, ◌++◌, ◌↔◌, [], IsTrue, true, IfOk, OnOk, map};
ghost use Rattle.std.specs.Option.{option_copied};
ghost use Rattle.transfer_state.specs.Routing.{routed_excerpt};
ghost use Rattle.what_if.specs.Reports.{each_dest, each_point};
ghost use Rattle.what_if.specs.Reroutes.{reroutes};

use crate::codes::dests_of_both;
use crate::comparing::{Difference, add_between};
use crate::reroutes::Reroutes;
use net_versions::Version;
use point_codes::PointCode;
use std::alloc::{AllocError, Global};
use transfer_state::Routing;

/// Whether codes are the same, in the same order.
fn are_same_codes(xs: &[PointCode], ys: &[PointCode]) -> bool
    ensures { IsTrue result ↔ (xs.now ≡ ys.now) }
{
    xs == ys
}

/// Whether two routings have rows of the same points.
fn has_same_points(before: &Routing, after: &Routing) -> bool
    ensures { IsTrue result ↔ (map (λ row. row.point) before.now.excerpt.plan.rows ≡ map (λ row. row.point) after.now.excerpt.plan.rows) }
{
    are_same_codes(
        before.excerpt().plan().rows.codes(),
        after.excerpt().plan().rows.codes(),
    )
}

/// Whether nothing is told towards a destination, as far as that shows at once.
fn is_untold<D: Difference>(
    before: Option<&Routing>,
    after: Option<&Routing>,
    dest: PointCode,
) -> bool
    ensures { result ≡ true → each_point D.told (routed_excerpt (option_copied before.entry)) (routed_excerpt (option_copied after.entry)) dest ≡ [] }
{
    match (before, after) {
        (Some(before), Some(after)) => {
            before.validity();
            after.validity();
            D::is_alike(before, Some(after)) && has_same_points(before, after)
        }
        _ => false,
    }
}

/// Adds what is told towards a destination, point by point unless it shows at once that this is nothing.
pub(crate) fn add_unlike<D: Difference>(
    alloc: Global,
    before: Option<&Routing>,
    after: Option<&Routing>,
    dest: PointCode,
    list: &mut Vec<D>,
) -> Result<(), AllocError>
    ensures { OnOk result (list.new.items ≡ list.old.items ++ each_point D.told (routed_excerpt (option_copied before.entry)) (routed_excerpt (option_copied after.entry)) dest) }
{
    if is_untold::<D>(before, after, dest) {
        return Ok(());
    }
    add_between(alloc, before, after, dest, list)
}

/// What is told from a version to another.
fn told_since<D: Difference>(
    alloc: Global,
    old: &Version,
    new: &Version,
) -> Result<Vec<D>, AllocError>
    ensures { IfOk result (λ v. v.items ≡ each_dest D.told old.now.network new.now.network) }
{
    let dests = dests_of_both(alloc, old.net().net(), new.net().net())?;
    let mut list = Vec::new(alloc);
    for dest in dests.as_slice() {
        let before = old.routing(*dest);
        let after = new.routing(*dest);
        add_unlike(alloc, before.as_ref(), after.as_ref(), *dest, &mut list)?;
    }
    Ok(list)
}

/// What moved from a version to another: each point whose choice towards a destination differs, by class, members or status. It
/// fails if memory is refused.
pub fn reroutes_since(alloc: Global, old: &Version, new: &Version) -> Result<Reroutes, AllocError>
    ensures { IfOk result (λ list. list ≡ reroutes old.now.network new.now.network) }
{
    Ok(Reroutes::from_vec(told_since(alloc, old, new)?))
}
