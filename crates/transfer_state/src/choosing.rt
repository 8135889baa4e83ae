//! What one row uses, by the statuses of other points.

ghost use Rattle.std.specs.Prelude.{◌≡◌, ◌≤◌, ◌↔◌, ◌∷◌, IsTrue, true, Bool, List, Option, is_some, length, All, map};
ghost use Rattle.std.specs.Option.{IfSome};
ghost use Rattle.route_choice.specs.declared.choices.Far.TheVariants.{Allowed};
ghost use Rattle.route_choice.specs.Routes.{choose, has_via, offered, offered_in, mate_of_pair, Offer};
ghost use Rattle.profile.specs.Status.{offers, offer, choice_by, mate_offer as mate_offer_by};
ghost use Rattle.profile.specs.Valid.{IsSmall, IsValidRow};
ghost use Rattle.excerpts.specs.Excerpt.{source_of};
ghost use Rattle.transfer_state.specs.Kept.{kept, IsChosenFirst};
ghost use Rattle.transfer_state.specs.Told.{far_by, far_from, offer_connected, AreFull, AreJoined};

use crate::kept::Kept;
use excerpts::Excerpt;
use net_items::Row;
use point_codes::PointCode;
use route_choice::{Choice, Far};

/// What tells the far status of each point.
#[derive(Clone, Copy, Drop)]
pub(crate) enum Statuses<'a> {
    /// A table of all codes.
    Table(&'a [Far]),
    /// What is kept of the choices of the rows, in their places.
    Choices(&'a [Kept]),
}

/// The rows of an excerpt's plan.
pub(crate) fn rows_of<'a>(e: &'a Excerpt) -> &'a [Row]
    ensures { result.now ≡ e.now.plan.rows }
{
    e.plan().rows.as_slice()
}

/// Whether the statuses are the same.
pub(crate) fn is_same_status(one: Far, other: Far) -> bool
    ensures { IsTrue result ↔ (one ≡ other) }
{
    one == other
}

/// The far status of a point by the choices of the rows.
pub(crate) fn far_by_choices(e: &Excerpt, choices: &[Kept], code: PointCode) -> Far
    requires { length choices.now ≡ length e.now.plan.rows }
    ensures { result ≡ far_from (source_of e.now) choices.now code }
{
    e.validity();
    if code == e.dest() {
        return Far::Allowed;
    }
    match e.position_by_code(code) {
        Ok(at) => choices[at].status(),
        Err(_) => Far::Prohibited,
    }
}

/// The far status of a point.
fn far_of(e: &Excerpt, statuses: &Statuses<'_>, code: PointCode) -> Far
    requires { AreFull (source_of e.now) statuses.now }
    ensures { result ≡ far_by (source_of e.now) statuses.now code }
{
    match statuses {
        Statuses::Table(fars) => fars[usize::from(code.number())],
        Statuses::Choices(choices) => far_by_choices(e, choices, code),
    }
}

/// What a point is offered over a via: prohibited if no available set joins them.
fn offer_of(e: &Excerpt, statuses: &Statuses<'_>, point: PointCode, via: PointCode) -> Far
    requires { AreFull (source_of e.now) statuses.now }
    ensures { result ≡ (offer (source_of e.now) (far_by (source_of e.now) statuses.now) point via).far }
{
    if e.is_connected(point, via) {
        far_of(e, statuses, via)
    } else {
        Far::Prohibited
    }
}

/// What a point is offered over the vias of a class, in their places.
fn fars_in(e: &Excerpt, statuses: &Statuses<'_>, point: PointCode, vias: &[PointCode]) -> [Far; 2]
    requires full { AreFull (source_of e.now) statuses.now }
    requires small { length vias.now ≤ 2 }
    ensures { offered_in vias.now result ≡ map (offer (source_of e.now) (far_by (source_of e.now) statuses.now) point) vias.now }
{
    match vias {
        [] => [Far::Prohibited, Far::Prohibited],
        [only] => [offer_of(e, statuses, point, *only), Far::Prohibited],
        [first, second, ..] => [
            offer_of(e, statuses, point, *first),
            offer_of(e, statuses, point, *second),
        ],
    }
}

/// What a row is offered over its vias, in their places.
pub(crate) fn fars_of(e: &Excerpt, statuses: &Statuses<'_>, row: &Row) -> [[Far; 2]; 4]
    requires full { AreFull (source_of e.now) statuses.now }
    requires few { length row.now.classes ≤ 4 }
    requires small { All (λ vias. length vias ≤ 2) row.now.classes }
    ensures { offered row.now.classes result ≡ offers (source_of e.now) (far_by (source_of e.now) statuses.now) row.now }
{
    let mut offers = [[Far::Prohibited; 2]; 4];
    let classes = row.classes.as_slice();
    for (i, vias) in classes.iter().enumerate() {
        offers[i] = fars_in(e, statuses, row.point, vias.as_slice());
    }
    offers
}

/// The mate of a row with its direct status, where the row may use it.
fn mate_offer(e: &Excerpt, statuses: &Statuses<'_>, row: &Row) -> Option<(PointCode, Far)>
    requires { AreFull (source_of e.now) statuses.now }
    ensures { mate_of_pair result ≡ mate_offer_by (source_of e.now) (far_by (source_of e.now) statuses.now) row.now }
{
    e.validity();
    if !row.mate {
        return None;
    }
    let point = e.mate_of(row.point)?;
    let mate = e.row(point)?;
    if e.is_connected(row.point, mate.point) {
        let status = route_choice::direct(mate, &fars_of(e, statuses, mate), e.tfr());
        Some((mate.point, status))
    } else {
        None
    }
}

/// What a row uses, by the statuses of other points.
fn choice_of(e: &Excerpt, statuses: &Statuses<'_>, row: &Row) -> Choice
    requires full { AreFull (source_of e.now) statuses.now }
    requires small { IsSmall row.now }
    ensures { result ≡ choice_by (source_of e.now) (far_by (source_of e.now) statuses.now) row.now }
{
    let mate = mate_offer(e, statuses, row);
    route_choice::choose(row, &fars_of(e, statuses, row), mate, e.tfr())
}

/// What is offered over the vias of a class, in their places, if all are connected.
fn fars_connected(e: &Excerpt, statuses: &Statuses<'_>, vias: &[PointCode]) -> [Far; 2]
    requires full { AreFull (source_of e.now) statuses.now }
    requires small { length vias.now ≤ 2 }
    ensures { offered_in vias.now result ≡ map (offer_connected (far_by (source_of e.now) statuses.now)) vias.now }
{
    match vias {
        [] => [Far::Prohibited, Far::Prohibited],
        [only] => [far_of(e, statuses, *only), Far::Prohibited],
        [first, second, ..] => [far_of(e, statuses, *first), far_of(e, statuses, *second)],
    }
}

/// What a point is offered over the vias of a class, in their places, each of which a set joins to it.
fn fars_joined(
    e: &Excerpt,
    statuses: &Statuses<'_>,
    point: PointCode,
    vias: &[PointCode],
) -> [Far; 2]
    requires full { AreFull (source_of e.now) statuses.now }
    requires small { length vias.now ≤ 2 }
    requires joined { AreJoined e.now.network.sets point vias.now }
    ensures { offered_in vias.now result ≡ map (offer (source_of e.now) (far_by (source_of e.now) statuses.now) point) vias.now }
{
    // Mostly no set of the point has to be looked for.
    if e.is_intact(point) {
        fars_connected(e, statuses, vias)
    } else {
        fars_in(e, statuses, point, vias)
    }
}

/// What is kept of the choice of a row whose first class offers this, if one of its vias is allowed: then neither the classes behind
/// it nor the mate count.
fn first_kept(vias: &[PointCode], fars: &[Far; 2]) -> Option<Kept>
    requires { length vias.now ≤ 2 }
    ensures allowed { is_some result ≡ true → has_via Allowed (offered_in vias.now fars.now) ≡ true }
    ensures keeps { IfSome result (λ k. (tfr : Bool) (later : List (List Offer)) (mate : Option Offer) → k ≡ kept (choose tfr (offered_in vias.now fars.now ∷ later) mate)) }
{
    let first = fars[0].is_same_as(Far::Allowed);
    let second = fars[1].is_same_as(Far::Allowed);
    match vias {
        [_] if first => Some(Kept::of_first(true, false)),
        [_, _] if first | second => Some(Kept::of_first(first, second)),
        _ => None,
    }
}

/// What is kept of a row's choice, if a via of its first class is allowed: then its mate doesn't count, whatever it offers.
pub(crate) fn first_choice(e: &Excerpt, statuses: &Statuses<'_>, row: &Row) -> Option<Kept>
    requires full { AreFull (source_of e.now) statuses.now }
    requires valid { IsValidRow (source_of e.now) row.now }
    ensures { IfSome result (IsChosenFirst (source_of e.now) (far_by (source_of e.now) statuses.now) row.now) }
{
    match row.classes.as_slice() {
        [vias, ..] => {
            let vias = vias.as_slice();
            first_kept(vias, &fars_joined(e, statuses, row.point, vias))
        }
        [] => None,
    }
}

/// What is kept of what a row uses, by the statuses of other points.
pub(crate) fn kept_choice(e: &Excerpt, statuses: &Statuses<'_>, row: &Row) -> Kept
    requires full { AreFull (source_of e.now) statuses.now }
    requires valid { IsValidRow (source_of e.now) row.now }
    ensures { result ≡ kept (choice_by (source_of e.now) (far_by (source_of e.now) statuses.now) row.now) }
{
    // Mostly the first class serves.
    match first_choice(e, statuses, row) {
        Some(kept) => kept,
        None => Kept::of(&choice_of(e, statuses, row)),
    }
}
