//! Edits and their refusals.

ghost use Rattle.std.specs.Prelude.{◌≡◌, ◌↔◌, true, IsTrue, IfOk, IsOk};
ghost use Rattle.net_data.specs.Kinds.{is_link, is_of_links, is_of_points, is_of_sets, is_of_plans};

use link_state::LinkChange;
use net_items::copies::{copy_given, copy_slcs};
use net_items::equals::{are_same_slcs, is_same_change, is_same_plan};
use net_items::{GivenPlan, Kind, Slcs};
pub use plan_rows::causes::Cause;
use point_codes::PointCode;
use std::alloc::{AllocError, Global};

/// An edit of a network, or a change of a link's state.
#[derive(Drop)]
pub enum Event {
    /// A change of a link's marks: the set's id, the link's code, the change.
    Link(u16, u8, LinkChange),
    /// A new point, without a mate.
    AddPoint(PointCode, Kind),
    /// A point goes.
    RemovePoint(PointCode),
    /// Two transfer points become mates.
    Pair(PointCode, PointCode),
    /// A point and its mate are mates no longer.
    Unpair(PointCode),
    /// A new set: its id, its first and second point, the codes of its links, each with the failed mark alone.
    AddSet(u16, PointCode, PointCode, Slcs),
    /// A set goes.
    RemoveSet(u16),
    /// A new link of a set, with the failed mark alone.
    AddLink(u16, u8),
    /// A link of a set goes.
    RemoveLink(u16, u8),
    /// A plan, in the place of one of its destination.
    SetPlan(GivenPlan),
    /// The plan of a destination goes.
    DropPlan(PointCode),
    /// The option of transfer-restricted messages (Q.704 clause 13.4).
    SetTfr(bool),
}

/// Why an edit is refused, in the order in which refusals are tried; out of memory alone comes last.
#[derive(Clone, Copy, Debug, PartialEq, Eq)]
pub enum Refusal {
    /// Memory was refused.
    OutOfMemory,
    /// A point is not there.
    NoPoint,
    /// The point is there.
    PointThere,
    /// The point is an end of a set, a destination, or has a row.
    PointUsed,
    /// A point is no transfer point.
    NotStp,
    /// A point has a mate.
    Paired,
    /// The point has no mate.
    NotPaired,
    /// A row uses one of the two as the via of the other, or the mate.
    PairUsed,
    /// The set is not there.
    NoSet,
    /// The id is taken.
    SetThere,
    /// A set joins the two points: its id.
    Joined(u16),
    /// The two points are one.
    SameEnds,
    /// No link, too many, a code above 15, or one twice.
    BadLinks,
    /// The link is not there.
    NoLink,
    /// The link is there.
    LinkThere,
    /// The set has no other link.
    LastLink,
    /// A row leads over the set.
    SetUsed,
    /// The destination has no plan.
    NoPlan,
    /// The first wrong row of a plan, in the order given: its point and its first cause.
    BadRow(PointCode, Cause),
    /// A limit: 1,024 points, set ids up to 4,095, ranks from 1, four classes of one or two vias.
    Limit,
}

impl Event {
    /// A copy. It takes no memory for an event without a list, a change of a link among them.
    pub fn copy(&self, alloc: Global) -> Result<Event, AllocError>
        ensures copy { IfOk result (λ e. e ≡ self.now) }
        ensures no_memory { is_link self.now ≡ true → IsOk result }
    {
        Ok(match self {
            Event::Link(id, slc, change) => Event::Link(*id, *slc, *change),
            Event::AddPoint(code, kind) => Event::AddPoint(*code, *kind),
            Event::RemovePoint(code) => Event::RemovePoint(*code),
            Event::Pair(p, q) => Event::Pair(*p, *q),
            Event::Unpair(p) => Event::Unpair(*p),
            Event::AddSet(id, a, b, slcs) => Event::AddSet(*id, *a, *b, copy_slcs(alloc, slcs)?),
            Event::RemoveSet(id) => Event::RemoveSet(*id),
            Event::AddLink(id, slc) => Event::AddLink(*id, *slc),
            Event::RemoveLink(id, slc) => Event::RemoveLink(*id, *slc),
            Event::SetPlan(plan) => Event::SetPlan(copy_given(alloc, plan)?),
            Event::DropPlan(dest) => Event::DropPlan(*dest),
            Event::SetTfr(tfr) => Event::SetTfr(*tfr),
        })
    }

    /// Whether all is equal.
    pub fn equals(&self, other: &Event) -> bool
        ensures { IsTrue result ↔ (self.now ≡ other.now) }
    {
        match self {
            Event::Link(..) | Event::AddLink(..) | Event::RemoveLink(..) => {
                is_same_of_links(self, other)
            }
            Event::AddPoint(..) | Event::RemovePoint(_) | Event::Pair(..) | Event::Unpair(_) => {
                is_same_of_points(self, other)
            }
            Event::AddSet(..) | Event::RemoveSet(_) => is_same_of_sets(self, other),
            Event::SetPlan(_) | Event::DropPlan(_) | Event::SetTfr(_) => {
                is_same_of_plans(self, other)
            }
        }
    }
}

/// Whether an event of links is equal to another.
fn is_same_of_links(one: &Event, other: &Event) -> bool
    requires { is_of_links one.now ≡ true }
    ensures { IsTrue result ↔ (one.now ≡ other.now) }
{
    match (one, other) {
        (Event::Link(id, slc, change), Event::Link(id2, slc2, change2)) => {
            id == id2 && slc == slc2 && is_same_change(*change, *change2)
        }
        (Event::AddLink(id, slc), Event::AddLink(id2, slc2)) => id == id2 && slc == slc2,
        (Event::RemoveLink(id, slc), Event::RemoveLink(id2, slc2)) => id == id2 && slc == slc2,
        _ => false,
    }
}

/// Whether an event of points or of pairs is equal to another.
fn is_same_of_points(one: &Event, other: &Event) -> bool
    requires { is_of_points one.now ≡ true }
    ensures { IsTrue result ↔ (one.now ≡ other.now) }
{
    match (one, other) {
        (Event::AddPoint(code, kind), Event::AddPoint(code2, kind2)) => {
            code == code2 && kind == kind2
        }
        (Event::RemovePoint(code), Event::RemovePoint(code2)) => code == code2,
        (Event::Pair(p, q), Event::Pair(p2, q2)) => p == p2 && q == q2,
        (Event::Unpair(p), Event::Unpair(p2)) => p == p2,
        _ => false,
    }
}

/// Whether an event of sets is equal to another.
fn is_same_of_sets(one: &Event, other: &Event) -> bool
    requires { is_of_sets one.now ≡ true }
    ensures { IsTrue result ↔ (one.now ≡ other.now) }
{
    match (one, other) {
        (Event::AddSet(id, a, b, slcs), Event::AddSet(id2, a2, b2, slcs2)) => {
            id == id2 && a == a2 && b == b2 && are_same_slcs(slcs.as_slice(), slcs2.as_slice())
        }
        (Event::RemoveSet(id), Event::RemoveSet(id2)) => id == id2,
        _ => false,
    }
}

/// Whether an event of plans or of the option is equal to another.
fn is_same_of_plans(one: &Event, other: &Event) -> bool
    requires { is_of_plans one.now ≡ true }
    ensures { IsTrue result ↔ (one.now ≡ other.now) }
{
    match (one, other) {
        (Event::SetPlan(plan), Event::SetPlan(plan2)) => {
            is_same_plan(plan.as_plan(), plan2.as_plan())
        }
        (Event::DropPlan(dest), Event::DropPlan(dest2)) => dest == dest2,
        (Event::SetTfr(tfr), Event::SetTfr(tfr2)) => tfr == tfr2,
        _ => false,
    }
}
