//! The excerpt of one destination.

ghost use Rattle.std.specs.Prelude.{◌≡◌, ◌↔◌, ◌<◌, IsTrue, true, Some, IfErr, IfOk, is_some, length, slice_index_or};
ghost use Rattle.std.specs.Option.{option_copied, option_map, IfSome};
ghost use Rattle.net_items.specs.Keyed.{IsRising, IsFoundAt, IsGapAt};
ghost use Rattle.net_items.specs.declared.items.Plan.{Plan};
ghost use Rattle.net_items.specs.Lookups.{point_at, mate_of as the_mate, is_stp as stp_is, plan_at, row_at, set_between as between};
ghost use Rattle.link_sets.specs.Availability.{connected};
ghost use Rattle.link_sets.specs.Neighbours.{neighbours as neighbours_of};
ghost use Rattle.excerpts.specs.Around.{neighbours_left};
ghost use Rattle.excerpts.specs.Excerpt.{ExcerptValue, content_at, content_in, content_of, excerpt_at, excerpt_in, is_read_by, leads as row_leads, IsRight};
ghost use Rattle.excerpts.specs.Intact.{IsIntact};

use crate::positions::{is_expected, is_near, point_by, position_by_code, position_in_rows};
use crate::reading::{are_same_reads, are_same_row_points, is_read};
use crate::shared::SharedExcerpt;
use crate::{Frozen, Neighbours};
use net_data::{Net, Plans};
use net_items::equals::{are_same_points, are_same_sets, is_same_plan};
use net_items::{Kind, LinkSet, Plan, Point, Row};
use plan_rows::uses::is_via;
use point_codes::PointCode;
use std::alloc::AllocError;
use std::marker::Model;

/// What the table of one destination reads of a network (own): the network and the plan, as they stand there.
#[derive(Drop)]
pub struct Excerpt<'a> {
    net: &'a Frozen,
    plan: &'a Plan,
}

impl<'a> Model for Excerpt<'a> {
    ghost use Rattle.excerpts.specs.Excerpt.{ExcerptValue, IsRight};

    ghost Value = { ExcerptValue };

    ghost view = { λ e. record { network = e.net.now; plan = e.plan.now } };

    ghost invariant = { λ e. IsRight (record { network = e.net.now; plan = e.plan.now }) };
}

/// The plan of a destination, looked for first in a place.
fn plan_near(plans: &Plans, first: usize, dest: PointCode) -> Option<&Plan>
    requires { IsRising (λ p. p.dest) plans.now }
    ensures { option_copied result ≡ plan_at plans.entry.now dest }
{
    if first < plans.len() && plans.at(first).dest == dest {
        return Some(plans.at(first));
    }
    plans.find(dest)
}

/// Whether the points and the sets of two networks are equal.
fn are_same_lists(net: &Net, other: &Net) -> bool
    ensures { IsTrue result ↔ ((net.now.points ≡ other.now.points) × (net.now.sets ≡ other.now.sets)) }
{
    are_same_points(net.points(), other.points()) && are_same_sets(net.sets(), other.sets())
}

/// Whether the tables of a plan read the same points and sets of two networks.
fn are_same_readings(net: &Net, plan: &Plan, other_net: &Net) -> bool
    requires { IsRising (λ r. r.point) plan.now.rows }
    ensures { IsTrue result ↔ (((content_in net.now plan.now).points ≡ (content_in other_net.now plan.now).points) × ((content_in net.now plan.now).sets ≡ (content_in other_net.now plan.now).sets)) }
{
    net.validity();
    other_net.validity();
    // Mostly the networks are the same, which is seen sooner.
    are_same_lists(net, other_net)
        || (are_same_row_points(plan.rows.as_slice(), net.points(), other_net.points())
            && are_same_reads(
                plan,
                net.points(),
                net.sets(),
                other_net.points(),
                other_net.sets(),
            ))
}

/// Whether the tables of two plans read the same of their networks.
fn is_same_content(net: &Net, plan: &Plan, other_net: &Net, other_plan: &Plan) -> bool
    requires { IsRising (λ r. r.point) plan.now.rows }
    ensures { IsTrue result ↔ (content_in net.now plan.now ≡ content_in other_net.now other_plan.now) }
{
    net.tfr() == other_net.tfr()
        && is_same_plan(plan, other_plan)
        && are_same_readings(net, plan, other_net)
}

impl<'a> Excerpt<'a> {
    /// The excerpt of a network and one of its plans.
    pub(crate) fn by(net: &'a Frozen, plan: &'a Plan) -> Excerpt<'a>
        requires { IsRight (excerpt_in net.now plan.now) }
        ensures { result ≡ excerpt_in net.entry.now plan.entry.now }
    {
        Excerpt { net, plan }
    }

    /// The excerpt of a destination, if the network has a plan for it. Nothing is copied or counted.
    pub fn of(net: &'a Frozen, dest: PointCode) -> Option<Excerpt<'a>>
        ensures { result ≡ excerpt_at net.entry.now dest }
    {
        net.validity();
        let plans = net.net().plans();
        let plan = plan_near(plans, net.expected(plans.len(), dest), dest)?;
        Some(Excerpt::by(net, plan))
    }

    /// The excerpt of the plan in a place of a network's plans.
    pub fn in_place(net: &'a Frozen, position: usize) -> Excerpt<'a>
        requires { position < length net.now.plans }
        ensures { (d : Plan) → result ≡ excerpt_in net.entry.now (slice_index_or net.entry.now.plans position d) }
    {
        net.validity();
        Excerpt::by(net, net.net().plans().at(position))
    }

    /// The facts that the type keeps: the network is valid and has the plan. It does nothing when it runs.
    pub fn validity(&self)
        ensures { IsRight self.now }
    {
        // The proof reads the type's invariant from this.
        let _net = self.net;
    }

    /// The same excerpt once more. Nothing is copied or counted.
    pub fn copy(&self) -> Excerpt<'a>
        ensures { result ≡ self.now }
    {
        Excerpt {
            net: self.net,
            plan: self.plan,
        }
    }

    /// The same excerpt, which shares the network and the plan, so that it lasts. It fails only if no further share can be counted.
    pub fn share(&self) -> Result<SharedExcerpt, AllocError>
        ensures { IfOk result (λ e. e ≡ self.now) }
    {
        self.validity();
        match SharedExcerpt::of(self.net, self.dest()) {
            Ok(excerpt) => Ok(excerpt),
            Err(_) => Err(AllocError),
        }
    }

    /// The destination.
    pub fn dest(&self) -> PointCode
        ensures { result ≡ self.now.plan.dest }
    {
        self.plan.dest
    }

    /// The plan of the destination.
    pub fn plan(&self) -> &Plan
        ensures { result.now ≡ self.now.plan }
    {
        self.plan
    }

    /// The position of a point's row among the plan's rows, or where it would go.
    pub fn position_of_row(&self, point: PointCode) -> Result<usize, usize>
        ensures found { IfOk result (IsFoundAt (λ r. r.point) point self.now.plan.rows) }
        ensures absent { IfErr result (IsGapAt (λ r. r.point) point self.now.plan.rows) }
    {
        self.validity();
        position_in_rows(self.net.order(), self.plan.rows.as_slice(), point)
    }

    /// The same, for who reads what stands at that position beside the rows, and not the row: the codes of the rows tell it.
    pub fn position_by_code(&self, point: PointCode) -> Result<usize, usize>
        ensures found { IfOk result (IsFoundAt (λ r. r.point) point self.now.plan.rows) }
        ensures absent { IfErr result (IsGapAt (λ r. r.point) point self.now.plan.rows) }
    {
        self.validity();
        position_by_code(self.net.order(), &self.plan.rows, point)
    }

    /// Whether the row of a point stands where it is looked for first, by the codes of the rows. Nothing rests on what this tells; who
    /// asks it of several points, before he asks for their positions one by one, has their codes come from memory side by side.
    pub fn is_expected(&self, point: PointCode) -> bool {
        is_expected(self.net.order(), &self.plan.rows, point)
    }

    /// Whether the row of a point stands near there. Nothing rests on what this tells; who asks it of several points, before he asks
    /// for their rows one by one, has these come from memory side by side.
    pub fn is_near(&self, point: PointCode) -> bool {
        is_near(self.net.order(), &self.plan.rows, point)
    }

    /// The row of a point, if it has one.
    pub fn row(&self, point: PointCode) -> Option<&Row>
        ensures { option_copied result ≡ row_at self.now.plan.rows point }
    {
        let rows = self.plan.rows.as_slice();
        match self.position_of_row(point) {
            Ok(at) => Some(&rows[at]),
            Err(_) => None,
        }
    }

    /// Whether the row of a point leads to another point.
    pub fn leads(&self, point: PointCode, other: PointCode) -> bool
        ensures { result ≡ row_leads self.now.plan.rows point other }
    {
        self.position_leading(point, other, self.is_stp(other))
            .is_some()
    }

    /// The position of the row of a point, if it leads to another, of which it is known whether it is a transfer point. A row leads to
    /// the destination and to transfer points alone, so for any other point it isn't read.
    pub fn position_leading(
        &self,
        point: PointCode,
        other: PointCode,
        transfers: bool,
    ) -> Option<usize>
        requires { transfers ≡ stp_is self.now.network.points other }
        ensures place { IfSome result (IsFoundAt (λ r. r.point) point self.now.plan.rows) }
        ensures leads { is_some result ≡ row_leads self.now.plan.rows point other }
    {
        self.validity();
        if other != self.dest() {
            if !transfers {
                return None;
            }
        }
        let at = self.position_by_code(point).ok()?;
        let leads = is_via(&self.plan.rows.as_slice()[at], other);
        leads.then_some(at)
    }

    /// The point of a code.
    fn point(&self, code: PointCode) -> Option<Point>
        ensures { result ≡ point_at self.now.network.points code }
    {
        self.validity();
        point_by(self.net.order(), self.net.net().points(), code)
    }

    /// The kind of a point.
    pub fn kind_of(&self, code: PointCode) -> Option<Kind>
        ensures { result ≡ option_map (λ p. p.kind) (point_at self.now.network.points code) }
    {
        match self.point(code) {
            Some(point) => Some(point.kind),
            None => None,
        }
    }

    /// Whether a point is a transfer point.
    pub fn is_stp(&self, code: PointCode) -> bool
        ensures { result ≡ stp_is self.now.network.points code }
    {
        match self.kind_of(code) {
            Some(Kind::Stp) => true,
            Some(Kind::Sep) | None => false,
        }
    }

    /// The mate of a point.
    pub fn mate_of(&self, code: PointCode) -> Option<PointCode>
        ensures { result ≡ the_mate self.now.network.points code }
    {
        self.point(code)?.mate
    }

    /// Whether an available set joins two points.
    pub fn is_connected(&self, point: PointCode, other: PointCode) -> bool
        ensures { result ≡ connected self.now.network.sets point other }
    {
        self.net.is_connected(point, other)
    }

    /// Whether all sets at a point are available, so that each point is connected to it that a set joins to it. It may be false
    /// though they are.
    pub fn is_intact(&self, point: PointCode) -> bool
        ensures { result ≡ true → IsIntact self.now.network.sets point }
    {
        self.net.is_intact(point)
    }

    /// The set that joins two points, in either order.
    pub fn set_between(&self, point: PointCode, other: PointCode) -> Option<&LinkSet>
        ensures { option_copied result ≡ between self.now.network.sets point other }
    {
        self.net.set_between(point, other)
    }

    /// The points that available sets join to a point, in rising code.
    pub fn neighbours(&self, point: PointCode) -> Neighbours<'_>
        ensures { neighbours_left result ≡ neighbours_of self.entry.now.network.sets point }
    {
        self.net.neighbours(point)
    }

    /// Whether the table reads a set of the network.
    pub fn reads(&self, set: &LinkSet) -> bool
        ensures { result ≡ is_read_by self.now.network.points self.now.plan set.now }
    {
        self.validity();
        is_read(self.net.net().points(), self.plan, set)
    }

    /// Whether the network has the transfer-restricted option.
    pub fn tfr(&self) -> bool
        ensures { result ≡ self.now.network.tfr }
    {
        self.net.net().tfr()
    }

    /// Whether the tables read the same: the plan, the points of its rows, the sets and the option. It takes no memory.
    pub fn equals(&self, other: &Excerpt) -> bool
        ensures { IsTrue result ↔ (content_of self.now ≡ content_of other.now) }
    {
        self.validity();
        is_same_content(self.net.net(), self.plan, other.net.net(), other.plan)
    }

    /// Whether the table of a destination of a network reads the same. It takes no memory.
    pub fn is_of(&self, net: &Net, dest: PointCode) -> bool
        ensures { IsTrue result ↔ (content_at net.now dest ≡ Some (content_of self.now)) }
    {
        self.validity();
        match net.plan(dest) {
            Some(plan) => is_same_content(self.net.net(), self.plan, net, plan),
            None => false,
        }
    }
}
