//! A network with its index.

ghost use Rattle.std.specs.Prelude.{◌≡◌, ◌≤◌, IfOk, true, length};
ghost use Rattle.std.specs.Arc.{arc_value};
ghost use Rattle.std.specs.Option.{IfSome, option_copied};
ghost use Rattle.net_items.specs.Lookups.{set_between as between};
ghost use Rattle.net_data.specs.Valid.{IsValid};
ghost use Rattle.link_sets.specs.Availability.{connected};
ghost use Rattle.link_sets.specs.Neighbours.{next_from, IsCodeFrom};
ghost use Rattle.excerpts.specs.Index.{IsJointIndex};
ghost use Rattle.std.specs.List.{list_all};
ghost use Rattle.net_data.specs.Edits.{replay};
ghost use Rattle.net_data.specs.Kinds.{is_of_links};
ghost use Rattle.excerpts.specs.Intact.{IsIntact, TellIntact};

use crate::index::{are_same_ends, find_joint, index_of, next_up};
use crate::intact::IntactPoints;
use crate::joints::Joints;
use crate::positions::PointOrder;
use crate::turned::turned_among;
use link_sets::set_available;
use net_data::{Event, Net};
use net_items::LinkSet;
use point_codes::PointCode;
use std::alloc::{AllocError, Global};
use std::marker::Model;
use std::sync::Arc;

/// A network that doesn't change, with an index of the pairs that its sets join, and where its points stand.
#[derive(Drop)]
pub struct Indexed {
    net: Net,
    /// Networks whose sets join the same points share it.
    joints: Arc<Joints>,
    order: Arc<PointOrder>,
    intact: IntactPoints,
}

impl Model for Indexed {
    ghost use Rattle.std.specs.Arc.{arc_value};
    ghost use Rattle.net_data.specs.Network.{Network};
    ghost use Rattle.excerpts.specs.Index.{IsJointIndex};
    ghost use Rattle.excerpts.specs.Intact.{TellIntact};

    ghost Value = { Network };

    ghost view = { λ f. f.net };

    ghost invariant = { λ f. record { joints : IsJointIndex (arc_value f.joints) f.net.sets; intact : TellIntact f.net.sets f.intact } };
}

/// The joints of sets, to be shared.
fn joints_of(alloc: Global, sets: &[LinkSet]) -> Result<Arc<Joints>, AllocError>
    requires { length sets.now ≤ 4096 }
    ensures { IfOk result (λ joints. IsJointIndex (arc_value joints) sets.now) }
{
    let list = index_of(alloc, sets)?;
    let joints = Joints::new(alloc, list)?;
    Ok(Arc::new(alloc, joints)?)
}

impl Indexed {
    /// The network with the index of its joints, and the order of its points.
    fn by(
        alloc: Global,
        net: Net,
        joints: Arc<Joints>,
        order: Arc<PointOrder>,
    ) -> Result<Indexed, AllocError>
        requires { IsJointIndex (arc_value joints) net.sets }
        ensures { IfOk result (λ f. f ≡ net) }
    {
        let intact = IntactPoints::of(alloc, net.sets())?;
        Ok(Indexed {
            net,
            joints,
            order,
            intact,
        })
    }

    /// The network with its index. It fails if memory is refused.
    pub fn new(alloc: Global, net: Net) -> Result<Indexed, AllocError>
        ensures { IfOk result (λ f. f ≡ net) }
    {
        net.validity();
        let joints = joints_of(alloc, net.sets())?;
        let order = PointOrder::shared(alloc, net.points())?;
        Indexed::by(alloc, net, joints, order)
    }

    /// The order of the points, shared if there are as many as in the network before.
    fn order_after(
        alloc: Global,
        net: &Net,
        before: &Indexed,
    ) -> Result<Arc<PointOrder>, AllocError> {
        if before.net.points().len() == net.points().len() {
            return Arc::try_clone(&before.order);
        }
        PointOrder::shared(alloc, net.points())
    }

    /// The same. If the sets of an earlier network join the same points, one by one, its joints are shared.
    pub fn after(alloc: Global, net: Net, before: &Indexed) -> Result<Indexed, AllocError>
        ensures { IfOk result (λ f. f ≡ net) }
    {
        net.validity();
        if !are_same_ends(before.net.sets(), net.sets()) {
            return Indexed::new(alloc, net);
        }
        let joints = Arc::try_clone(&before.joints)?;
        let order = Indexed::order_after(alloc, &net, before)?;
        Indexed::by(alloc, net, joints, order)
    }

    /// Which points are intact in a network that events of links made of this one: the same ones, if no set turned.
    fn intact_after(
        &self,
        alloc: Global,
        net: &Net,
        events: &[Event],
    ) -> Result<IntactPoints, AllocError>
        requires made { net.now ≡ replay self.now events.now }
        requires links { list_all is_of_links events.now ≡ true }
        ensures { IfOk result (λ intact. TellIntact net.now.sets intact) }
    {
        net.validity();
        self.net.validity();
        let turned = turned_among(alloc, net.sets(), self.net.sets(), events)?;
        if turned.is_empty() {
            return self.intact.share();
        }
        IntactPoints::of(alloc, net.sets())
    }

    /// The network that events of links made of an earlier one, with its index: its sets join the same points.
    pub fn after_links(
        alloc: Global,
        net: Net,
        before: &Indexed,
        events: &[Event],
    ) -> Result<Indexed, AllocError>
        requires made { net ≡ replay before.now events.now }
        requires links { list_all is_of_links events.now ≡ true }
        ensures { IfOk result (λ f. f ≡ net) }
    {
        net.validity();
        let joints = Arc::try_clone(&before.joints)?;
        let order = Arc::try_clone(&before.order)?;
        let intact = before.intact_after(alloc, &net, events)?;
        Ok(Indexed {
            net,
            joints,
            order,
            intact,
        })
    }

    /// The network.
    pub fn net(&self) -> &Net
        ensures { result.now ≡ self.now }
    {
        &self.net
    }

    /// Where the points stand among all.
    pub fn order(&self) -> &PointOrder {
        &self.order
    }

    /// The fact that the network keeps: it is valid. It does nothing when it runs.
    pub fn validity(&self)
        ensures { IsValid self.now }
    {
        self.net.validity();
    }

    /// Whether an available set joins two points (own, after Q.704 clause 3.2).
    pub fn is_connected(&self, point: PointCode, other: PointCode) -> bool
        ensures { result ≡ connected self.now.sets point other }
    {
        match find_joint(self.joints.of_point(point), point, other) {
            Some(joint) => set_available(&self.net.sets()[joint.position as usize]),
            None => false,
        }
    }

    /// Whether all sets at a point are available: it may be false though they are.
    pub fn is_intact(&self, point: PointCode) -> bool
        ensures { result ≡ true → IsIntact self.now.sets point }
    {
        self.intact.has(point)
    }

    /// The set that joins two points, in either order.
    pub fn set_between(&self, point: PointCode, other: PointCode) -> Option<&LinkSet>
        ensures { option_copied result ≡ between self.now.sets point other }
    {
        let joint = find_joint(self.joints.of_point(point), point, other)?;
        Some(&self.net.sets()[joint.position as usize])
    }

    /// The first point of code `from` or above that an available set joins to the point. It is looked for first in a place among the
    /// sets of the point, which is the one behind it then.
    pub fn next_near(&self, point: PointCode, from: u16, place: &mut usize) -> Option<PointCode>
        ensures value { result ≡ next_from (connected self.now.sets point) from }
        ensures within { IfSome result (IsCodeFrom from) }
    {
        next_up(
            self.net.sets(),
            self.joints.of_point(point),
            point,
            from,
            place,
        )
    }

    /// The first point of code `from` or above that an available set joins to the point.
    pub fn next_neighbour(&self, point: PointCode, from: u16) -> Option<PointCode>
        ensures value { result ≡ next_from (connected self.now.sets point) from }
        ensures within { IfSome result (IsCodeFrom from) }
    {
        let mut place = 0;
        self.next_near(point, from, &mut place)
    }
}
