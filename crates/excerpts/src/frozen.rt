//! The frozen network.

ghost use Rattle.std.specs.Prelude.{◌≡◌, IfOk, true};
ghost use Rattle.std.specs.Option.{IfSome, option_copied};
ghost use Rattle.net_items.specs.Lookups.{set_between as between};
ghost use Rattle.net_data.specs.Valid.{IsValid};
ghost use Rattle.link_sets.specs.Availability.{connected};
ghost use Rattle.link_sets.specs.Neighbours.{neighbours as neighbours_of, next_from, IsCodeFrom};
ghost use Rattle.excerpts.specs.Around.{neighbours_left};
ghost use Rattle.net_data.specs.Edits.{replay};
ghost use Rattle.excerpts.specs.Intact.{IsIntact};
ghost use Rattle.excerpts.specs.Turned.{HasTurned};

use crate::indexed::Indexed;
use crate::neighbours::Neighbours;
use crate::positions::PointOrder;
use crate::turned::{Ends, are_few_links, turned_by};
use net_data::{Event, Net};
use net_items::LinkSet;
use point_codes::PointCode;
use std::alloc::{AllocError, Global};
use std::marker::Model;
use std::sync::Arc;

/// A network that doesn't change, with an index of the pairs that its sets join. It can be shared.
#[derive(Drop)]
pub struct Frozen {
    indexed: Arc<Indexed>,
}

impl Model for Frozen {
    ghost use Rattle.std.specs.Arc.{arc_value};
    ghost use Rattle.net_data.specs.Network.{Network};

    ghost Value = { Network };

    ghost view = { λ f. arc_value f.indexed };
}

impl Frozen {
    /// The network, frozen. It fails if memory is refused.
    pub fn new(alloc: Global, net: Net) -> Result<Frozen, AllocError>
        ensures { IfOk result (λ f. f ≡ net) }
    {
        let indexed = Indexed::new(alloc, net)?;
        Ok(Frozen {
            indexed: Arc::new(alloc, indexed)?,
        })
    }

    /// The same, with less work if the sets of an earlier network join the same points, as after events on links alone.
    pub fn after(alloc: Global, net: Net, before: &Frozen) -> Result<Frozen, AllocError>
        ensures { IfOk result (λ f. f ≡ net) }
    {
        let indexed = Indexed::after(alloc, net, &before.indexed)?;
        Ok(Frozen {
            indexed: Arc::new(alloc, indexed)?,
        })
    }

    /// The network that some events made of an earlier one, frozen, with less work if these are few and about links alone.
    pub fn after_events(
        alloc: Global,
        net: Net,
        before: &Frozen,
        events: &[Event],
    ) -> Result<Frozen, AllocError>
        requires { net ≡ replay before.now events.now }
        ensures { IfOk result (λ f. f ≡ net) }
    {
        if !are_few_links(events) {
            return Frozen::after(alloc, net, before);
        }
        let indexed = Indexed::after_links(alloc, net, &before.indexed, events)?;
        Ok(Frozen {
            indexed: Arc::new(alloc, indexed)?,
        })
    }

    /// The same network once more. It fails only if no further share can be counted.
    pub fn share(&self) -> Result<Frozen, AllocError>
        ensures { IfOk result (λ f. f ≡ self.now) }
    {
        Ok(Frozen {
            indexed: Arc::try_clone(&self.indexed)?,
        })
    }

    /// The fact that the network keeps: it is valid. It does nothing when it runs.
    pub fn validity(&self)
        ensures { IsValid self.now }
    {
        self.indexed.validity();
    }

    /// The network.
    pub fn net(&self) -> &Net
        ensures { result.now ≡ self.now }
    {
        self.indexed.net()
    }

    /// Where what a point has one of, as a plan, stands among so many in rising code, if the points without one are spread evenly.
    /// It tells where to look first, and nothing rests on it.
    pub fn expected(&self, count: usize, code: PointCode) -> usize {
        self.indexed.order().expected(count, code)
    }

    /// Where the points stand among all.
    pub(crate) fn order(&self) -> &PointOrder {
        self.indexed.order()
    }

    /// Whether an available set joins two points (own, after Q.704 clause 3.2).
    pub fn is_connected(&self, point: PointCode, other: PointCode) -> bool
        ensures { result ≡ connected self.now.sets point other }
    {
        self.indexed.is_connected(point, other)
    }

    /// Whether all sets at a point are available, so that each point is connected to it that a set joins to it (own, after Q.704
    /// clause 3.2). It may be false though they are.
    pub fn is_intact(&self, point: PointCode) -> bool
        ensures { result ≡ true → IsIntact self.now.sets point }
    {
        self.indexed.is_intact(point)
    }

    /// The set that joins two points, in either order.
    pub fn set_between(&self, point: PointCode, other: PointCode) -> Option<&LinkSet>
        ensures { option_copied result ≡ between self.now.sets point other }
    {
        self.indexed.set_between(point, other)
    }

    /// The first point of code `from` or above that an available set joins to the point.
    pub fn next_neighbour(&self, point: PointCode, from: u16) -> Option<PointCode>
        ensures value { result ≡ next_from (connected self.now.sets point) from }
        ensures within { IfSome result (IsCodeFrom from) }
    {
        self.indexed.next_neighbour(point, from)
    }

    /// The points that available sets join to a point, in rising code.
    pub fn neighbours(&self, point: PointCode) -> Neighbours<'_>
        ensures { neighbours_left result ≡ neighbours_of self.entry.now.sets point }
    {
        Neighbours::new(&self.indexed, point)
    }

    /// If some events made this network of an earlier one, and changed links and sets alone: pairs of points, in both orders,
    /// and among them all that an available set joins in one of the two networks alone. That it has no others isn't promised,
    /// and none are told if there are more than 128. It fails only if memory is refused.
    pub fn turned_by(
        &self,
        alloc: Global,
        before: &Frozen,
        events: &[Event],
    ) -> Result<Option<Vec<Ends>>, AllocError>
        requires { self.now ≡ replay before.now events.now }
        ensures { IfOk result (λ o. IfSome o (λ list. HasTurned before.now self.now list.items)) }
    {
        turned_by(alloc, self, before, events)
    }
}
