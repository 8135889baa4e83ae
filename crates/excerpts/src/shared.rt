//! An excerpt that stands by itself.

ghost use Rattle.std.specs.Prelude.{◌≡◌, IfOk};
ghost use Rattle.excerpts.specs.Excerpt.{excerpt_at, IsExcerptAnswer, IsRight};

use crate::excerpt::Excerpt;
use crate::faults::ExcerptFault;
use crate::frozen::Frozen;
use net_items::Plan;
use point_codes::PointCode;
use std::alloc::AllocError;
use std::marker::Model;
use std::sync::Arc;

/// An excerpt that shares the network and the plan, so that it lasts as long as it is needed.
#[derive(Drop)]
pub struct SharedExcerpt {
    net: Frozen,
    plan: Arc<Plan>,
}

impl Model for SharedExcerpt {
    ghost use Rattle.std.specs.Arc.{arc_value};
    ghost use Rattle.excerpts.specs.Excerpt.{ExcerptValue, IsRight};

    ghost Value = { ExcerptValue };

    ghost view = { λ e. record { network = e.net; plan = arc_value e.plan } };

    ghost invariant = { λ e. IsRight (record { network = e.net; plan = arc_value e.plan }) };
}

impl SharedExcerpt {
    /// The excerpt of a destination. It shares the network and the plan. It is refused if the network has no plan for
    /// the destination, and, last, if no further share can be counted.
    pub fn of(net: &Frozen, dest: PointCode) -> Result<SharedExcerpt, ExcerptFault>
        ensures { IsExcerptAnswer (excerpt_at net.now dest) result }
    {
        let network = net.net();
        network.validity();
        let first = net.expected(network.plans().len(), dest);
        let plan = match network.share_plan(first, dest) {
            Ok(Some(plan)) => plan,
            Ok(None) => return Err(ExcerptFault::NoPlan),
            Err(_) => return Err(ExcerptFault::OutOfMemory),
        };
        match net.share() {
            Ok(net) => Ok(SharedExcerpt { net, plan }),
            Err(_) => Err(ExcerptFault::OutOfMemory),
        }
    }

    /// The facts that the type keeps: the network is valid and has the plan. It does nothing when it runs.
    pub fn validity(&self)
        ensures { IsRight self.now }
    {
        // The proof reads the type's invariant from this.
        let _ = &self.net;
    }

    /// The excerpt, as it is read.
    pub fn excerpt(&self) -> Excerpt<'_>
        ensures { result ≡ self.entry.now }
    {
        Excerpt::by(&self.net, &self.plan)
    }

    /// The destination.
    pub fn dest(&self) -> PointCode
        ensures { result ≡ self.now.plan.dest }
    {
        self.plan.dest
    }
}
