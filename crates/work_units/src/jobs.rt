//! Jobs.

ghost use Rattle.std.specs.Prelude.{◌≡◌, IfOk};
ghost use Rattle.std.specs.Arc.{arc_value};
ghost use Rattle.excerpts.specs.Excerpt.{excerpt_at};
ghost use Rattle.excerpts.specs.Turned.{HasTurned};
ghost use Rattle.work_units.specs.Work.{IsJob};
ghost use Rattle.work_units.specs.Before.{CanFollowAny};

use crate::befores::Before;
use excerpts::{Ends, Excerpt, ExcerptFault, Frozen, SharedExcerpt};
use net_data::Net;
use point_codes::PointCode;
use std::alloc::{AllocError, Global};
use std::marker::Model;
use std::sync::Arc;
use transfer_state::Routing;

/// A job: to settle the routing towards one destination for a version.
#[derive(Drop)]
pub struct Job {
    version: u64,
    excerpt: SharedExcerpt,
    /// What it can be followed from, if there is something. The result is the same without.
    before: Option<Before>,
}

impl Model for Job {
    ghost use Rattle.work_units.specs.Work.{Work};
    ghost use Rattle.work_units.specs.Before.{CanFollowAny};

    ghost Value = { Work };

    ghost view = { λ j. record { version = j.version; excerpt = j.excerpt } };

    ghost invariant = { λ j. CanFollowAny j.excerpt j.before };
}

/// A frozen copy of a network.
fn frozen_copy(alloc: Global, net: &Net) -> Result<Frozen, AllocError>
    ensures { IfOk result (λ f. f ≡ net.now) }
{
    let copy = net.copy(alloc)?;
    Frozen::new(alloc, copy)
}

impl Job {
    /// A job for a destination of a network, which is copied. It is refused if the network has no plan for the
    /// destination, and, last, if memory is refused.
    pub fn new(alloc: Global, version: u64, net: &Net, dest: PointCode) -> Result<Job, ExcerptFault>
        ensures { IsJob version (excerpt_at net.now dest) result }
    {
        net.validity();
        if net.plan(dest).is_none() {
            return Err(ExcerptFault::NoPlan);
        }
        match frozen_copy(alloc, net) {
            Ok(frozen) => Job::of(version, &frozen, dest),
            Err(_) => Err(ExcerptFault::OutOfMemory),
        }
    }

    /// A job for a destination of a network, which is shared. It is refused if the network has no plan for the
    /// destination, and, last, if no further share can be counted.
    pub fn of(version: u64, net: &Frozen, dest: PointCode) -> Result<Job, ExcerptFault>
        ensures { IsJob version (excerpt_at net.now dest) result }
    {
        let excerpt = SharedExcerpt::of(net, dest)?;
        Ok(Job {
            version,
            excerpt,
            before: None,
        })
    }

    /// A job for the destination of a settled routing, whose plan is the same in a network that is shared. It is followed
    /// from that routing. `turned` has the ends of each set that became available since, or is so no longer. It is refused if
    /// the network has no plan for the destination, and, last, if no further share can be counted.
    pub fn after(
        version: u64,
        net: &Frozen,
        before: &Routing,
        turned: &Arc<Vec<Ends>>,
    ) -> Result<Job, ExcerptFault>
        requires { HasTurned before.now.excerpt.network net.now (arc_value turned.now).items }
        ensures { IsJob version (excerpt_at net.now before.now.excerpt.plan.dest) result }
    {
        let excerpt = SharedExcerpt::of(net, before.dest())?;
        match Before::of(before, turned) {
            Ok(before) => Ok(Job {
                version,
                excerpt,
                before: Some(before),
            }),
            Err(_) => Err(ExcerptFault::OutOfMemory),
        }
    }

    /// A job for an excerpt.
    pub(crate) fn from_parts(version: u64, excerpt: SharedExcerpt, before: Option<Before>) -> Job
        requires { CanFollowAny excerpt before }
        ensures { result ≡ record { version = version; excerpt = excerpt } }
    {
        Job {
            version,
            excerpt,
            before,
        }
    }

    /// The version that it is for, the excerpt, and what that can be followed from.
    pub(crate) fn into_parts(self) -> (u64, SharedExcerpt, Option<Before>)
        ensures version { result.0 ≡ self.version }
        ensures excerpt { result.1 ≡ self.excerpt }
        ensures before { CanFollowAny result.1 result.2 }
    {
        (self.version, self.excerpt, self.before)
    }

    /// The number of the version that it is for.
    pub fn version(&self) -> u64
        ensures { result ≡ self.now.version }
    {
        self.version
    }

    /// The destination.
    pub fn dest(&self) -> PointCode
        ensures { result ≡ self.now.excerpt.plan.dest }
    {
        self.excerpt.dest()
    }

    /// What the table of the destination reads.
    pub fn excerpt(&self) -> Excerpt<'_>
        ensures { result ≡ self.entry.now.excerpt }
    {
        self.excerpt.excerpt()
    }
}
