//! Results of jobs.

ghost use Rattle.std.specs.Prelude.{◌≡◌, IfOk, IfErr};
ghost use Rattle.profile.specs.Whole.{scratch};
ghost use Rattle.excerpts.specs.Excerpt.{source_of};
ghost use Rattle.transfer_state.specs.Routing.{settled_routing};
ghost use Rattle.work_units.specs.Before.{CanFollowAny};

use crate::befores::Before;
use crate::jobs::Job;
use excerpts::{Excerpt, SharedExcerpt};
use point_codes::PointCode;
use profile::Table;
use std::alloc::{AllocError, Global};
use std::marker::Model;
use transfer_state::{Routing, SharedRouting};

/// The result of a job: its routing is that of the job's excerpt, from scratch.
#[derive(Drop)]
pub struct Settled {
    version: u64,
    routing: SharedRouting,
}

impl Model for Settled {
    ghost use Rattle.work_units.specs.Work.{Work};

    ghost Value = { Work };

    ghost view = { λ s. record { version = s.version; excerpt = s.routing.excerpt } };
}

impl Settled {
    /// The number of the version that it is for.
    pub fn version(&self) -> u64
        ensures { result ≡ self.now.version }
    {
        self.version
    }

    /// The destination.
    pub fn dest(&self) -> PointCode
        ensures { result ≡ self.now.excerpt.plan.dest }
    {
        self.routing.dest()
    }

    /// What the table of the destination reads.
    pub fn excerpt(&self) -> Excerpt<'_>
        ensures { result ≡ self.entry.now.excerpt }
    {
        self.routing.excerpt()
    }

    /// The settled routing of the excerpt.
    pub fn routing(&self) -> Routing<'_>
        ensures { result ≡ settled_routing self.entry.now.excerpt }
    {
        self.routing.validity();
        self.routing.routing()
    }

    /// The whole table of the destination, made from what the routing keeps (own, after Q.704 clauses 2.3 and 13.2 to
    /// 13.4).
    pub fn table(&self, alloc: Global) -> Result<Table, AllocError>
        ensures { IfOk result (λ t. t ≡ scratch (source_of self.now.excerpt)) }
    {
        self.routing.routing().table(alloc)
    }

    /// The settled routing, given away.
    pub fn into_routing(self) -> SharedRouting
        ensures { result ≡ settled_routing self.excerpt }
    {
        self.routing.validity();
        self.routing
    }
}

/// The settled routing of an excerpt, followed from the version before if there is something to follow.
fn routing_of(
    alloc: Global,
    excerpt: SharedExcerpt,
    before: &Option<Before>,
) -> Result<SharedRouting, (SharedExcerpt, AllocError)>
    requires { CanFollowAny excerpt before.now }
    ensures ok { IfOk result (λ r. r ≡ settled_routing excerpt) }
    ensures err { IfErr result (λ e. e.0 ≡ excerpt) }
{
    match before {
        Some(before) => {
            SharedRouting::follow(alloc, excerpt, &before.routing(), before.turned())
        }
        None => SharedRouting::of(alloc, excerpt),
    }
}

/// Does a job: the result has its version and its excerpt. If memory is refused it hands the job back.
pub fn settle(alloc: Global, job: Job) -> Result<Settled, (Job, AllocError)>
    ensures ok { IfOk result (λ s. s ≡ job) }
    ensures err { IfErr result (λ e. e.0 ≡ job) }
{
    let (version, excerpt, before) = job.into_parts();
    match routing_of(alloc, excerpt, &before) {
        Ok(routing) => Ok(Settled { version, routing }),
        Err((excerpt, refused)) => Err((Job::from_parts(version, excerpt, before), refused)),
    }
}
