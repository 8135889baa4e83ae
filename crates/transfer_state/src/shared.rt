//! A settled routing that stands by itself.

ghost use Rattle.std.specs.Prelude.{◌≡◌, IfOk, IfErr};
ghost use Rattle.excerpts.specs.Turned.{HasTurned};
ghost use Rattle.excerpts.specs.Excerpt.{IsRight};
ghost use Rattle.transfer_state.specs.Routing.{settled_choices, settled_routing};

use crate::choices::Choices;
use crate::routing::Routing;
use excerpts::{Ends, Excerpt, SharedExcerpt};
use point_codes::PointCode;
use std::alloc::{AllocError, Global};
use std::marker::Model;

/// A settled routing that shares excerpt and choices, so that it lasts as long as it is needed.
#[derive(Drop)]
pub struct SharedRouting {
    excerpt: SharedExcerpt,
    choices: Choices,
}

impl Model for SharedRouting {
    ghost use Rattle.std.specs.Prelude.{◌≡◌};
    ghost use Rattle.transfer_state.specs.Routing.{RoutingValue, routing_by, settled_choices};

    ghost Value = { RoutingValue };

    ghost view = { λ r. routing_by r.excerpt r.choices };

    ghost invariant = { λ r. r.choices ≡ settled_choices r.excerpt };
}

impl SharedRouting {
    /// The settled routing of an excerpt by what is kept of its choices.
    #[tactic(auto, using(crate::proofs::RouteLemmas::opened_chosen))]
    pub(crate) fn by(excerpt: SharedExcerpt, choices: Choices) -> SharedRouting
        requires { choices ≡ settled_choices excerpt }
        ensures { result ≡ settled_routing excerpt }
    {
        excerpt.validity();
        SharedRouting { excerpt, choices }
    }

    /// The settled routing of an excerpt by what was kept of its choices, or if memory was refused for these, the excerpt.
    fn by_answer(
        excerpt: SharedExcerpt,
        choices: Result<Choices, AllocError>,
    ) -> Result<SharedRouting, (SharedExcerpt, AllocError)>
        requires { IfOk choices (λ c. c ≡ settled_choices excerpt) }
        ensures ok { IfOk result (λ r. r ≡ settled_routing excerpt) }
        ensures err { IfErr result (λ e. e.0 ≡ excerpt) }
    {
        match choices {
            Ok(choices) => Ok(SharedRouting::by(excerpt, choices)),
            Err(refused) => Err((excerpt, refused)),
        }
    }

    /// The settled routing of an excerpt, from scratch. If memory is refused it hands the excerpt back.
    pub fn of(
        alloc: Global,
        excerpt: SharedExcerpt,
    ) -> Result<SharedRouting, (SharedExcerpt, AllocError)>
        ensures ok { IfOk result (λ r. r ≡ settled_routing excerpt) }
        ensures err { IfErr result (λ e. e.0 ≡ excerpt) }
    {
        let choices = Choices::of(alloc, &excerpt.excerpt());
        SharedRouting::by_answer(excerpt, choices)
    }

    /// The same, followed from the routing of the same plan in a network before (`Routing::follow`).
    pub fn follow(
        alloc: Global,
        excerpt: SharedExcerpt,
        before: &Routing,
        turned: &[Ends],
    ) -> Result<SharedRouting, (SharedExcerpt, AllocError)>
        requires dest { excerpt.plan.dest ≡ before.now.excerpt.plan.dest }
        requires turned { HasTurned before.now.excerpt.network excerpt.network turned.now }
        ensures ok { IfOk result (λ r. r ≡ settled_routing excerpt) }
        ensures err { IfErr result (λ e. e.0 ≡ excerpt) }
    {
        let choices = before.follow(alloc, &excerpt.excerpt(), turned);
        SharedRouting::by_answer(excerpt, choices)
    }

    /// The facts that the type keeps: its choices are those from scratch, and its excerpt is right. It does nothing when it runs.
    #[tactic(auto, using(crate::proofs::RouteLemmas::opened_chosen))]
    pub fn validity(&self)
        ensures settled { self.now ≡ settled_routing self.now.excerpt }
        ensures right { IsRight self.now.excerpt }
    {
        // The proof reads the type's invariant from this.
        self.excerpt.validity();
    }

    /// The routing, as it is read.
    pub fn routing(&self) -> Routing<'_>
        ensures { result ≡ self.entry.now }
    {
        Routing::by(self.excerpt.excerpt(), &self.choices)
    }

    /// What it is the routing of.
    pub fn excerpt(&self) -> Excerpt<'_>
        ensures { result ≡ self.entry.now.excerpt }
    {
        self.excerpt.excerpt()
    }

    /// The destination.
    pub fn dest(&self) -> PointCode
        ensures { result ≡ self.now.excerpt.plan.dest }
    {
        self.excerpt.dest()
    }

    /// What is kept of its choices, given away.
    pub(crate) fn into_choices(self) -> Choices
        ensures { result ≡ settled_choices self.excerpt }
    {
        self.choices
    }
}
