//! A place for choices that are to come.

ghost use Rattle.std.specs.Prelude.{◌≡◌, true, false, None, Some, IfOk, if◌then◌else◌};
ghost use Rattle.excerpts.specs.Excerpt.{content_of};
ghost use Rattle.transfer_state.specs.Routing.{settled_choices};

use crate::choices::Choices;
use crate::routing::Routing;
use crate::shared::SharedRouting;
use excerpts::SharedExcerpt;
use point_codes::PointCode;
use std::alloc::AllocError;
use std::marker::Model;

/// A place for the choices of an excerpt, which have come or not.
#[derive(Drop)]
pub struct RoutingSlot {
    excerpt: SharedExcerpt,
    choices: Option<Choices>,
}

impl Model for RoutingSlot {
    ghost use Rattle.std.specs.Prelude.{◌≡◌, is_some};
    ghost use Rattle.std.specs.Option.{IfSome};
    ghost use Rattle.transfer_state.specs.Routing.{RoutingSlotValue, settled_choices};

    ghost Value = { RoutingSlotValue };

    ghost view = { λ p. record { excerpt = p.excerpt; settled = is_some p.choices } };

    ghost invariant = { λ p. IfSome p.choices (λ c. c ≡ settled_choices p.excerpt) };
}

impl RoutingSlot {
    /// A place for the choices of an excerpt, which have not come.
    pub fn new(excerpt: SharedExcerpt) -> RoutingSlot
        ensures { result ≡ record { excerpt = excerpt; settled = false } }
    {
        RoutingSlot {
            excerpt,
            choices: None,
        }
    }

    /// A place for the choices of an excerpt whose table reads the same as that of a routing that is there: these are its choices.
    pub fn of_same(excerpt: SharedExcerpt, routing: &Routing) -> Result<RoutingSlot, AllocError>
        requires { content_of excerpt ≡ content_of routing.now.excerpt }
        ensures { IfOk result (λ p. p ≡ record { excerpt = excerpt; settled = true }) }
    {
        excerpt.validity();
        routing.excerpt().validity();
        let choices = routing.share_choices()?;
        Ok(RoutingSlot {
            choices: Some(choices),
            excerpt,
        })
    }

    /// The destination.
    pub fn dest(&self) -> PointCode
        ensures { result ≡ self.now.excerpt.plan.dest }
    {
        self.excerpt.dest()
    }

    /// Takes in the choices of a routing whose table reads the same. It takes no memory.
    pub fn fill(&mut self, routing: SharedRouting)
        requires { content_of routing.excerpt ≡ content_of self.old.excerpt }
        ensures { self.new ≡ record self.old { settled = true } }
    {
        self.excerpt.validity();
        routing.validity();
        self.choices = Some(routing.into_choices());
    }

    /// What is kept of the choices that have come, shared. It fails only if no further share can be counted.
    pub fn choices(&self) -> Result<Option<Choices>, AllocError>
        ensures { IfOk result (λ c. c ≡ (if self.now.settled then Some (settled_choices self.now.excerpt) else None)) }
    {
        match &self.choices {
            Some(choices) => Ok(Some(choices.share()?)),
            None => Ok(None),
        }
    }
}
