//! What a job has of the version before.

ghost use Rattle.std.specs.Prelude.{◌≡◌, IfOk};
ghost use Rattle.std.specs.Arc.{arc_value};
ghost use Rattle.work_units.specs.Before.{BeforeValue};

use excerpts::Ends;
use std::alloc::AllocError;
use std::marker::Model;
use std::sync::Arc;
use transfer_state::{Routing, SharedRouting};

/// The settled routing of a destination in the version before, and the ends of each set that became available since, or is so
/// no longer.
#[derive(Drop)]
pub(crate) struct Before {
    routing: SharedRouting,
    turned: Arc<Vec<Ends>>,
}

impl Model for Before {
    ghost use Rattle.std.specs.Arc.{arc_value};
    ghost use Rattle.work_units.specs.Before.{BeforeValue};

    ghost Value = { BeforeValue };

    ghost view = { λ b. record { routing = b.routing; turned = (arc_value b.turned).items } };
}

impl Before {
    /// A share of both. It fails only if no further share can be counted.
    pub(crate) fn of(routing: &Routing, turned: &Arc<Vec<Ends>>) -> Result<Before, AllocError>
        ensures { IfOk result (λ b. b ≡ record { routing = routing.now; turned = (arc_value turned.now).items }) }
    {
        Ok(Before {
            routing: routing.share()?,
            turned: Arc::try_clone(turned)?,
        })
    }

    /// The routing.
    pub(crate) fn routing(&self) -> Routing<'_>
        ensures { result ≡ self.entry.now.routing }
    {
        self.routing.routing()
    }

    /// The ends.
    pub(crate) fn turned(&self) -> &[Ends]
        ensures { result.now ≡ self.now.turned }
    {
        self.turned.as_slice()
    }
}
