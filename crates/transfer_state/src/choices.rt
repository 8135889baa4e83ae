//! What is kept of the choices of the rows of a plan.

ghost use Rattle.std.specs.Prelude.{◌≡◌, IfOk, length};
ghost use Rattle.excerpts.specs.Excerpt.{source_of};
ghost use Rattle.transfer_state.specs.Complaints.{kept_table};
ghost use Rattle.transfer_state.specs.Promises.{TellsWalks, KeepsMatesApart};
ghost use Rattle.transfer_state.specs.Routing.{settled_choices};

use crate::kept::Kept;
use crate::sweep::choices;
use excerpts::Excerpt;
use point_codes::PointCode;
use std::alloc::{AllocError, Global};
use std::marker::Model;
use std::sync::Arc;

/// What is kept of the choices of the rows of a plan, a byte a row, with the plan's destination (own). It is shared.
#[derive(Drop)]
pub struct Choices {
    /// The destination stands beside the bytes, so that a search among choices reads no plans.
    dest: PointCode,
    list: Arc<Vec<Kept>>,
}

impl Model for Choices {
    ghost use Rattle.std.specs.Arc.{arc_value};
    ghost use Rattle.transfer_state.specs.Routing.{ChoicesValue};

    ghost Value = { ChoicesValue };

    ghost view = { λ c. record { dest = c.dest; kept = (arc_value c.list).items } };
}

impl Choices {
    /// What is kept of some choices.
    pub(crate) fn by(alloc: Global, dest: PointCode, list: Vec<Kept>) -> Result<Choices, AllocError>
        ensures { IfOk result (λ c. c ≡ record { dest = dest; kept = list.items }) }
    {
        Ok(Choices {
            dest,
            list: Arc::new(alloc, list)?,
        })
    }

    /// What is kept of the choices of an excerpt, from scratch. It fails only if memory is refused.
    ///
    /// So a status isn't prohibited exactly if a walk leads to the destination, and no two mates use each other.
    pub fn of(alloc: Global, excerpt: &Excerpt) -> Result<Choices, AllocError>
        ensures scratch { IfOk result (λ c. c ≡ settled_choices excerpt.now) }
        ensures walks { IfOk result (λ c. TellsWalks (source_of excerpt.now) (kept_table (source_of excerpt.now) c.kept)) }
        ensures mates { IfOk result (λ c. KeepsMatesApart (source_of excerpt.now) (kept_table (source_of excerpt.now) c.kept)) }
    {
        excerpt.validity();
        let list = choices(alloc, excerpt)?;
        let all = Choices::by(alloc, excerpt.dest(), list)?;
        Ok(all)
    }

    /// The same once more. It fails only if no further share can be counted.
    pub fn share(&self) -> Result<Choices, AllocError>
        ensures { IfOk result (λ c. c ≡ self.now) }
    {
        Ok(Choices {
            dest: self.dest,
            list: Arc::try_clone(&self.list)?,
        })
    }

    /// The destination.
    pub fn dest(&self) -> PointCode
        ensures { result ≡ self.now.dest }
    {
        self.dest
    }

    /// How many rows there are.
    pub fn row_count(&self) -> usize
        ensures { result ≡ length self.now.kept }
    {
        self.list.len()
    }

    /// What is kept of each row, in the rows' places.
    pub(crate) fn as_slice(&self) -> &[Kept]
        ensures { result.now ≡ self.now.kept }
    {
        self.list.as_slice()
    }
}
