//! Points, link sets and plans.

ghost use Rattle.std.specs.Prelude.{◌≡◌, IfOk};

use crate::links::Links;
use crate::lists::Rows;
use point_codes::PointCode;
use std::alloc::{AllocError, Global};
use std::marker::Model;

/// The kind of a signalling point (Q.705).
#[derive(Clone, Copy, Debug, PartialEq, Eq)]
pub enum Kind {
    /// A signalling end point.
    Sep,
    /// A signalling transfer point.
    Stp,
}

/// A signalling point, with its mate if it is one of a mated pair (Q.705).
#[derive(Clone, Copy, Debug, PartialEq, Eq)]
pub struct Point {
    /// The signalling point code.
    pub code: PointCode,
    /// End point or transfer point.
    pub kind: Kind,
    /// The code of its mate, if it has one.
    pub mate: Option<PointCode>,
}

/// The links that directly join two points, in rising signalling link code (Q.704 clause 2.2).
#[derive(Debug, Drop)]
pub struct LinkSet {
    /// The number of the set, 0 to 4,095 in a valid network (own).
    pub id: u16,
    /// Its first point.
    pub a: PointCode,
    /// Its second point.
    pub b: PointCode,
    /// Its links, 1 to 16 in a valid network.
    pub links: Links,
}

/// How each point of the rows leads its traffic to one destination, rows in rising code.
#[derive(Debug, Drop)]
pub struct Plan {
    /// The destination.
    pub dest: PointCode,
    /// The rows, one for each point that has routes.
    pub rows: Rows,
}

/// A plan as an event holds it: in a box, so that an event is small.
#[derive(Debug, Drop)]
pub struct GivenPlan {
    held: Box<Plan>,
}

impl Model for GivenPlan {
    ghost use Rattle.net_items.specs.declared.items.Plan.{Plan};

    ghost Value = { Plan };

    ghost view = { λ p. p.held.value };
}

impl GivenPlan {
    /// This plan.
    pub fn new(alloc: Global, plan: Plan) -> Result<GivenPlan, AllocError>
        ensures { IfOk result (λ p. p ≡ plan) }
    {
        Ok(GivenPlan {
            held: Box::new(alloc, plan)?,
        })
    }

    /// The plan.
    pub fn as_plan(&self) -> &Plan
        ensures { result.now ≡ self.now }
    {
        &self.held
    }

    /// The plan, out of its box.
    pub fn into_plan(self) -> Plan
        ensures { result ≡ self }
    {
        let GivenPlan { held } = self;
        Box::into_inner(held)
    }
}
