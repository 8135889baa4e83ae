//! The plans of a network, in rising destination, shared with its copies.

ghost use Rattle.std.specs.Prelude.{◌≡◌, ◌↔◌, IsTrue, ◌<◌, [], OnOk, OnErr, IfOk, IfErr, map, is_some, true, length, slice_index_or};
ghost use Rattle.std.specs.Arc.{arc_value};
ghost use Rattle.std.specs.List.{list_any};
ghost use Rattle.std.specs.Option.{option_copied, option_map};
ghost use Rattle.net_items.specs.Keyed.{IsRising, IsFoundAt, IsGapAt, put, without};
ghost use Rattle.net_items.specs.Lookups.{plan_at};
ghost use Rattle.plan_rows.specs.Uses.{uses_pair as pair_used, uses_point as point_used, uses_set as set_used, has_flag as flagged};

use crate::equals::are_same_plans;
use net_items::{LinkSet, Plan, Point};
use plan_rows::uses::{has_flag, uses_pair, uses_point, uses_set};
use point_codes::PointCode;
use std::alloc::{AllocError, Global};
use std::marker::Model;
use std::sync::Arc;

/// Plans in rising destination, each shared with the copies of its network.
#[derive(Drop)]
pub struct Plans {
    list: Vec<Arc<Plan>>,
}

impl Model for Plans {
    ghost use Rattle.std.specs.Prelude.{List, map};
    ghost use Rattle.std.specs.Arc.{arc_value};
    ghost use Rattle.net_items.specs.declared.items.Plan.{Plan};

    ghost Value = { List Plan };

    ghost view = { λ p. map arc_value p.list.items };
}

fn position_of_plan(list: &[Arc<Plan>], dest: PointCode) -> Result<usize, usize>
    requires { IsRising (λ p. p.dest) (map arc_value list.now) }
    ensures found { IfOk result (IsFoundAt (λ p. p.dest) dest (map arc_value list.now)) }
    ensures absent { IfErr result (IsGapAt (λ p. p.dest) dest (map arc_value list.now)) }
{
    list.binary_search_by_key(&dest, |p| p.dest)
}

/// The place of the plan of a destination, looked for first in a place.
fn position_from(list: &[Arc<Plan>], first: usize, dest: PointCode) -> Result<usize, usize>
    requires { IsRising (λ p. p.dest) (map arc_value list.now) }
    ensures found { IfOk result (IsFoundAt (λ p. p.dest) dest (map arc_value list.now)) }
    ensures absent { IfErr result (IsGapAt (λ p. p.dest) dest (map arc_value list.now)) }
{
    if first < list.len() && list[first].dest == dest {
        return Ok(first);
    }
    position_of_plan(list, dest)
}

/// Reads ahead the counts of the shares of plans, each of which stands beside its plan's destination: how many of these aren't 0-0-0.
/// Nothing rests on what this tells; but then the counts come from memory at once, and not one after the other while they change.
fn read_ahead(plans: &[Arc<Plan>]) -> usize {
    let mut count = 0usize;
    for plan in plans {
        count = count.saturating_add(usize::from(plan.dest.number() != 0));
    }
    count
}

fn copy_list(alloc: Global, plans: &[Arc<Plan>]) -> Result<Vec<Arc<Plan>>, AllocError>
    ensures { IfOk result (λ v. map arc_value v.items ≡ map arc_value plans.now) }
{
    let mut copies = Vec::with_capacity(alloc, read_ahead(plans).max(plans.len()))?;
    for plan in plans {
        copies.push(Arc::try_clone(plan)?)?;
    }
    Ok(copies)
}

impl Plans {
    /// No plans.
    pub fn new(alloc: Global) -> Plans
        ensures { result ≡ [] }
    {
        Plans {
            list: Vec::new(alloc),
        }
    }

    /// How many plans there are.
    pub fn len(&self) -> usize
        ensures { result ≡ length self.now }
    {
        self.list.len()
    }

    /// The plan at a place.
    pub fn at(&self, position: usize) -> &Plan
        requires { position < length self.now }
        ensures { result.now ≡ slice_index_or self.now position result.now }
    {
        &self.list[position]
    }

    /// The plan of a destination.
    pub fn find(&self, dest: PointCode) -> Option<&Plan>
        requires { IsRising (λ p. p.dest) self.now }
        ensures { option_copied result ≡ plan_at self.now dest }
    {
        match position_of_plan(self.list.as_slice(), dest) {
            Ok(at) => Some(&self.list[at]),
            Err(_) => None,
        }
    }

    /// The plan of a destination, shared. It is looked for first in a place. It fails only if no further share can be counted, and
    /// then the plan is there.
    pub fn share(&self, first: usize, dest: PointCode) -> Result<Option<Arc<Plan>>, AllocError>
        requires { IsRising (λ p. p.dest) self.now }
        ensures ok { IfOk result (λ plan. option_map arc_value plan ≡ plan_at self.now dest) }
        ensures err { OnErr result (is_some (plan_at self.now dest) ≡ true) }
    {
        match position_from(self.list.as_slice(), first, dest) {
            Ok(at) => Ok(Some(Arc::try_clone(&self.list[at])?)),
            Err(_) => Ok(None),
        }
    }

    /// Whether there is a plan of a destination.
    pub fn has(&self, dest: PointCode) -> bool
        requires { IsRising (λ p. p.dest) self.now }
        ensures { result ≡ is_some (plan_at self.now dest) }
    {
        match position_of_plan(self.list.as_slice(), dest) {
            Ok(_) => true,
            Err(_) => false,
        }
    }

    /// Puts in a plan, in the place of one of its destination.
    pub fn put(&mut self, alloc: Global, plan: Plan) -> Result<(), AllocError>
        requires { IsRising (λ p. p.dest) self.old }
        ensures ok { OnOk result (self.new ≡ put (λ p. p.dest) plan self.old) }
        ensures err { OnErr result (self.new ≡ self.old) }
    {
        let dest = plan.dest;
        let shared = Arc::new(alloc, plan)?;
        match position_of_plan(self.list.as_slice(), dest) {
            Ok(at) => {
                self.list[at] = shared;
            }
            Err(at) => {
                self.list.insert(at, shared)?;
            }
        }
        Ok(())
    }

    /// Puts a shared plan in the place of the one of its destination. It takes no memory.
    pub fn replace(&mut self, plan: Arc<Plan>)
        requires rising { IsRising (λ p. p.dest) self.old }
        requires there { is_some (plan_at self.old (arc_value plan).dest) ≡ true }
        ensures { self.new ≡ put (λ p. p.dest) (arc_value plan) self.old }
    {
        match position_of_plan(self.list.as_slice(), plan.dest) {
            Ok(at) => {
                self.list[at] = plan;
            }
            Err(_) => unreachable!(),
        }
    }

    /// Removes the plan of a destination.
    pub fn remove(&mut self, dest: PointCode)
        requires rising { IsRising (λ p. p.dest) self.old }
        requires there { is_some (plan_at self.old dest) ≡ true }
        ensures { self.new ≡ without (λ p. p.dest) dest self.old }
    {
        match position_of_plan(self.list.as_slice(), dest) {
            Ok(at) => {
                self.list.remove(at);
            }
            Err(_) => unreachable!(),
        }
    }

    /// A copy that shares each plan.
    pub fn copy(&self, alloc: Global) -> Result<Plans, AllocError>
        ensures { IfOk result (λ p. p ≡ self.now) }
    {
        Ok(Plans {
            list: copy_list(alloc, self.list.as_slice())?,
        })
    }

    /// Whether the plans are equal.
    pub fn equals(&self, other: &Plans) -> bool
        ensures { IsTrue result ↔ (self.now ≡ other.now) }
    {
        are_same_plans(self.list.as_slice(), other.list.as_slice())
    }

    /// Whether a plan has a row of one point that leads to the other, which isn't its destination.
    pub fn any_uses_pair(&self, one: PointCode, other: PointCode) -> bool
        ensures { result ≡ list_any (pair_used one other) self.now }
    {
        self.list.iter().any(|plan| uses_pair(one, other, plan))
    }

    /// Whether a plan has the point as its destination or in a row.
    pub fn any_uses_point(&self, code: PointCode) -> bool
        ensures { result ≡ list_any (point_used code) self.now }
    {
        self.list.iter().any(|plan| uses_point(code, plan))
    }

    /// Whether a plan has a row of the point with the mate flag.
    pub fn any_has_flag(&self, point: PointCode) -> bool
        ensures { result ≡ list_any (flagged point) self.now }
    {
        self.list.iter().any(|plan| has_flag(point, plan))
    }

    /// Whether a plan has a row of one end of the set that leads to the other.
    pub fn any_uses_set(&self, points: &[Point], set: &LinkSet) -> bool
        requires { IsRising (λ p. p.code) points.now }
        ensures { result ≡ list_any (set_used points.now set.now) self.now }
    {
        self.list.iter().any(|plan| uses_set(points, set, plan))
    }
}
