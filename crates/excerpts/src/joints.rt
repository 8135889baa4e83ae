//! The index, with where the joints of each point begin.

ghost use Rattle.std.specs.Prelude.{◌≡◌, ◌<◌, ◌≤◌, ℕ, IfOk, length};
ghost use Rattle.std.specs.List.{AllWithin};
ghost use Rattle.net_items.specs.Keyed.{IsRising, at_key};
ghost use Rattle.net_sets.specs.Joints.{joint_of};
ghost use Rattle.excerpts.specs.Index.{IsFirstJoint, AreFirsts};

use crate::index::Joint;
use point_codes::PointCode;
use std::alloc::{AllocError, Global};
use std::marker::Model;

/// The joints in rising number of the pair, so that those of a point stand together.
#[derive(Drop)]
pub struct Joints {
    list: Vec<Joint>,
    /// How many joints have a pair before those of each point; the last number is that of all joints.
    firsts: Vec<usize>,
}

impl Model for Joints {
    ghost use Rattle.std.specs.Prelude.{List};
    ghost use Rattle.net_items.specs.Keyed.{IsRising};
    ghost use Rattle.excerpts.specs.declared.index.Joint.{Joint};
    ghost use Rattle.excerpts.specs.Index.{AreFirsts};

    ghost Value = { List Joint };

    ghost view = { λ f. f.list.items };

    ghost invariant = { λ f. IsRising (λ (j : Joint). j.pair) f.list.items × AreFirsts f.firsts.items f.list.items };
}

/// Where the joints from a pair on begin, if it is known of the first ones that they stand before.
fn first_from(joints: &[Joint], before: usize, pair: u32) -> usize
    requires within { before ≤ length joints.now }
    requires less { AllWithin (λ j. j.pair < pair) joints.now 0 before }
    requires rise { IsRising (λ j. j.pair) joints.now }
    ensures { IsFirstJoint pair joints.now result }
{
    let mut at = before;
    while at < joints.len() && joints[at].pair < pair {
        at += 1;
    }
    at
}

/// Where the joints of each point begin, found in one pass.
fn firsts_of(alloc: Global, joints: &[Joint]) -> Result<Vec<usize>, AllocError>
    requires { IsRising (λ j. j.pair) joints.now }
    ensures { IfOk result (λ firsts. AreFirsts firsts.items joints.now) }
{
    let mut firsts = Vec::with_capacity(alloc, 16385)?;
    let mut at = 0;
    for y in 0..16385 {
        at = first_from(joints, at, y * 16384);
        firsts.push(at)?;
    }
    Ok(firsts)
}

/// Those joints of a list whose pairs have this first point, by where the joints of each point begin.
fn joints_among<'a>(firsts: &[usize], list: &'a [Joint], point: PointCode) -> &'a [Joint]
    requires firsts { AreFirsts firsts.now list.now }
    requires rise { IsRising (λ j. j.pair) list.now }
    ensures rise { IsRising (λ j. j.pair) result.now }
    ensures tells { (z : ℕ) → z < 16384 → at_key (λ j. j.pair) (joint_of point z) result.now ≡ at_key (λ j. j.pair) (joint_of point z) list.entry.now }
{
    let at = usize::from(point.number());
    let from = firsts[at];
    let to = firsts[at + 1];
    &list[from..to]
}

impl Joints {
    /// The joints of a list. It fails if memory is refused.
    pub fn new(alloc: Global, list: Vec<Joint>) -> Result<Joints, AllocError>
        requires { IsRising (λ j. j.pair) list.items }
        ensures { IfOk result (λ joints. joints ≡ list.items) }
    {
        let firsts = firsts_of(alloc, &list)?;
        Ok(Joints { list, firsts })
    }

    /// All joints.
    pub fn as_slice(&self) -> &[Joint]
        ensures { result.now ≡ self.now }
    {
        self.list.as_slice()
    }

    /// The joints of the pairs whose first point is this one.
    pub fn of_point(&self, point: PointCode) -> &[Joint]
        ensures rise { IsRising (λ j. j.pair) result.now }
        ensures tells { (z : ℕ) → z < 16384 → at_key (λ j. j.pair) (joint_of point z) result.now ≡ at_key (λ j. j.pair) (joint_of point z) self.now }
    {
        joints_among(self.firsts.as_slice(), self.list.as_slice(), point)
    }
}
