//! What is tried for a curve or a label, by numbers.

ghost use Rattle.std.specs.Prelude.{◌≡◌, IfOk};
ghost use Rattle.std.specs.List.{range_with_len};
ghost use Rattle.pictures.specs.Curves.{tries_for, unless_many as unless_many_of};

use crate::places::Place;
use std::alloc::{AllocError, Global};
use std::marker::Model;

/// The numbers below one.
#[tactic(auto, using(crate::proofs::TriesLemmas::numbers_more))]
fn numbers(alloc: Global, count: u16) -> Result<Vec<u16>, AllocError>
    ensures { IfOk result (λ all. all.items ≡ range_with_len 0 count) }
{
    let mut all = Vec::with_capacity(alloc, usize::from(count))?;
    for number in 0..count {
        all.push(number)?;
    }
    Ok(all)
}

/// As many as that, but none in a picture of more than 100 points.
fn unless_many(places: &[Place], count: u16) -> u16
    ensures { result ≡ unless_many_of places.now count }
{
    if places.len() > 100 { 0 } else { count }
}

/// The steps of a curve that are looked at, the curves that are tried for a set, and the spots that are tried for its label.
#[derive(Drop)]
pub(crate) struct Tries {
    /// The steps of a curve.
    steps: Vec<u16>,
    /// The curves of a set.
    curves: Vec<u16>,
    /// The spots of its label.
    spots: Vec<u16>,
}

impl Model for Tries {
    ghost use Rattle.pictures.specs.Curves.{TriesValue};

    ghost Value = { TriesValue };

    ghost view = { λ t. record { steps = t.steps.items; curves = t.curves.items; spots = t.spots.items } };
}

impl Tries {
    /// What is tried in a picture of these points: nothing if they are more than 100.
    pub(crate) fn of(alloc: Global, places: &[Place]) -> Result<Tries, AllocError>
        ensures { IfOk result (λ tries. tries ≡ tries_for places.now) }
    {
        let steps = numbers(alloc, 128)?;
        let curves = numbers(alloc, unless_many(places, 1305))?;
        let spots = numbers(alloc, unless_many(places, 99))?;
        Ok(Tries {
            steps,
            curves,
            spots,
        })
    }

    /// The steps of a curve that are looked at.
    pub(crate) fn steps(&self) -> &[u16]
        ensures { result.now ≡ self.now.steps }
    {
        &self.steps
    }

    /// The curves that are tried for a set.
    pub(crate) fn curves(&self) -> &[u16]
        ensures { result.now ≡ self.now.curves }
    {
        &self.curves
    }

    /// The spots that are tried for its label.
    pub(crate) fn spots(&self) -> &[u16]
        ensures { result.now ≡ self.now.spots }
    {
        &self.spots
    }
}
