//! The surveys of a network by threads, and what a planner is warned of by them.

ghost use Rattle.std.specs.Prelude.{◌≡◌, IfOk, map};
ghost use Rattle.what_if.specs.Survey.{effect_of as the_effect, survey_of};
ghost use Rattle.what_if.specs.Warnings.{warnings_of};

use net_building::Surveyed;
use net_versions::Version;
use rayon::prelude::*;
use std::alloc::{AllocError, Global};
use std::thread::Threads;
use what_if::{Effect, Single, Survey, Warnings, effect_of, singles_of, survey_from, warnings_by};

/// Who is told how far a survey has come. It is told by many threads.
pub trait Watch {
    /// One more failure was tried.
    fn tried(&self);
}

/// Nobody is told how far a survey has come.
#[derive(Clone, Copy)]
pub struct Unwatched;

impl Watch for Unwatched {
    fn tried(&self) {}
}

/// What each of these takes or brings back, by as many threads as there are processors.
fn effects_by(
    rt: &(impl Threads + Sync),
    alloc: Global,
    version: &Version,
    singles: &[Single],
    watch: &(impl Watch + Sync),
) -> Result<Vec<Effect>, AllocError>
    ensures { IfOk result (λ effects. effects.items ≡ map (the_effect version.now.network) singles.now) }
{
    singles
        .par_iter()
        .with_min_len(1)
        .map(
            |single: &Single| -> Result<Effect, AllocError>
                ensures { IfOk result (λ effect. effect ≡ the_effect version.entry.now.network single.now) }
            {
                watch.tried();
                effect_of(alloc, version, *single)
            },
        )
        .collect::<Result<Vec<Effect>, AllocError>>(rt, alloc)?
}

/// The survey of a version's network by as many threads as there are processors: what each single failure alone would take, or each
/// single repair bring back (own, after Q.704 clause 10). It is that of one thread. It fails if memory is refused.
pub fn survey_by(
    rt: &(impl Threads + Sync),
    alloc: Global,
    version: &Version,
    what: Surveyed,
    watch: &(impl Watch + Sync),
) -> Result<Survey, AllocError>
    ensures { IfOk result (λ survey. survey ≡ survey_of what version.now.network) }
{
    let singles = singles_of(alloc, version.net().net(), what)?;
    let effects = effects_by(rt, alloc, version, singles.as_slice(), watch)?;
    survey_from(alloc, what, effects.as_slice())
}

/// All that a planner is warned of in a version's network, with surveys by as many threads as there are processors (own, after Q.704
/// clauses 3.2 and 4). It fails if memory is refused.
pub fn warn_by(
    rt: &(impl Threads + Sync),
    alloc: Global,
    version: &Version,
    watch: &(impl Watch + Sync),
) -> Result<Warnings, AllocError>
    ensures { IfOk result (λ warnings. warnings ≡ warnings_of version.now.network) }
{
    let sets = survey_by(rt, alloc, version, Surveyed::Sets, watch)?;
    let points = survey_by(rt, alloc, version, Surveyed::Points, watch)?;
    warnings_by(alloc, version.net().net(), &sets, &points)
}
