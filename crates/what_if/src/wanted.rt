//! What the status of a point is wanted to be.

ghost use Rattle.std.specs.Prelude.{◌≡◌};
ghost use Rattle.excerpts.specs.Excerpt.{source_of};
ghost use Rattle.what_if.specs.Mending.{is_strict as the_strictness, meets};

use excerpts::Excerpt;
use route_choice::Far;

/// What the status of a point is wanted to be.
#[derive(Clone, Copy, Debug, PartialEq, Eq)]
pub enum Wanted {
    /// Not prohibited: the destination is reached (Q.704 clause 13.2).
    Reached,
    /// Allowed (Q.704 clause 13.3).
    Allowed,
}

impl Wanted {
    /// Whether a status is one that is wanted.
    pub(crate) fn is_met_by(self, far: Far) -> bool
        ensures { result ≡ meets self far }
    {
        match self {
            Wanted::Reached => !far.is_same_as(Far::Prohibited),
            Wanted::Allowed => far.is_same_as(Far::Allowed),
        }
    }

    /// Whether neither another class than the first nor the mate leads to it.
    pub(crate) fn is_strict(self, excerpt: &Excerpt) -> bool
        ensures { result ≡ the_strictness (source_of excerpt.now) self }
    {
        match self {
            Wanted::Reached => false,
            Wanted::Allowed => excerpt.tfr(),
        }
    }
}
