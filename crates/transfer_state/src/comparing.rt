//! Choices that are compared by their statuses.

ghost use Rattle.std.specs.Prelude.{◌≡◌, ◌↔◌, IsTrue};
ghost use Rattle.transfer_state.specs.Kept.{kept_statuses};

use crate::choosing::is_same_status;
use crate::kept::Kept;

/// Whether the same is kept of two choices.
pub(crate) fn is_same_kept(one: Kept, other: Kept) -> bool
    ensures { IsTrue result ↔ (one ≡ other) }
{
    one == other
}

/// Whether the same is kept in each place.
fn are_same(choices: &[Kept], others: &[Kept]) -> bool
    ensures { IsTrue result ↔ (choices.now ≡ others.now) }
{
    choices == others
}

/// Whether choices have the statuses that others have in their places. Mostly they are the same, which many bytes at once tell.
pub(crate) fn have_same_statuses(choices: &[Kept], others: &[Kept]) -> bool
    ensures { IsTrue result ↔ (kept_statuses choices.now ≡ kept_statuses others.now) }
{
    if are_same(choices, others) {
        return true;
    }
    if choices.len() != others.len() {
        return false;
    }
    for position in 0..choices.len() {
        if !is_same_status(choices[position].status(), others[position].status()) {
            return false;
        }
    }
    true
}
