//! Changes of statuses.

ghost use Rattle.std.specs.Prelude.{◌≡◌};
ghost use Rattle.std.specs.List.{list_any};
ghost use Rattle.what_if.specs.Reports.{is_same as the_same, is_usable as usable, is_prohibited as prohibited, is_loss as loses};

use net_items::Listing;
use point_codes::PointCode;
use route_choice::Far;

/// A change of what a point uses towards a destination.
#[derive(Clone, Copy, Debug, PartialEq, Eq)]
pub struct Change {
    /// The point.
    pub point: PointCode,
    /// The destination.
    pub dest: PointCode,
    /// Its status before, none if it has no row.
    pub before: Option<Far>,
    /// Its status after, none if it has no row.
    pub after: Option<Far>,
}

/// Changes in rising destination, and of one destination in rising point.
pub type Changes = Listing<Change>;

/// Whether two statuses are the same.
pub(crate) fn is_same(one: Option<Far>, other: Option<Far>) -> bool
    ensures { result ≡ the_same one other }
{
    match (one, other) {
        (None, None) => true,
        (Some(one), Some(other)) => one.is_same_as(other),
        _ => false,
    }
}

/// Whether a status is allowed or restricted.
pub(crate) fn is_usable(status: Option<Far>) -> bool
    ensures { result ≡ usable status }
{
    match status {
        Some(status) => !status.is_same_as(Far::Prohibited),
        None => false,
    }
}

/// Whether a status is prohibited.
pub(crate) fn is_prohibited(status: Option<Far>) -> bool
    ensures { result ≡ prohibited status }
{
    match status {
        Some(status) => status.is_same_as(Far::Prohibited),
        None => false,
    }
}

/// Whether a change goes from allowed or restricted to prohibited.
pub(crate) fn is_loss(change: &Change) -> bool
    ensures { result ≡ loses change.now }
{
    is_usable(change.before) && is_prohibited(change.after)
}

/// Whether some change goes from allowed or restricted to prohibited.
pub(crate) fn any_loss(changes: &[Change]) -> bool
    ensures { result ≡ list_any loses changes.now }
{
    changes.iter().any(|change| is_loss(change))
}
