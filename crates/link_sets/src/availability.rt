//! Which sets are available, and the set between two points.

ghost use Rattle.std.specs.Prelude.{◌≡◌};
ghost use Rattle.net_items.specs.Links.{IsMask};
ghost use Rattle.link_sets.specs.Availability.{set_available as has_available, connected};

use net_items::LinkSet;
use net_items::lookups::set_between;
use point_codes::PointCode;

/// Whether at least one link of the set is available (own, after Q.704 clause 3.2).
pub fn set_available(set: &LinkSet) -> bool
    ensures { result ≡ has_available set.now }
{
    set.links.any_available()
}

/// Whether an available set joins two points.
pub fn is_connected(sets: &[LinkSet], point: PointCode, other: PointCode) -> bool
    ensures { result ≡ connected sets.now point other }
{
    match set_between(sets, point, other) {
        Some(set) => set_available(set),
        None => false,
    }
}

/// Which of the links of a set are available: bit i stands for the link at position i in rising signalling link code (Q.704 clause
/// 3.2).
pub fn mask(set: &LinkSet) -> u16
    ensures { IsMask set.now.links result }
{
    set.links.mask()
}
