//! What moves from a network to another.

ghost use Rattle.std.specs.Prelude.{◌≡◌, length, filter};
ghost use Rattle.what_if.specs.Reroutes.{has_route as routed, is_lost as the_lost, is_regained as the_regained, is_only_moved as only_moved, is_same_choice as the_same, reroute_counts};

use crate::changes::is_usable;
use net_items::Listing;
use point_codes::PointCode;
use route_choice::Choice;

/// A point whose choice towards a destination isn't the same before and after: its class, its vias or its status.
#[derive(Clone, Copy, Debug, PartialEq, Eq)]
pub struct Reroute {
    /// The point.
    pub point: PointCode,
    /// The destination.
    pub dest: PointCode,
    /// What it used before, none if it had no row.
    pub before: Option<Choice>,
    /// What it uses after, none if it has no row.
    pub after: Option<Choice>,
}

/// How many reroutes there are of each kind.
#[derive(Clone, Copy, Debug, PartialEq, Eq)]
pub struct RerouteCounts {
    /// Those from allowed or restricted to prohibited, or to no row.
    pub lost: usize,
    /// Those from prohibited, or from no row, to allowed or restricted.
    pub regained: usize,
    /// The others.
    pub moved: usize,
}

/// Reroutes in rising destination, and of one destination in rising point.
pub type Reroutes = Listing<Reroute>;

/// How many reroutes there are of each kind.
pub fn count_reroutes(reroutes: &[Reroute]) -> RerouteCounts
    ensures { result ≡ reroute_counts reroutes.now }
{
    RerouteCounts {
        lost: lost_count(reroutes),
        regained: regained_count(reroutes),
        moved: moved_count(reroutes),
    }
}

/// Whether two choices are of the same class, members and status, or both none.
pub(crate) fn is_same_choice(one: &Option<Choice>, other: &Option<Choice>) -> bool
    ensures { result ≡ the_same one.now other.now }
{
    one == other
}

/// Whether a choice isn't prohibited.
fn has_route(choice: Option<Choice>) -> bool
    ensures { result ≡ routed choice }
{
    match choice {
        Some(choice) => is_usable(Some(choice.status)),
        None => false,
    }
}

/// Whether the point loses the destination.
pub fn is_lost(reroute: &Reroute) -> bool
    ensures { result ≡ the_lost reroute.now }
{
    has_route(reroute.before) && !has_route(reroute.after)
}

/// Whether the point regains the destination.
pub fn is_regained(reroute: &Reroute) -> bool
    ensures { result ≡ the_regained reroute.now }
{
    !has_route(reroute.before) && has_route(reroute.after)
}

/// Whether the point neither loses nor regains the destination: it uses something else.
pub fn is_only_moved(reroute: &Reroute) -> bool
    ensures { result ≡ only_moved reroute.now }
{
    !is_lost(reroute) && !is_regained(reroute)
}

/// How many points lose a destination.
fn lost_count(reroutes: &[Reroute]) -> usize
    ensures { result ≡ length (filter the_lost reroutes.now) }
{
    reroutes.iter().filter(|reroute| is_lost(reroute)).count()
}

/// How many regain one.
fn regained_count(reroutes: &[Reroute]) -> usize
    ensures { result ≡ length (filter the_regained reroutes.now) }
{
    reroutes
        .iter()
        .filter(|reroute| is_regained(reroute))
        .count()
}

/// How many do neither.
fn moved_count(reroutes: &[Reroute]) -> usize
    ensures { result ≡ length (filter only_moved reroutes.now) }
{
    reroutes
        .iter()
        .filter(|reroute| is_only_moved(reroute))
        .count()
}
