//! The neighbours of a point one by one.

ghost use Rattle.std.specs.Prelude.{◌≡◌};
ghost use Rattle.std.specs.Option.{IfSome};
ghost use Rattle.std.specs.Iterator.{YieldsFirst, item_count};
ghost use Rattle.link_sets.specs.Availability.{connected};
ghost use Rattle.link_sets.specs.Neighbours.{neighbours as neighbours_of, left_of, next_from, other_end_of, IsCodeFrom, IsNeighbour, IsEarlier};

use crate::availability::is_connected;
use net_items::LinkSet;
use point_codes::PointCode;

/// The point that a set joins to another, none if that isn't one of its ends.
pub fn other_end(set: &LinkSet, point: PointCode) -> Option<PointCode>
    ensures { result ≡ other_end_of point set.now }
{
    if set.a == point {
        Some(set.b)
    } else if set.b == point {
        Some(set.a)
    } else {
        None
    }
}

/// The lesser of a neighbour and the one over this set.
fn earlier(
    sets: &[LinkSet],
    point: PointCode,
    from: u16,
    set: &LinkSet,
    least: Option<PointCode>,
) -> Option<PointCode>
    requires { IfSome least (IsNeighbour sets.now point from) }
    ensures { IsEarlier sets.now point from set.now least result }
{
    let Some(z) = other_end(set, point) else {
        return least;
    };
    if z.number() < from {
        return least;
    }
    if let Some(v) = least
        && v <= z
    {
        return least;
    }
    if is_connected(sets, point, z) {
        Some(z)
    } else {
        least
    }
}

/// The first point of code `from` or above that an available set joins to the point.
pub fn next_neighbour(sets: &[LinkSet], point: PointCode, from: u16) -> Option<PointCode>
    ensures value { result ≡ next_from (connected sets.now point) from }
    ensures within { IfSome result (IsCodeFrom from) }
{
    let mut least = None;
    for i in 0..sets.len() {
        least = earlier(sets, point, from, &sets[i], least);
    }
    least
}

/// The points that available sets join to a point, in rising code.
///
/// It takes no memory: each step looks at the sets again.
#[derive(Drop)]
pub struct Neighbours<'a> {
    sets: &'a [LinkSet],
    point: PointCode,
    from: u16,
}

impl<'a> Neighbours<'a> {
    /// All neighbours of a point.
    pub fn new(sets: &'a [LinkSet], point: PointCode) -> Neighbours<'a>
        ensures { left_of result ≡ neighbours_of sets.now point }
    {
        Neighbours {
            sets,
            point,
            from: 0,
        }
    }
}

impl<'a> Iterator for Neighbours<'a> {
    type Item = PointCode;

    ghost next_gives = { YieldsFirst left_of };

    ghost remaining = { item_count left_of };

    fn next(&mut self) -> Option<PointCode> {
        let z = next_neighbour(self.sets, self.point, self.from)?;
        self.from = z.number() + 1;
        Some(z)
    }
}
