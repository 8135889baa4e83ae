//! The neighbours of a point one by one.

ghost use Rattle.std.specs.Prelude.{◌≡◌};
ghost use Rattle.std.specs.Iterator.{YieldsFirst, item_count};
ghost use Rattle.link_sets.specs.Neighbours.{neighbours as neighbours_of};
ghost use Rattle.excerpts.specs.Around.{neighbours_left};

use crate::indexed::Indexed;
use point_codes::PointCode;

/// The points that available sets join to a point, in rising code (own, after Q.704 clause 3.2).
///
/// It takes no memory.
#[derive(Drop)]
pub struct Neighbours<'a> {
    net: &'a Indexed,
    point: PointCode,
    from: u16,
    /// Where the next one is looked for first among the sets of the point.
    place: usize,
}

impl<'a> Neighbours<'a> {
    /// All neighbours of a point.
    pub fn new(net: &'a Indexed, point: PointCode) -> Neighbours<'a>
        ensures { neighbours_left result ≡ neighbours_of net.entry.now.sets point }
    {
        Neighbours {
            net,
            point,
            from: 0,
            place: 0,
        }
    }
}

impl<'a> Iterator for Neighbours<'a> {
    type Item = PointCode;

    ghost next_gives = { YieldsFirst neighbours_left };

    ghost remaining = { item_count neighbours_left };

    fn next(&mut self) -> Option<PointCode> {
        let z = self.net.next_near(self.point, self.from, &mut self.place)?;
        self.from = z.number() + 1;
        Some(z)
    }
}
