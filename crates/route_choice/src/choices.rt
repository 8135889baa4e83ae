//! Statuses and choices.

ghost use Rattle.std.specs.Prelude.{◌≡◌};

use point_codes::PointCode;

/// The status of a destination at a point (Q.704 clauses 13.2 to 13.4).
#[derive(Clone, Copy, Debug, PartialEq, Eq)]
pub enum Far {
    /// The point transfers traffic to the destination (Q.704 clause 13.3).
    Allowed,
    /// It does, and other ways are preferred if there are any (Q.704 clause 13.4).
    Restricted,
    /// It transfers none (Q.704 clause 13.2).
    Prohibited,
}

impl Far {
    ghost use Rattle.route_choice.specs.Routes.{better_of, is_better, same_far};

    /// Whether this status is better: allowed before restricted, restricted before prohibited.
    pub fn is_better_than(self, other: Far) -> bool
        ensures { result ≡ is_better self other }
    {
        match (self, other) {
            (Far::Allowed, Far::Allowed) => false,
            (Far::Allowed, _) => true,
            (Far::Restricted, Far::Prohibited) => true,
            _ => false,
        }
    }

    /// Whether the two are the same.
    pub fn is_same_as(self, other: Far) -> bool
        ensures { result ≡ same_far self other }
    {
        self == other
    }

    /// The better of the two.
    pub fn better_of(self, other: Far) -> Far
        ensures { result ≡ better_of self other }
    {
        if other.is_better_than(self) {
            other
        } else {
            self
        }
    }
}

/// What a row uses towards the destination, and the status that follows (own, after Q.704 clauses 13.2 to 13.4).
#[derive(Clone, Copy, Debug, PartialEq, Eq)]
pub struct Choice {
    /// The class used, 1 to 4; 5 if the mate is used, 0 if there is no route.
    pub class: u8,
    /// The vias used, each at its place in the class; the mate stands at the first place.
    pub members: [Option<PointCode>; 2],
    /// The status of the destination at the row's point.
    pub status: Far,
}

impl Choice {
    /// No route.
    pub const NONE: Choice = Choice {
        class: 0,
        members: [None, None],
        status: Far::Prohibited,
    };
}
