//! Sets as texts give them.

ghost use Rattle.std.specs.Prelude.{◌≡◌};

use net_items::Link;
use point_codes::PointCode;
use std::marker::Model;

/// A set as it is given in a text: its links may be any, in any order. A network refuses those that it can't have.
#[derive(Debug, Drop)]
pub struct GivenSet {
    id: u16,
    a: PointCode,
    b: PointCode,
    links: Vec<Link>,
}

impl Model for GivenSet {
    ghost use Rattle.net_items.specs.declared.items.LinkSet.{LinkSet};

    ghost Value = { LinkSet };

    ghost view = { λ s. record { id = s.id; a = s.a; b = s.b; links = s.links.items } };
}

impl GivenSet {
    /// The set of this id, of these two points and links.
    pub fn new(id: u16, a: PointCode, b: PointCode, links: Vec<Link>) -> GivenSet
        ensures { result ≡ record { id = id; a = a; b = b; links = links.items } }
    {
        GivenSet { id, a, b, links }
    }

    /// The number of the set.
    pub fn id(&self) -> u16
        ensures { result ≡ self.now.id }
    {
        self.id
    }

    /// Its first point.
    pub fn a(&self) -> PointCode
        ensures { result ≡ self.now.a }
    {
        self.a
    }

    /// Its second point.
    pub fn b(&self) -> PointCode
        ensures { result ≡ self.now.b }
    {
        self.b
    }

    /// Its links, in the order in which they were given.
    pub fn links(&self) -> &[Link]
        ensures { result.now ≡ self.now.links }
    {
        self.links.as_slice()
    }
}
