//! The trace of a signalling link selection: the links that it follows.

ghost use Rattle.std.specs.Prelude.{◌≡◌};

use crate::tables::LinkRef;
use net_items::Listing;
use point_codes::PointCode;

/// One link of a trace, from a point to the next.
#[derive(Clone, Copy, Debug, PartialEq, Eq)]
pub struct Hop {
    /// The point that the hop leaves.
    pub from: PointCode,
    /// The link that it takes.
    pub link: LinkRef,
    /// The point that it reaches.
    pub to: PointCode,
}

/// The hops of a trace, in their order.
pub type Hops = Listing<Hop>;

/// Where a signalling link selection leads.
#[derive(Debug, Drop)]
pub enum Trace {
    /// To the destination, over these hops.
    Reached(Hops),
    /// Nowhere: the destination is prohibited at the point.
    Stopped,
}
