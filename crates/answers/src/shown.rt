//! What is shown of a network, with its values.

use crate::text::Text;
use net_items::{LinkSet, Listing, Point};
use point_codes::PointCode;
use route_choice::Far;
use what_if::SetLink;

/// How large a network is.
#[derive(Clone, Copy)]
pub struct NetSize {
    /// How many points it has.
    pub points: usize,
    /// How many link sets it has.
    pub sets: usize,
    /// How many links these have.
    pub links: usize,
    /// How many of the links aren't available.
    pub down: usize,
    /// How many plans it has.
    pub plans: usize,
    /// Whether it has transfer-restricted messages.
    pub tfr: bool,
}

/// How many points have each status.
#[derive(Clone, Copy)]
pub struct StatusCounts {
    /// How many are allowed.
    pub allowed: usize,
    /// How many are restricted.
    pub restricted: usize,
    /// How many are prohibited.
    pub prohibited: usize,
}

/// The status of a point towards a destination.
#[derive(Clone, Copy)]
pub struct PointStatus {
    /// The point.
    pub point: PointCode,
    /// Its status.
    pub status: Far,
}

/// Links with their sets, in rising id and code.
pub type DownLinks = Listing<SetLink>;

/// The ids of link sets, rising.
pub type SetNumbers = Listing<u16>;

/// The statuses of the points of a plan, in rising code.
pub type Statuses = Listing<PointStatus>;

/// What is shown of a network.
#[derive(Drop)]
pub enum Shown {
    /// How large it is.
    Size(NetSize),
    /// The links that aren't available, with their sets.
    Down(DownLinks),
    /// A set.
    Set(LinkSet),
    /// A point, and the ids of the sets that end at it.
    Point(Point, SetNumbers),
    /// A plan, as its entry in a network text.
    Plan(Text),
    /// How each point of a plan reaches its destination, and how many of them so.
    Statuses(StatusCounts, Statuses),
}
