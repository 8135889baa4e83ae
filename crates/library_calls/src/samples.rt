//! The network that all calls are made over.

use route_state::codes::PointCode;
use route_state::excerpt::Frozen;
use route_state::marks::LinkChange;
use route_state::nets::{Event, Net};
use route_state::texts::load;
use std::alloc::Global;

/// Two mated transfer points between three end points, and the plan of 2-1-2.
pub(crate) const WORKED: &str = "format = 1
ni = 2
points = ['2-1-1 sep', '2-1-2 sep', '2-1-3 sep', '2-10-1 stp', '2-10-2 stp']
pairs = ['2-10-1 2-10-2']
sets = ['1 2-1-1 2-10-1 0 1', '2 2-1-1 2-10-2 0 1', '3 2-10-1 2-1-2 0 1', '4 2-10-2 2-1-2 0', '5 2-10-1 2-10-2 0', '6 2-10-1 2-1-3 0f']
plans = ['2-1-2 2-1-1:2:2-10-1+2-10-2 2-10-1:1:2-1-2:m 2-10-2:1:2-1-2:m']
";

/// The network of `WORKED`.
pub(crate) fn worked(alloc: Global) -> Option<Net> {
    load(alloc, WORKED.as_bytes()).ok()
}

/// The same, shared.
pub(crate) fn frozen(alloc: Global) -> Option<Frozen> {
    Frozen::new(alloc, worked(alloc)?).ok()
}

/// The code that a text is.
pub(crate) fn code(text: &str) -> Option<PointCode> {
    PointCode::parse(text.as_bytes()).ok()
}

/// A change of the only link between 2-10-2 and 2-1-2.
pub(crate) fn change(change: LinkChange) -> Event {
    Event::Link(4, 0, change)
}
