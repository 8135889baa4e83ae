//! Networks, their parts and their edits.

pub use net_building::{
    Listed, Surveyed, Whole, events_of_listed, events_of_whole, refusal_of_whole,
};
pub use net_data::{Cause, Event, Net, Plans, Refusal};
pub use net_items::{
    Classes, GivenPlan, Kind, Link, LinkList, LinkSet, Links, Listing, Plan, Point, Row, Rows,
    Slcs, Vias,
};
