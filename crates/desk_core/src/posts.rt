//! What a desk keeps of a collector's posts.

use net_data::Event;

/// A collector's last accepted post; a sequence number of 0 stands for none.
#[derive(Drop)]
pub struct Last {
    /// Its sequence number.
    pub seq: u64,
    /// The number of the event.
    pub number: u64,
    /// The event.
    pub event: Option<Event>,
}
