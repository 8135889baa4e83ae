//! Steps of a desk, and the answers to them.

use net_data::Event;
use point_codes::PointCode;
use work_units::{Job, Opened, Posted, Refusal, Settled};

/// A step of a desk.
#[derive(Drop)]
pub enum Step {
    /// A post: the collector, its sequence number, the event.
    Post(u8, u64, Event),
    /// An opening.
    Open,
    /// A job is taken.
    Take,
    /// A result is given.
    Give(Settled),
    /// A destination is abandoned: the version, the destination.
    Abandon(u64, PointCode),
    /// The target is published.
    Publish,
}

/// The answer to a step.
#[derive(Drop)]
pub enum Reply {
    /// To a post.
    Post(Result<Posted, Refusal>),
    /// To an opening.
    Open(Result<Opened, Refusal>),
    /// To the taking of a job.
    Take(Result<Job, Refusal>),
    /// To the giving of a result, which is handed back if it is refused.
    Give(Result<(), (Settled, Refusal)>),
    /// To an abandonment.
    Abandon(Result<(), Refusal>),
    /// To a publication: the number of the version.
    Publish(Result<u64, Refusal>),
}
