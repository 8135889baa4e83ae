//! What a desk answers to posts, openings, and calls that it refuses.

/// The answer to a post that isn't refused.
#[derive(Clone, Copy, Debug, PartialEq, Eq)]
pub enum Posted {
    /// The event was accepted, and has this number.
    Taken(u64),
    /// The event was accepted before, and has this number.
    Again(u64),
}

/// The answer to an opening that isn't refused.
#[derive(Clone, Copy, Debug, PartialEq, Eq)]
pub struct Opened {
    /// The number of the next version.
    pub target: u64,
    /// How many destinations wait.
    pub waiting: usize,
}

/// Why a call of the desk is refused; out of memory comes last in each.
#[derive(Clone, Copy, Debug, PartialEq, Eq)]
pub enum Refusal {
    /// Memory was refused.
    OutOfMemory,
    /// The network refuses the event.
    Edit(net_data::Refusal),
    /// A sequence number is left out: the one that is due.
    Gap(u64),
    /// The sequence number is below the last accepted one: that.
    Old(u64),
    /// The sequence number is the last accepted one, with another event.
    Clash,
    /// 65,536 accepted events are not published.
    BacklogFull,
    /// So many destinations wait for a result or are out.
    NotReady(usize),
    /// There is nothing to do.
    Nothing,
    /// A target is open.
    Busy,
    /// Another target is open, or none.
    Stale(Option<u64>),
    /// The destination is not out.
    Unasked,
    /// The result is of something else than the target's network.
    Differs,
    /// The greatest number is taken.
    EndOfNumbers,
    /// No target is open.
    NotOpen,
}
