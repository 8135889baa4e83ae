//! What a session reads and writes, how it ends, and who is told so.

use answers::SeatNames;
use net_data::Net;
use sessions::Fault;

/// Who is told how a session has ended, while others go on.
pub trait Farewell {
    /// The session of this number, in the order in which they were given, has ended, and was cut short if there is a fault. It is told in
    /// the session's own thread, so others may be told at the same time.
    fn tell(&self, session: usize, fault: Option<Fault>);
}

/// Who does nothing when a session has ended.
#[derive(Drop)]
pub struct Silent;

impl Farewell for Silent {
    fn tell(&self, _session: usize, _fault: Option<Fault>) {}
}

/// What a session may do, and what it tells of the others.
#[derive(Drop)]
pub struct Rules {
    /// Whether it may post. If not, an event or a post is answered `refused 62 BadLine`.
    pub posts: bool,
    /// The collector that posts its plain events.
    pub collector: u8,
    /// The names of the sessions, in the order in which they are given, by which `who` tells them.
    pub names: SeatNames,
}

/// A session that is to be run.
#[derive(Drop)]
pub struct Channel<R, W, L> {
    /// Where its lines come from.
    pub reader: R,
    /// Where its answers go.
    pub writer: W,
    /// Who tells its answers.
    pub telling: L,
    /// What it may do.
    pub rules: Rules,
}

/// How a session ended, with its reader and its writer handed back.
#[derive(Drop)]
pub struct SessionEnd<R, W> {
    /// How many lines of answers were written whole.
    pub lines: u128,
    /// Why it ended early, if it did.
    pub fault: Option<Fault>,
    /// The reader, as far as it was read.
    pub reader: R,
    /// The writer, with what was written.
    pub writer: W,
}

/// How all sessions at a desk ended.
#[derive(Drop)]
pub struct DeskEnd<R, W> {
    /// The sessions, in the order in which they were given.
    pub ends: Vec<SessionEnd<R, W>>,
    /// The network after all accepted events; none if memory for it is refused.
    pub net: Option<Net>,
}
