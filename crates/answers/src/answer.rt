//! What is answered to a line, with its values.

use crate::boxed::Boxed;
use crate::remedies::Remedy;
use crate::shown::Shown;
use crate::taken::AllTaken;
use crate::text::Text;
use crate::ways::Ways;
use crate::who::SeatCounts;
use net_data::Net;
use point_codes::PointCode;
use profile::{Messages, RowLinks, Trace};
use route_choice::{Choice, Far};
use transfer_state::Complaint;
use what_if::{Mend, Refused, Report, RerouteCounts, Reroutes, Survey, Warnings};
use work_units::{Opened, Refusal};

/// Why a line is refused.
#[derive(Clone, Copy)]
pub enum Reason {
    /// The desk refuses a call.
    Desk(Refusal),
    /// The network refuses an event of a what-if.
    Event(Refused),
    /// The destination has no plan.
    NoPlan,
    /// The point has no row.
    NoRow,
    /// The version of that number isn't kept any more, or never was published.
    NotKept,
    /// The line is no command, or its slot is empty.
    BadLine,
    /// A file can't be written.
    Write,
}

/// What the desk replies.
#[derive(Clone, Copy)]
pub enum Reply {
    /// The event was accepted, under this number.
    Taken(u64),
    /// The event was accepted before, under this number.
    Again(u64),
    /// A target is open.
    Opened(Opened),
    /// A job was taken: the version that it is for, and its destination.
    Job(u64, PointCode),
    /// A result was given.
    Given,
    /// A destination was abandoned.
    Abandoned,
    /// The number of the published version, and how many events are accepted.
    Version(u64, u64),
    /// Whether changes are told behind publications from now on.
    Watch(bool),
    /// A collector's last sequence number, 0 if it has posted nothing.
    Last(u64),
    /// The script ends here.
    Quit,
}

/// What moved since an earlier version.
#[derive(Drop)]
pub struct Moved {
    /// The number of that version, none if nothing was published before.
    pub since: Option<u64>,
    /// How much was lost, regained and moved since.
    pub counts: RerouteCounts,
    /// What moved since, all of it or what is of a kind.
    pub reroutes: Reroutes,
}

/// What was published, and what that moved.
#[derive(Drop)]
pub enum Publication {
    /// The version of this number is published, and what moved, if that is told behind publications.
    Published(u64, Option<Boxed<Moved>>),
    /// All that is accepted is published, under this number; and what moved, if that is told behind publications.
    Synced(u64, Option<Boxed<Moved>>),
    /// What moved since an earlier version to the one of this number.
    Changes(u64, Boxed<Moved>),
}

/// What is told of the row of a point.
#[derive(Drop)]
pub enum RowAnswer {
    /// What it uses.
    Status(Choice),
    /// Its class, and the link of each signalling link selection (Q.704 clause 2.3).
    Links(u8, RowLinks),
    /// The messages in force from its point (Q.704 clauses 13.2 to 13.4).
    Messages(Messages),
    /// The octets of the message in force to a point, if one is.
    Octets(Option<[u8; 8]>),
    /// Why it uses what it uses: its status, and its ways.
    Why(Far, Ways),
    /// The links that have to be restored, if restoring does it.
    Mend(Option<Mend>),
    /// The changes that restore them, if restoring does it.
    Remedy(Option<Remedy>),
}

/// What is told of the whole network.
#[derive(Drop)]
pub enum NetAnswer {
    /// The links that a signalling link selection follows.
    Trace(Trace),
    /// What events would change.
    WhatIf(Report),
    /// What events would move.
    Reroutes(Reroutes),
    /// What single failures would take, or single repairs bring back.
    Survey(Boxed<Survey>),
    /// What a planner is warned of.
    Warned(Warnings),
    /// So many tables, each right.
    Right(usize),
    /// A wrong table: its destination, and the first complaint about it.
    Wrong(PointCode, Complaint),
    /// The file that a picture is for, and the picture.
    Picture(Text, Boxed<Text>),
    /// The file that a picture was put into.
    Drawn(Text),
    /// The file that a network is for, and the network.
    Saving(Text, Boxed<Net>),
    /// The file that a network was put into.
    Saved(Text),
}

/// What is answered to a line.
#[derive(Drop)]
pub enum Answer {
    /// What the desk replies.
    Reply(Reply),
    /// All events of a whole set or point were accepted.
    AllTaken(AllTaken),
    /// What was published, and what that moved.
    Publication(Publication),
    /// What is told of the row of a point.
    Row(RowAnswer),
    /// What is told of the whole network.
    Net(NetAnswer),
    /// What is shown of the network.
    Shown(Boxed<Shown>),
    /// How many events were accepted through each seat.
    Who(SeatCounts),
    /// What `help` tells.
    Help(Text),
    /// Why the line is refused.
    Refused(Reason),
}
