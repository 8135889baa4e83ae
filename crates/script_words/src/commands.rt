//! Commands, lists of events, and names of files.

ghost use Rattle.std.specs.Prelude.{◌≡◌, string_bytes};

use crate::moves::Moves;
use crate::questions::Question;
use crate::shows::Show;
use net_building::{Listed, Surveyed, Whole};
use net_data::Event;
use net_items::Listing;
use point_codes::PointCode;
use std::marker::Model;

/// A list of events, in their order, in which the changes of whole sets and points may stand.
pub type Events = Listing<Listed>;

/// The name of a file. Contracts see its bytes.
#[derive(Drop)]
pub struct FileName {
    text: String,
}

impl Model for FileName {
    ghost use Rattle.std.specs.Prelude.{ℕ, List, string_bytes};

    ghost Value = { List ℕ };

    ghost view = { λ name. string_bytes name.text };
}

impl FileName {
    /// The name that a text is.
    pub fn from_string(text: String) -> FileName
        ensures { result ≡ string_bytes text }
    {
        FileName { text }
    }

    /// The name as a text.
    pub fn as_str(&self) -> &str
        ensures { result.now ≡ self.now }
    {
        self.text.as_str()
    }
}

/// What a line commands.
#[derive(Drop)]
pub enum Command {
    /// An event, posted by collector 0.
    Event(Event),
    /// The change of a whole set or point: its events, posted by collector 0 one after the other.
    Whole(Whole),
    /// A post: the collector, its sequence number, the event.
    Post(u8, u64, Event),
    /// The opening of a target.
    Open,
    /// A job is taken and done; its result goes to the slot.
    Take(u8),
    /// The result in a slot is given.
    Give(u8),
    /// The destination of the result in a slot is abandoned.
    Abandon(u8),
    /// The target is published.
    Publish,
    /// All that is accepted is settled and published.
    Sync,
    /// The number of the published version is asked, and how many events are accepted.
    Version,
    /// Something of the row of a point, in the table of a destination, is asked.
    About(Question, PointCode, PointCode),
    /// The trace of a signalling link selection is asked: from a point, to a destination.
    Trace(PointCode, PointCode, u8),
    /// What events would change is asked.
    WhatIf(Events),
    /// What events would move is asked.
    Reroutes(Events),
    /// What single failures would take, or single repairs bring back, after events is asked.
    Survey(Surveyed, Events),
    /// What a planner is warned of is asked.
    Warn,
    /// A check of all tables is asked.
    Audit,
    /// Something of the published network is to be shown.
    Show(Show),
    /// What moved since the version before, or since the one of this number, is asked: all of it, or what is of a kind.
    Changes(Option<u64>, Moves),
    /// A collector's last sequence number is asked.
    Last(u8),
    /// How many events were accepted through each seat is asked.
    Who,
    /// What each publication changes is told behind its reply from now on, or no more.
    Watch(bool),
    /// A picture of the published network is asked, for a file, about a destination if one is named.
    Picture(FileName, Option<PointCode>),
    /// The network after all accepted events is asked, for a file.
    Save(FileName),
}
