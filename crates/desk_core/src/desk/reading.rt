//! What a desk tells of itself.

ghost use Rattle.std.specs.Prelude.{◌≡◌, is_some, length};
ghost use Rattle.std.specs.Option.{option_map_or, option_and_then};
ghost use Rattle.std.specs.Arc.{arc_value};
ghost use Rattle.dirty_sets.specs.Waiting.{least, out, waiting};
ghost use Rattle.desk_core.specs.Desk.{accepted, net_now};
ghost use Rattle.desk_core.specs.Steps.{first_of, last_of, target_number};
ghost use Rattle.desk_core.specs.Runs.{IsSteadyDesk};

use crate::desk::Desk;
use net_data::Net;
use net_versions::Version;
use point_codes::PointCode;
use std::sync::Arc;

impl Desk {
    /// What the type keeps of an open target and of the published version. It does nothing when it runs.
    pub fn steady(&self)
        ensures { IsSteadyDesk self.now }
    {
        // The proof reads from this what the version keeps, and from the type's invariant the rest.
        self.published.validity();
    }

    /// How many events are accepted.
    pub fn accepted(&self) -> u64
        ensures { result ≡ accepted self.now }
    {
        self.published.number() + self.pending.len() as u64
    }

    /// The published version.
    pub fn published(&self) -> &Arc<Version>
        ensures { arc_value result.now ≡ self.now.published }
    {
        &self.published
    }

    /// The number of the open target.
    pub fn target(&self) -> Option<u64>
        ensures { result ≡ target_number self.now }
    {
        match &self.target {
            Some(target) => Some(target.number()),
            None => None,
        }
    }

    /// Whether a destination waits. It costs less than to count them.
    pub fn has_waiting(&self) -> bool
        ensures { result ≡ is_some (first_of self.now) }
    {
        match &self.target {
            Some(target) => target.has_waiting(),
            None => false,
        }
    }

    /// How many destinations wait.
    pub fn waiting(&self) -> usize
        ensures { result ≡ option_map_or (λ t. length (waiting t.tasks)) self.now.target 0 }
    {
        match &self.target {
            Some(target) => target.waiting(),
            None => 0,
        }
    }

    /// The least destination that is out.
    pub fn first_out(&self) -> Option<PointCode>
        ensures { result ≡ option_and_then (λ t. least (out t.tasks)) self.now.target }
    {
        match &self.target {
            Some(target) => target.first_out(),
            None => None,
        }
    }

    /// The sequence number of a collector's last accepted post, 0 if it has none.
    pub fn last_seq(&self, collector: u8) -> u64
        ensures { result ≡ (last_of self.now collector).seq }
    {
        self.lasts[usize::from(collector)].seq
    }

    /// The network after all accepted events.
    pub fn net_now(&self) -> &Net
        ensures { result.now ≡ net_now self.now }
    {
        &self.latest
    }

    /// The network after all accepted events, given away.
    pub fn into_net(self) -> Net
        ensures { result ≡ net_now self }
    {
        self.latest
    }

    /// How many more posts of changes of links take no memory.
    pub fn spare(&self) -> u32
        ensures { result ≡ self.now.spare }
    {
        self.spare
    }
}
