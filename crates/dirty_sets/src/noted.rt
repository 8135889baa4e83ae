//! The sets that events were on.

ghost use Rattle.std.specs.Prelude.{◌≡◌, ◌<◌, ◌||◌, List, Bool, false};
ghost use Rattle.dirty_sets.specs.Bits.{is_marked, meets as meet};

use crate::bits::SetIds;
use std::marker::Model;

/// Which set ids are marked, and the range in which they lie: mostly it is short. It takes no memory.
#[derive(Drop)]
pub struct NotedIds {
    ids: SetIds,
    from: u16,
    to: u16,
}

impl Model for NotedIds {
    ghost use Rattle.std.specs.Prelude.{List, Bool};
    ghost use Rattle.dirty_sets.specs.Bits.{LieWithin};

    ghost Value = { List Bool };

    ghost view = { λ s. s.ids };

    ghost invariant = { λ s. LieWithin s.from s.to s.ids };
}

impl NotedIds {
    /// None is marked.
    pub fn new() -> NotedIds
        ensures { (others : List Bool) → meet result others ≡ false }
    {
        NotedIds {
            ids: SetIds::new(),
            from: 4096,
            to: 0,
        }
    }

    /// Marks an id.
    pub fn mark(&mut self, id: u16)
        requires { id < 4096 }
        ensures { (others : List Bool) → meet self.new others ≡ (meet self.old others || is_marked others id) }
    {
        if id < self.from {
            self.from = id;
        }
        if id >= self.to {
            self.to = id + 1;
        }
        self.ids.mark(id);
    }

    /// Whether an id is marked here and there.
    pub fn meets(&self, other: &SetIds) -> bool
        ensures { result ≡ meet self.now other.now }
    {
        for id in self.from..self.to {
            if self.ids.has(id) && other.has(id) {
                return true;
            }
        }
        false
    }
}
