//! Points all of whose sets are available. Mostly nearly all points are such, and then no set has to be looked for.

ghost use Rattle.std.specs.Prelude.{◌≡◌, ℕ, IfOk, false, length};
ghost use Rattle.link_sets.specs.Availability.{set_available as has_available};
ghost use Rattle.excerpts.specs.Intact.{told_intact, TellIntact};

use link_sets::set_available;
use net_items::LinkSet;
use point_codes::PointCode;
use std::alloc::{AllocError, Global};
use std::marker::Model;
use std::sync::Arc;

/// How many entries there are. Points have one entry together if their codes leave the same remainder.
const ENTRY_COUNT: usize = 1024;

/// The entries, each true if all sets at its points are available. Networks between which no set turned share them.
#[derive(Drop)]
pub struct IntactPoints {
    entries: Arc<Vec<bool>>,
}

impl Model for IntactPoints {
    ghost use Rattle.std.specs.Prelude.{◌≡◌, List, Bool, length};
    ghost use Rattle.std.specs.Arc.{arc_value};

    ghost Value = { List Bool };

    ghost view = { λ i. (arc_value i.entries).items };

    ghost invariant = { λ i. length (arc_value i.entries).items ≡ 1024 };
}

/// Notes that a set at a point isn't available.
fn note_point(entries: &mut Vec<bool>, point: PointCode)
    requires { length entries.old.items ≡ 1024 }
    ensures long { length entries.new.items ≡ 1024 }
    ensures here { told_intact entries.new.items point ≡ false }
    ensures kept { (y : ℕ) → told_intact entries.old.items y ≡ false → told_intact entries.new.items y ≡ false }
{
    entries[usize::from(point.number()) % ENTRY_COUNT] = false;
}

/// Notes the ends of a set, if it isn't available.
fn note_set(entries: &mut Vec<bool>, set: &LinkSet)
    requires { length entries.old.items ≡ 1024 }
    ensures long { length entries.new.items ≡ 1024 }
    ensures first { has_available set.now ≡ false → told_intact entries.new.items set.now.a ≡ false }
    ensures second { has_available set.now ≡ false → told_intact entries.new.items set.now.b ≡ false }
    ensures kept { (y : ℕ) → told_intact entries.old.items y ≡ false → told_intact entries.new.items y ≡ false }
{
    if !set_available(set) {
        note_point(entries, set.a);
        note_point(entries, set.b);
    }
}

/// The entries of sets.
fn entries_of(alloc: Global, sets: &[LinkSet]) -> Result<Vec<bool>, AllocError>
    ensures long { IfOk result (λ entries. length entries.items ≡ 1024) }
    ensures told { IfOk result (λ entries. TellIntact sets.now entries.items) }
{
    let mut entries = vec![in alloc; true; ENTRY_COUNT]?;
    for set in sets {
        note_set(&mut entries, set);
    }
    Ok(entries)
}

impl IntactPoints {
    /// Those of sets. It fails only if memory is refused.
    pub fn of(alloc: Global, sets: &[LinkSet]) -> Result<IntactPoints, AllocError>
        ensures { IfOk result (λ intact. TellIntact sets.now intact) }
    {
        let entries = entries_of(alloc, sets)?;
        Ok(IntactPoints {
            entries: Arc::new(alloc, entries)?,
        })
    }

    /// The same once more. It fails only if no further share can be counted.
    pub fn share(&self) -> Result<IntactPoints, AllocError>
        ensures { IfOk result (λ intact. intact ≡ self.now) }
    {
        Ok(IntactPoints {
            entries: Arc::try_clone(&self.entries)?,
        })
    }

    /// Whether all sets at a point are available, as far as it is told: it may be false though they are.
    pub fn has(&self, point: PointCode) -> bool
        ensures { result ≡ told_intact self.now point }
    {
        self.entries[usize::from(point.number()) % ENTRY_COUNT]
    }
}
