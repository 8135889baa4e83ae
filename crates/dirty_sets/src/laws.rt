//! What the touched destinations leave out.

ghost use Rattle.std.specs.Prelude.{◌≡◌, ℕ, None, false};
ghost use Rattle.net_data.specs.declared.events.Event.{Event};
ghost use Rattle.net_data.specs.Network.{Network};
ghost use Rattle.net_data.specs.Edits.{changed, refusal_of};
ghost use Rattle.net_data.specs.Valid.{IsValid};
ghost use Rattle.excerpts.specs.Excerpt.{content_at};
ghost use Rattle.dirty_sets.specs.Touch.{touches};

/// The law: an accepted event that doesn't touch a destination leaves what its table reads as it is, and where the
/// destination has no plan, it has none after it. It does nothing when it runs.
pub fn untouched_law()
    ensures { (net : Network) (event : Event) (x : ℕ) → IsValid net → refusal_of net event ≡ None → touches net event x ≡ false → content_at (changed net event) x ≡ content_at net x }
{}
