//! The law of rebuilding.

ghost use Rattle.std.specs.Prelude.{◌≡◌, Ok};
ghost use Rattle.net_data.specs.Network.{Network};
ghost use Rattle.net_data.specs.Valid.{IsValid};
ghost use Rattle.net_data.specs.Edits.{apply_all};
ghost use Rattle.net_building.specs.Building.{empty_of, events_of};

/// The law: applied to the empty network of its network indicator, the events of a valid network make that network, and
/// none is refused. It does nothing when it runs.
pub fn rebuilt_law()
    ensures { (net : Network) → IsValid net → apply_all (empty_of net) (events_of net) ≡ Ok net }
{}
