//! Laws: functions that do nothing when they run, and whose contracts are facts about the definitions.

ghost use Rattle.net_data.specs.Network.{Network};
ghost use Rattle.net_data.specs.Valid.{IsValid};
ghost use Rattle.what_if.specs.Reroutes.{IsEachMove, reroutes};

/// The law: the reroutes from a network to another are each point and destination whose choice differs, and no other, in rising
/// destination, and of one destination in rising point. It does nothing when it runs.
pub fn reroutes_law()
    ensures { (old new : Network) → IsValid new → IsEachMove old new (reroutes old new) }
{}
