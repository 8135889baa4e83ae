//! The law of texts.

ghost use Rattle.std.specs.Prelude.{ℕ, Bool, List, map};
ghost use Rattle.net_items.specs.declared.items.Point.{Point};
ghost use Rattle.net_items.specs.declared.items.LinkSet.{LinkSet};
ghost use Rattle.net_items.specs.declared.items.Plan.{Plan};
ghost use Rattle.net_data.specs.Valid.{IsRightPlan};
ghost use Rattle.net_data.specs.Network.{Network};
ghost use Rattle.net_sheets.specs.About.{network_header, network_text, entry_record, entries_about};
ghost use Rattle.net_sheets.specs.Records.{IsTable};
ghost use Rattle.net_sheets.specs.Tables.{points_header, points_text, point_record, sets_header, sets_text, set_record, routes_header, routes_text, route_record, routes_of};
ghost use Rattle.plan_ranks.specs.Ranks.{IsRanked, IsLeast, with_ranks};

/// The law: as CSV, the tables of a network are their headers and the records of its own keys, of its points, of its sets and
/// of the ways of its plans. It does nothing when it runs.
pub fn csv_law()
    ensures network { (ranked : Bool) (net : Network) → IsTable network_header (network_text ranked net) (map entry_record (entries_about ranked net)) }
    ensures points { (net : Network) → IsTable points_header (points_text net) (map point_record net.points) }
    ensures sets { (net : Network) → IsTable sets_header (sets_text net) (map set_record net.sets) }
    ensures routes { (net : Network) → IsTable routes_header (routes_text net) (map route_record (routes_of net.plans)) }
{}
