//! The law of ranks.

ghost use Rattle.std.specs.Prelude.{ℕ, List, map};
ghost use Rattle.net_items.specs.declared.items.Point.{Point};
ghost use Rattle.net_items.specs.declared.items.LinkSet.{LinkSet};
ghost use Rattle.net_items.specs.declared.items.Plan.{Plan};
ghost use Rattle.net_data.specs.Valid.{IsRightPlan};
ghost use Rattle.plan_ranks.specs.Ranks.{IsRanked, IsLeast, with_ranks};

/// The law: the ranks of a right plan of a network are ranks of its rows, and with the least ranks it is a right plan too. It
/// does nothing when it runs.
pub fn rank_law()
    ensures ranked { (points : List Point) (sets : List LinkSet) (plan : Plan) → IsRightPlan points sets plan → IsRanked points plan.dest plan.rows (map (λ r. r.rank) plan.rows) }
    ensures least { (points : List Point) (sets : List LinkSet) (plan : Plan) (ranks : List ℕ) → IsRightPlan points sets plan → IsLeast points plan.dest plan.rows ranks → IsRightPlan points sets (record plan { rows = with_ranks plan.rows ranks }) }
{}
