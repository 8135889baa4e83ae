//! Whether two values are equal in every part.

ghost use Rattle.std.specs.Prelude.{◌≡◌, ◌↔◌, IsTrue, map};
ghost use Rattle.std.specs.Arc.{arc_value};

use net_items::Plan;
use net_items::equals::is_same_plan;
use std::sync::Arc;

/// Whether shared plans are equal.
pub fn are_same_plans(a: &[Arc<Plan>], b: &[Arc<Plan>]) -> bool
    ensures { IsTrue result ↔ (map arc_value a.now ≡ map arc_value b.now) }
{
    a.len() == b.len() && a.iter().zip(b).all(|(x, y)| is_same_plan(x, y))
}
