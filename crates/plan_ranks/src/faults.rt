//! Why rows have no ranks.

use point_codes::PointCode;
use std::alloc::AllocError;

/// Why the rows of a plan have no ranks.
#[derive(Debug, Drop)]
pub enum RankFault {
    /// Memory was refused.
    OutOfMemory,
    /// Two mates of which each has the other as a via, or one of them as a via and the other as its mate.
    MateLoop(PointCode, PointCode),
    /// Points of which each has the next as a via or as its mate, and the last the first.
    Loop(Vec<PointCode>),
    /// No loop was found: some row would need a rank above 255.
    TooDeep,
}

impl From<AllocError> for RankFault {
    ghost use Rattle.std.specs.Prelude.{◌≡◌};
    ghost use Rattle.plan_ranks.specs.declared.faults.RankFault.TheVariants.{OutOfMemory};

    ghost from_gives = { λ _ fault. fault ≡ OutOfMemory };

    fn from(_refused: AllocError) -> RankFault {
        RankFault::OutOfMemory
    }
}
