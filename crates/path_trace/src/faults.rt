//! Why there is no trace.

/// Why there is no trace.
#[derive(Clone, Copy, Debug, PartialEq, Eq)]
pub enum TraceFault {
    /// Memory was refused.
    OutOfMemory,
    /// The destination has no plan.
    NoPlan,
    /// The point has no row in the plan.
    NoRow,
}
