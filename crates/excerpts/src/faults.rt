//! Why there is no excerpt.

/// Why an excerpt was not made.
#[derive(Clone, Copy, Debug, PartialEq, Eq)]
pub enum ExcerptFault {
    /// The network has no plan for the destination.
    NoPlan,
    /// Memory was refused.
    OutOfMemory,
}
