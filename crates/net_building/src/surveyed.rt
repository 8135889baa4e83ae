//! What is surveyed, one after the other.

/// What is surveyed, one after the other.
#[derive(Clone, Copy, Debug, PartialEq, Eq)]
pub enum Surveyed {
    /// The sets with an available link: each fails as a whole.
    Sets,
    /// The transfer points: each fails as a whole, with all sets that end there.
    Points,
    /// The sets without an available link: all links of each are restored.
    Down,
}
