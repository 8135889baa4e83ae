//! What can be wrong with a network text.

use net_data::Refusal;

/// A key of a network text, or one that isn't in the table.
#[derive(Clone, Copy, Debug, PartialEq, Eq)]
pub enum Key {
    /// `format`.
    Format,
    /// `ni`, the network indicator.
    Ni,
    /// `tfr`, the option of the transfer-restricted procedure.
    Tfr,
    /// `points`.
    Points,
    /// `pairs`.
    Pairs,
    /// `sets`.
    Sets,
    /// `plans`.
    Plans,
    /// A key that isn't one of these, or `tfr` in format 1.
    Unknown,
}

/// The first fault of a network text (own).
#[derive(Clone, Copy, Debug, PartialEq, Eq)]
pub enum LoadFault {
    /// The text is no TOML document.
    NotToml,
    /// The key is unknown, or required and missing, or holds a value of another type or out of range.
    BadKey(Key),
    /// The entry at this place, counted from 1, can't be read.
    BadLine(Key, usize),
    /// The entry at this place, counted from 1, is refused.
    Refused(Key, usize, Refusal),
    /// The file can't be read. `load` has the text already and never answers this.
    Read,
    /// Memory is wanting.
    OutOfMemory,
}
