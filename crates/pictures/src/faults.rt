//! Why there is no picture.

/// Why a picture was not made.
#[derive(Clone, Copy, Debug, PartialEq, Eq)]
pub enum PictureFault {
    /// The picture was asked about a destination that has no plan in the network.
    NoPlan,
    /// Memory was refused.
    OutOfMemory,
}
