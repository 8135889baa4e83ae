//! Why a run ends early.

use net_text::LoadFault;
use std::alloc::AllocError;

/// Why a run ended early.
#[derive(Debug, Clone, Copy, PartialEq, Eq)]
pub enum Fault {
    /// 1: a growth of memory was refused.
    OutOfMemory,
    /// 63: the input can't be read to its end, or is longer than its limit.
    Read,
    /// 64: the output can't be written.
    Write,
    /// 50: there is no place for a reader, or a version can't be shared once more.
    NoPlace,
    /// The network text is not one, by its own fault.
    Load(LoadFault),
}

impl From<AllocError> for Fault {
    ghost use Rattle.std.specs.Prelude.{◌≡◌};
    ghost use Rattle.sessions.specs.declared.faults.Fault.TheVariants.{OutOfMemory};

    ghost from_gives = { λ _ fault. fault ≡ OutOfMemory };

    fn from(_refused: AllocError) -> Fault {
        Fault::OutOfMemory
    }
}
