//! Who answers the lines of a script.

use crate::faults::Fault;
use answers::{Answer, Asked, Reason, Telling};
use net_data::Net;
use std::alloc::Global;

/// Who answers the lines of a script, one after the other.
pub trait Answering: Drop {
    ghost use Rattle.std.specs.Prelude.{ℕ, List, IfOk, IfErr, OnErr};
    ghost use Rattle.net_data.specs.Network.{Network};
    ghost use Rattle.answers.specs.declared.answer.Answer.{Answer};
    ghost use Rattle.sessions.specs.Run.{CutsOff};

    // What a line does: its answer, and what stands after it.
    ghost commands: { List ℕ → Self → Answer → Self → Type 0 };

    // What may be left where the answer to a line is lost to a fault.
    ghost fails: { List ℕ → Self → Self → Type 0 };

    // The network that is left after the last line.
    ghost leaves: { Self → Network → Type 0 };

    // Whether it needs a place for a reader, which may be refused.
    ghost needs_place: { Type 0 };

    /// Does what a line says, which is neither too long nor silent, and gives its answer.
    ///
    /// # Errors
    ///
    /// A fault that cuts the answers off.
    fn answer(&mut self, alloc: Global, line: &[u8]) -> Result<Answer, Fault>
        ensures command { IfOk result (λ answer. commands line.now self.old answer self.new) }
        ensures lost { OnErr result (fails line.now self.old self.new) }
        ensures fault { IfErr result (CutsOff needs_place) };

    /// Shows the network after all accepted events to who explains why a line is refused.
    fn show_net<T: Telling>(&self, alloc: Global, telling: &T, asked: Asked<'_>, why: Reason);

    /// The network that is left after the last line, given away.
    ///
    /// # Errors
    ///
    /// A fault that cuts it off.
    fn into_net(self, alloc: Global) -> Result<Net, Fault>
        ensures net { IfOk result (leaves self) }
        ensures fault { IfErr result (CutsOff needs_place) };
}
