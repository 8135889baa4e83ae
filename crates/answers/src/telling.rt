//! Who tells the answers to the lines of a script.

use crate::answer::{Answer, Reason};
use net_data::Net;
use std::alloc::{AllocError, Global};

/// A line that is answered.
#[derive(Clone, Copy)]
pub struct Asked<'a> {
    /// Its number in the script, from 1.
    pub number: u64,
    /// The line; none if it is too long to be kept.
    pub line: Option<&'a [u8]>,
}

/// Who tells the answers to the lines of a script: it makes the text of each.
pub trait Telling {
    ghost use Rattle.std.specs.Prelude.{◌≡◌, ◌++◌, ℕ, List, OnOk, string_bytes};
    ghost use Rattle.answers.specs.declared.answer.Answer.{Answer as AnswerValue};

    // The texts that an answer may be told in.
    ghost tells: { Self → AnswerValue → List ℕ → Type 0 };

    /// Whether it explains why lines are refused, and so is to be shown the network.
    fn explains(&self) -> bool {
        false
    }

    /// Explains why a line is refused, by the network after all accepted events. It is called before that is told, maybe under a lock: what it
    /// has to say it says later.
    fn explain(&self, _alloc: Global, _asked: Asked<'_>, _why: Reason, _net: &Net) {}

    /// Adds what is told of the answer to a line.
    ///
    /// # Errors
    ///
    /// Memory is refused.
    fn tell(
        &self,
        alloc: Global,
        asked: Asked<'_>,
        answer: Answer,
        text: &mut String,
    ) -> Result<(), AllocError>
        ensures { OnOk result ((told : List ℕ) × tells self.now answer told × (string_bytes text.new ≡ string_bytes text.old ++ told)) };
}
