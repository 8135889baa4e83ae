//! What is told of a line that is refused, and what is told nowhere else.

ghost use Rattle.std.specs.Prelude.{◌≡◌, true};
ghost use Rattle.answers.specs.Answers.{reason_name};
ghost use Rattle.explanations.specs.Titles.{is_listed};

use crate::desk::explain_desk;
use crate::edits::{NO_PLAN, explain_edit};
use crate::explanation::{Explanation, PLAIN};
use crate::faults::WRITE;
use answers::Reason;

pub(crate) const NO_ROW: Explanation = Explanation {
    title: "29 NoRow",
    meaning: "The point of the question has no row in the plan.",
    action: "Ask for a point that has one.",
    ..PLAIN
};

pub(crate) const NOT_KEPT: Explanation = Explanation {
    title: "53 NotKept",
    meaning: "The version of that number is none of the last eight before the published one.",
    action: "Ask for one of those; changes alone compares with the last of them.",
    ..PLAIN
};

pub(crate) const BAD_LINE: Explanation = Explanation {
    title: "62 BadLine",
    values: "KEY PLACE",
    legend: "KEY and PLACE are told of a network text alone: a key, and the place of an entry of its array, from 1.",
    meaning: "The line is no command, or the slot is empty; of a network text: the entry can't be read.",
    action: "Compare the line with the tables of SCRIPT.md, or the entry with NETWORK.md.",
};

pub(crate) const BAD_CODE: Explanation = Explanation {
    title: "2 BadCode",
    meaning: "A code can't be read as z-a-p: z 0 to 7, a 0 to 255, p 0 to 7.",
    action: "Mend the code; in a script it makes the line `62 BadLine`.",
    ..PLAIN
};

pub(crate) const LIMITS: Explanation = Explanation {
    title: "limits",
    meaning: "There are up to 1,024 points; link set ids 0 to 4,095; 1 to 16 links in a set, with codes 0 to 15; one link set between two points; ranks 1 to 255, and four classes of one or two vias; 65,536 accepted events that are not yet published; 131,072 bytes in a script line and 134,217,728 in a network text.",
    action: "Stay within them.",
    ..PLAIN
};

/// What is told of why a line is refused.
pub fn explain_reason(why: &Reason) -> &'static Explanation
    ensures title { result.now.title.now ≡ reason_name why.now }
    ensures listed { is_listed result.now.title.now ≡ true }
{
    match why {
        Reason::Desk(refusal) => explain_desk(refusal),
        Reason::Event(refused) => explain_edit(&refused.refusal),
        Reason::NoPlan => &NO_PLAN,
        Reason::NoRow => &NO_ROW,
        Reason::NotKept => &NOT_KEPT,
        Reason::BadLine => &BAD_LINE,
        Reason::Write => &WRITE,
    }
}
