//! What is wrong with a row of a plan.

ghost use Rattle.std.specs.Prelude.{◌≡◌, true};
ghost use Rattle.explanations.specs.Names.{cause_title};
ghost use Rattle.explanations.specs.Titles.{is_listed};

use crate::explanation::{Explanation, PLAIN};
use plan_rows::causes::Cause;

pub(crate) const IS_DEST: Explanation = Explanation {
    title: "a IsDest",
    meaning: "The row's point is the destination itself.",
    action: "Leave the row out.",
    ..PLAIN
};

pub(crate) const TWICE: Explanation = Explanation {
    title: "b Twice",
    meaning: "An earlier row has the same point.",
    action: "Keep one row of each point.",
    ..PLAIN
};

pub(crate) const NOT_JOINED: Explanation = Explanation {
    title: "c NotJoined",
    meaning: "No link set joins the row's point and a via.",
    action: "Use `set add` first, or lead over an adjacent point.",
    ..PLAIN
};

pub(crate) const VIA_TWICE: Explanation = Explanation {
    title: "d ViaTwice",
    meaning: "A via stands twice in the row.",
    action: "Name each via once.",
    ..PLAIN
};

pub(crate) const NOT_LOWER: Explanation = Explanation {
    title: "e NotLower",
    meaning: "A via is neither the destination nor a transfer point that has a row of lower rank in this plan.",
    action: "Mend the ranks, or lead over another point.",
    ..PLAIN
};

pub(crate) const VIA_MATE: Explanation = Explanation {
    title: "f ViaMate",
    meaning: "A via is the mate of the row's point (and the mate isn't the destination): the mate is used by the flag.",
    action: "Set the flag (`:m`) in the place of that via.",
    ..PLAIN
};

pub(crate) const BAD_MATE: Explanation = Explanation {
    title: "g BadMate",
    meaning: "The flag is set, and the row's point is no transfer point, has no mate, isn't joined to it, its mate is the destination, or its mate has no row of the same rank.",
    action: "Leave the flag out, or give both mates a row of one rank.",
    ..PLAIN
};

pub(crate) const NO_ROUTE: Explanation = Explanation {
    title: "h NoRoute",
    meaning: "The row has neither a class nor the flag.",
    action: "Give it a via or the flag, or leave the row out.",
    ..PLAIN
};

/// What is wrong with a row, by the cause of a refusal.
pub fn explain_cause(cause: Cause) -> &'static Explanation
    ensures title { result.now.title.now ≡ cause_title cause }
    ensures listed { is_listed result.now.title.now ≡ true }
{
    match cause {
        Cause::IsDest => &IS_DEST,
        Cause::Twice => &TWICE,
        Cause::NotJoined => &NOT_JOINED,
        Cause::ViaTwice => &VIA_TWICE,
        Cause::NotLower => &NOT_LOWER,
        Cause::ViaMate => &VIA_MATE,
        Cause::BadMate => &BAD_MATE,
        Cause::NoRoute => &NO_ROUTE,
    }
}
