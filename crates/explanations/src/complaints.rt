//! What is wrong with a row of a table.

ghost use Rattle.std.specs.Prelude.{◌≡◌, true};
ghost use Rattle.explanations.specs.Names.{complaint_title};
ghost use Rattle.explanations.specs.Titles.{is_listed};

use crate::explanation::{Explanation, PLAIN};
use transfer_state::Clause;

/// What to do about a wrong table.
const REPORT: &str = "Report it: on a valid network each table is right.";

pub(crate) const POINTS: Explanation = Explanation {
    title: "a points",
    meaning: "The table's points are not the plan's.",
    action: REPORT,
    ..PLAIN
};

pub(crate) const ROUTE: Explanation = Explanation {
    title: "b route",
    meaning: "The row's class or its members are not those that it chooses.",
    action: REPORT,
    ..PLAIN
};

pub(crate) const STATUS: Explanation = Explanation {
    title: "c status",
    meaning: "The row's status is not the one that follows.",
    action: REPORT,
    ..PLAIN
};

pub(crate) const LINKS: Explanation = Explanation {
    title: "d links",
    meaning: "The row's links are not those of its choice.",
    action: REPORT,
    ..PLAIN
};

pub(crate) const MESSAGES: Explanation = Explanation {
    title: "e messages",
    meaning: "The row's messages are not those in force.",
    action: REPORT,
    ..PLAIN
};

/// What is wrong with a row of a table, by the letter of a complaint.
pub fn explain_complaint(clause: Clause) -> &'static Explanation
    ensures title { result.now.title.now ≡ complaint_title clause }
    ensures listed { is_listed result.now.title.now ≡ true }
{
    match clause {
        Clause::Points => &POINTS,
        Clause::Route => &ROUTE,
        Clause::Status => &STATUS,
        Clause::Links => &LINKS,
        Clause::Messages => &MESSAGES,
    }
}
