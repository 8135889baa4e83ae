//! What a planner is warned of.

ghost use Rattle.std.specs.Prelude.{◌≡◌, true};
ghost use Rattle.answers.specs.Warnings.{warning_name};
ghost use Rattle.explanations.specs.Titles.{is_warned};

use crate::explanation::Explanation;
use what_if::Warning;

pub(crate) const MISSING_ROW: Explanation = Explanation {
    title: "MissingRow",
    values: "Y/X",
    legend: "Y is the point, X the destination.",
    meaning: "The plan of X has no row of Y, though a set joins Y to a point that has one, or to X: so Y leads no traffic to X.",
    action: "Add the row, or leave it out if Y never sends to X.",
};

pub(crate) const MISSING_PLAN: Explanation = Explanation {
    title: "MissingPlan",
    values: "M/X",
    legend: "X is a destination with a plan, M its mate.",
    meaning: "M has no plan, though X, its mate, has one.",
    action: "Set a plan of M too, if traffic is meant for it.",
};

pub(crate) const UNREACHED: Explanation = Explanation {
    title: "Unreached",
    values: "X",
    legend: "X is the point.",
    meaning: "No row leads traffic to X: it has no plan, or one without rows.",
    action: "Set a plan of X with rows, if traffic is meant for it.",
};

pub(crate) const UNNAMED: Explanation = Explanation {
    title: "Unnamed",
    values: "Y",
    legend: "Y is the point.",
    meaning: "No plan is of Y or has a row of it: it neither gets traffic nor leads any.",
    action: "Give Y a plan and rows, or drop the point.",
};

pub(crate) const UNUSED: Explanation = Explanation {
    title: "Unused",
    values: "ID",
    legend: "ID is the link set.",
    meaning: "No row of any plan leads over the set.",
    action: "Lead rows over it, or drop the set.",
};

pub(crate) const SINGLE_FAILURE: Explanation = Explanation {
    title: "SingleFailure",
    values: "ID:PAIRS or CODE:PAIRS",
    legend: "ID is a link set, CODE a transfer point, and PAIRS the pairs of a point and a destination that its failure would take.",
    meaning: "If that set or transfer point failed alone, PAIRS statuses would turn prohibited.",
    action: "Give these points a second way. `whatif set fail ID` or `whatif point fail CODE` tells which they are.",
};

/// What a warning means.
pub fn explain_warning(warning: &Warning) -> &'static Explanation
    ensures title { result.now.title.now ≡ warning_name warning.now }
    ensures listed { is_warned result.now.title.now ≡ true }
{
    match warning {
        Warning::MissingRow(_, _) => &MISSING_ROW,
        Warning::MissingPlan(_, _) => &MISSING_PLAN,
        Warning::Unreached(_) => &UNREACHED,
        Warning::Unnamed(_) => &UNNAMED,
        Warning::Unused(_) => &UNUSED,
        Warning::SetFails(_, _) | Warning::PointFails(_, _) => &SINGLE_FAILURE,
    }
}
