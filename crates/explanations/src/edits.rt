//! What the refusals of an event mean.

ghost use Rattle.std.specs.Prelude.{◌≡◌, true};
ghost use Rattle.answers.specs.Refusals.{refusal_name};
ghost use Rattle.explanations.specs.Titles.{is_listed};

use crate::explanation::{Explanation, PLAIN};
use crate::faults::OUT_OF_MEMORY;
use net_data::Refusal;

pub(crate) const NO_POINT: Explanation = Explanation {
    title: "10 NoPoint",
    meaning: "A point that is named is not in the network.",
    action: "Use `point add` first, or mend the code.",
    ..PLAIN
};

pub(crate) const POINT_THERE: Explanation = Explanation {
    title: "11 PointThere",
    meaning: "There is a point with that code.",
    action: "Do nothing, or take another code.",
    ..PLAIN
};

pub(crate) const POINT_USED: Explanation = Explanation {
    title: "12 PointUsed",
    meaning: "The point is an end of a set, or has a plan or a row.",
    action: "Drop its sets and plans, and its rows (`plan set` without them).",
    ..PLAIN
};

pub(crate) const NOT_STP: Explanation = Explanation {
    title: "13 NotStp",
    meaning: "One of the two is no transfer point.",
    action: "Name two transfer points: only they have mates.",
    ..PLAIN
};

pub(crate) const PAIRED: Explanation = Explanation {
    title: "14 Paired",
    meaning: "The point has a mate already.",
    action: "Use `unpair` first.",
    ..PLAIN
};

pub(crate) const NOT_PAIRED: Explanation = Explanation {
    title: "15 NotPaired",
    meaning: "The point has no mate.",
    action: "Do nothing.",
    ..PLAIN
};

pub(crate) const PAIR_USED: Explanation = Explanation {
    title: "16 PairUsed",
    meaning: "With `pair`: a row of one leads over the other towards a third point; with `unpair`: a row of one of them has the mate flag.",
    action: "Change those plans first.",
    ..PLAIN
};

pub(crate) const NO_SET: Explanation = Explanation {
    title: "17 NoSet",
    meaning: "There is no link set with that id.",
    action: "Mend the id.",
    ..PLAIN
};

pub(crate) const SET_THERE: Explanation = Explanation {
    title: "18 SetThere",
    meaning: "There is a link set with that id.",
    action: "Take another id.",
    ..PLAIN
};

pub(crate) const JOINED: Explanation = Explanation {
    title: "19 Joined",
    values: "ID",
    legend: "ID is the id of that link set.",
    meaning: "Set ID joins the two points already.",
    action: "Use `link add ID ..`: there is one set between two points.",
};

pub(crate) const SAME_ENDS: Explanation = Explanation {
    title: "20 SameEnds",
    meaning: "The two points are one.",
    action: "Mend the codes.",
    ..PLAIN
};

pub(crate) const BAD_LINKS: Explanation = Explanation {
    title: "21 BadLinks",
    meaning: "No link is named, more than 16 are, a code is above 15, or one code stands twice.",
    action: "Mend the codes.",
    ..PLAIN
};

pub(crate) const NO_LINK: Explanation = Explanation {
    title: "22 NoLink",
    meaning: "The set has no link with that code.",
    action: "Mend the code.",
    ..PLAIN
};

pub(crate) const LINK_THERE: Explanation = Explanation {
    title: "23 LinkThere",
    meaning: "The set has a link with that code.",
    action: "Take another code.",
    ..PLAIN
};

pub(crate) const LAST_LINK: Explanation = Explanation {
    title: "24 LastLink",
    meaning: "It is the set's only link.",
    action: "Use `set drop` instead.",
    ..PLAIN
};

pub(crate) const SET_USED: Explanation = Explanation {
    title: "25 SetUsed",
    meaning: "A row of one end leads over the other end, or relies on it as its mate.",
    action: "Change those plans first.",
    ..PLAIN
};

pub(crate) const NO_PLAN: Explanation = Explanation {
    title: "26 NoPlan",
    meaning: "The destination of the event or the question has no plan.",
    action: "Use `plan set` first.",
    ..PLAIN
};

pub(crate) const BAD_ROW: Explanation = Explanation {
    title: "27 BadRow",
    values: "CODE c",
    legend: "CODE is the row's point, and c the letter of the cause: a IsDest, b Twice, c NotJoined, d ViaTwice, e NotLower, f ViaMate, g BadMate or h NoRoute.",
    meaning: "The row of the point CODE can't be in that plan, for the cause c.",
    action: "Look up the cause by its name, and mend the row.",
};

pub(crate) const LIMIT: Explanation = Explanation {
    title: "28 Limit",
    meaning: "There are more than 1,024 points, a set id is above 4,095, a rank is 0, there are more than four classes, or a class has no via or more than two.",
    action: "Stay within the limits.",
    ..PLAIN
};

/// What a refusal of an event means.
pub fn explain_edit(refusal: &Refusal) -> &'static Explanation
    ensures title { result.now.title.now ≡ refusal_name refusal.now }
    ensures listed { is_listed result.now.title.now ≡ true }
{
    match refusal {
        Refusal::OutOfMemory => &OUT_OF_MEMORY,
        Refusal::NoPoint => &NO_POINT,
        Refusal::PointThere => &POINT_THERE,
        Refusal::PointUsed => &POINT_USED,
        Refusal::NotStp => &NOT_STP,
        Refusal::Paired => &PAIRED,
        Refusal::NotPaired => &NOT_PAIRED,
        Refusal::PairUsed => &PAIR_USED,
        Refusal::NoSet => &NO_SET,
        Refusal::SetThere => &SET_THERE,
        Refusal::Joined(_) => &JOINED,
        Refusal::SameEnds => &SAME_ENDS,
        Refusal::BadLinks => &BAD_LINKS,
        Refusal::NoLink => &NO_LINK,
        Refusal::LinkThere => &LINK_THERE,
        Refusal::LastLink => &LAST_LINK,
        Refusal::SetUsed => &SET_USED,
        Refusal::NoPlan => &NO_PLAN,
        Refusal::BadRow(_, _) => &BAD_ROW,
        Refusal::Limit => &LIMIT,
    }
}
