//! What the refusals of the desk mean.

ghost use Rattle.std.specs.Prelude.{◌≡◌, true};
ghost use Rattle.answers.specs.DeskRefusals.{desk_name};
ghost use Rattle.explanations.specs.Titles.{is_listed};

use crate::edits::explain_edit;
use crate::explanation::{Explanation, PLAIN};
use crate::faults::OUT_OF_MEMORY;
use work_units::Refusal;

pub(crate) const OLD: Explanation = Explanation {
    title: "41 Old",
    values: "LAST",
    legend: "LAST is the collector's last sequence number.",
    meaning: "The sequence number is 0, or below the collector's last, LAST.",
    action: "Go on after LAST: it was accepted before.",
};

pub(crate) const CLASH: Explanation = Explanation {
    title: "42 Clash",
    meaning: "The sequence number is the collector's last, with another event.",
    action: "Look for two sources that post under one collector's number.",
    ..PLAIN
};

pub(crate) const GAP: Explanation = Explanation {
    title: "40 Gap",
    values: "NEXT",
    legend: "NEXT is the sequence number that is due.",
    meaning: "The sequence number is above the next one, NEXT: a post is missing.",
    action: "Send from NEXT on.",
};

pub(crate) const END_OF_NUMBERS: Explanation = Explanation {
    title: "51 EndOfNumbers",
    meaning: "The greatest number, 2^64 - 1, is taken.",
    action: "Start again from a saved network.",
    ..PLAIN
};

pub(crate) const BACKLOG_FULL: Explanation = Explanation {
    title: "43 BacklogFull",
    meaning: "65,536 accepted events are not yet published.",
    action: "Use `sync`, then send it again.",
    ..PLAIN
};

pub(crate) const BUSY: Explanation = Explanation {
    title: "46 Busy",
    meaning: "A target is open.",
    action: "Use `publish` first, or `sync`.",
    ..PLAIN
};

pub(crate) const NOTHING: Explanation = Explanation {
    title: "45 Nothing",
    meaning: "After `open`: no event is newer than the published version; after `take`: no target is open, or nothing waits.",
    action: "After `open`: do nothing; after `take`: use `open`, or `publish`.",
    ..PLAIN
};

pub(crate) const STALE: Explanation = Explanation {
    title: "47 Stale",
    values: "T",
    legend: "T is the number of the target that is open, or the word none if there is no such target.",
    meaning: "The result is of another version than the target T, or no target is open.",
    action: "Drop it: use `take` into the slot again.",
};

pub(crate) const UNASKED: Explanation = Explanation {
    title: "48 Unasked",
    meaning: "The destination of the result is not out: it was given or abandoned before.",
    action: "Drop it.",
    ..PLAIN
};

pub(crate) const DIFFERS: Explanation = Explanation {
    title: "49 Differs",
    meaning: "The result was worked out of something else than the target's network has.",
    action: "Drop it, and use `take` again.",
    ..PLAIN
};

pub(crate) const NOT_OPEN: Explanation = Explanation {
    title: "52 NotOpen",
    meaning: "No target is open.",
    action: "Use `open` first.",
    ..PLAIN
};

pub(crate) const NOT_READY: Explanation = Explanation {
    title: "44 NotReady",
    values: "LEFT",
    legend: "LEFT is how many destinations they are.",
    meaning: "LEFT destinations wait or are out.",
    action: "Use `take` and `give` for each of them.",
};

/// What a refusal of the desk means; of an event that it refuses, what that refusal means.
pub fn explain_desk(refusal: &Refusal) -> &'static Explanation
    ensures title { result.now.title.now ≡ desk_name refusal.now }
    ensures listed { is_listed result.now.title.now ≡ true }
{
    match refusal {
        Refusal::OutOfMemory => &OUT_OF_MEMORY,
        Refusal::Edit(refusal) => explain_edit(refusal),
        Refusal::Gap(_) => &GAP,
        Refusal::Old(_) => &OLD,
        Refusal::Clash => &CLASH,
        Refusal::BacklogFull => &BACKLOG_FULL,
        Refusal::NotReady(_) => &NOT_READY,
        Refusal::Nothing => &NOTHING,
        Refusal::Busy => &BUSY,
        Refusal::Stale(_) => &STALE,
        Refusal::Unasked => &UNASKED,
        Refusal::Differs => &DIFFERS,
        Refusal::EndOfNumbers => &END_OF_NUMBERS,
        Refusal::NotOpen => &NOT_OPEN,
    }
}
