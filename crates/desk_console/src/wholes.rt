//! The change of a whole set or point.

ghost use Rattle.std.specs.Prelude.{◌≡◌, ◌+◌, ◌<◌, ◌^◌, None, Some, length, IfOk, MatchResult, OnOk};
ghost use Rattle.desk_core.specs.Desk.{net_now};
ghost use Rattle.net_building.specs.Wholes.{whole_events};
ghost use Rattle.answers.specs.declared.answer.Answer.{Answer as AnswerValue};
ghost use Rattle.desk_console.specs.Does.{CanPost, PostsEach, PostsNext, PostsWhole, count_refusal as the_count_refusal, events_refusal as the_events_refusal, whole_against};

use crate::console::Console;
use answers::{AllTaken, Answer, Reason, TakenEvents};
use desk_core::{Desk, Refusal};
use net_building::{Whole, events_of_whole, refusal_of_whole};
use net_data::{Event, Refusal as EditRefusal};
use std::alloc::{AllocError, Global};

/// How many accepted events may stand unpublished.
const BACKLOG_LIMIT: u64 = 65536;

/// How many accepted events stand unpublished.
fn pending(desk: &Desk) -> u64
    ensures { result ≡ length desk.now.pending }
{
    desk.accepted() - desk.published().number()
}

/// What stands against so many posts of a collector: its numbers or those of events end before, or there is no room for all.
fn count_refusal(desk: &Desk, collector: u8, count: u64) -> Option<Refusal>
    ensures { result ≡ the_count_refusal desk.now collector count }
{
    if count > u64::MAX - desk.last_seq(collector) || count > u64::MAX - desk.accepted() {
        return Some(Refusal::EndOfNumbers);
    }
    if pending(desk).saturating_add(count) > BACKLOG_LIMIT {
        return Some(Refusal::BacklogFull);
    }
    None
}

/// What stands against the posting of all these events.
fn events_refusal(desk: &Desk, collector: u8, events: &[Event]) -> Option<Refusal>
    ensures { result ≡ the_events_refusal desk.now collector events.now }
{
    if events.is_empty() {
        return Some(Refusal::Edit(EditRefusal::NoSet));
    }
    count_refusal(desk, collector, events.len() as u64)
}

/// The events that the change of a whole set or point means at a desk, all of which a collector can post; or why it can't.
///
/// # Errors
///
/// `AllocError` if memory is refused.
pub fn events_at(
    alloc: Global,
    desk: &Desk,
    collector: u8,
    whole: &Whole,
) -> Result<Result<Vec<Event>, Refusal>, AllocError>
    ensures events { IfOk result (λ r. MatchResult r (λ events. (whole_against desk.now collector whole.now ≡ None) × (events.items ≡ whole_events (net_now desk.now) whole.now))
        (λ refusal. whole_against desk.now collector whole.now ≡ Some refusal)) }
    ensures posts { IfOk result (λ r. IfOk r (λ events. (0 < length events.items) × CanPost collector events.items desk.now)) }
{
    if let Some(refusal) = refusal_of_whole(desk.net_now(), *whole) {
        return Ok(Err(Refusal::Edit(refusal)));
    }
    let events = events_of_whole(alloc, desk.net_now(), *whole)?;
    if let Some(refusal) = events_refusal(desk, collector, events.as_slice()) {
        return Ok(Err(refusal));
    }
    Ok(Ok(events))
}

/// The answer to events that were all accepted, after so many others.
pub fn answer_all_taken(before: u64, events: Vec<Event>) -> Answer
    requires some { 0 < length events.items }
    requires counted { before + length events.items < 2 ^ 64 }
    ensures { result ≡ Answer.AllTaken (record { first = before + 1; last = before + length events.items; events = events.items }) }
{
    Answer::AllTaken(AllTaken {
        first: before + 1,
        last: before + events.len() as u64,
        events: TakenEvents::from_vec(events),
    })
}

impl Console {
    /// An event, posted by collector 0, whose answer isn't told by itself.
    fn post_one(&mut self, alloc: Global, event: &Event) -> Result<(), AllocError>
        ensures { OnOk result ((answer : AnswerValue) × PostsNext 0 event.now self.old answer self.new) }
    {
        let event = event.copy(alloc)?;
        drop(self.post_next(alloc, event)?);
        Ok(())
    }

    /// Events, posted by collector 0 one after the other, each of which is accepted.
    fn post_each(&mut self, alloc: Global, events: &[Event]) -> Result<(), AllocError>
        requires { CanPost 0 events.now self.old.desk }
        ensures { OnOk result (PostsEach 0 events.now self.old self.new) }
    {
        for event in events {
            self.post_one(alloc, event)?;
        }
        Ok(())
    }

    /// The change of a whole set or point: its events, posted by collector 0, all or none.
    pub(crate) fn post_whole(&mut self, alloc: Global, whole: Whole) -> Result<Answer, AllocError>
        ensures { IfOk result (λ answer. PostsWhole 0 whole self.old answer self.new) }
    {
        let events = match events_at(alloc, &self.desk, 0, &whole)? {
            Ok(events) => events,
            Err(refusal) => return Ok(Answer::Refused(Reason::Desk(refusal))),
        };
        let before = self.desk.accepted();
        self.post_each(alloc, events.as_slice())?;
        Ok(answer_all_taken(before, events))
    }
}
