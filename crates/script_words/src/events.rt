//! EVENT: the event that words say.

ghost use Rattle.std.specs.Prelude.{◌≡◌, map, Some, IfOk};
ghost use Rattle.net_data.specs.declared.events.Event.{Event};
ghost use Rattle.script_words.specs.Events.{event_by, event_of};

use crate::changes::{read_change, read_end_change};
use crate::edits::{
    read_link_event, read_pair, read_plan_event, read_point_event, read_set_event, read_tfr,
    read_unpaired,
};
use crate::verbs::{Verb, read_verb};
use link_state::End::{First, Second};
use link_state::LinkChange::{Block, Fail, Inhibit, Restore, Unblock, Uninhibit};
use net_data::Event;
use std::alloc::{AllocError, Global};

/// The event of a first word and the words after it.
pub fn read_event_by(alloc: Global, verb: Verb, rest: &[&[u8]]) -> Result<Option<Event>, AllocError>
    ensures { IfOk result (λ event. event ≡ event_by verb (map (λ w. w.now) rest.now)) }
{
    match verb {
        Verb::Fail => Ok(read_change(Fail, rest)),
        Verb::Restore => Ok(read_change(Restore, rest)),
        Verb::Block => Ok(read_end_change(Block(First), Block(Second), rest)),
        Verb::Unblock => Ok(read_end_change(Unblock(First), Unblock(Second), rest)),
        Verb::Inhibit => Ok(read_end_change(Inhibit(First), Inhibit(Second), rest)),
        Verb::Uninhibit => Ok(read_end_change(Uninhibit(First), Uninhibit(Second), rest)),
        Verb::Point => Ok(read_point_event(rest)),
        Verb::Pair => Ok(read_pair(rest)),
        Verb::Unpair => Ok(read_unpaired(rest)),
        Verb::Set => read_set_event(alloc, rest),
        Verb::Link => Ok(read_link_event(rest)),
        Verb::Plan => read_plan_event(alloc, rest),
        Verb::Tfr => Ok(read_tfr(rest)),
    }
}

/// The event that the words of a line say. `None` if they are no EVENT. It fails if memory is refused.
pub fn read_event(alloc: Global, words: &[&[u8]]) -> Result<Option<Event>, AllocError>
    ensures { IfOk result (λ event. event ≡ event_of (map (λ w. w.now) words.now)) }
{
    let [word, rest @ ..] = words else {
        return Ok(None);
    };
    let Some(verb) = read_verb(*word) else {
        return Ok(None);
    };
    read_event_by(alloc, verb, rest)
}
