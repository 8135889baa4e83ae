//! The change of a whole set or point, posted at the hub.

ghost use Rattle.std.specs.Prelude.{◌≡◌, List, Some, IfErr, IfOk, OnOk};
ghost use mathlib.Core.List.{IsPrefix};
ghost use Rattle.answers.specs.declared.answer.Answer.{Answer as AnswerValue};
ghost use Rattle.net_building.specs.declared.wholes.Listed.{Listed};
ghost use Rattle.net_data.specs.declared.events.Event.{Event as EventValue};
ghost use Rattle.desk_console.specs.Does.{CanPost, PostsNext};
ghost use Rattle.sessions.specs.Run.{CutsOff};
ghost use Rattle.beside.specs.Beside.{DoesAt, PostsEachBeside, PostsWholeBeside};
ghost use Rattle.beside.specs.Seats.{Goes, TakesEach};

use crate::visitor::Visitor;
use answers::Answer;
use desk_console::{answer_all_taken, events_at};
use net_building::Whole;
use net_data::Event;
use sessions::Fault;
use std::alloc::Global;
use std::sync::Wait;
use versions::{BySeats, Hub, Naming};

impl<N: Naming> Visitor<N> {
    /// An event, posted by a collector, whose answer isn't told by itself.
    fn post_one<R: Wait>(
        &mut self,
        rt: &R,
        alloc: Global,
        hub: &mut Hub<N, BySeats>,
        collector: u8,
        event: &Event,
    ) -> Result<(), Fault>
        ensures posted { OnOk result ((answer : AnswerValue) × DoesAt N.seats (PostsNext collector event.now) self.old hub.old.state answer self.new) }
        ensures left { OnOk result (self.new.left ≡ hub.new.state) }
        ensures goes { Goes N.seats (Some (Listed.Event event.now)) self.old self.new }
        ensures fault { IfErr result (CutsOff (Unit {0})) }
    {
        let event = event.copy(alloc)?;
        drop(self.post_next(rt, alloc, hub, collector, event)?);
        Ok(())
    }

    /// Events, posted by a collector one after the other, each of which is accepted unless a fault cuts them off.
    fn post_each<R: Wait>(
        &mut self,
        rt: &R,
        alloc: Global,
        hub: &mut Hub<N, BySeats>,
        collector: u8,
        events: &[Event],
    ) -> Result<(), Fault>
        requires { CanPost collector events.now hub.old.state.desk }
        ensures posted { OnOk result (PostsEachBeside N.seats collector events.now self.old hub.old.state self.new) }
        ensures took { (taken : List EventValue) × IsPrefix taken events.now × TakesEach N.seats taken self.old self.new }
        ensures fault { IfErr result (CutsOff (Unit {0})) }
    {
        for event in events {
            self.post_one(rt, alloc, hub, collector, event)?;
        }
        Ok(())
    }

    /// The change of a whole set or point: its events, posted by a collector one after the other, all or none.
    pub(crate) fn post_whole<R: Wait>(
        &mut self,
        rt: &R,
        alloc: Global,
        hub: &mut Hub<N, BySeats>,
        collector: u8,
        whole: Whole,
    ) -> Result<Answer, Fault>
        ensures does { IfOk result (λ answer. PostsWholeBeside N.seats collector whole self.old answer self.new) }
        ensures goes { Goes N.seats (Some (Listed.Whole whole)) self.old self.new }
        ensures fault { IfErr result (CutsOff (Unit {0})) }
    {
        let events = match events_at(alloc, hub.desk(), collector, &whole)? {
            Ok(events) => events,
            Err(refusal) => return self.refuse(rt, hub, refusal),
        };
        let before = hub.desk().accepted();
        self.post_each(rt, alloc, hub, collector, events.as_slice())?;
        Ok(answer_all_taken(before, events))
    }
}
