//! Who answers a session: a seat, which may post or only ask.

ghost use Rattle.std.specs.Prelude.{◌≡◌, None, Some, false, IfErr, IfOk};
ghost use Rattle.net_building.specs.declared.wholes.Listed.{Listed};
ghost use Rattle.desk_console.specs.Taken.{posts_of};
ghost use Rattle.script_words.specs.Commands.{IsWithin};
ghost use Rattle.sessions.specs.Run.{CutsOff};
ghost use Rattle.beside.specs.Seats.{Goes};
ghost use Rattle.serving.specs.Seated.{DoesSeated, KeepsRules, is_plain, is_post, is_who};

use crate::channels::Rules;
use answers::{Answer, Asked, Reason, Telling, answer_other, answer_who};
use beside::Beside;
use net_building::Whole;
use net_data::{Event, Net};
use script_words::{Command, read_line};
use sessions::{Answering, Fault};
use std::alloc::Global;
use std::marker::Model;
use std::sync::Wait;
use versions::Naming;

/// Whether a command is a post under a sequence number.
fn is_post(command: &Command) -> bool
    ensures { result ≡ is_post command.now }
{
    matches!(command, Command::Post(_, _, _))
}

/// The answer to what a session may not post, which goes.
fn refuse<T: Drop>(what: T) -> Answer
    ensures { result ≡ Answer.Refused Reason.BadLine }
{
    drop(what);
    Answer::Refused(Reason::BadLine)
}

/// Who answers a session at its seat.
#[derive(Drop)]
pub struct Seated<'a, N: Naming, R: Wait> {
    pub beside: Beside<'a, N, R>,
    /// What the session may do.
    pub rules: &'a Rules,
}

impl<'a, N: Naming, R: Wait> Model for Seated<'a, N, R> {
    ghost use Rattle.serving.specs.Seated.{SeatedValue};

    ghost Value = { SeatedValue };

    ghost view = { λ s. record { beside = s.beside; rules = s.rules.now } };
}

impl<'a, N: Naming, R: Wait> Seated<'a, N, R> {
    /// Posts an event by the session's collector, if it may.
    fn post_event(&mut self, alloc: Global, event: Event) -> Result<Answer, Fault>
        ensures does { IfOk result (λ answer. DoesSeated N.seats (Command.Event event) self.old answer self.new) }
        ensures goes { Goes N.seats (Some (Listed.Event event)) self.old.beside self.new.beside }
        ensures rules { KeepsRules self.old self.new }
        ensures fault { IfErr result (CutsOff (Unit {0})) }
    {
        if self.rules.posts {
            self.beside.post_next(alloc, self.rules.collector, event)
        } else {
            Ok(refuse(event))
        }
    }

    /// Posts the events of a whole set or point by the session's collector, if it may.
    fn post_whole(&mut self, alloc: Global, whole: Whole) -> Result<Answer, Fault>
        ensures does { IfOk result (λ answer. DoesSeated N.seats (Command.Whole whole) self.old answer self.new) }
        ensures goes { Goes N.seats (Some (Listed.Whole whole)) self.old.beside self.new.beside }
        ensures rules { KeepsRules self.old self.new }
        ensures fault { IfErr result (CutsOff (Unit {0})) }
    {
        if !self.rules.posts {
            return Ok(Answer::Refused(Reason::BadLine));
        }
        self.beside.post_whole(alloc, self.rules.collector, whole)
    }

    /// Comes to the hub, and tells how many events were accepted through each seat.
    fn who(&mut self, alloc: Global) -> Result<Answer, Fault>
        ensures does { IfOk result (λ answer. DoesSeated N.seats Command.Who self.old answer self.new) }
        ensures goes { Goes N.seats None self.old.beside self.new.beside }
        ensures rules { KeepsRules self.old self.new }
        ensures fault { IfErr result (CutsOff (Unit {0})) }
    {
        let counts = self.beside.count(alloc)?;
        Ok(answer_who(alloc, &self.rules.names, counts.as_slice())?)
    }

    /// Does what a command says that isn't posted by the session's collector.
    fn obey_other(&mut self, alloc: Global, command: Command) -> Result<Answer, Fault>
        requires within { IsWithin command }
        requires other { (is_plain command ≡ false) × (is_who command ≡ false) }
        ensures does { IfOk result (λ answer. DoesSeated N.seats command self.old answer self.new) }
        ensures goes { Goes N.seats (posts_of command) self.old.beside self.new.beside }
        ensures rules { KeepsRules self.old self.new }
        ensures fault { IfErr result (CutsOff (Unit {0})) }
    {
        if !self.rules.posts && is_post(&command) {
            Ok(refuse(command))
        } else {
            self.beside.obey(alloc, command)
        }
    }

    /// Does what a command says.
    fn obey(&mut self, alloc: Global, command: Command) -> Result<Answer, Fault>
        requires { IsWithin command }
        ensures does { IfOk result (λ answer. DoesSeated N.seats command self.old answer self.new) }
        ensures goes { Goes N.seats (posts_of command) self.old.beside self.new.beside }
        ensures rules { KeepsRules self.old self.new }
        ensures fault { IfErr result (CutsOff (Unit {0})) }
    {
        match command {
            Command::Event(event) => self.post_event(alloc, event),
            Command::Whole(whole) => self.post_whole(alloc, whole),
            Command::Who => self.who(alloc),
            other => self.obey_other(alloc, other),
        }
    }
}

impl<'a, N: Naming, R: Wait> Answering for Seated<'a, N, R> {
    ghost use Rattle.beside.specs.Beside.{LeavesBeside};
    ghost use Rattle.serving.specs.Seated.{CommandsSeated, LosesSeated};

    ghost commands = { CommandsSeated N.seats };

    ghost fails = { LosesSeated N.seats };

    ghost leaves = { λ s. LeavesBeside N.seats s.beside };

    ghost needs_place = { Unit {0} };

    fn answer(&mut self, alloc: Global, line: &[u8]) -> Result<Answer, Fault> {
        match read_line(alloc, line)? {
            Some(command) => self.obey(alloc, command),
            None => Ok(answer_other(alloc, line)?),
        }
    }

    fn show_net<T: Telling>(&self, alloc: Global, telling: &T, asked: Asked<'_>, why: Reason) {
        self.beside.show_net(alloc, telling, asked, why);
    }

    fn into_net(self, alloc: Global) -> Result<Net, Fault> {
        let Seated { beside, rules: _ } = self;
        beside.into_net(alloc)
    }
}
