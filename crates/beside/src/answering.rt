//! Who answers a script beside workers.

ghost use Rattle.std.specs.Prelude.{◌≡◌, ◌≤◌, None, Some, IfErr, IfOk, IfSome, OnOk};
ghost use Rattle.std.specs.Arc.{arc_value};
ghost use Rattle.desk_core.specs.Desk.{accepted};
ghost use Rattle.net_building.specs.declared.wholes.Listed.{Listed};
ghost use Rattle.desk_console.specs.Taken.{posts_of};
ghost use Rattle.net_versions.specs.Versions.{VersionValue};
ghost use Rattle.script_words.specs.Commands.{IsWithin};
ghost use Rattle.sessions.specs.Run.{CutsOff};
ghost use Rattle.desk_console.specs.Does.{PostsNext};
ghost use Rattle.beside.specs.Beside.{CountsSeats, DoesBeside, DoesThere, KeepsSynced, Looks, PostsWholeBeside, SyncsBeside, SyncsThere, Visits};
ghost use Rattle.beside.specs.Seats.{Came, CamePosting, Goes, Parts, StaysSeated};

use crate::visitor::Visitor;
use answers::{Answer, Asked, Reason, Telling, answer_other};
use net_building::Whole;
use net_data::{Event, Net};
use script_words::{Command, read_line};
use sessions::{Answering, Fault};
use std::alloc::{AllocError, Global};
use std::marker::Model;
use std::sync::{Arc, Mutex, Wait};
use versions::{BySeats, Guest, Hub, Naming, Version};
use worker_pool::{Signals, is_at_rest, lend_a_hand};

/// Who answers a script beside workers: it comes to their hub under its lock, and reads what is published without it. Contracts
/// see how it left the hub, and what it has seen.
#[derive(Drop)]
pub struct Beside<'a, N: Naming, R: Wait> {
    pub(crate) rt: &'a R,
    pub(crate) hub: &'a Mutex<Hub<N, BySeats>>,
    pub(crate) signals: &'a Signals,
    pub(crate) visitor: Visitor<N>,
}

impl<'a, N: Naming, R: Wait> Model for Beside<'a, N, R> {
    ghost use Rattle.beside.specs.Beside.{BesideValue};

    ghost Value = { BesideValue };

    ghost view = { λ b. b.visitor };
}

impl<'a, N: Naming, R: Wait> Beside<'a, N, R> {
    /// Who answers a script at a hub, where workers wait with these signals.
    pub fn new(
        rt: &'a R,
        hub: &'a Mutex<Hub<N, BySeats>>,
        signals: &'a Signals,
        visitor: Visitor<N>,
    ) -> Beside<'a, N, R>
        ensures { result ≡ visitor }
    {
        Beside {
            rt,
            hub,
            signals,
            visitor,
        }
    }

    /// Comes to the hub for the last time, and gives the seat back. It tells a fault if it couldn't be told what is published there.
    pub fn part(self) -> (Guest<N>, Result<(), Fault>)
        ensures { Parts N.seats self.entry result.1 result.0 }
    {
        let Beside {
            rt,
            hub,
            signals: _,
            visitor,
        } = self;
        visitor.part(rt, &mut *hub.lock(rt))
    }

    /// An event, posted by a collector under the sequence number after its last one.
    ///
    /// # Errors
    ///
    /// A fault that cuts the answers off.
    pub fn post_next(&mut self, alloc: Global, collector: u8, event: Event) -> Result<Answer, Fault>
        ensures does { IfOk result (λ answer. DoesThere N.seats (PostsNext collector event) self.old answer self.new) }
        ensures goes { Goes N.seats (Some (Listed.Event event)) self.old self.new }
        ensures fault { IfErr result (CutsOff (Unit {0})) }
    {
        let mut guard = self.hub.lock(self.rt);
        let rested = is_at_rest(&guard);
        let answer = self
            .visitor
            .post_next(self.rt, alloc, &mut *guard, collector, event);
        drop(guard);
        self.signals.tell_post(rested);
        answer
    }

    /// The change of a whole set or point: its events, posted by a collector one after the other, all or none.
    ///
    /// # Errors
    ///
    /// A fault that cuts the answers off. The first of the events may have been accepted then, or all.
    pub fn post_whole(
        &mut self,
        alloc: Global,
        collector: u8,
        whole: Whole,
    ) -> Result<Answer, Fault>
        ensures does { IfOk result (λ answer. PostsWholeBeside N.seats collector whole self.old answer self.new) }
        ensures goes { Goes N.seats (Some (Listed.Whole whole)) self.old self.new }
        ensures fault { IfErr result (CutsOff (Unit {0})) }
    {
        let mut guard = self.hub.lock(self.rt);
        let rested = is_at_rest(&guard);
        let answer = self
            .visitor
            .post_whole(self.rt, alloc, &mut *guard, collector, whole);
        drop(guard);
        self.signals.tell_post(rested);
        answer
    }

    /// A post.
    fn post(
        &mut self,
        alloc: Global,
        collector: u8,
        seq: u64,
        event: Event,
    ) -> Result<Answer, Fault>
        ensures does { IfOk result (λ answer. DoesBeside N.seats (Command.Post collector seq event) self.old answer self.new) }
        ensures posts { CamePosting N.seats event self.old self.new }
        ensures fault { IfErr result (CutsOff (Unit {0})) }
    {
        let mut guard = self.hub.lock(self.rt);
        let rested = is_at_rest(&guard);
        let answer = self
            .visitor
            .post(self.rt, alloc, &mut *guard, collector, seq, event);
        drop(guard);
        self.signals.tell_post(rested);
        answer
    }

    /// What is published, and what is accepted.
    fn version(&mut self) -> Result<Answer, Fault>
        ensures does { IfOk result (λ answer. DoesBeside N.seats Command.Version self.old answer self.new) }
        ensures comes { Came N.seats self.old self.new }
        ensures fault { IfErr result (CutsOff (Unit {0})) }
    {
        self.visitor.version(self.rt, &mut *self.hub.lock(self.rt))
    }

    /// A collector's last sequence number.
    fn last(&mut self, collector: u8) -> Result<Answer, Fault>
        ensures does { IfOk result (λ answer. DoesBeside N.seats (Command.Last collector) self.old answer self.new) }
        ensures comes { Came N.seats self.old self.new }
        ensures fault { IfErr result (CutsOff (Unit {0})) }
    {
        self.visitor
            .last(self.rt, &mut *self.hub.lock(self.rt), collector)
    }

    /// The network after all accepted events, for a file.
    fn save(&mut self, alloc: Global, file: &str) -> Result<Answer, Fault>
        ensures does { IfOk result (λ answer. DoesBeside N.seats (Command.Save file.now) self.old answer self.new) }
        ensures comes { Came N.seats self.old self.new }
        ensures fault { IfErr result (CutsOff (Unit {0})) }
    {
        self.visitor
            .save(self.rt, alloc, &mut *self.hub.lock(self.rt), file)
    }

    /// Waits for a publication, unless all that was accepted is published; does a piece of the workers' work if there are none.
    fn wait(&self, alloc: Global) -> Result<(), AllocError> {
        let guard = self.hub.lock(self.rt);
        if guard.desk().published().number() >= self.visitor.accepted() {
            return Ok(());
        }
        if guard.living() > 0 {
            drop(self.signals.wait_for_news(self.rt, guard));
            return Ok(());
        }
        drop(guard);
        lend_a_hand(self.rt, alloc, self.hub, self.signals)
    }

    /// Looks, and waits for a change if not all that was accepted is shown: the version that shows it.
    fn look_synced(&mut self, alloc: Global) -> Result<Option<Arc<Version>>, Fault>
        ensures looks { IfOk result (λ shown. (version : VersionValue) × Looks self.old version self.new
            × IfSome shown (λ a. (accepted self.old.left.desk ≤ version.number) × (arc_value a ≡ version))) }
        ensures kept { KeepsSynced self.old self.new }
        ensures stays { StaysSeated self.old self.new }
        ensures fault { IfErr result (CutsOff (Unit {0})) }
    {
        let version = self.visitor.look()?;
        if version.number() >= self.visitor.accepted() {
            return Ok(Some(version));
        }
        self.wait(alloc)?;
        Ok(None)
    }

    /// Waits for a look that shows all that was accepted: its version.
    fn wait_synced(&mut self, alloc: Global) -> Result<Arc<Version>, Fault>
        ensures synced { IfOk result (λ a. (version : VersionValue) × Looks self.old version self.new × (accepted self.old.left.desk ≤ version.number) × (arc_value a ≡ version)) }
        ensures kept { OnOk result (KeepsSynced self.old self.new) }
        ensures stays { StaysSeated self.old self.new }
        ensures fault { IfErr result (CutsOff (Unit {0})) }
    {
        for _ in self.rt.forever() {
            if let Some(version) = self.look_synced(alloc)? {
                return Ok(version);
            }
        }
        unreachable!()
    }

    /// Comes to the hub, and changes nothing there.
    fn visit(&mut self) -> Result<(), Fault>
        ensures visits { OnOk result (Visits N.seats self.old self.new) }
        ensures comes { Came N.seats self.old self.new }
        ensures fault { IfErr result (CutsOff (Unit {0})) }
    {
        self.visitor.visit(self.rt, &mut *self.hub.lock(self.rt))
    }

    /// Comes to the hub, changes nothing there, and tells how many events were accepted through each seat.
    ///
    /// # Errors
    ///
    /// A fault that cuts the answers off.
    pub fn count(&mut self, alloc: Global) -> Result<Vec<u64>, Fault>
        ensures counts { IfOk result (λ counts. CountsSeats N.seats self.old counts.items self.new) }
        ensures comes { Came N.seats self.old self.new }
        ensures fault { IfErr result (CutsOff (Unit {0})) }
    {
        self.visitor
            .count(self.rt, alloc, &mut *self.hub.lock(self.rt))
    }

    /// Waits until all is published that had been accepted when it left the hub.
    fn sync_there(&mut self, alloc: Global) -> Result<Answer, Fault>
        ensures does { IfOk result (λ answer. SyncsThere self.old answer self.new) }
        ensures stays { StaysSeated self.old self.new }
        ensures fault { IfErr result (CutsOff (Unit {0})) }
    {
        let version = self.wait_synced(alloc)?;
        Ok(self.visitor.reply_synced(alloc, version)?)
    }

    /// Waits until all is published that has been accepted by now, whoever posted it.
    fn sync(&mut self, alloc: Global) -> Result<Answer, Fault>
        ensures does { IfOk result (λ answer. SyncsBeside N.seats self.old answer self.new) }
        ensures comes { Came N.seats self.old self.new }
        ensures fault { IfErr result (CutsOff (Unit {0})) }
    {
        self.visit()?;
        self.sync_there(alloc)
    }

    /// Does what a command says that posts nothing.
    fn obey_silently(&mut self, alloc: Global, command: &Command) -> Result<Answer, Fault>
        requires within { IsWithin command.now }
        requires none { posts_of command.now ≡ None }
        ensures does { IfOk result (λ answer. DoesBeside N.seats command.now self.old answer self.new) }
        ensures goes { Goes N.seats None self.old self.new }
        ensures fault { IfErr result (CutsOff (Unit {0})) }
    {
        match command {
            Command::Event(_) | Command::Whole(_) | Command::Post(_, _, _) => unreachable!(),
            Command::Sync => self.sync(alloc),
            Command::Version => self.version(),
            Command::Last(collector) => self.last(*collector),
            Command::Save(file) => self.save(alloc, file.as_str()),
            Command::Open
            | Command::Take(_)
            | Command::Give(_)
            | Command::Abandon(_)
            | Command::Publish
            | Command::Who => Ok(Answer::Refused(Reason::BadLine)),
            _ => self.visitor.tell(alloc, command),
        }
    }

    /// Does what a command says that posts nothing, and goes then.
    fn obey_whole(&mut self, alloc: Global, command: Command) -> Result<Answer, Fault>
        requires within { IsWithin command }
        requires none { posts_of command ≡ None }
        ensures does { IfOk result (λ answer. DoesBeside N.seats command self.old answer self.new) }
        ensures goes { Goes N.seats (posts_of command) self.old self.new }
        ensures fault { IfErr result (CutsOff (Unit {0})) }
    {
        let answer = self.obey_silently(alloc, &command);
        drop(command);
        answer
    }

    /// Does what a command says.
    ///
    /// # Errors
    ///
    /// A fault that cuts the answers off.
    pub fn obey(&mut self, alloc: Global, command: Command) -> Result<Answer, Fault>
        requires { IsWithin command }
        ensures does { IfOk result (λ answer. DoesBeside N.seats command self.old answer self.new) }
        ensures goes { Goes N.seats (posts_of command) self.old self.new }
        ensures fault { IfErr result (CutsOff (Unit {0})) }
    {
        match command {
            Command::Event(event) => self.post_next(alloc, 0, event),
            Command::Whole(whole) => self.post_whole(alloc, 0, whole),
            Command::Post(collector, seq, event) => self.post(alloc, collector, seq, event),
            other => self.obey_whole(alloc, other),
        }
    }
}

impl<'a, N: Naming, R: Wait> Answering for Beside<'a, N, R> {
    ghost use Rattle.beside.specs.Beside.{CommandsBeside, LeavesBeside};
    ghost use Rattle.beside.specs.Seats.{LosesBeside};

    ghost commands = { CommandsBeside N.seats };

    ghost fails = { LosesBeside N.seats };

    ghost leaves = { LeavesBeside N.seats };

    ghost needs_place = { Unit {0} };

    fn answer(&mut self, alloc: Global, line: &[u8]) -> Result<Answer, Fault> {
        match read_line(alloc, line)? {
            Some(command) => self.obey(alloc, command),
            None => Ok(answer_other(alloc, line)?),
        }
    }

    fn show_net<T: Telling>(&self, alloc: Global, telling: &T, asked: Asked<'_>, why: Reason) {
        let guard = self.hub.lock(self.rt);
        telling.explain(alloc, asked, why, guard.desk().net_now());
    }

    fn into_net(self, alloc: Global) -> Result<Net, Fault> {
        let Beside {
            rt,
            hub,
            signals: _,
            visitor,
        } = self;
        visitor.leave(rt, alloc, &mut *hub.lock(rt))
    }
}
