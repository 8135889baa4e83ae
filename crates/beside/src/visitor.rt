//! Who comes to the hub for a script.

ghost use Rattle.std.specs.Prelude.{◌≡◌, Err, Some, IfErr, IfOk, OnErr, OnOk};
ghost use Rattle.std.specs.Arc.{arc_value};
ghost use mathlib.Core.List.{IsPrefix};
ghost use Rattle.answers.specs.Replies.{posted_answer, refused};
ghost use Rattle.net_building.specs.declared.wholes.Listed.{Listed};
ghost use Rattle.desk_core.specs.Desk.{accepted};
ghost use Rattle.desk_core.specs.Steps.{Posts};
ghost use Rattle.desk_console.specs.Console.{net_of};
ghost use Rattle.desk_console.specs.Does.{Calls, HasMemory, PostsNext, Tells, last_told, save_told, version_of};
ghost use Rattle.desk_console.specs.Watch.{changes_told, notice, watched};
ghost use Rattle.sessions.specs.Run.{CutsOff};
ghost use Rattle.versions.specs.Authors.{authored_in, counts_of};
ghost use Rattle.versions.specs.Chains.{EndsWith, IsChain};
ghost use Rattle.versions.specs.Working.{Comes, left_at};
ghost use Rattle.beside.specs.Seats.{Came, CamePosting, Goes, StaysSeated};
ghost use Rattle.beside.specs.Beside.{DoesAt, DoesThere, KeepsSynced, LeavesBeside, Looks, VisitsAt, WatchesBeside, newcomer};

use answers::{Answer, Publication, Reason, Reply, answer_post};
use desk_console::{Watch, answer_save, has_memory};
use desk_core::{Posted, Refusal};
use net_data::{Event, Net};
use script_words::Moves;
use sessions::Fault;
use std::alloc::{AllocError, Global};
use std::marker::Model;
use std::mem::replace;
use std::sync::{Arc, Wait};
use versions::{BySeats, Guest, Hub, Naming, NoPlace, Reader, Version};

/// Who comes to the hub for a script: its client and its reader. Contracts see how it left the hub, what it has seen, and what its
/// last `sync` told.
#[derive(Drop)]
pub struct Visitor<N: Naming> {
    guest: Guest<N>,
    reader: Reader<N>,
    /// How many events had been accepted when it left the hub.
    accepted: u64,
    /// The version that the last `sync` told.
    synced: Arc<Version>,
    /// The version before that one, and whether what changed is told behind replies.
    watch: Watch,
}

impl<N: Naming> Model for Visitor<N> {
    ghost use Rattle.std.specs.Prelude.{◌≡◌};
    ghost use Rattle.std.specs.Arc.{arc_value};
    ghost use Rattle.desk_core.specs.Desk.{accepted as accepted_by};
    ghost use Rattle.beside.specs.Beside.{BesideValue};
    ghost use Rattle.versions.specs.Working.{Comes, left_at};
    ghost use Rattle.beside.specs.Seats.{Came, CamePosting, Goes, StaysSeated};

    ghost Value = { BesideValue };

    ghost view = { λ v. record { seat = v.guest; left = left_at v.guest.saw; seen = v.reader.chain; synced = arc_value v.synced; watch = v.watch } };

    ghost invariant = { λ v. v.accepted ≡ accepted_by (left_at v.guest.saw).desk };
}

/// Tells a reader what is published at a hub.
fn tell<N: Naming>(hub: &Hub<N, BySeats>, reader: &mut Reader<N>) -> Result<(), Fault>
    ensures told { OnOk result ((reader.new.chain ≡ hub.now.state.shown.chain) × IsPrefix reader.old.chain reader.new.chain) }
    ensures seen { IsPrefix reader.old.chain reader.new.chain }
    ensures fault { OnErr result (result ≡ Err Fault.NoPlace) }
{
    match hub.tell(reader) {
        Ok(()) => Ok(()),
        Err(_) => Err(Fault::NoPlace),
    }
}

/// The answer to a post, if memory sufficed for it.
fn answer_reply(reply: Result<Posted, Refusal>) -> Result<Answer, Fault>
    ensures answer { IfOk result (λ answer. HasMemory reply × (answer ≡ posted_answer reply)) }
    ensures fault { IfErr result (CutsOff (Unit {0})) }
{
    if !has_memory(&reply) {
        return Err(Fault::OutOfMemory);
    }
    Ok(answer_post(reply))
}

impl<N: Naming> Visitor<N> {
    /// The guest that has just left a hub, with a reader that knows what is published.
    ///
    /// # Errors
    ///
    /// `NoPlace` if a place for its reader is refused.
    pub fn new(hub: &Hub<N, BySeats>, guest: Guest<N>) -> Result<Visitor<N>, NoPlace>
        requires { left_at guest.saw ≡ hub.now.state }
        ensures { IfOk result (λ v. v ≡ newcomer guest hub.now.state) }
    {
        let reader = hub.reader()?;
        let accepted = hub.desk().accepted();
        let Ok(synced) = Arc::try_clone(hub.desk().published()) else {
            return Err(NoPlace);
        };
        Ok(Visitor {
            guest,
            reader,
            accepted,
            synced,
            watch: Watch::new(),
        })
    }

    /// How many events had been accepted when it left the hub.
    pub(crate) fn accepted(&self) -> u64
        ensures { result ≡ accepted self.now.left.desk }
    {
        self.accepted
    }

    /// Comes to the hub, and changes nothing there.
    pub(crate) fn visit<R: Wait>(&mut self, rt: &R, hub: &mut Hub<N, BySeats>) -> Result<(), Fault>
        ensures found { OnOk result (VisitsAt N.seats self.old hub.old.state self.new) }
        ensures comes { Comes N.seats self.old.seat hub.old.state self.new.seat }
        ensures seen { IsPrefix self.old.seen self.new.seen }
        ensures left { self.new.left ≡ hub.new.state }
        ensures rest { hub.new ≡ hub.old }
        ensures fault { OnErr result (result ≡ Err Fault.NoPlace) }
    {
        self.guest.visit(rt, hub);
        self.accepted = hub.desk().accepted();
        tell(hub, &mut self.reader)
    }

    /// Comes to the hub, changes nothing there, and tells how many events were accepted through each seat.
    pub(crate) fn count<R: Wait>(
        &mut self,
        rt: &R,
        alloc: Global,
        hub: &mut Hub<N, BySeats>,
    ) -> Result<Vec<u64>, Fault>
        ensures found { IfOk result (λ counts. VisitsAt N.seats self.old hub.old.state self.new) }
        ensures counts { IfOk result (λ counts. counts.items ≡ counts_of N.seats (authored_in self.new.seat.saw)) }
        ensures comes { Came N.seats self.old self.new }
        ensures fault { IfErr result (CutsOff (Unit {0})) }
    {
        let counts = self.guest.count(rt, alloc, hub);
        self.accepted = hub.desk().accepted();
        tell(hub, &mut self.reader)?;
        Ok(counts?)
    }

    /// A post, at the hub as it is found.
    fn post_at<R: Wait>(
        &mut self,
        rt: &R,
        alloc: Global,
        hub: &mut Hub<N, BySeats>,
        collector: u8,
        seq: u64,
        event: Event,
    ) -> Result<Answer, Fault>
        ensures call { IfOk result (λ answer. DoesAt N.seats (Calls (λ s. Posts s collector seq event) posted_answer) self.old hub.old.state answer self.new) }
        ensures posts { CamePosting N.seats event self.old self.new }
        ensures left { self.new.left ≡ hub.new.state }
        ensures fault { IfErr result (CutsOff (Unit {0})) }
    {
        let reply = self.guest.post(rt, alloc, hub, collector, seq, event);
        self.accepted = hub.desk().accepted();
        if let Err(fault) = tell(hub, &mut self.reader) {
            return Err(fault);
        }
        answer_reply(reply)
    }

    /// A post.
    pub(crate) fn post<R: Wait>(
        &mut self,
        rt: &R,
        alloc: Global,
        hub: &mut Hub<N, BySeats>,
        collector: u8,
        seq: u64,
        event: Event,
    ) -> Result<Answer, Fault>
        ensures call { IfOk result (λ answer. DoesThere N.seats (Calls (λ s. Posts s collector seq event) posted_answer) self.old answer self.new) }
        ensures posts { CamePosting N.seats event self.old self.new }
        ensures fault { IfErr result (CutsOff (Unit {0})) }
    {
        self.post_at(rt, alloc, hub, collector, seq, event)
    }

    /// A refusal, told at the hub as it is found.
    pub(crate) fn refuse<R: Wait>(
        &mut self,
        rt: &R,
        hub: &mut Hub<N, BySeats>,
        refusal: Refusal,
    ) -> Result<Answer, Fault>
        ensures refused { IfOk result (λ answer. DoesAt N.seats (Tells (refused refusal)) self.old hub.old.state answer self.new) }
        ensures comes { Came N.seats self.old self.new }
        ensures left { self.new.left ≡ hub.new.state }
        ensures fault { IfErr result (CutsOff (Unit {0})) }
    {
        self.visit(rt, hub)?;
        Ok(Answer::Refused(Reason::Desk(refusal)))
    }

    /// An event, posted by a collector under the sequence number after its last one.
    pub(crate) fn post_next<R: Wait>(
        &mut self,
        rt: &R,
        alloc: Global,
        hub: &mut Hub<N, BySeats>,
        collector: u8,
        event: Event,
    ) -> Result<Answer, Fault>
        ensures call { IfOk result (λ answer. DoesAt N.seats (PostsNext collector event) self.old hub.old.state answer self.new) }
        ensures goes { Goes N.seats (Some (Listed.Event event)) self.old self.new }
        ensures left { self.new.left ≡ hub.new.state }
        ensures fault { IfErr result (CutsOff (Unit {0})) }
    {
        let last = hub.desk().last_seq(collector);
        if last == u64::MAX {
            return self.refuse(rt, hub, Refusal::EndOfNumbers);
        }
        self.post_at(rt, alloc, hub, collector, last + 1, event)
    }

    /// What is published, and what is accepted.
    pub(crate) fn version<R: Wait>(
        &mut self,
        rt: &R,
        hub: &mut Hub<N, BySeats>,
    ) -> Result<Answer, Fault>
        ensures call { IfOk result (λ answer. DoesThere N.seats (λ c. Tells (version_of c.desk) c) self.old answer self.new) }
        ensures comes { Came N.seats self.old self.new }
        ensures fault { IfErr result (CutsOff (Unit {0})) }
    {
        self.visit(rt, hub)?;
        let desk = hub.desk();
        Ok(Answer::Reply(Reply::Version(desk.published().number(), desk.accepted())))
    }

    /// A collector's last sequence number.
    pub(crate) fn last<R: Wait>(
        &mut self,
        rt: &R,
        hub: &mut Hub<N, BySeats>,
        collector: u8,
    ) -> Result<Answer, Fault>
        ensures call { IfOk result (λ answer. DoesThere N.seats (λ c. Tells (last_told c.desk collector) c) self.old answer self.new) }
        ensures comes { Came N.seats self.old self.new }
        ensures fault { IfErr result (CutsOff (Unit {0})) }
    {
        self.visit(rt, hub)?;
        Ok(Answer::Reply(Reply::Last(hub.desk().last_seq(collector))))
    }

    /// The network after all accepted events, for a file.
    pub(crate) fn save<R: Wait>(
        &mut self,
        rt: &R,
        alloc: Global,
        hub: &mut Hub<N, BySeats>,
        file: &str,
    ) -> Result<Answer, Fault>
        ensures call { IfOk result (λ answer. DoesThere N.seats (λ c. Tells (save_told file.now (net_of c)) c) self.old answer self.new) }
        ensures comes { Came N.seats self.old self.new }
        ensures fault { IfErr result (CutsOff (Unit {0})) }
    {
        self.visit(rt, hub)?;
        Ok(answer_save(alloc, hub.desk().net_now(), file)?)
    }

    /// A copy of the network after all accepted events.
    fn net_now<R: Wait>(
        &mut self,
        rt: &R,
        alloc: Global,
        hub: &mut Hub<N, BySeats>,
    ) -> Result<Net, Fault>
        ensures net { IfOk result (LeavesBeside N.seats self.old) }
        ensures fault { IfErr result (CutsOff (Unit {0})) }
    {
        self.visit(rt, hub)?;
        Ok(hub.desk().net_now().copy(alloc)?)
    }

    /// The same, as its last visit.
    pub(crate) fn leave<R: Wait>(
        mut self,
        rt: &R,
        alloc: Global,
        hub: &mut Hub<N, BySeats>,
    ) -> Result<Net, Fault>
        ensures net { IfOk result (LeavesBeside N.seats self) }
        ensures fault { IfErr result (CutsOff (Unit {0})) }
    {
        self.net_now(rt, alloc, hub)
    }

    /// Its last visit. It gives its seat back, and tells a fault if it couldn't be told what is published.
    pub(crate) fn part<R: Wait>(
        mut self,
        rt: &R,
        hub: &mut Hub<N, BySeats>,
    ) -> (Guest<N>, Result<(), Fault>)
        ensures comes { Comes N.seats self.seat hub.old.state result.0 }
        ensures seen { OnOk result.1 (IsPrefix self.seen hub.old.state.shown.chain) }
        ensures rest { hub.new ≡ hub.old }
        ensures fault { OnErr result.1 (result.1 ≡ Err Fault.NoPlace) }
    {
        let told = self.visit(rt, hub);
        (self.guest, told)
    }

    /// The version that is published now. It takes no lock.
    pub(crate) fn look(&mut self) -> Result<Arc<Version>, Fault>
        ensures looks { IfOk result (λ a. Looks self.old (arc_value a) self.new) }
        ensures stays { StaysSeated self.old self.new }
        ensures kept { KeepsSynced self.old self.new }
        ensures fault { IfErr result (CutsOff (Unit {0})) }
    {
        match self.reader.look() {
            Ok(version) => Ok(version),
            Err(_) => Err(Fault::NoPlace),
        }
    }

    /// Has the version that is published now shown by `newest`. It takes no lock, and where nothing was published since the last time,
    /// those who ask side by side don't slow one another.
    pub(crate) fn refresh(&mut self) -> Result<(), Fault>
        ensures seen { IsPrefix self.old.seen self.new.seen }
        ensures rest { self.new ≡ record self.old { seen = self.new.seen } }
        ensures fault { OnErr result (result ≡ Err Fault.NoPlace) }
    {
        match self.reader.refresh() {
            Ok(()) => Ok(()),
            Err(_) => Err(Fault::NoPlace),
        }
    }

    /// The newest version that its reader knows.
    pub(crate) fn newest(&self) -> &Version
        ensures ends { EndsWith self.now.seen result.now }
        ensures chain { IsChain self.now.seen }
    {
        self.reader.newest()
    }

    /// The reply to a `sync` that tells a version, which is the last one told from now on.
    pub(crate) fn reply_synced(
        &mut self,
        alloc: Global,
        version: Arc<Version>,
    ) -> Result<Answer, AllocError>
        ensures answer { IfOk result (λ answer. answer
            ≡ Answer.Publication (Publication.Synced (arc_value version).number (notice self.old.watch self.old.synced (arc_value version)))) }
        ensures stays { StaysSeated self.old self.new }
        ensures told { OnOk result (self.new ≡ record self.old { synced = arc_value version; watch = watched self.old.watch self.old.synced (arc_value version) }) }
    {
        let number = version.number();
        let old = replace(&mut self.synced, version);
        let moved = self.watch.notice(alloc, old, &self.synced)?;
        Ok(Answer::Publication(Publication::Synced(number, moved)))
    }

    /// What moved up to the last `sync`: since the one before it, or since the version of a number; all of it, or what is of a kind.
    pub(crate) fn changes(
        &self,
        alloc: Global,
        which: Moves,
        since: Option<u64>,
    ) -> Result<Answer, AllocError>
        ensures { IfOk result (λ answer. answer ≡ changes_told self.now.watch which since self.now.synced) }
    {
        self.watch.tell(alloc, which, since, &self.synced)
    }

    /// What moves is told behind each `sync` from now on, or no more.
    pub(crate) fn set_watch(&mut self, is_on: bool) -> Answer
        ensures does { WatchesBeside is_on self.old result self.new }
        ensures stays { StaysSeated self.old self.new }
    {
        self.watch.set(is_on);
        Answer::Reply(Reply::Watch(is_on))
    }
}
