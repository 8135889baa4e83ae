//! What each command does.

ghost use Rattle.std.specs.Prelude.{◌≡◌, ◌↔◌, None, true, IfOk, IsTrue};
ghost use Rattle.desk_core.specs.Steps.{Opens, Posts};
ghost use Rattle.answers.specs.Replies.{opened_answer, posted_answer};
ghost use Rattle.script_words.specs.Commands.{IsWithin};
ghost use Rattle.desk_console.specs.Taken.{posts_of};
ghost use Rattle.desk_console.specs.Asked.{is_asked};
ghost use Rattle.desk_console.specs.Does.{Calls, Does, HasMemory, PostsNext, PublishesTarget, Syncs, Watches, last_told, published_answer, save_told, version_of};
ghost use Rattle.desk_console.specs.Console.{net_of};
ghost use Rattle.desk_console.specs.Watch.{changes_told};

use crate::asking::answer_asked;
use crate::console::Console;
use crate::picturing::answer_save;
use crate::sync;
use answers::{Answer, Boxed, Moved, Publication, Reason, Reply, answer_open, answer_post};
use desk_core::Refusal;
use net_data::Event;
use script_words::{Command, Moves};
use std::alloc::{AllocError, Global};
use std::sync::Arc;

/// Whether memory sufficed for a reply of the desk.
pub fn has_memory<T>(reply: &Result<T, Refusal>) -> bool
    ensures { IsTrue result ↔ HasMemory reply.now }
{
    match reply {
        Err(Refusal::OutOfMemory) => false,
        _ => true,
    }
}

/// The answer to a publication, with what it moved, if that is told.
fn answer_publish(reply: Result<u64, Refusal>, moved: Option<Boxed<Moved>>) -> Answer
    ensures { result ≡ published_answer moved reply }
{
    match reply {
        Ok(number) => Answer::Publication(Publication::Published(number, moved)),
        Err(refusal) => Answer::Refused(Reason::Desk(refusal)),
    }
}

impl Console {
    /// A post.
    fn post(
        &mut self,
        alloc: Global,
        collector: u8,
        seq: u64,
        event: Event,
    ) -> Result<Answer, AllocError>
        ensures { IfOk result (λ answer. Calls (λ s. Posts s collector seq event) posted_answer self.old answer self.new) }
    {
        // Taken apart at once: nearly all posts are accepted, and then no refusal is moved.
        match self.desk.post(alloc, collector, seq, event) {
            Ok(posted) => Ok(answer_post(Ok(posted))),
            Err(Refusal::OutOfMemory) => Err(AllocError),
            Err(refusal) => Ok(answer_post(Err(refusal))),
        }
    }

    /// An event, posted by collector 0.
    pub(crate) fn post_next(&mut self, alloc: Global, event: Event) -> Result<Answer, AllocError>
        ensures { IfOk result (λ answer. PostsNext 0 event self.old answer self.new) }
    {
        let last = self.desk.last_seq(0);
        if last == u64::MAX {
            return Ok(Answer::Refused(Reason::Desk(Refusal::EndOfNumbers)));
        }
        self.post(alloc, 0, last + 1, event)
    }

    /// An opening.
    fn open(&mut self, alloc: Global) -> Result<Answer, AllocError>
        ensures { IfOk result (λ answer. Calls Opens opened_answer self.old answer self.new) }
    {
        let reply = self.desk.open(alloc);
        if !has_memory(&reply) {
            return Err(AllocError);
        }
        Ok(answer_open(reply))
    }

    /// A publication.
    fn publish(&mut self, alloc: Global) -> Result<Answer, AllocError>
        ensures { IfOk result (λ answer. PublishesTarget self.old answer self.new) }
    {
        let old = Arc::try_clone(self.desk.published())?;
        let reply = self.desk.publish(alloc);
        if !has_memory(&reply) {
            return Err(AllocError);
        }
        let moved = self.watch.notice(alloc, old, self.desk.published())?;
        Ok(answer_publish(reply, moved))
    }

    /// Brings the desk up to date.
    fn sync(&mut self, alloc: Global) -> Result<Answer, AllocError>
        ensures { IfOk result (λ answer. Syncs self.old answer self.new) }
    {
        let old = Arc::try_clone(self.desk.published())?;
        let number = sync(alloc, &mut self.desk)?;
        let moved = self.watch.notice(alloc, old, self.desk.published())?;
        Ok(Answer::Publication(Publication::Synced(number, moved)))
    }

    /// What moved since the version before, or since the one of a number: all of it, or what is of a kind.
    fn changes(&self, alloc: Global, which: Moves, since: Option<u64>) -> Result<Answer, AllocError>
        ensures { IfOk result (λ answer. answer ≡ changes_told self.now.watch which since self.now.desk.published) }
    {
        self.watch.tell(alloc, which, since, self.desk.published())
    }

    /// A collector's last sequence number.
    fn last(&self, collector: u8) -> Answer
        ensures { result ≡ last_told self.now.desk collector }
    {
        Answer::Reply(Reply::Last(self.desk.last_seq(collector)))
    }

    /// The network after all accepted events, for a file.
    fn save(&self, alloc: Global, file: &str) -> Result<Answer, AllocError>
        ensures { IfOk result (λ answer. answer ≡ save_told file.now (net_of self.now)) }
    {
        answer_save(alloc, self.desk.net_now(), file)
    }

    /// What moves is told behind publications from now on, or no more.
    fn set_watch(&mut self, is_on: bool) -> Answer
        ensures { Watches is_on self.old result self.new }
    {
        self.watch.set(is_on);
        Answer::Reply(Reply::Watch(is_on))
    }

    /// What is published, and what is accepted.
    fn version(&self) -> Answer
        ensures { result ≡ version_of self.now.desk }
    {
        Answer::Reply(Reply::Version(self.desk.published().number(), self.desk.accepted()))
    }

    /// What a command asks of the published version.
    #[tactic(auto, using(crate::proofs::RunLemmas::asked_does))]
    fn ask(&self, alloc: Global, command: &Command) -> Result<Answer, AllocError>
        requires within { IsWithin command.now }
        requires asked { is_asked command.now ≡ true }
        ensures { IfOk result (λ answer. Does command.now self.now answer self.now) }
    {
        answer_asked(alloc, self.desk.published(), command)
    }

    /// Does what a command says that posts nothing.
    fn obey_silently(&mut self, alloc: Global, command: &Command) -> Result<Answer, AllocError>
        requires within { IsWithin command.now }
        requires none { posts_of command.now ≡ None }
        ensures { IfOk result (λ answer. Does command.now self.old answer self.new) }
    {
        match command {
            Command::Event(_) | Command::Whole(_) | Command::Post(_, _, _) => unreachable!(),
            Command::Open => self.open(alloc),
            Command::Take(slot) => self.take(alloc, *slot),
            Command::Give(slot) => Ok(self.give(*slot)),
            Command::Abandon(slot) => Ok(self.abandon(*slot)),
            Command::Publish => self.publish(alloc),
            Command::Sync => self.sync(alloc),
            Command::Version => Ok(self.version()),
            Command::Last(collector) => Ok(self.last(*collector)),
            Command::Who => Ok(Answer::Refused(Reason::BadLine)),
            Command::Save(file) => self.save(alloc, file.as_str()),
            Command::Changes(since, which) => self.changes(alloc, *which, *since),
            Command::Watch(is_on) => Ok(self.set_watch(*is_on)),
            _ => self.ask(alloc, command),
        }
    }

    /// Does what a command says that posts nothing, and goes then.
    fn obey_whole(&mut self, alloc: Global, command: Command) -> Result<Answer, AllocError>
        requires within { IsWithin command }
        requires none { posts_of command ≡ None }
        ensures { IfOk result (λ answer. Does command self.old answer self.new) }
    {
        let answer = self.obey_silently(alloc, &command);
        drop(command);
        answer
    }

    /// Does what a command says.
    pub(crate) fn obey(&mut self, alloc: Global, command: Command) -> Result<Answer, AllocError>
        requires { IsWithin command }
        ensures { IfOk result (λ answer. Does command self.old answer self.new) }
    {
        match command {
            Command::Event(event) => self.post_next(alloc, event),
            Command::Whole(whole) => self.post_whole(alloc, whole),
            Command::Post(collector, seq, event) => self.post(alloc, collector, seq, event),
            other => self.obey_whole(alloc, other),
        }
    }
}
