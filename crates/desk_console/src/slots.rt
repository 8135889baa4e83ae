//! The slots, and the commands that use them.

ghost use Rattle.std.specs.Prelude.{◌≡◌, ◌<◌, IfOk, None, Ok, OnOk, Some, length, slice_index_or, slice_set};
ghost use Rattle.answers.specs.Replies.{job_answer};
ghost use Rattle.desk_console.specs.Console.{slot_of};
ghost use Rattle.desk_console.specs.Does.{AbandonsOf, GivesFrom, TakesTo};

use crate::console::Console;
use answers::{Answer, Reason, answer_abandoned, answer_given, answer_job};
use std::alloc::{AllocError, Global};
use work_units::{Job, Refusal, Settled, settle};

/// Takes the result out of a slot.
fn take_out(slots: &mut Vec<Option<Settled>>, position: usize) -> Option<Settled>
    requires { position < length slots.old.items }
    ensures value { result ≡ slice_index_or slots.old.items position None }
    ensures rest { slots.new.items ≡ slice_set slots.old.items position None }
{
    slots[position].take()
}

/// Puts a result in a slot.
fn put_in(slots: &mut Vec<Option<Settled>>, position: usize, settled: Settled)
    requires { position < length slots.old.items }
    ensures { slots.new.items ≡ slice_set slots.old.items position (Some settled) }
{
    slots[position] = Some(settled);
}

/// The result of a job.
fn result_of(alloc: Global, job: Job) -> Result<Settled, AllocError>
    ensures { IfOk result (λ settled. settled ≡ job) }
{
    match settle(alloc, job) {
        Ok(settled) => Ok(settled),
        Err((_, refused)) => Err(refused),
    }
}

impl Console {
    /// Does a job that was taken, and keeps its result in a slot.
    fn keep(&mut self, alloc: Global, slot: u8, job: Job) -> Result<Answer, AllocError>
        requires { slot < 32 }
        ensures told { IfOk result (λ answer. answer ≡ job_answer (Ok job)) }
        ensures kept { OnOk result (self.new ≡ record self.old { slots = slice_set self.old.slots slot (Some job) }) }
    {
        let settled = result_of(alloc, job)?;
        let answer = answer_job(&settled);
        put_in(&mut self.slots, usize::from(slot), settled);
        Ok(answer)
    }

    /// Takes a job, does it, and keeps its result in a slot.
    pub(crate) fn take(&mut self, alloc: Global, slot: u8) -> Result<Answer, AllocError>
        requires { slot < 32 }
        ensures { IfOk result (λ answer. TakesTo slot self.old answer self.new) }
    {
        match self.desk.take() {
            Ok(job) => self.keep(alloc, slot, job),
            Err(Refusal::OutOfMemory) => Err(AllocError),
            Err(refusal) => Ok(Answer::Refused(Reason::Desk(refusal))),
        }
    }

    /// Gives the result in a slot.
    #[tactic(auto, using(crate::proofs::SlotLemmas::left_empty, crate::proofs::SlotLemmas::put_back))]
    pub(crate) fn give(&mut self, slot: u8) -> Answer
        requires { slot < 32 }
        ensures { GivesFrom slot (slot_of self.old slot) self.old result self.new }
    {
        let position = usize::from(slot);
        let Some(settled) = take_out(&mut self.slots, position) else {
            return Answer::Refused(Reason::BadLine);
        };
        match self.desk.give(settled) {
            Ok(()) => answer_given(&Ok(())),
            Err((settled, refusal)) => {
                put_in(&mut self.slots, position, settled);
                Answer::Refused(Reason::Desk(refusal))
            }
        }
    }

    /// Abandons the destination of the result in a slot.
    pub(crate) fn abandon(&mut self, slot: u8) -> Answer
        requires { slot < 32 }
        ensures { AbandonsOf (slot_of self.old slot) self.old result self.new }
    {
        match &self.slots[usize::from(slot)] {
            Some(settled) => {
                let reply = self.desk.abandon(settled.version(), settled.dest());
                answer_abandoned(reply)
            }
            None => Answer::Refused(Reason::BadLine),
        }
    }
}
