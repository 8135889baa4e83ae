//! Runs over lists of steps.

ghost use Rattle.std.specs.Prelude.{◌≡◌, ◌≤◌, ◌++◌, [], length, take};
ghost use Rattle.std.specs.Vec.{vec_len, vec_capacity};
ghost use Rattle.desk_core.specs.Runs.{IsRightThroughout, Runs, Steps};

use crate::desk::Desk;
use crate::steps::{Reply, Step};
use std::alloc::Global;

impl Desk {
    /// One step.
    pub fn step(&mut self, alloc: Global, step: Step) -> Reply
        ensures { Steps self.old step result self.new }
    {
        match step {
            Step::Post(collector, seq, event) => {
                Reply::Post(self.post(alloc, collector, seq, event))
            }
            Step::Open => Reply::Open(self.open(alloc)),
            Step::Take => Reply::Take(self.take()),
            Step::Give(settled) => Reply::Give(self.give(settled)),
            Step::Abandon(version, dest) => Reply::Abandon(self.abandon(version, dest)),
            Step::Publish => Reply::Publish(self.publish(alloc)),
        }
    }
}

/// Runs all of the steps, for whose replies there is room.
fn run_all(alloc: Global, desk: Desk, steps: Vec<Step>, replies: Vec<Reply>) -> (Desk, Vec<Reply>)
    requires room { vec_len steps ≤ vec_capacity replies }
    requires none { replies.items ≡ [] }
    ensures run { Runs desk steps.items result.1.items result.0 }
    ensures len { length result.1.items ≡ length steps.items }
{
    let mut desk = desk;
    let mut replies = replies;
    for step in steps {
        let reply = desk.step(alloc, step);
        match replies.push(reply) {
            Ok(()) => {}
            Err(_) => unreachable!(),
        }
    }
    (desk, replies)
}

/// Runs steps in order, and gives the desk, the replies and the steps that are left. Steps are left only where room for the
/// replies was refused: then none was done.
///
/// At every point of the list the published version is the one of its number: its network is the one after the accepted
/// events up to that number, and what it keeps of each destination is what the profile gives for that network from scratch.
pub fn run(alloc: Global, desk: Desk, steps: Vec<Step>) -> (Desk, Vec<Reply>, Vec<Step>)
    ensures steps { steps.items ≡ take (length result.1.items) steps.items ++ result.2.items }
    ensures run { Runs desk (take (length result.1.items) steps.items) result.1.items result.0 }
    ensures right { IsRightThroughout desk (take (length result.1.items) steps.items) result.1.items result.0 }
{
    desk.steady();
    match Vec::with_capacity(alloc, steps.len()) {
        Ok(replies) => {
            let (desk, replies) = run_all(alloc, desk, steps, replies);
            (desk, replies, Vec::new(alloc))
        }
        Err(_) => (desk, Vec::new(alloc), steps),
    }
}
