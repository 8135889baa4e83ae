//! An open target: the next version while its routings come in.

ghost use Rattle.std.specs.Prelude.{◌≡◌, ◌↔◌, IsTrue, true, [], None, Some, Err, IfOk, IfErr, MatchResult, is_some, length, map};
ghost use Rattle.std.specs.List.{AllByRecursion};
ghost use Rattle.std.specs.Option.{MatchOption};
ghost use Rattle.net_items.specs.Keyed.{IsRising, IsFoundAt, IsGapAt};
ghost use Rattle.excerpts.specs.Excerpt.{content_at, content_of, excerpt_at};
ghost use Rattle.transfer_state.specs.Routing.{settled_choices};
ghost use Rattle.dirty_sets.specs.Waiting.{first_waiting, taken, is_out as out_among, least, out, put_last, waiting, without_task};
ghost use Rattle.net_versions.specs.Versions.{all_choices};
ghost use Rattle.work_units.specs.Work.{IsJob};
ghost use Rattle.desk_core.specs.Targets.{AreFilled, DiffersBy};

use dirty_sets::Waiting;
use excerpts::{Ends, ExcerptFault, Frozen};
use net_versions::Version;
use point_codes::PointCode;
use std::alloc::{AllocError, Global};
use std::marker::Model;
use std::sync::Arc;
use transfer_state::{Choices, RoutingSlot};
use work_units::{Job, Refusal, Settled};

/// What an open target has of the version before.
#[derive(Drop)]
pub(crate) struct Difference {
    /// That version.
    pub(crate) version: Arc<Version>,
    /// The ends of each set that became available since, or is so no longer.
    pub(crate) turned: Arc<Vec<Ends>>,
}

/// What an open target holds.
#[derive(Drop)]
struct Parts {
    number: u64,
    net: Frozen,
    waiting: Waiting,
    slots: Vec<RoutingSlot>,
    /// What the routings can be followed from, if there is something. They are the same without.
    difference: Option<Difference>,
}

/// An open target. Its parts stand in a box, so that a desk is small.
#[derive(Drop)]
pub(crate) struct Target {
    parts: Box<Parts>,
}

impl Model for Target {
    ghost use Rattle.desk_core.specs.Targets.{TargetValue, AreFilled, DiffersBy};

    ghost Value = { TargetValue };

    ghost view = { λ t. record { number = t.parts.value.number; network = t.parts.value.net; tasks = t.parts.value.waiting } };

    ghost invariant = { λ t. record { filled : AreFilled t.parts.value.net t.parts.value.waiting t.parts.value.slots.items; differs : DiffersBy t.parts.value.net t.parts.value.difference } };
}

/// The place of a destination, or where it would go. It is looked for first in a place.
fn position_of_slot(slots: &[RoutingSlot], first: usize, dest: PointCode) -> Result<usize, usize>
    requires { IsRising (λ s. s.excerpt.plan.dest) slots.now }
    ensures found { IfOk result (IsFoundAt (λ s. s.excerpt.plan.dest) dest slots.now) }
    ensures absent { IfErr result (IsGapAt (λ s. s.excerpt.plan.dest) dest slots.now) }
{
    if first < slots.len() && slots[first].dest() == dest {
        return Ok(first);
    }
    slots.binary_search_by_key(&dest, |p| p.dest())
}

/// What is kept of the choices that have come to a place, shared.
fn choices_of(slot: &RoutingSlot) -> Result<Choices, AllocError>
    requires { slot.now.settled ≡ true }
    ensures { IfOk result (λ c. c ≡ settled_choices slot.now.excerpt) }
{
    match slot.choices()? {
        Some(choices) => Ok(choices),
        None => unreachable!(),
    }
}

/// What is kept of the choices that have come to all places, shared.
fn choices_of_all(alloc: Global, slots: &[RoutingSlot]) -> Result<Vec<Choices>, AllocError>
    requires { AllByRecursion (λ s. s.settled ≡ true) slots.now }
    ensures { IfOk result (λ v. v.items ≡ map (λ s. settled_choices s.excerpt) slots.now) }
{
    let mut list = Vec::with_capacity(alloc, slots.len())?;
    for i in 0..slots.len() {
        list.push(choices_of(&slots[i])?)?;
    }
    Ok(list)
}

impl Target {
    /// A target with its tasks, and a place for each planned destination. It fails if memory is refused.
    pub(crate) fn new(
        alloc: Global,
        number: u64,
        net: Frozen,
        waiting: Waiting,
        slots: Vec<RoutingSlot>,
        difference: Option<Difference>,
    ) -> Result<Target, AllocError>
        requires filled { AreFilled net waiting slots.items }
        requires differs { DiffersBy net difference }
        ensures { IfOk result (λ t. t ≡ record { number = number; network = net; tasks = waiting }) }
    {
        let parts = Parts {
            number,
            net,
            waiting,
            slots,
            difference,
        };
        Ok(Target {
            parts: Box::new(alloc, parts)?,
        })
    }

    /// The number of the version that it becomes.
    pub(crate) fn number(&self) -> u64
        ensures { result ≡ self.now.number }
    {
        self.parts.number
    }

    /// Its network.
    pub(crate) fn net(&self) -> &Frozen
        ensures { result.now ≡ self.now.network }
    {
        &self.parts.net
    }

    /// Whether a destination waits.
    pub(crate) fn has_waiting(&self) -> bool
        ensures { result ≡ is_some (first_waiting self.now.tasks) }
    {
        self.parts.waiting.first().is_some()
    }

    /// How many destinations wait.
    pub(crate) fn waiting(&self) -> usize
        ensures { result ≡ length (waiting self.now.tasks) }
    {
        self.parts.waiting.len()
    }

    /// How many destinations wait or are out.
    pub(crate) fn left(&self) -> usize
        ensures { result ≡ length self.now.tasks }
    {
        self.parts.waiting.left()
    }

    /// The least destination that is out.
    pub(crate) fn first_out(&self) -> Option<PointCode>
        ensures { result ≡ least (out self.now.tasks) }
    {
        self.parts.waiting.first_out()
    }

    /// Whether a destination is out.
    pub(crate) fn is_out(&self, dest: PointCode) -> bool
        ensures { result ≡ out_among self.now.tasks dest }
    {
        self.parts.waiting.is_out(dest)
    }

    /// A job for a destination, followed from the version before if there is something to follow.
    fn job_for(&self, dest: PointCode) -> Result<Job, ExcerptFault>
        ensures { IsJob self.now.number (excerpt_at self.now.network dest) result }
    {
        let parts = &*self.parts;
        if let Some(difference) = &parts.difference
            && let Some(routing) = difference.version.routing(dest)
        {
            return Job::after(parts.number, &parts.net, &routing, &difference.turned);
        }
        Job::of(parts.number, &parts.net, dest)
    }

    /// A job for the first destination that waits, which is out from then on.
    pub(crate) fn take(&mut self) -> Result<Job, Refusal>
        ensures none { first_waiting self.old.tasks ≡ None → (result ≡ Err Refusal.Nothing) × (self.new ≡ self.old) }
        ensures some { MatchOption (first_waiting self.old.tasks) (result ≡ Err Refusal.Nothing) (λ x. MatchResult result
            (λ job. (job.version ≡ self.old.number) × (excerpt_at self.old.network x ≡ Some job.excerpt) × (self.new ≡ record self.old { tasks = taken self.old.tasks }))
            (λ refusal. (refusal ≡ Refusal.OutOfMemory) × (self.new ≡ self.old))) }
    {
        let Some(dest) = self.parts.waiting.first() else {
            return Err(Refusal::Nothing);
        };
        match self.job_for(dest) {
            Ok(job) => {
                self.parts.waiting.take_first();
                Ok(job)
            }
            Err(ExcerptFault::NoPlan) => unreachable!(),
            Err(ExcerptFault::OutOfMemory) => Err(Refusal::OutOfMemory),
        }
    }

    /// Whether a result is of what the target's network has for its destination.
    pub(crate) fn is_of(&self, settled: &Settled) -> bool
        ensures { IsTrue result ↔ (content_at self.now.network settled.now.excerpt.plan.dest ≡ Some (content_of settled.now.excerpt)) }
    {
        settled
            .excerpt()
            .is_of(self.parts.net.net(), settled.dest())
    }

    /// Takes in a result. It takes no memory.
    pub(crate) fn fill(&mut self, settled: Settled)
        requires out { out_among self.old.tasks settled.excerpt.plan.dest ≡ true }
        requires same { content_at self.old.network settled.excerpt.plan.dest ≡ Some (content_of settled.excerpt) }
        ensures { self.new ≡ record self.old { tasks = without_task settled.excerpt.plan.dest self.old.tasks } }
    {
        let parts = &mut *self.parts;
        parts.net.validity();
        let dest = settled.dest();
        let first = parts.net.expected(parts.slots.len(), dest);
        match position_of_slot(parts.slots.as_slice(), first, dest) {
            Ok(at) => parts.slots[at].fill(settled.into_routing()),
            Err(_) => unreachable!(),
        }
        parts.waiting.done(dest);
    }

    /// A destination that is out waits again, last. It takes no memory.
    pub(crate) fn put_back(&mut self, dest: PointCode)
        requires { out_among self.old.tasks dest ≡ true }
        ensures { self.new ≡ record self.old { tasks = put_last dest self.old.tasks } }
    {
        self.parts.waiting.put_last(dest);
    }

    /// What is kept of the choices towards each planned destination, if all have come. It fails only if memory is refused.
    pub(crate) fn choices(&self, alloc: Global) -> Result<Vec<Choices>, AllocError>
        requires { self.now.tasks ≡ [] }
        ensures { IfOk result (λ v. v.items ≡ all_choices self.now.network) }
    {
        choices_of_all(alloc, self.parts.slots.as_slice())
    }
}
