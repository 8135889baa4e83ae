//! The desk.

ghost use Rattle.std.specs.Prelude.{◌≡◌, ◌≢◌, ◌↔◌, IsTrue, ◌<◌, ◌≤◌, ◌+◌, ◌-◌, ◌^◌, [], true, None, Some, Err, OnOk, OnErr, IfOk, IfErr, IsOk, length, replicate, slice_set, take};
ghost use Rattle.std.specs.Arc.{arc_value};
ghost use Rattle.net_data.specs.Kinds.{is_link};
ghost use Rattle.net_data.specs.Edits.{refusal_of};
ghost use Rattle.net_versions.specs.Versions.{settled_version};
ghost use Rattle.desk_core.specs.Desk.{accepted, net_now, new_desk, no_post};
ghost use Rattle.desk_core.specs.Steps.{IsNext, IsUnready, Opens, Posts, Publishes, Repeats, Takes, tasks_left, post_refusal, publish_refusal, with_post, with_version};

mod at_once;
mod reading;
mod results;

use crate::following::{drop_front, follow_with_copy};
use crate::opening::new_target;
use crate::posts::Last;
use crate::targets::Target;
use dirty_sets::Touched;
use net_data::{Event, Net};
use net_versions::Version;
use std::alloc::{AllocError, Global};
use std::marker::Model;
use std::sync::Arc;
use work_units::{Job, Opened, Posted, Refusal};

/// How many accepted events may stand unpublished.
const BACKLOG_LIMIT: usize = 65536;

/// The desk.
#[derive(Drop)]
pub struct Desk {
    published: Arc<Version>,
    latest: Net,
    pending: Vec<Event>,
    lasts: Vec<Last>,
    spare: u32,
    touched: Touched,
    target: Option<Target>,
}

impl Model for Desk {
    ghost use Rattle.std.specs.Prelude.{◌≡◌, ◌+◌, ◌≤◌};
    ghost use Rattle.std.specs.Arc.{arc_value};
    ghost use Rattle.std.specs.Option.{option_map};
    ghost use Rattle.std.specs.Vec.{vec_len, vec_capacity};
    ghost use Rattle.desk_core.specs.Desk.{DeskValue};
    ghost use Rattle.dirty_sets.specs.Touched.{marks_of};
    ghost use Rattle.desk_core.specs.Inside.{IsInside};

    ghost Value = { DeskValue };

    ghost view = { λ d. record { published = arc_value d.published; pending = d.pending.items; lasts = d.lasts.items; target = option_map (λ t. record { number = t.number; tasks = t.tasks }) d.target; spare = d.spare } };

    ghost invariant = { λ d. record {
      inside : IsInside (record { published = arc_value d.published; pending = d.pending.items; lasts = d.lasts.items; target = option_map (λ t. record { number = t.number; tasks = t.tasks }) d.target; spare = d.spare }) d.latest (marks_of d.touched) d.target;
      room : vec_len d.pending + d.spare ≤ vec_capacity d.pending;
    } };
}

/// The last posts of 256 collectors that have posted nothing.
fn no_posts(alloc: Global) -> Result<Vec<Last>, AllocError>
    ensures { IfOk result (λ v. v.items ≡ replicate 256 no_post) }
{
    let mut lasts = Vec::with_capacity(alloc, 256)?;
    for _ in 0..256usize {
        lasts.push(Last {
            seq: 0,
            number: 0,
            event: None,
        })?;
    }
    Ok(lasts)
}

/// Whether an event is that of a last post.
fn is_same(last: &Last, event: &Event) -> bool
    ensures { IsTrue result ↔ (Some event.now ≡ last.now.event) }
{
    match &last.event {
        Some(before) => event.equals(before),
        None => false,
    }
}

/// Notes a collector's last accepted post.
fn note_last(lasts: &mut Vec<Last>, collector: u8, last: Last)
    requires { length lasts.old.items ≡ 256 }
    ensures { lasts.new.items ≡ slice_set lasts.old.items collector last }
{
    lasts[usize::from(collector)] = last;
}

/// Copies of events.
fn copies(alloc: Global, events: &[Event]) -> Result<Vec<Event>, AllocError>
    ensures { IfOk result (λ v. v.items ≡ events.now) }
{
    let mut list = Vec::with_capacity(alloc, events.len())?;
    for event in events {
        list.push(event.copy(alloc)?)?;
    }
    Ok(list)
}

/// The version that a target becomes.
fn new_version(
    alloc: Global,
    target: &Target,
    published: &Version,
    pending: &[Event],
) -> Result<Arc<Version>, AllocError>
    requires none { target.now.tasks ≡ [] }
    requires after { published.now.number ≤ target.now.number }
    requires within { target.now.number - published.now.number ≤ length pending.now }
    ensures { IfOk result (λ v. arc_value v ≡ settled_version target.now.number (take (target.now.number - published.now.number) pending.now) target.now.network) }
{
    let count = (target.number() - published.number()) as usize;
    let batch = copies(alloc, &pending[..count])?;
    let choices = Arc::new(alloc, target.choices(alloc)?)?;
    let net = target.net().share()?;
    Ok(Arc::new(alloc, Version::new(target.number(), batch, net, choices))?)
}

/// The first version of a network.
fn opening_version(alloc: Global, net: Net) -> Result<Arc<Version>, AllocError>
    ensures { IfOk result (λ v. arc_value v ≡ settled_version 0 [] net) }
{
    let version = Version::opening(alloc, net)?;
    Ok(Arc::new(alloc, version)?)
}

impl Desk {
    /// A desk over a network: version 0, and nothing accepted.
    pub fn start(alloc: Global, net: Net) -> Result<Desk, AllocError>
        ensures { IfOk result (λ desk. desk ≡ new_desk net) }
    {
        let latest = net.copy(alloc)?;
        let published = opening_version(alloc, net)?;
        Desk::fresh(alloc, published, latest)
    }

    /// A desk over version 0 of a network, with nothing accepted.
    fn fresh(alloc: Global, published: Arc<Version>, latest: Net) -> Result<Desk, AllocError>
        requires { arc_value published ≡ settled_version 0 [] latest }
        ensures { IfOk result (λ desk. desk ≡ new_desk latest) }
    {
        let touched = Touched::new(alloc, &latest)?;
        let lasts = no_posts(alloc)?;
        Ok(Desk {
            published,
            latest,
            pending: Vec::new(alloc),
            lasts,
            spare: 0,
            touched,
            target: None,
        })
    }

    /// Makes room for that many posts of changes of links.
    pub fn reserve(&mut self, n: u32) -> Result<(), AllocError>
        requires { n ≤ 65536 }
        ensures ok { OnOk result ((n ≤ self.new.spare) × (self.new ≡ record self.old { spare = self.new.spare })) }
        ensures more { self.old.spare ≤ self.new.spare }
        ensures err { OnErr result (self.new ≡ self.old) }
    {
        if n > self.spare {
            self.pending.reserve(n as usize)?;
            self.spare = n;
        }
        Ok(())
    }

    /// The answer to a post with the sequence number of the collector's last accepted one.
    fn repeat(&self, collector: u8, event: &Event) -> Result<Posted, Refusal>
        ensures { Repeats self.now collector event.now result self.now }
    {
        let last = &self.lasts[usize::from(collector)];
        if is_same(last, event) {
            return Ok(Posted::Again(last.number));
        }
        Err(Refusal::Clash)
    }

    /// Why a post with another sequence number is refused, but because memory ran out.
    fn post_refusal(&self, collector: u8, seq: u64, event: &Event) -> Option<Refusal>
        ensures { result ≡ post_refusal self.now collector seq event.now }
    {
        let last = self.last_seq(collector);
        if seq == 0 || seq < last {
            return Some(Refusal::Old(last));
        }
        if seq - 1 > last {
            return Some(Refusal::Gap(last + 1));
        }
        if self.accepted() == u64::MAX {
            return Some(Refusal::EndOfNumbers);
        }
        if self.pending.len() >= BACKLOG_LIMIT {
            return Some(Refusal::BacklogFull);
        }
        self.latest.refusal_of(event).map(Refusal::Edit)
    }

    /// One post of a collector.
    pub fn post(
        &mut self,
        alloc: Global,
        collector: u8,
        seq: u64,
        event: Event,
    ) -> Result<Posted, Refusal>
        ensures step { Posts self.old collector seq event result self.new }
        ensures no_memory { is_link event ≡ true → 0 < self.old.spare → result ≢ Err Refusal.OutOfMemory }
    {
        if seq != 0 && seq == self.last_seq(collector) {
            return self.repeat(collector, &event);
        }
        if let Some(refusal) = self.post_refusal(collector, seq, &event) {
            return Err(refusal);
        }
        match self.accept(alloc, collector, seq, event) {
            Ok(number) => Ok(Posted::Taken(number)),
            Err(_) => Err(Refusal::OutOfMemory),
        }
    }

    /// An event goes last, and is its collector's last post. Memory first, so that a refusal leaves all as it was.
    fn accept(
        &mut self,
        alloc: Global,
        collector: u8,
        seq: u64,
        event: Event,
    ) -> Result<u64, AllocError>
        requires edit { refusal_of (net_now self.old) event ≡ None }
        requires few { length self.old.pending < 65536 }
        requires counted { accepted self.old + 1 < 2 ^ 64 }
        ensures ok { IfOk result (λ number. (number ≡ accepted self.old + 1) × (self.new ≡ with_post self.old collector seq event)) }
        ensures err { IfErr result (λ refused. self.new ≡ self.old) }
        ensures no_memory { is_link event ≡ true → 0 < self.old.spare → IsOk result }
    {
        self.latest.validity();
        let number = self.accepted() + 1;
        let copy = follow_with_copy(
            alloc,
            &mut self.pending,
            self.spare,
            &mut self.latest,
            &mut self.touched,
            &event,
        )?;
        self.pending.push_reserved(event);
        let last = Last {
            seq,
            number,
            event: Some(copy),
        };
        note_last(&mut self.lasts, collector, last);
        self.spare = self.spare.saturating_sub(1);
        Ok(number)
    }

    /// Freezes the accepted events as the target.
    pub fn open(&mut self, alloc: Global) -> Result<Opened, Refusal>
        ensures { Opens self.old result self.new }
    {
        if self.target.is_some() {
            return Err(Refusal::Busy);
        }
        if self.pending.is_empty() {
            return Err(Refusal::Nothing);
        }
        self.latest.validity();
        let number = self.accepted();
        let touched = self.touched.all();
        match new_target(
            alloc,
            number,
            &self.latest,
            &touched,
            &self.published,
            &self.pending,
        ) {
            Ok(target) => {
                let opened = Opened {
                    target: number,
                    waiting: target.waiting(),
                };
                self.touched.clear();
                self.target = Some(target);
                Ok(opened)
            }
            Err(_) => Err(Refusal::OutOfMemory),
        }
    }

    /// A job for the first destination that waits.
    pub fn take(&mut self) -> Result<Job, Refusal>
        ensures { Takes self.old result self.new }
    {
        match &mut self.target {
            Some(target) => target.take(),
            None => Err(Refusal::Nothing),
        }
    }

    /// The version that the target becomes, if nothing waits and nothing is out.
    pub fn ready(&self, alloc: Global) -> Result<Arc<Version>, Refusal>
        ensures ready { IfOk result (λ version. (publish_refusal self.now ≡ None) × IsNext self.now (arc_value version)) }
        ensures refused { IfErr result (IsUnready (publish_refusal self.now)) }
    {
        let Some(target) = &self.target else {
            return Err(Refusal::NotOpen);
        };
        if target.left() > 0 {
            return Err(Refusal::NotReady(target.left()));
        }
        match new_version(alloc, target, &self.published, &self.pending) {
            Ok(version) => Ok(version),
            Err(_) => Err(Refusal::OutOfMemory),
        }
    }

    /// A version becomes the published one. It takes no memory.
    pub fn seal(&mut self, version: Arc<Version>)
        requires next { IsNext self.old (arc_value version) }
        requires none { tasks_left self.old ≡ 0 }
        ensures { self.new ≡ with_version self.old (arc_value version) }
    {
        let count = (version.number() - self.published.number()) as usize;
        drop_front(&mut self.pending, count);
        self.published = version;
        self.target = None;
    }

    /// Publishes the target.
    pub fn publish(&mut self, alloc: Global) -> Result<u64, Refusal>
        ensures { Publishes self.old result self.new }
    {
        let version = self.ready(alloc)?;
        let number = version.number();
        self.seal(version);
        Ok(number)
    }
}
