//! The index of what the tables read.

ghost use Rattle.std.specs.Prelude.{◌≡◌, ◌<◌, ◌||◌, ℕ, List, true, None, length, OnOk, OnErr, IfOk, IsOk, slice_index_or};
ghost use Rattle.net_items.specs.declared.items.Plan.{Plan as ThePlan};
ghost use Rattle.net_items.specs.Lookups.{is_stp as stp_is};
ghost use Rattle.net_data.specs.Edits.{refusal_of, changed, takes_none};
ghost use Rattle.dirty_sets.specs.Bits.{is_marked};
ghost use Rattle.dirty_sets.specs.Touch.{IsTouchIndex, is_planned, sets_plan as plan_is_set, touched as touched_by, touches};
ghost use Rattle.dirty_sets.specs.Index.{IsReaderOf, bare_set as the_bare_set, reads_any as any_read, reads_of};
ghost use Rattle.dirty_sets.specs.Kept.{is_on_set, keeps_reads};

use crate::bits::Codes;
use crate::noted::NotedIds;
use crate::readers;
use crate::readers::Reader;
use crate::reading::sets_read;
use net_data::{Event, Net};
use net_items::{LinkSet, Links, Plan, Slcs};
use point_codes::PointCode;
use std::alloc::{AllocError, Global};
use std::marker::Model;

/// For each planned destination, the sets that its table reads (own).
#[derive(Drop)]
pub struct TouchIndex {
    alloc: Global,
    readers: Vec<Reader>,
}

impl Model for TouchIndex {
    ghost use Rattle.std.specs.Prelude.{◌-◌};
    ghost use Rattle.std.specs.Vec.{vec_len, vec_capacity};
    ghost use Rattle.net_items.specs.Keyed.{IsRising};
    ghost use Rattle.dirty_sets.specs.Index.{TouchIndexValue};

    ghost Value = { TouchIndexValue };

    ghost view = { λ t. record { readers = t.readers.items; room = vec_capacity t.readers - vec_len t.readers } };

    ghost invariant = { λ t. IsRising (λ r. r.dest) t.readers.items };
}

/// The reader of the plan at a place, where the transfer points are marked.
fn reader_at(net: &Net, transfers: &Codes, position: usize) -> Reader
    requires there { position < length net.now.plans }
    requires transfers { (x : ℕ) → x < 16384 → is_marked transfers.now x ≡ stp_is net.now.points x }
    ensures { (d : ThePlan) → IsReaderOf net.now.points net.now.sets (slice_index_or net.now.plans position d) result }
{
    net.validity();
    let plan = net.plans().at(position);
    Reader {
        dest: plan.dest,
        ids: sets_read(net.points(), transfers, plan, true, net.sets()),
    }
}

/// A set with these ends. It takes no memory.
fn bare_set(id: u16, a: PointCode, b: PointCode) -> LinkSet
    ensures { result ≡ the_bare_set id a b }
{
    LinkSet {
        id,
        a,
        b,
        links: Links::none(),
    }
}

/// Whether an event sets a plan.
fn sets_plan(event: &Event) -> bool
    ensures { result ≡ plan_is_set event.now }
{
    match event {
        Event::SetPlan(_) => true,
        _ => false,
    }
}

impl TouchIndex {
    /// The index of a network.
    pub fn new(alloc: Global, net: &Net) -> Result<TouchIndex, AllocError>
        ensures { IfOk result (λ t. IsTouchIndex net.now (reads_of t)) }
    {
        net.validity();
        let count = net.plans().len();
        let transfers = Codes::of_transfers(net.points());
        let mut list = Vec::with_capacity(alloc, count)?;
        for position in 0..count {
            list.push(reader_at(net, &transfers, position))?;
        }
        Ok(TouchIndex {
            alloc,
            readers: list,
        })
    }

    /// Whether the table of a destination reads a set.
    pub fn reads(&self, dest: PointCode, id: u16) -> bool
        requires { id < 4096 }
        ensures { result ≡ (reads_of self.now).reads dest id }
    {
        readers::reads(self.readers.as_slice(), dest, id)
    }

    /// Makes room for one more plan.
    pub fn make_room(&mut self) -> Result<(), AllocError>
        ensures planned { (reads_of self.new).planned ≡ (reads_of self.old).planned }
        ensures reads { (reads_of self.new).reads ≡ (reads_of self.old).reads }
        ensures readers { self.new.readers ≡ self.old.readers }
        ensures ok { OnOk result (0 < self.new.room) }
        ensures err { OnErr result (self.new ≡ self.old) }
    {
        self.readers.reserve(1)?;
        Ok(())
    }

    /// Tables read the same after an event on points, links or the option. It does nothing when it runs.
    pub(crate) fn keep(&self, before: &Net, event: &Event)
        requires index { IsTouchIndex before.now (reads_of self.now) }
        requires accepted { refusal_of before.now event.now ≡ None }
        requires kept { keeps_reads event.now ≡ true }
        ensures { IsTouchIndex (changed before.now event.now) (reads_of self.now) }
    {
        before.validity();
    }

    fn add_set(&mut self, before: &Net, id: u16, a: PointCode, b: PointCode)
        requires index { IsTouchIndex before.now (reads_of self.old) }
        requires small { id < 4096 }
        ensures { (slcs : List ℕ) → IsTouchIndex (changed before.now (Event.AddSet id a b slcs)) (reads_of self.new) }
    {
        let set = bare_set(id, a, b);
        readers::add_set(&mut self.readers, before, &set);
    }

    fn remove_set(&mut self, before: &Net, id: u16)
        requires index { IsTouchIndex before.now (reads_of self.old) }
        requires small { id < 4096 }
        ensures { IsTouchIndex (changed before.now (Event.RemoveSet id)) (reads_of self.new) }
    {
        before.validity();
        readers::remove_set(&mut self.readers, id);
    }

    fn set_plan(&mut self, before: &Net, plan: &Plan)
        requires index { IsTouchIndex before.now (reads_of self.old) }
        requires accepted { refusal_of before.now (Event.SetPlan plan.now) ≡ None }
        requires room { 0 < self.old.room }
        ensures { IsTouchIndex (changed before.now (Event.SetPlan plan.now)) (reads_of self.new) }
    {
        before.validity();
        let transfers = Codes::of_transfers(before.points());
        let ids = sets_read(before.points(), &transfers, plan, false, before.sets());
        readers::put_reader(
            &mut self.readers,
            Reader {
                dest: plan.dest,
                ids,
            },
        );
    }

    fn drop_plan(&mut self, before: &Net, dest: PointCode)
        requires index { IsTouchIndex before.now (reads_of self.old) }
        requires accepted { refusal_of before.now (Event.DropPlan dest) ≡ None }
        ensures { IsTouchIndex (changed before.now (Event.DropPlan dest)) (reads_of self.new) }
    {
        before.validity();
        readers::remove_reader(&mut self.readers, dest);
    }

    /// Follows an accepted event. It takes no memory.
    pub fn update(&mut self, before: &Net, event: &Event)
        requires index { IsTouchIndex before.now (reads_of self.old) }
        requires accepted { refusal_of before.now event.now ≡ None }
        requires room { plan_is_set event.now ≡ true → 0 < self.old.room }
        ensures { IsTouchIndex (changed before.now event.now) (reads_of self.new) }
    {
        before.validity();
        match event {
            Event::AddSet(id, a, b, _) => self.add_set(before, *id, *a, *b),
            Event::RemoveSet(id) => self.remove_set(before, *id),
            Event::SetPlan(plan) => self.set_plan(before, plan.as_plan()),
            Event::DropPlan(dest) => self.drop_plan(before, *dest),
            Event::Link(_, _, _) => self.keep(before, event),
            Event::AddLink(_, _) => self.keep(before, event),
            Event::RemoveLink(_, _) => self.keep(before, event),
            Event::AddPoint(_, _) => self.keep(before, event),
            Event::RemovePoint(_) => self.keep(before, event),
            Event::Pair(_, _) => self.keep(before, event),
            Event::Unpair(_) => self.keep(before, event),
            Event::SetTfr(_) => self.keep(before, event),
        }
    }

    /// Follows an accepted event.
    pub fn follow(&mut self, _alloc: Global, before: &Net, event: &Event) -> Result<(), AllocError>
        requires index { IsTouchIndex before.now (reads_of self.old) }
        requires accepted { refusal_of before.now event.now ≡ None }
        ensures ok { OnOk result (IsTouchIndex (changed before.now event.now) (reads_of self.new)) }
        ensures err { OnErr result (self.new ≡ self.old) }
        ensures no_memory { takes_none event.now ≡ true → IsOk result }
    {
        if sets_plan(event) {
            self.make_room()?;
            self.update(before, event);
            return Ok(());
        }
        self.update(before, event);
        Ok(())
    }

    fn mark_set(&self, before: &Net, event: &Event, id: u16, marks: &mut Codes)
        requires index { IsTouchIndex before.now (reads_of self.now) }
        requires accepted { refusal_of before.now event.now ≡ None }
        requires on_set { is_on_set id event.now ≡ true }
        ensures { (x : ℕ) → is_marked marks.new x ≡ (is_marked marks.old x || touches before.now event.now x) }
    {
        before.validity();
        readers::mark_readers(self.readers.as_slice(), id, marks);
    }

    fn mark_new_set(
        &self,
        before: &Net,
        id: u16,
        a: PointCode,
        b: PointCode,
        slcs: &Slcs,
        marks: &mut Codes,
    )
        requires index { IsTouchIndex before.now (reads_of self.now) }
        requires accepted { refusal_of before.now (Event.AddSet id a b slcs.now) ≡ None }
        ensures { (x : ℕ) → is_marked marks.new x ≡ (is_marked marks.old x || touches before.now (Event.AddSet id a b slcs.now) x) }
    {
        let set = bare_set(id, a, b);
        readers::mark_new_readers(self.readers.as_slice(), before, &set, marks);
    }

    fn mark_planned(&self, before: &Net, marks: &mut Codes)
        requires index { IsTouchIndex before.now (reads_of self.now) }
        ensures { (x : ℕ) → is_marked marks.new x ≡ (is_marked marks.old x || is_planned before.now x) }
    {
        readers::mark_all(self.readers.as_slice(), marks);
    }

    /// Marks the destinations that an accepted event touches.
    pub(crate) fn mark(&self, before: &Net, event: &Event, marks: &mut Codes)
        requires index { IsTouchIndex before.now (reads_of self.now) }
        requires accepted { refusal_of before.now event.now ≡ None }
        ensures { (x : ℕ) → is_marked marks.new x ≡ (is_marked marks.old x || touches before.now event.now x) }
    {
        match event {
            Event::Link(id, _, _) => self.mark_set(before, event, *id, marks),
            Event::AddLink(id, _) => self.mark_set(before, event, *id, marks),
            Event::RemoveLink(id, _) => self.mark_set(before, event, *id, marks),
            Event::RemoveSet(id) => self.mark_set(before, event, *id, marks),
            Event::AddSet(id, a, b, slcs) => self.mark_new_set(before, *id, *a, *b, slcs, marks),
            Event::SetPlan(plan) => marks.mark(plan.as_plan().dest),
            Event::DropPlan(dest) => marks.mark(*dest),
            Event::SetTfr(_) => self.mark_planned(before, marks),
            Event::AddPoint(_, _) => {}
            Event::RemovePoint(_) => {}
            Event::Pair(_, _) => {}
            Event::Unpair(_) => {}
        }
    }

    /// Marks the destinations whose tables read one of some sets.
    pub(crate) fn mark_any(&self, ids: &NotedIds, marks: &mut Codes)
        ensures { (x : ℕ) → is_marked marks.new x ≡ (is_marked marks.old x || any_read self.now.readers ids.now x) }
    {
        readers::mark_any_readers(self.readers.as_slice(), ids, marks);
    }

    /// The destinations that an accepted event touches, in rising code.
    pub fn touched(
        &self,
        alloc: Global,
        before: &Net,
        event: &Event,
    ) -> Result<Vec<PointCode>, AllocError>
        requires index { IsTouchIndex before.now (reads_of self.now) }
        requires accepted { refusal_of before.now event.now ≡ None }
        ensures { IfOk result (λ dests. dests.items ≡ touched_by before.now event.now) }
    {
        let mut marks = Codes::new();
        self.mark(before, event, &mut marks);
        let dests = marks.list(alloc)?;
        Ok(dests)
    }
}
