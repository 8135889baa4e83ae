//! Which destinations were touched since the last clearing.

ghost use Rattle.std.specs.Prelude.{◌≡◌, ◌<◌, ◌||◌, ℕ, List, Bool, true, false, None, OnOk, IfOk};
ghost use Rattle.net_data.specs.Edits.{refusal_of, changed};
ghost use Rattle.dirty_sets.specs.Bits.{is_marked, meets};
ghost use Rattle.dirty_sets.specs.Touch.{IsTouchIndex, sets_plan};
ghost use Rattle.dirty_sets.specs.Marks.{IsClear, IsNoted};
ghost use Rattle.dirty_sets.specs.Index.{reads_of};
ghost use Rattle.dirty_sets.specs.Kept.{is_on_set, keeps_reads, touches_none};
ghost use Rattle.dirty_sets.specs.Touched.{marks_of};

use crate::bits::Codes;
use crate::index::TouchIndex;
use crate::noted::NotedIds;
use net_data::{Event, Net};
use std::alloc::{AllocError, Global};
use std::marker::Model;

/// Which destinations were touched since the last clearing, with the index that follows the network (own).
#[derive(Drop)]
pub struct Touched {
    index: TouchIndex,
    /// The sets that link events were on since the last flush: what they touch is marked later.
    ids: NotedIds,
    /// The destinations that are marked already.
    marks: Codes,
}

impl Model for Touched {
    ghost use Rattle.dirty_sets.specs.Touched.{TouchedValue};

    ghost Value = { TouchedValue };

    ghost view = { λ t. record { index = t.index; ids = t.ids; marks = t.marks } };
}

impl Touched {
    /// The index of a network. Nothing is touched.
    pub fn new(alloc: Global, net: &Net) -> Result<Touched, AllocError>
        ensures index { IfOk result (λ t. IsTouchIndex net.now (reads_of t.index)) }
        ensures clear { IfOk result (λ t. IsClear (marks_of t)) }
    {
        Ok(Touched {
            index: TouchIndex::new(alloc, net)?,
            ids: NotedIds::new(),
            marks: Codes::new(),
        })
    }

    /// The destinations that were touched, marked.
    pub fn all(&self) -> Codes
        ensures { (x : ℕ) → is_marked result x ≡ (marks_of self.now).touched x }
    {
        let mut marks = self.marks.copy();
        self.index.mark_any(&self.ids, &mut marks);
        marks
    }

    /// Makes room for one more plan.
    pub fn make_room(&mut self) -> Result<(), AllocError>
        ensures planned { (marks_of self.new).index.planned ≡ (marks_of self.old).index.planned }
        ensures reads { (marks_of self.new).index.reads ≡ (marks_of self.old).index.reads }
        ensures touched { (marks_of self.new).touched ≡ (marks_of self.old).touched }
        ensures ok { OnOk result (0 < (marks_of self.new).index.room) }
    {
        self.index.make_room()?;
        Ok(())
    }

    /// Marks what the events on sets touched.
    fn flush(&mut self)
        ensures index { self.new.index ≡ self.old.index }
        ensures marks { (x : ℕ) → is_marked self.new.marks x ≡ (marks_of self.old).touched x }
        ensures blank { (others : List Bool) → meets self.new.ids others ≡ false }
    {
        self.index.mark_any(&self.ids, &mut self.marks);
        self.ids = NotedIds::new();
    }

    /// Notes an event on a link.
    fn note_link(&mut self, before: &Net, event: &Event, id: u16)
        requires index { IsTouchIndex before.now (reads_of self.old.index) }
        requires accepted { refusal_of before.now event.now ≡ None }
        requires on_set { is_on_set id event.now ≡ true }
        requires kept { keeps_reads event.now ≡ true }
        ensures { IsNoted before.now event.now (marks_of self.old) (marks_of self.new) }
    {
        before.validity();
        self.index.keep(before, event);
        self.ids.mark(id);
    }

    /// Notes an event on points.
    fn note_point(&self, before: &Net, event: &Event)
        requires index { IsTouchIndex before.now (reads_of self.now.index) }
        requires accepted { refusal_of before.now event.now ≡ None }
        requires kept { keeps_reads event.now ≡ true }
        requires none { touches_none event.now ≡ true }
        ensures { IsNoted before.now event.now (marks_of self.now) (marks_of self.now) }
    {
        self.index.keep(before, event);
    }

    /// Notes any event.
    fn note_change(&mut self, before: &Net, event: &Event)
        requires index { IsTouchIndex before.now (reads_of self.old.index) }
        requires accepted { refusal_of before.now event.now ≡ None }
        requires room { sets_plan event.now ≡ true → 0 < self.old.index.room }
        ensures { IsNoted before.now event.now (marks_of self.old) (marks_of self.new) }
    {
        self.flush();
        self.index.mark(before, event, &mut self.marks);
        self.index.update(before, event);
    }

    /// Notes what an accepted event touches, and follows it. It takes no memory.
    pub fn note(&mut self, before: &Net, event: &Event)
        requires index { IsTouchIndex before.now (marks_of self.old).index }
        requires accepted { refusal_of before.now event.now ≡ None }
        requires room { sets_plan event.now ≡ true → 0 < (marks_of self.old).index.room }
        ensures { IsNoted before.now event.now (marks_of self.old) (marks_of self.new) }
    {
        match event {
            Event::Link(id, _, _) => self.note_link(before, event, *id),
            Event::AddLink(id, _) => self.note_link(before, event, *id),
            Event::RemoveLink(id, _) => self.note_link(before, event, *id),
            Event::AddPoint(_, _) => self.note_point(before, event),
            Event::RemovePoint(_) => self.note_point(before, event),
            Event::Pair(_, _) => self.note_point(before, event),
            Event::Unpair(_) => self.note_point(before, event),
            Event::AddSet(_, _, _, _) => self.note_change(before, event),
            Event::RemoveSet(_) => self.note_change(before, event),
            Event::SetPlan(_) => self.note_change(before, event),
            Event::DropPlan(_) => self.note_change(before, event),
            Event::SetTfr(_) => self.note_change(before, event),
        }
    }

    /// Nothing is touched from now on. The index stays.
    pub fn clear(&mut self)
        ensures index { (marks_of self.new).index ≡ (marks_of self.old).index }
        ensures clear { IsClear (marks_of self.new) }
    {
        self.ids = NotedIds::new();
        self.marks = Codes::new();
    }
}
