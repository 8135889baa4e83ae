//! What waits for a result, and what is out.

ghost use Rattle.std.specs.Prelude.{◌≡◌, ◌<◌, ◌+◌, suc, None, Some, IfOk, MatchOption, if◌then◌else◌, length, slice_get, true, false};
ghost use Rattle.net_items.specs.Keyed.{IsRising};
ghost use Rattle.indexmap.specs.IndexMap.{move_index as with_moved};
ghost use Rattle.dirty_sets.specs.Entries.{task_of, marked, IsAt, IsFirstWaiting};
ghost use Rattle.dirty_sets.specs.Waiting.{all_waiting, first_waiting, is_out as is_task_out, least, lesser, out, put_last as with_last, taken, waiting, without_task};

use indexmap::IndexMap;
use point_codes::PointCode;
use std::alloc::{AllocError, Global};
use std::marker::Model;

/// The destinations that wait for a result, in order, and those that are out (own).
#[derive(Drop)]
pub struct Waiting {
    // The number of each destination, and whether it is out, from the last to the first: those in front are removed first,
    // and the map moves all that stand behind what it removes.
    entries: IndexMap<u16, bool>,
}

impl Model for Waiting {
    ghost use Rattle.std.specs.Prelude.{List, reverse, ◌<◌};
    ghost use Rattle.std.specs.List.{AllByRecursion};
    ghost use Rattle.dirty_sets.specs.Waiting.{Task};
    ghost use Rattle.dirty_sets.specs.Entries.{tasks_of};

    ghost Value = { List Task };

    ghost view = { λ w. reverse (tasks_of w.entries.entries) };

    ghost invariant = { λ w. AllByRecursion (λ e. e.0 < 16384) w.entries.entries };
}

impl Waiting {
    /// All of these wait, in their order.
    pub fn fill(alloc: Global, dests: &[PointCode]) -> Result<Waiting, AllocError>
        requires { IsRising (λ x. x) dests.now }
        ensures { IfOk result (λ w. w ≡ all_waiting dests.now) }
    {
        let mut entries = IndexMap::new(alloc);
        let mut left = dests.len();
        while left > 0 {
            left -= 1;
            entries.insert(dests[left].number(), false)?;
        }
        Ok(Waiting { entries })
    }

    /// The first that waits.
    pub fn first(&self) -> Option<PointCode>
        ensures { result ≡ first_waiting self.now }
    {
        let (_, dest) = self.first_position()?;
        Some(dest)
    }

    /// The first that waits, which is out from now on.
    pub fn take_first(&mut self) -> Option<PointCode>
        ensures first { result ≡ first_waiting self.old }
        ensures after { self.new ≡ taken self.old }
    {
        let (position, dest) = self.first_position()?;
        self.mark(position, true);
        Some(dest)
    }

    /// How many wait.
    pub fn len(&self) -> usize
        ensures { result ≡ length (waiting self.now) }
    {
        let mut count = 0;
        for position in 0..self.left() {
            let (_, is_out) = self.at(position);
            if !is_out {
                count += 1;
            }
        }
        count
    }

    /// How many wait or are out.
    pub fn left(&self) -> usize
        ensures { result ≡ length self.now }
    {
        self.entries.len()
    }

    /// The least that is out.
    pub fn first_out(&self) -> Option<PointCode>
        ensures { result ≡ least (out self.now) }
    {
        let mut first = None;
        let mut position = self.left();
        while position > 0 {
            position -= 1;
            let (dest, is_out) = self.at(position);
            if is_out {
                first = Some(lesser_of(dest, first));
            }
        }
        first
    }

    /// Whether a destination is out.
    pub fn is_out(&self, dest: PointCode) -> bool
        ensures { result ≡ is_task_out self.now dest }
    {
        match self.position_of(dest) {
            Some(position) => self.at(position).1,
            None => false,
        }
    }

    /// A destination that is out waits again, last. It takes no memory.
    pub fn put_last(&mut self, dest: PointCode)
        requires { is_task_out self.old dest ≡ true }
        ensures { self.new ≡ with_last dest self.old }
    {
        if let Some(position) = self.position_of(dest) {
            let last = self.left() - 1;
            self.move_to(position, last);
            self.mark(last, false);
        }
    }

    /// A destination that is out neither waits nor is out any more. It takes no memory.
    pub fn done(&mut self, dest: PointCode)
        requires { is_task_out self.old dest ≡ true }
        ensures { self.new ≡ without_task dest self.old }
    {
        if let Some(position) = self.position_of(dest) {
            let entry = self.turned(position);
            self.entries.shift_remove_index(entry);
        }
    }

    /// A place seen from the other end.
    fn turned(&self, place: usize) -> usize
        requires { place < length self.now }
        ensures { result + suc place ≡ length self.now }
    {
        self.left() - 1 - place
    }

    /// The destination at a place, and whether it is out.
    fn at(&self, position: usize) -> (PointCode, bool)
        requires { position < length self.now }
        ensures { slice_get self.now position ≡ Some (task_of result) }
    {
        let entry = self.turned(position);
        match self.entries.get_index(entry) {
            Some((number, is_out)) => match PointCode::new(*number) {
                Some(dest) => (dest, *is_out),
                None => unreachable!(),
            },
            None => unreachable!(),
        }
    }

    /// The place of a destination that waits or is out.
    fn position_of(&self, dest: PointCode) -> Option<usize>
        ensures { MatchOption result (is_task_out self.now dest ≡ false) (IsAt self.now dest) }
    {
        let entry = self.entries.get_index_of(&dest.number())?;
        Some(self.turned(entry))
    }

    /// The place of the first that waits, and its destination.
    fn first_position(&self) -> Option<(usize, PointCode)>
        ensures { MatchOption result ((first_waiting self.now ≡ None) × (taken self.now ≡ self.now)) (λ f. IsFirstWaiting self.now f.0 f.1) }
    {
        for position in 0..self.left() {
            let (dest, is_out) = self.at(position);
            if !is_out {
                return Some((position, dest));
            }
        }
        None
    }

    /// The one at a place is out, or waits.
    fn mark(&mut self, position: usize, is_out: bool)
        requires { position < length self.old }
        ensures { self.new ≡ marked position is_out self.old }
    {
        let entry = self.turned(position);
        match self.entries.get_index_mut(entry) {
            Some(out) => *out = is_out,
            None => unreachable!(),
        }
    }

    /// Moves the one at a place to another, and those in between by one place.
    fn move_to(&mut self, from: usize, to: usize)
        requires from { from < length self.old }
        requires to { to < length self.old }
        ensures { self.new ≡ with_moved self.old from to }
    {
        let (first, last) = (self.turned(from), self.turned(to));
        self.entries.move_index(first, last);
    }
}

/// The lesser of two destinations, if there is a second.
fn lesser_of(dest: PointCode, other: Option<PointCode>) -> PointCode
    ensures { result ≡ lesser dest other }
{
    match other {
        Some(other) if other < dest => other,
        _ => dest,
    }
}
