//! A table: what a network settles to for one destination, row by row.

ghost use Rattle.std.specs.Prelude.{◌≡◌, ◌↔◌, ◌<◌, ◌==◌, None, IsTrue, find, length, map, slice_index_or, IfOk};
ghost use Rattle.std.specs.List.{range_with_len};
ghost use Rattle.std.specs.Option.{option_copied};
ghost use Rattle.profile.specs.Links.{link_over, links_at};

use point_codes::{MsgKind, PointCode};
use route_choice::Choice;
use sls_share::{Carried, member_for};
use std::alloc::{AllocError, Global};
use std::marker::Model;

/// A link by its set and its signalling link code (Q.704 clause 2.2).
#[derive(Clone, Copy, Debug, PartialEq, Eq)]
pub struct LinkRef {
    /// The set's number.
    pub id: u16,
    /// The signalling link code.
    pub slc: u8,
}

/// A set by its number, with the links that carry its share numbers (Q.704 clause 2.3).
#[derive(Debug, Drop)]
pub struct SetLinks {
    /// The set's number.
    pub id: u16,
    /// Which of its links carries each share number.
    pub carried: Carried,
}

impl SetLinks {
    /// The link that carries share number `t`, 0 to 15, if one does.
    fn link_for(&self, t: u8) -> Option<LinkRef>
        requires { t < 16 }
        ensures { result ≡ link_over self.now t }
    {
        let slc = self.carried.link_for(t)?;
        Some(LinkRef { id: self.id, slc })
    }

    /// A copy. It takes no memory.
    fn copy(&self) -> SetLinks
        ensures { result ≡ self.now }
    {
        SetLinks {
            id: self.id,
            carried: self.carried.copy(),
        }
    }
}

fn copy_set_links(set: &Option<SetLinks>) -> Option<SetLinks>
    ensures { result ≡ set.now }
{
    match set {
        Some(set) => Some(set.copy()),
        None => None,
    }
}

/// The set to the member in a place, 0 or 1.
fn set_at(sets: &[Option<SetLinks>; 2], position: u8) -> Option<&SetLinks>
    requires { position < 2 }
    ensures { option_copied result ≡ slice_index_or sets.now position None }
{
    sets[usize::from(position)].as_ref()
}

/// Whether both are none, or of one set with the same links.
fn is_same_set(one: &Option<SetLinks>, other: &Option<SetLinks>) -> bool
    ensures { IsTrue result ↔ (one.now ≡ other.now) }
{
    match (one, other) {
        (None, None) => true,
        (Some(one), Some(other)) => one.id == other.id && one.carried.equals(&other.carried),
        _ => false,
    }
}

fn are_same_sets(one: &[Option<SetLinks>; 2], other: &[Option<SetLinks>; 2]) -> bool
    ensures { IsTrue result ↔ (one.now ≡ other.now) }
{
    is_same_set(&one[0], &other[0]) && is_same_set(&one[1], &other[1])
}

fn are_same_uses(one: [bool; 2], other: [bool; 2]) -> bool
    ensures { IsTrue result ↔ (one ≡ other) }
{
    one[0] == other[0] && one[1] == other[1]
}

/// The link that carries each signalling link selection of a row, if one does (Q.704 clause 2.3).
///
/// It holds the sets to the members of the row's class, and works out a link when it is asked for.
#[derive(Debug, Drop)]
pub struct RowLinks {
    size: u8,
    used: [bool; 2],
    sets: [Option<SetLinks>; 2],
}

impl Model for RowLinks {
    ghost use Rattle.std.specs.Prelude.{List, Option};
    ghost use Rattle.profile.specs.declared.tables.LinkRef.{LinkRef};
    ghost use Rattle.profile.specs.Links.{links_at};

    ghost Value = { List (Option LinkRef) };

    ghost view = { λ links. links_at links.size links.used links.sets };
}

impl RowLinks {
    /// The links of a class with a configured number of vias, by its members and the sets to them, in their places.
    pub fn new(size: u8, used: [bool; 2], sets: [Option<SetLinks>; 2]) -> RowLinks
        ensures { result ≡ links_at size used sets }
    {
        RowLinks { size, used, sets }
    }

    /// No links.
    pub fn none() -> RowLinks
        ensures { result ≡ map (λ _. None) (range_with_len 0 16) }
    {
        RowLinks {
            size: 1,
            used: [false; 2],
            sets: [None, None],
        }
    }

    /// The link that carries signalling link selection `s`, 0 to 15, if one does (Q.704 clause 2.3).
    #[tactic(auto, using(crate::proofs::LinkLemmas::link_found, crate::proofs::LinkLemmas::link_missing))]
    pub fn at(&self, s: u8) -> Option<LinkRef>
        requires { s < 16 }
        ensures { result ≡ slice_index_or self.now s None }
    {
        let (position, t) = member_for(self.size, self.used, s);
        match set_at(&self.sets, position) {
            Some(set) => set.link_for(t),
            None => None,
        }
    }

    /// The fact that the type keeps: there are sixteen. It does nothing when it runs.
    pub fn validity(&self)
        ensures { length self.now ≡ 16 }
    {
        // The proof reads the fields from this.
        let _size = self.size;
    }

    /// Whether the links of the sixteen signalling link selections are equal. It takes no memory.
    pub fn equals(&self, other: &RowLinks) -> bool
        ensures { IsTrue result ↔ (self.now ≡ other.now) }
    {
        if self.size == other.size
            && are_same_uses(self.used, other.used)
            && are_same_sets(&self.sets, &other.sets)
        {
            return true;
        }
        for s in 0..16u8 {
            if self.at(s) != other.at(s) {
                return false;
            }
        }
        true
    }

    /// A copy. It takes no memory.
    pub fn copy(&self) -> RowLinks
        ensures { result ≡ self.now }
    {
        RowLinks {
            size: self.size,
            used: self.used,
            sets: [copy_set_links(&self.sets[0]), copy_set_links(&self.sets[1])],
        }
    }
}

/// A transfer message in force towards a point (Q.704 clauses 13.2 to 13.4).
#[derive(Clone, Copy, Debug, PartialEq, Eq)]
pub struct Message {
    /// What the message says of the destination.
    pub kind: MsgKind,
    /// The point that it goes to.
    pub to: PointCode,
}

/// The messages of a row, in rising code of the receiver.
#[derive(Debug, Drop)]
pub struct Messages {
    list: Vec<Message>,
}

impl Model for Messages {
    ghost use Rattle.std.specs.Prelude.{List};
    ghost use Rattle.profile.specs.declared.tables.Message.{Message};

    ghost Value = { List Message };

    ghost view = { λ messages. messages.list.items };
}

impl Messages {
    /// These messages.
    pub fn from_vec(list: Vec<Message>) -> Messages
        ensures { result ≡ list.items }
    {
        Messages { list }
    }

    /// The messages in a vector. It takes no memory.
    pub fn into_vec(self) -> Vec<Message>
        ensures { result.items ≡ self }
    {
        let Messages { list } = self;
        list
    }

    /// The messages as a slice.
    pub fn as_slice(&self) -> &[Message]
        ensures { result.now ≡ self.now }
    {
        self.list.as_slice()
    }

    /// The message to a point, if there is one; the first if there are more.
    pub fn to(&self, point: PointCode) -> Option<&Message>
        ensures { option_copied result ≡ find (λ message. message.to == point) self.now }
    {
        self.list
            .as_slice()
            .iter()
            .find(|message| message.to == point)
    }

    /// A copy, or out of memory.
    pub fn copy(&self, alloc: Global) -> Result<Messages, AllocError>
        ensures { IfOk result (λ m. m ≡ self.now) }
    {
        Ok(Messages {
            list: Vec::from_slice(alloc, self.list.as_slice())?,
        })
    }
}

/// What the profile gives for one row.
#[derive(Debug, Drop)]
pub struct RowState {
    /// The row's point.
    pub point: PointCode,
    /// What the row uses, and the status that follows.
    pub choice: Choice,
    /// The link that carries each signalling link selection, if one does (Q.704 clause 2.3).
    pub links: RowLinks,
    /// The transfer messages in force from the point.
    pub messages: Messages,
}

impl RowState {
    /// A copy, or out of memory.
    pub fn copy(&self, alloc: Global) -> Result<RowState, AllocError>
        ensures { IfOk result (λ s. s ≡ self.now) }
    {
        Ok(RowState {
            point: self.point,
            choice: self.choice,
            links: self.links.copy(),
            messages: self.messages.copy(alloc)?,
        })
    }
}

fn copy_states(alloc: Global, states: &[RowState]) -> Result<Vec<RowState>, AllocError>
    ensures { IfOk result (λ v. v.items ≡ states.now) }
{
    let mut copies = Vec::with_capacity(alloc, states.len())?;
    for state in states {
        copies.push(state.copy(alloc)?)?;
    }
    Ok(copies)
}

/// The rows of a table, in rising code.
#[derive(Debug, Drop)]
pub struct RowStates {
    list: Vec<RowState>,
}

impl Model for RowStates {
    ghost use Rattle.std.specs.Prelude.{List};
    ghost use Rattle.profile.specs.declared.tables.RowState.{RowState};

    ghost Value = { List RowState };

    ghost view = { λ rows. rows.list.items };
}

impl RowStates {
    /// These rows.
    pub fn from_vec(list: Vec<RowState>) -> RowStates
        ensures { result ≡ list.items }
    {
        RowStates { list }
    }

    /// The rows in a vector. It takes no memory.
    pub fn into_vec(self) -> Vec<RowState>
        ensures { result.items ≡ self }
    {
        let RowStates { list } = self;
        list
    }

    /// The rows as a slice.
    pub fn as_slice(&self) -> &[RowState]
        ensures { result.now ≡ self.now }
    {
        self.list.as_slice()
    }

    /// A copy, or out of memory.
    pub fn copy(&self, alloc: Global) -> Result<RowStates, AllocError>
        ensures { IfOk result (λ r. r ≡ self.now) }
    {
        Ok(RowStates {
            list: copy_states(alloc, self.list.as_slice())?,
        })
    }
}

/// The table of one destination.
#[derive(Debug, Drop)]
pub struct Table {
    /// The destination.
    pub dest: PointCode,
    /// The states of the plan's rows.
    pub rows: RowStates,
}

impl Table {
    /// The state of a point's row, if the table has one; the first if it has more.
    pub fn row(&self, point: PointCode) -> Option<&RowState>
        ensures { option_copied result ≡ find (λ state. state.point == point) self.now.rows }
    {
        self.rows
            .as_slice()
            .iter()
            .find(|state| state.point == point)
    }

    /// A copy, or out of memory.
    pub fn copy(&self, alloc: Global) -> Result<Table, AllocError>
        ensures { IfOk result (λ t. t ≡ self.now) }
    {
        Ok(Table {
            dest: self.dest,
            rows: self.rows.copy(alloc)?,
        })
    }
}
