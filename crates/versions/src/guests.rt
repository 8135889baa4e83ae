//! Who has a seat at a hub.

ghost use Rattle.std.specs.Prelude.{◌≡◌, ◌≢◌, ◌+◌, ◌∷◌, ◌<◌, ◌≤◌, [], Err, false, true, IfOk, OnErr, OnOk};
ghost use Rattle.net_data.specs.Kinds.{is_link};
ghost use Rattle.desk_core.specs.Steps.{Posts};
ghost use Rattle.seats.specs.Minutes.{OnlyOthersSince, sight};
ghost use Rattle.versions.specs.Authors.{authored_in, counts_of, was_taken};
ghost use Rattle.versions.specs.Hubs.{WithDesk};
ghost use Rattle.versions.specs.Working.{Comes, ComesAndDoes, IsGuest, IsWholeHistory};

use crate::book::Naming;
use crate::hub::{Hub, Unnamed};
use crate::posters::BySeats;
use crate::reader::NoPlace;
use crate::state::DeskAndChain;
use desk_core::{Desk, Posted, Refusal};
use net_data::Event;
use seats::{Minutes, Seat};
use std::alloc::{AllocError, Global};
use std::marker::{Model, PhantomData};
use std::sync::Wait;

/// A hub and its first seat, which have no name yet.
#[derive(Drop)]
pub struct UnnamedWithSeats {
    hub: Unnamed,
    minutes: Minutes<DeskAndChain>,
    first: Seat<DeskAndChain>,
}

impl Model for UnnamedWithSeats {
    ghost use Rattle.std.specs.Prelude.{◌≡◌, ◌∷◌, []};
    ghost use Rattle.seats.specs.Minutes.{sight};
    ghost use Rattle.versions.specs.Hubs.{PairValue};

    ghost Value = { PairValue };

    ghost view = { λ p. record { table = p.minutes.table; seats = p.minutes.seats; state = p.hub } };

    ghost invariant = { λ p. (p.minutes.log ≡ sight 0 p.hub ∷ []) × (p.first ≡ record { table = p.minutes.table; me = 0; saw = sight 0 p.hub ∷ [] }) };
}

impl UnnamedWithSeats {
    /// The desk's published version is the first that readers see, and the first seat has seen it.
    ///
    /// # Errors
    ///
    /// `AllocError` if memory for what hub and seats share is refused.
    pub fn new<R: Wait>(rt: &R, alloc: Global, desk: Desk) -> Result<UnnamedWithSeats, AllocError>
        ensures desk { IfOk result (λ p. p.state.desk ≡ desk) }
        ensures chain { IfOk result (λ p. p.state.shown.chain ≡ desk.published ∷ []) }
        ensures seats { IfOk result (λ p. p.seats ≡ 1) }
    {
        let hub = Unnamed::new(desk)?;
        let mut minutes = Minutes::new(alloc)?;
        let mut first = minutes.admit();
        first.see(rt, &mut minutes, hub.state());
        Ok(UnnamedWithSeats {
            hub,
            minutes,
            first,
        })
    }

    /// One seat more. It has seen what the first has.
    pub fn admit(&mut self) -> Seat<DeskAndChain>
        ensures more { self.new ≡ record self.old { seats = self.old.seats + 1 } }
        ensures seat { result ≡ record { table = self.old.table; me = self.old.seats; saw = sight 0 self.old.state ∷ [] } }
    {
        self.minutes.admit()
    }

    /// The hub, which has so many seats, with 64 places for readers, and who has its first seat.
    ///
    /// # Errors
    ///
    /// `NoPlace` if memory for the places, or for the counts of the seats, is refused.
    pub fn named<N: Naming>(
        self,
        alloc: Global,
        seats: usize,
    ) -> Result<(Hub<N, BySeats>, Guest<N>), NoPlace>
        requires names { (self.state.shown.book ≡ N.book) × (self.table ≡ N.table) × (self.seats ≡ N.seats) }
        requires seats { seats ≡ N.seats }
        ensures hub { IfOk result (λ p. p.0 ≡ record { state = self.state; stopping = false; living = 0 }) }
        ensures guest { IfOk result (λ p. p.1 ≡ record { table = self.table; me = 0; saw = sight 0 self.state ∷ [] }) }
    {
        let UnnamedWithSeats {
            hub,
            minutes,
            first,
        } = self;
        let Ok(posters) = BySeats::over(alloc, minutes, seats) else {
            return Err(NoPlace);
        };
        let hub = hub.named_for(alloc, posters)?;
        Ok((hub, Guest::over(first, 0)))
    }
}

/// Whether a post was taken, and not answered again or refused.
fn is_taken(reply: &Result<Posted, Refusal>) -> bool
    ensures { result ≡ was_taken reply.now }
{
    matches!(reply, Ok(Posted::Taken(_)))
}

/// Who has a seat at a hub. Contracts see its seat: its number, and all sights up to its own last one.
#[derive(Drop)]
pub struct Guest<N: Naming> {
    seat: Seat<DeskAndChain>,
    /// The number of the seat.
    number: usize,
    of: PhantomData<N>,
}

impl<N: Naming> Model for Guest<N> {
    ghost use Rattle.std.specs.Prelude.{◌≡◌};
    ghost use Rattle.seats.specs.Minutes.{SeatValue};
    ghost use Rattle.versions.specs.Working.{IsGuest};
    ghost use Rattle.versions.specs.declared.state.DeskAndChain.{DeskAndChain};

    ghost Value = { SeatValue DeskAndChain };

    ghost view = { λ g. g.seat };

    ghost invariant = { λ g. IsGuest N.table g.seat × (g.number ≡ g.seat.me) };
}

impl<N: Naming> Guest<N> {
    /// Who has this seat, which has this number.
    pub fn over(seat: Seat<DeskAndChain>, number: usize) -> Guest<N>
        requires { IsGuest N.table seat × (number ≡ seat.me) }
        ensures { result ≡ seat }
    {
        Guest {
            seat,
            number,
            of: PhantomData,
        }
    }

    /// Comes to the hub, and changes nothing there. It takes no memory.
    pub fn visit<R: Wait>(&mut self, rt: &R, hub: &mut Hub<N, BySeats>)
        ensures comes { Comes N.seats self.old hub.old.state self.new }
        ensures rest { hub.new ≡ hub.old }
    {
        let posters = &mut hub.posters;
        posters.see(rt, &mut self.seat, self.number, false, &hub.state);
    }

    /// Comes to the hub, changes nothing there, and tells how many events were accepted through each seat.
    ///
    /// # Errors
    ///
    /// `AllocError` if memory for the counts is refused. It has come all the same.
    pub fn count<R: Wait>(
        &mut self,
        rt: &R,
        alloc: Global,
        hub: &mut Hub<N, BySeats>,
    ) -> Result<Vec<u64>, AllocError>
        ensures comes { Comes N.seats self.old hub.old.state self.new }
        ensures counts { IfOk result (λ counts. counts.items ≡ counts_of N.seats (authored_in self.new.saw)) }
        ensures rest { hub.new ≡ hub.old }
    {
        let posters = &mut hub.posters;
        posters.see(rt, &mut self.seat, self.number, false, &hub.state);
        Vec::from_slice(alloc, posters.counts.as_slice())
    }

    /// One post of a collector, as `Desk::post`.
    ///
    /// # Errors
    ///
    /// Those of `Desk::post`; the desk is then as it was.
    pub fn post<R: Wait>(
        &mut self,
        rt: &R,
        alloc: Global,
        hub: &mut Hub<N, BySeats>,
        collector: u8,
        seq: u64,
        event: Event,
    ) -> Result<Posted, Refusal>
        ensures comes { ComesAndDoes N.seats self.old hub.old.state hub.new.state self.new }
        ensures step { Posts hub.old.state.desk collector seq event result hub.new.state.desk }
        ensures rest { WithDesk hub.old hub.new }
        ensures no_memory { is_link event ≡ true → 0 < hub.old.state.desk.spare → result ≢ Err Refusal.OutOfMemory }
    {
        let number = self.number;
        hub.posters
            .see(rt, &mut self.seat, number, false, &hub.state);
        hub.state.desk.steady();
        let reply = hub.state.desk.post(alloc, collector, seq, event);
        let is_more = is_taken(&reply);
        hub.posters
            .see(rt, &mut self.seat, number, is_more, &hub.state);
        reply
    }
}

/// A hub that has ended: its minutes, and how it stood then.
#[derive(Drop)]
pub struct History<N: Naming> {
    minutes: Minutes<DeskAndChain>,
    state: DeskAndChain,
    of: PhantomData<N>,
}

impl<N: Naming> Model for History<N> {
    ghost use Rattle.versions.specs.Hubs.{HistoryValue};
    ghost use Rattle.versions.specs.Working.{IsAgreed};

    ghost Value = { HistoryValue };

    ghost view = { λ h. record { log = h.minutes.log; state = h.state } };

    ghost invariant = { λ h. IsAgreed N.table N.seats h.minutes h.state };
}

impl<N: Naming> Hub<N, BySeats> {
    /// Waits until no reader reads, and ends the hub.
    pub fn finish<R: Wait>(self, rt: &R) -> History<N>
        ensures { result.state ≡ self.state }
    {
        let Hub {
            state,
            posters,
            shelf,
            stopping: _,
            living: _,
        } = self;
        shelf.close(rt);
        let BySeats { minutes, counts: _ } = posters;
        History {
            minutes,
            state,
            of: PhantomData,
        }
    }
}

impl<N: Naming> History<N> {
    /// What a guest saw is the beginning of the one history, and after it stands nothing of that guest.
    pub fn explain<R: Wait>(&mut self, rt: &R, guest: &mut Guest<N>)
        ensures same { self.new ≡ self.old }
        ensures whole { IsWholeHistory N.seats self.old.log self.old.state }
        ensures guest { (guest.old.me < N.seats) × OnlyOthersSince guest.old.me guest.old.saw self.old.log }
        ensures seat { guest.new ≡ record guest.old { saw = self.old.log } }
    {
        guest.seat.read(rt, &mut self.minutes);
    }

    /// The desk at the end.
    pub fn into_desk(self) -> Desk
        ensures { result ≡ self.state.desk }
    {
        let History {
            minutes: _,
            state,
            of: _,
        } = self;
        let DeskAndChain { desk, shown: _ } = state;
        desk
    }
}
