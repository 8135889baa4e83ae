//! The settled routing towards one destination: what each point of its plan uses.

ghost use Rattle.std.specs.Prelude.{◌≡◌, ◌==◌, ◌↔◌, ◌<◌, IsTrue, true, None, IsOk, IfOk, find, not};
ghost use Rattle.std.specs.Option.{option_map, MatchOption};
ghost use Rattle.profile.specs.Status.{status};
ghost use Rattle.profile.specs.Traces.{hop_of};
ghost use Rattle.profile.specs.Whole.{scratch};
ghost use Rattle.excerpts.specs.Excerpt.{source_of};
ghost use Rattle.excerpts.specs.Turned.{HasTurned};
ghost use Rattle.std.specs.List.{list_any};
ghost use Rattle.excerpts.specs.declared.turned.Ends.{Ends};
ghost use Rattle.transfer_state.specs.Following.{rests_on, KeepsStatuses};
ghost use Rattle.transfer_state.specs.Routing.{direct_status, settled_choices, settled_routing, state_at, statuses_of, IsFoundRow};

use crate::auditing::check_kept;
use crate::choices::Choices;
use crate::comparing::have_same_statuses;
use crate::complaints::Complaint;
use crate::following::{choices_after, rests_on_any};
use crate::routes::{
    choice_at, direct_at, found, hop_at, links_at, message_at, messages_at, row_status_at,
    status_at,
};
use crate::shared::SharedRouting;
use crate::table::table_by;
use excerpts::{Ends, Excerpt};
use net_items::Row;
use point_codes::PointCode;
use profile::{Hop, Message, Messages, RowLinks, Table};
use route_choice::{Choice, Far};
use std::alloc::{AllocError, Global};
use std::marker::Model;

/// The settled routing of an excerpt: the choice of each row of its plan, of which a byte is kept.
///
/// It reads excerpt and choices where they stand, and works out members, links and messages when they are asked for.
#[derive(Drop)]
pub struct Routing<'a> {
    excerpt: Excerpt<'a>,
    choices: &'a Choices,
}

impl<'a> Model for Routing<'a> {
    ghost use Rattle.std.specs.Prelude.{◌≡◌};
    ghost use Rattle.transfer_state.specs.Routing.{RoutingValue, routing_by, settled_choices};

    ghost Value = { RoutingValue };

    ghost view = { λ r. routing_by r.excerpt r.choices.now };

    ghost invariant = { λ r. r.choices.now ≡ settled_choices r.excerpt };
}

impl<'a> Routing<'a> {
    /// The settled routing of an excerpt by what is kept of its choices.
    #[tactic(auto, using(crate::proofs::RouteLemmas::opened_chosen))]
    pub fn by(excerpt: Excerpt<'a>, choices: &'a Choices) -> Routing<'a>
        requires { choices.now ≡ settled_choices excerpt }
        ensures { result ≡ settled_routing excerpt.entry }
    {
        excerpt.validity();
        Routing { excerpt, choices }
    }

    /// What is kept of the choices of an excerpt of the same plan in another network, followed from this routing: these choices,
    /// shared, if no row has to be chosen anew, and few rows are chosen anew else, if that will do. `turned` has the ends of each set
    /// that became available since, or is so no longer. It fails only if memory is refused.
    pub fn follow(
        &self,
        alloc: Global,
        excerpt: &Excerpt,
        turned: &[Ends],
    ) -> Result<Choices, AllocError>
        requires dest { excerpt.now.plan.dest ≡ self.now.excerpt.plan.dest }
        requires turned { HasTurned self.now.excerpt.network excerpt.now.network turned.now }
        ensures { IfOk result (λ c. c ≡ settled_choices excerpt.now) }
    {
        match choices_after(alloc, excerpt, &self.excerpt, self.choices, turned)? {
            Some(choices) => Ok(choices),
            None => Choices::of(alloc, excerpt),
        }
    }

    /// Whether no row rests on a set between these ends: then the statuses stay in each network that differs in such sets alone. No
    /// row is chosen anew to tell it.
    pub fn keeps_statuses(&self, turned: &[Ends]) -> bool
        ensures told { result ≡ not (list_any (λ (ends : Ends). rests_on self.now.excerpt ends.point ends.other) turned.now) }
        ensures stay { result ≡ true → KeepsStatuses self.now turned.now }
    {
        self.excerpt.validity();
        !rests_on_any(&self.excerpt, turned)
    }

    /// The same routing, which shares what it reads, so that it lasts. It fails only if no further share can be counted.
    pub fn share(&self) -> Result<SharedRouting, AllocError>
        ensures { IfOk result (λ r. r ≡ self.now) }
    {
        Ok(SharedRouting::by(self.excerpt.share()?, self.choices.share()?))
    }

    /// What is kept of its choices, shared. It fails only if no further share can be counted.
    pub fn share_choices(&self) -> Result<Choices, AllocError>
        ensures { IfOk result (λ c. c ≡ settled_choices self.now.excerpt) }
    {
        self.choices.share()
    }

    /// The fact that the type keeps: its choices are those from scratch. It does nothing when it runs.
    #[tactic(auto, using(crate::proofs::RouteLemmas::opened_chosen))]
    pub fn validity(&self)
        ensures { self.now ≡ settled_routing self.now.excerpt }
    {
        // The proof reads the type's invariant from this.
        self.excerpt.validity();
    }

    /// What it is the routing of.
    pub fn excerpt(&self) -> &Excerpt<'a>
        ensures { result.now ≡ self.now.excerpt }
    {
        &self.excerpt
    }

    /// The destination.
    pub fn dest(&self) -> PointCode
        ensures { result ≡ self.now.excerpt.plan.dest }
    {
        self.choices.dest()
    }

    /// The row of a point, with what it uses, if it has one.
    pub fn row(&self, point: PointCode) -> Option<(&Row, Choice)>
        ensures { MatchOption result (state_at self.now.excerpt point ≡ None) (λ f. IsFoundRow self.now.excerpt point f.0.now f.1) }
    {
        found(&self.excerpt, self.choices.as_slice(), point)
    }

    /// The status of a point: allowed at the destination, prohibited if it has no row (own).
    pub fn status(&self, point: PointCode) -> Far
        ensures { result ≡ status (source_of self.now.excerpt) point }
    {
        status_at(&self.excerpt, self.choices.as_slice(), point)
    }

    /// The direct status of a point, which it offers its mate: that of its vias alone, prohibited if it has no row (own, after
    /// Q.704 clauses 13.2 to 13.4).
    pub fn direct_status(&self, point: PointCode) -> Far
        ensures { result ≡ direct_status (source_of self.now.excerpt) point }
    {
        direct_at(&self.excerpt, self.choices.as_slice(), point)
    }

    /// What a point uses, with its status, if it has a row.
    pub fn choice(&self, point: PointCode) -> Option<Choice>
        ensures { result ≡ option_map (λ s. s.choice) (state_at self.now.excerpt point) }
    {
        choice_at(&self.excerpt, self.choices.as_slice(), point)
    }

    /// The status of a point's row, if it has one.
    pub fn row_status(&self, point: PointCode) -> Option<Far>
        ensures { result ≡ option_map (λ s. s.choice.status) (state_at self.now.excerpt point) }
    {
        row_status_at(&self.excerpt, self.choices.as_slice(), point)
    }

    /// Whether all rows have the statuses that those in their places have in another routing.
    #[tactic(auto, using(crate::proofs::RouteLemmas::statuses_kept))]
    pub fn has_same_statuses(&self, other: &Routing) -> bool
        ensures { IsTrue result ↔ (statuses_of self.now.choices ≡ statuses_of other.now.choices) }
    {
        self.excerpt.validity();
        other.excerpt.validity();
        have_same_statuses(self.choices.as_slice(), other.choices.as_slice())
    }

    /// The link of each signalling link selection of a point, if it has a row (Q.704 clause 2.3).
    pub fn links(&self, point: PointCode) -> Option<RowLinks>
        ensures { result ≡ option_map (λ s. s.links) (state_at self.now.excerpt point) }
    {
        links_at(&self.excerpt, self.choices.as_slice(), point)
    }

    /// The messages in force from a point, if it has a row (Q.704 clauses 13.2 to 13.4).
    pub fn messages(&self, alloc: Global, point: PointCode) -> Result<Option<Messages>, AllocError>
        ensures { IfOk result (λ m. m ≡ option_map (λ s. s.messages) (state_at self.now.excerpt point)) }
    {
        messages_at(alloc, &self.excerpt, self.choices.as_slice(), point)
    }

    /// The message in force from a point to another, if the point has a row, and if it sends one (Q.704 clauses 13.2 to 13.4).
    pub fn message(&self, point: PointCode, neighbour: PointCode) -> Option<Option<Message>>
        ensures { result ≡ option_map (λ s. find (λ m. m.to == neighbour) s.messages) (state_at self.now.excerpt point) }
    {
        message_at(&self.excerpt, self.choices.as_slice(), point, neighbour)
    }

    /// The link that a signalling link selection takes from a point, with both its ends, if it takes one (Q.704 clause
    /// 2.3).
    pub fn hop(&self, point: PointCode, s: u8) -> Option<Hop>
        requires { s < 16 }
        ensures { result ≡ hop_of (source_of self.now.excerpt) point s }
    {
        hop_at(&self.excerpt, self.choices.as_slice(), point, s)
    }

    /// What `check_kept` says of what is kept: no complaint, since a routing is settled. It takes no memory.
    pub fn audit(&self) -> Result<(), Complaint>
        ensures { IsOk result }
    {
        self.excerpt.validity();
        check_kept(&self.excerpt, self.choices.as_slice())
    }

    /// The whole table, by the choices that are kept.
    pub fn table(&self, alloc: Global) -> Result<Table, AllocError>
        ensures { IfOk result (λ t. t ≡ scratch (source_of self.now.excerpt)) }
    {
        table_by(alloc, &self.excerpt, self.choices.as_slice())
    }
}
