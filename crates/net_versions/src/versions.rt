//! The version.

ghost use Rattle.std.specs.Prelude.{◌≡◌, ◌<◌, true, false, [], IfOk, IfErr, length, map, slice_index_or};
ghost use Rattle.std.specs.Arc.{arc_value};
ghost use Rattle.net_items.specs.declared.items.Plan.{Plan};
ghost use Rattle.net_items.specs.Keyed.{IsRising, IsFoundAt, IsGapAt};
ghost use Rattle.excerpts.specs.Excerpt.{content_at, excerpt_in, table_at};
ghost use Rattle.excerpts.specs.Turned.{HasTurned};
ghost use Rattle.transfer_state.specs.Routing.{settled_choices, settled_routing};
ghost use Rattle.net_versions.specs.Versions.{AreKept, IsSettledVersion, all_choices, routing_at, settled_version};

use excerpts::{Ends, Excerpt, Frozen};
use net_data::{Event, Net};
use point_codes::PointCode;
use profile::Table;
use std::alloc::{AllocError, Global};
use std::marker::Model;
use std::sync::Arc;
use transfer_state::{Choices, Routing};

/// A published version.
#[derive(Drop)]
pub struct Version {
    number: u64,
    batch: Vec<Event>,
    net: Frozen,
    /// What is kept for each planned destination, in rising code. Versions between which no set turned share it as it is.
    choices: Arc<Vec<Choices>>,
}

impl Model for Version {
    ghost use Rattle.std.specs.Prelude.{◌≡◌};
    ghost use Rattle.std.specs.Arc.{arc_value};
    ghost use Rattle.net_versions.specs.Versions.{VersionValue, all_choices, kept_tables};

    ghost Value = { VersionValue };

    ghost view = { λ v. record { number = v.number; batch = v.batch.items; network = v.net; tables = kept_tables v.net v.net.plans (arc_value v.choices).items } };

    ghost invariant = { λ v. (arc_value v.choices).items ≡ all_choices v.net };
}

/// The place of what is kept for a destination, or where it would go. It is looked for first in a place.
fn position_of_choices(choices: &[Choices], first: usize, dest: PointCode) -> Result<usize, usize>
    requires { IsRising (λ c. c.dest) choices.now }
    ensures found { IfOk result (IsFoundAt (λ c. c.dest) dest choices.now) }
    ensures absent { IfErr result (IsGapAt (λ c. c.dest) dest choices.now) }
{
    if first < choices.len() && choices[first].dest() == dest {
        return Ok(first);
    }
    choices.binary_search_by_key(&dest, |c| c.dest())
}

/// The destinations for which something is kept.
fn dests_of(alloc: Global, choices: &[Choices]) -> Result<Vec<PointCode>, AllocError>
    ensures { IfOk result (λ dests. dests.items ≡ map (λ c. c.dest) choices.now) }
{
    let mut dests = Vec::with_capacity(alloc, choices.len())?;
    for kept in choices {
        dests.push(kept.dest())?;
    }
    Ok(dests)
}

/// The choices towards each planned destination of a network, from scratch, in rising code.
fn chosen(alloc: Global, net: &Frozen) -> Result<Vec<Choices>, AllocError>
    ensures { IfOk result (λ v. v.items ≡ all_choices net.now) }
{
    let plans = net.net().plans();
    let mut list = Vec::with_capacity(alloc, plans.len())?;
    for position in 0..plans.len() {
        list.push(Choices::of(alloc, &Excerpt::in_place(net, position))?)?;
    }
    Ok(list)
}

/// The choices of the plan in a place, followed from those in a version before.
fn followed_in_place(
    alloc: Global,
    net: &Frozen,
    before: &Version,
    turned: &[Ends],
    position: usize,
) -> Result<Choices, AllocError>
    requires turned { HasTurned before.now.network net.now turned.now }
    requires position { position < length net.now.plans }
    ensures { IfOk result (λ c. (d : Plan) → c ≡ settled_choices (excerpt_in net.now (slice_index_or net.now.plans position d))) }
{
    let routing = before.routing_in_place(position);
    routing.follow(alloc, &Excerpt::in_place(net, position), turned)
}

/// The choices towards each planned destination of a network, in rising code, each followed from those in a version before.
fn each_followed(
    alloc: Global,
    net: &Frozen,
    before: &Version,
    turned: &[Ends],
) -> Result<Vec<Choices>, AllocError>
    requires { HasTurned before.now.network net.now turned.now }
    ensures { IfOk result (λ v. v.items ≡ all_choices net.now) }
{
    let plans = net.net().plans();
    let mut list = Vec::with_capacity(alloc, before.read_ahead().max(plans.len()))?;
    for position in 0..plans.len() {
        list.push(followed_in_place(alloc, net, before, turned, position)?)?;
    }
    Ok(list)
}

/// The choices of the plan in a place, from scratch if its destination was touched since a version before, and else its, shared.
fn renewed_in_place(
    alloc: Global,
    net: &Frozen,
    before: &Version,
    touched: bool,
    position: usize,
) -> Result<Choices, AllocError>
    requires position { position < length net.now.plans }
    requires kept { touched ≡ false → (d : Plan) → content_at net.now (slice_index_or net.now.plans position d).dest ≡ content_at before.now.network (slice_index_or net.now.plans position d).dest }
    ensures { IfOk result (λ c. (d : Plan) → c ≡ settled_choices (excerpt_in net.now (slice_index_or net.now.plans position d))) }
{
    let excerpt = Excerpt::in_place(net, position);
    if touched {
        return Choices::of(alloc, &excerpt);
    }
    excerpt.validity();
    match before.routing(excerpt.dest()) {
        Some(routing) => {
            routing.excerpt().validity();
            routing.share_choices()
        }
        None => Choices::of(alloc, &excerpt),
    }
}

/// Whether the plan in a place was touched.
fn is_touched(touched: &[bool], position: usize) -> bool
    requires { position < length touched.now }
    ensures { result ≡ slice_index_or touched.now position true }
{
    touched[position]
}

/// The choices towards each planned destination of a network, in rising code, those towards touched ones from scratch.
fn each_renewed(
    alloc: Global,
    net: &Frozen,
    before: &Version,
    touched: &[bool],
) -> Result<Vec<Choices>, AllocError>
    requires together { length touched.now ≡ length net.now.plans }
    requires kept { AreKept net.now before.now.network touched.now }
    ensures { IfOk result (λ v. v.items ≡ all_choices net.now) }
{
    let plans = net.net().plans();
    let mut list = Vec::with_capacity(alloc, before.read_ahead().max(plans.len()))?;
    for position in 0..plans.len() {
        let touched = is_touched(touched, position);
        list.push(renewed_in_place(alloc, net, before, touched, position)?)?;
    }
    Ok(list)
}

impl Version {
    /// Version 0 of a network, with no events.
    pub fn opening(alloc: Global, net: Net) -> Result<Version, AllocError>
        ensures { IfOk result (λ v. v ≡ settled_version 0 [] net) }
    {
        let net = Frozen::new(alloc, net)?;
        let choices = Arc::new(alloc, chosen(alloc, &net)?)?;
        Ok(Version::new(0, Vec::new(alloc), net, choices))
    }

    /// The version of that number, with the events since the one before, the network, and the choices towards each planned
    /// destination.
    pub fn new(number: u64, batch: Vec<Event>, net: Frozen, choices: Arc<Vec<Choices>>) -> Version
        requires { (arc_value choices).items ≡ all_choices net }
        ensures { result ≡ settled_version number batch.items net }
    {
        net.validity();
        Version {
            number,
            batch,
            net,
            choices,
        }
    }

    /// The choices towards each planned destination of a network, followed from those of this version: these, shared, if no set turned.
    fn followed_choices(
        &self,
        alloc: Global,
        net: &Frozen,
        turned: &[Ends],
    ) -> Result<Arc<Vec<Choices>>, AllocError>
        requires { HasTurned self.now.network net.now turned.now }
        ensures { IfOk result (λ v. (arc_value v).items ≡ all_choices net.now) }
    {
        if turned.is_empty() {
            self.net.validity();
            net.validity();
            return Arc::try_clone(&self.choices);
        }
        Ok(Arc::new(alloc, each_followed(alloc, net, self, turned)?)?)
    }

    /// The version of that number, with the events since the one before, and a network that differs from that one's in sets alone: the
    /// choices are followed from those of the version before. `turned` has the ends of each set that became available since, or is so
    /// no longer.
    pub fn followed(
        alloc: Global,
        number: u64,
        batch: Vec<Event>,
        net: Frozen,
        before: &Version,
        turned: &[Ends],
    ) -> Result<Version, AllocError>
        requires { HasTurned before.now.network net turned.now }
        ensures { IfOk result (λ v. v ≡ settled_version number batch.items net) }
    {
        let choices = before.followed_choices(alloc, &net, turned)?;
        Ok(Version::new(number, batch, net, choices))
    }

    /// The version of that number, with the events since the one before, and a network in which the tables of plans read the same as in
    /// that one's, but for those that are told to be touched, in their places: these are settled from scratch.
    pub fn renewed(
        alloc: Global,
        number: u64,
        batch: Vec<Event>,
        net: Frozen,
        before: &Version,
        touched: &[bool],
    ) -> Result<Version, AllocError>
        requires together { length touched.now ≡ length net.plans }
        requires kept { AreKept net before.now.network touched.now }
        ensures { IfOk result (λ v. v ≡ settled_version number batch.items net) }
    {
        let choices = Arc::new(alloc, each_renewed(alloc, &net, before, touched)?)?;
        Ok(Version::new(number, batch, net, choices))
    }

    /// Its number.
    pub fn number(&self) -> u64
        ensures { result ≡ self.now.number }
    {
        self.number
    }

    /// The events since the version before.
    pub fn batch(&self) -> &[Event]
        ensures { result.now ≡ self.now.batch }
    {
        self.batch.as_slice()
    }

    /// Its network.
    pub fn net(&self) -> &Frozen
        ensures { result.now ≡ self.now.network }
    {
        &self.net
    }

    /// The fact that the type keeps: for each planned destination, and for no other, it keeps what its own network gives
    /// from scratch. It does nothing when it runs.
    pub fn validity(&self)
        ensures { IsSettledVersion self.now }
    {
        // The proof reads the type's invariant from this.
        self.net.validity();
    }

    /// Reads ahead the counts of the shares of what is kept for each destination: for how many of these a row is kept. Nothing rests on
    /// what this tells; but who shares it then has the counts come from memory at once, and not one after the other.
    pub fn read_ahead(&self) -> usize {
        let mut count = 0usize;
        for choices in self.choices.iter() {
            count = count.saturating_add(usize::from(choices.row_count() > 0));
        }
        count
    }

    /// The destinations for which it keeps something, in rising code.
    pub fn dests(&self, alloc: Global) -> Result<Vec<PointCode>, AllocError>
        ensures { IfOk result (λ dests. dests.items ≡ map (λ t. t.dest) self.now.tables) }
    {
        self.net.validity();
        dests_of(alloc, self.choices.as_slice())
    }

    /// The settled routing of the plan in a place of its network's plans.
    pub fn routing_in_place(&self, position: usize) -> Routing<'_>
        requires { position < length self.now.network.plans }
        ensures { (d : Plan) → result ≡ settled_routing (excerpt_in self.entry.now.network (slice_index_or self.entry.now.network.plans position d)) }
    {
        Routing::by(
            Excerpt::in_place(&self.net, position),
            &self.choices[position],
        )
    }

    /// The settled routing towards a destination, if it is planned.
    pub fn routing(&self, dest: PointCode) -> Option<Routing<'_>>
        ensures { result ≡ routing_at self.entry.now.network dest }
    {
        self.net.validity();
        let first = self.net.expected(self.choices.len(), dest);
        match position_of_choices(self.choices.as_slice(), first, dest) {
            Ok(at) => Some(self.routing_in_place(at)),
            Err(_) => None,
        }
    }

    /// The whole table of a destination, made from what is kept of it, if it is planned (own, after Q.704 clauses 2.3 and
    /// 13.2 to 13.4).
    pub fn table(&self, alloc: Global, dest: PointCode) -> Result<Option<Table>, AllocError>
        ensures { IfOk result (λ t. t ≡ table_at self.now.network dest) }
    {
        match self.routing(dest) {
            Some(routing) => Ok(Some(routing.table(alloc)?)),
            None => Ok(None),
        }
    }
}
