//! What is shown about a destination: colours, and how many signalling link selections go which way.

ghost use Rattle.std.specs.Prelude.{◌≡◌, Some, false, is_some, IfOk, IfErr};
ghost use Rattle.excerpts.specs.Excerpt.{excerpt_at, source_of};
ghost use Rattle.pictures.specs.Shown.{colour_of as the_colour, colour_towards, dest_of, is_member_of_choice as leads_of, lacks_plan, picture_fault, selections_over, share_of, share_towards, shown_of};

use crate::faults::PictureFault;
use crate::shares::share_over;
use crate::styles::{Colour, colour_of};
use excerpts::{ExcerptFault, Frozen, SharedExcerpt};
use point_codes::PointCode;
use std::alloc::Global;
use std::marker::Model;
use transfer_state::{Routing, SharedRouting, is_member};

/// The excerpt of a destination, with the faults of a picture.
fn excerpt_of(net: &Frozen, dest: PointCode) -> Result<SharedExcerpt, PictureFault>
    ensures ok { IfOk result (λ e. excerpt_at net.now dest ≡ Some e) }
    ensures err { IfErr result (λ fault. fault ≡ picture_fault net.now (Some dest)) }
    ensures there { IfOk result (λ e. lacks_plan net.now (Some dest) ≡ false) }
{
    match SharedExcerpt::of(net, dest) {
        Ok(excerpt) => Ok(excerpt),
        Err(ExcerptFault::NoPlan) => Err(PictureFault::NoPlan),
        Err(ExcerptFault::OutOfMemory) => Err(PictureFault::OutOfMemory),
    }
}

/// What a picture shows about a destination, if it is asked about one: the settled routing. Contracts see its
/// excerpt.
#[derive(Drop)]
pub(crate) struct Shown {
    routing: Option<SharedRouting>,
}

impl Model for Shown {
    ghost use Rattle.std.specs.Prelude.{Option};
    ghost use Rattle.std.specs.Option.{option_map};
    ghost use Rattle.excerpts.specs.Excerpt.{ExcerptValue};

    ghost Value = { Option ExcerptValue };

    ghost view = { λ s. option_map (λ r. r.excerpt) s.routing };
}

impl Shown {
    /// What is shown about a destination, if one is asked about: its routing is settled from scratch.
    pub(crate) fn of(
        alloc: Global,
        net: &Frozen,
        about: Option<PointCode>,
    ) -> Result<Shown, PictureFault>
        ensures ok { IfOk result (λ shown. shown ≡ shown_of net.now about) }
        ensures planned { IfOk result (λ _. lacks_plan net.now about ≡ false) }
        ensures err { IfErr result (λ fault. fault ≡ picture_fault net.now about) }
    {
        let Some(dest) = about else {
            return Ok(Shown { routing: None });
        };
        let excerpt = excerpt_of(net, dest)?;
        match SharedRouting::of(alloc, excerpt) {
            Ok(routing) => Ok(Shown {
                routing: Some(routing),
            }),
            Err(_) => Err(PictureFault::OutOfMemory),
        }
    }

    /// Whether a destination is asked about.
    pub(crate) fn is_about(&self) -> bool
        ensures { result ≡ is_some self.now }
    {
        self.routing.is_some()
    }

    /// The colour of a point.
    pub(crate) fn colour(&self, point: PointCode) -> Colour
        ensures { result ≡ the_colour self.now point }
    {
        match &self.routing {
            Some(routing) => colour_by(&routing.routing(), point),
            None => Colour::White,
        }
    }

    /// The destination, if one is asked about.
    pub(crate) fn dest(&self) -> Option<PointCode>
        ensures { result ≡ dest_of self.now }
    {
        match &self.routing {
            Some(routing) => Some(routing.dest()),
            None => None,
        }
    }

    /// How many signalling link selections a point leads over another to the destination, if it leads traffic there.
    pub(crate) fn share(&self, point: PointCode, other: PointCode) -> Option<u64>
        ensures { result ≡ share_of self.now point other }
    {
        match &self.routing {
            Some(routing) => share_by(&routing.routing(), point, other),
            None => None,
        }
    }
}

/// The colour of a point by a routing.
fn colour_by(routing: &Routing, point: PointCode) -> Colour
    ensures { result ≡ colour_towards (source_of routing.now.excerpt) point }
{
    if point == routing.dest() {
        Colour::Destination
    } else if routing.excerpt().row(point).is_some() {
        colour_of(routing.status(point))
    } else {
        Colour::White
    }
}

/// Whether a point leads traffic over another.
#[tactic(auto, using(transfer_state::proofs::RouteLemmas::row_none))]
fn leads(routing: &Routing, point: PointCode, other: PointCode) -> bool
    ensures { result ≡ leads_of (source_of routing.now.excerpt) point other }
{
    match routing.row(point) {
        Some((_, choice)) => is_member(other, &choice),
        None => false,
    }
}

/// How many of the sixteen signalling link selections a point leads over another.
#[tactic(auto, using(transfer_state::proofs::RouteLemmas::row_none))]
fn selections(routing: &Routing, point: PointCode, other: PointCode) -> u64
    ensures { result ≡ selections_over (source_of routing.now.excerpt) point other }
{
    match routing.row(point) {
        Some((row, choice)) => share_over(row, &choice, other),
        None => 0,
    }
}

/// The same, if it leads traffic there.
fn share_by(routing: &Routing, point: PointCode, other: PointCode) -> Option<u64>
    ensures { result ≡ share_towards (source_of routing.now.excerpt) point other }
{
    if leads(routing, point, other) {
        Some(selections(routing, point, other))
    } else {
        None
    }
}
