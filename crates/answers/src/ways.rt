//! The ways of a row: what it is offered over each via, and over its mate.

ghost use Rattle.std.specs.Prelude.{◌≡◌, ◌==◌, ◌++◌, ◌&&◌, ◌∷◌, [], map, IfOk, OnOk};
ghost use Rattle.profile.specs.Local.{is_member as is_member_of};
ghost use Rattle.profile.specs.Valid.{IsSmall};
ghost use Rattle.excerpts.specs.Excerpt.{source_of};
ghost use Rattle.answers.specs.Ways.{class_ways, mate_ways, offer_over, via_way, way_over, ways_of as all_ways};

use excerpts::Excerpt;
use net_items::copies::copy_set;
use net_items::{LinkSet, Row};
use point_codes::PointCode;
use route_choice::{Choice, Far};
use std::alloc::{AllocError, Global};
use std::marker::Model;
use transfer_state::{Routing, is_member};
use what_if::mate_row;

/// What a point is offered over an adjacent one.
#[derive(Drop)]
pub enum Offer {
    /// An available set joins them: the status of that one (Q.704 clause 3.2).
    Far(Far),
    /// No link of the set between them is available: that set, and the status of that one.
    Down(LinkSet, Far),
    /// No set joins them. A row of a valid network has no such way.
    Unjoined,
}

/// A way of a row.
#[derive(Drop)]
pub struct Way {
    /// The number of the via's class, 1 to 4, or 5 for the mate, as in a choice.
    pub class: u8,
    /// The via, or the mate.
    pub over: PointCode,
    /// What the row's point is offered over it.
    pub offer: Offer,
    /// Whether the row leads its traffic over it.
    pub used: bool,
}

/// The ways of a row: over the vias of each class, the first first, and then over the mate, if the row may use it.
#[derive(Drop)]
pub struct Ways {
    list: Vec<Way>,
}

impl Model for Ways {
    ghost use Rattle.std.specs.Prelude.{List};
    ghost use Rattle.answers.specs.declared.ways.Way.{Way};

    ghost Value = { List Way };

    ghost view = { λ ways. ways.list.items };
}

/// What a point is offered over an adjacent one that has this status.
fn offer_of(
    alloc: Global,
    excerpt: &Excerpt,
    point: PointCode,
    other: PointCode,
    far: Far,
) -> Result<Offer, AllocError>
    ensures { IfOk result (λ offer. offer ≡ offer_over (source_of excerpt.now) point other far) }
{
    if excerpt.is_connected(point, other) {
        return Ok(Offer::Far(far));
    }
    match excerpt.set_between(point, other) {
        Some(set) => Ok(Offer::Down(copy_set(set), far)),
        None => Ok(Offer::Unjoined),
    }
}

/// Whether a choice uses a via of a class.
fn is_used(choice: &Choice, class: u8, via: PointCode) -> bool
    ensures { result ≡ ((choice.now.class == class) && is_member_of via choice.now) }
{
    choice.class == class && is_member(via, choice)
}

impl Ways {
    /// Adds the way over a via of a class.
    fn add_via(
        &mut self,
        alloc: Global,
        routing: &Routing,
        row: &Row,
        choice: &Choice,
        class: u8,
        via: PointCode,
    ) -> Result<(), AllocError>
        ensures { OnOk result (self.new ≡ self.old ++ via_way (source_of routing.now.excerpt) row.now choice.now class via ∷ []) }
    {
        let far = routing.status(via);
        let offer = offer_of(alloc, routing.excerpt(), row.point, via, far)?;
        self.list.push(Way {
            class,
            over: via,
            offer,
            used: is_used(choice, class, via),
        })?;
        Ok(())
    }

    /// Adds the ways over the vias of a class.
    fn add_class(
        &mut self,
        alloc: Global,
        routing: &Routing,
        row: &Row,
        choice: &Choice,
        class: u8,
        vias: &[PointCode],
    ) -> Result<(), AllocError>
        ensures { OnOk result (self.new ≡ self.old ++ map (via_way (source_of routing.now.excerpt) row.now choice.now class) vias.now) }
    {
        for via in vias {
            self.add_via(alloc, routing, row, choice, class, *via)?;
        }
        Ok(())
    }

    /// Adds the ways over the vias of all classes.
    fn add_classes(
        &mut self,
        alloc: Global,
        routing: &Routing,
        row: &Row,
        choice: &Choice,
    ) -> Result<(), AllocError>
        requires { IsSmall row.now }
        ensures { OnOk result (self.new ≡ self.old ++ class_ways (source_of routing.now.excerpt) row.now choice.now 1 row.now.classes) }
    {
        let mut class = 1u8;
        let mut rest = row.classes.as_slice();
        while let Some((vias, more)) = rest.split_first() {
            self.add_class(alloc, routing, row, choice, class, vias.as_slice())?;
            class += 1;
            rest = more;
        }
        Ok(())
    }

    /// Adds the way over the mate, if the row may use it.
    fn add_mate(
        &mut self,
        alloc: Global,
        routing: &Routing,
        row: &Row,
        choice: &Choice,
    ) -> Result<(), AllocError>
        ensures { OnOk result (self.new ≡ self.old ++ mate_ways (source_of routing.now.excerpt) row.now choice.now) }
    {
        let excerpt = routing.excerpt();
        let Some(mate) = mate_row(excerpt, row) else {
            return Ok(());
        };
        let far = routing.direct_status(mate.point);
        let offer = offer_of(alloc, excerpt, row.point, mate.point, far)?;
        self.list.push(Way {
            class: 5,
            over: mate.point,
            offer,
            used: choice.class == 5,
        })?;
        Ok(())
    }

    /// The ways of a row of a routing that uses this choice.
    pub(crate) fn of(
        alloc: Global,
        routing: &Routing,
        row: &Row,
        choice: &Choice,
    ) -> Result<Ways, AllocError>
        requires { IsSmall row.now }
        ensures { IfOk result (λ ways. ways ≡ all_ways (source_of routing.now.excerpt) row.now choice.now) }
    {
        let mut ways = Ways {
            list: Vec::new(alloc),
        };
        ways.add_classes(alloc, routing, row, choice)?;
        ways.add_mate(alloc, routing, row, choice)?;
        Ok(ways)
    }

    /// The ways as a slice.
    pub fn as_slice(&self) -> &[Way]
        ensures { result.now ≡ self.now }
    {
        self.list.as_slice()
    }
}
