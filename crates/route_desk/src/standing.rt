//! What stands in a network against an event that is refused.

use crate::net_sentences::{NetSentence, set_of};
use net_data::{Event, Net, Refusal};
use net_items::lookups::find_point;
use net_items::{Kind, LinkSet};
use plan_rows::uses::{uses_point, uses_set};
use point_codes::PointCode;
use std::alloc::AllocError;

/// What stands before a word of a list of so many.
fn gap_before(position: usize, count: usize) -> &'static str {
    if position == 0 {
        return " ";
    }
    if position.saturating_add(1) == count {
        return " and ";
    }
    ", "
}

/// The first set that ends at a point.
fn set_at_point(net: &Net, code: PointCode) -> Option<&LinkSet> {
    net.sets().iter().find(|set| set.a == code || set.b == code)
}

/// The set that an event names by its id.
fn id_in(event: &Event) -> Option<u16> {
    match event {
        Event::Link(id, ..)
        | Event::AddSet(id, ..)
        | Event::RemoveSet(id)
        | Event::AddLink(id, _)
        | Event::RemoveLink(id, _) => Some(*id),
        _ => None,
    }
}

impl<'a> NetSentence<'a> {
    /// Adds a set with the codes of its links: `set 36 has links 0 and 1`.
    fn put_links(&mut self, set: &LinkSet) -> Result<(), AllocError> {
        let (id, list) = (set.id, set.links.listed());
        let links = list.as_slice();
        let plural = if links.len() == 1 { "" } else { "s" };
        let head = format!(in self.alloc; "set {id} has link{plural}")?;
        self.put(head.as_str())?;
        for (position, link) in links.iter().enumerate() {
            let (gap, slc) = (gap_before(position, links.len()), link.slc);
            let word = format!(in self.alloc; "{gap}{slc}")?;
            self.put(word.as_str())?;
        }
        Ok(())
    }

    /// Adds a set with its two points: `set 36 joins 2-1-1 and 2-10-1`.
    fn put_ends(&mut self, set: &LinkSet) -> Result<(), AllocError> {
        let id = set.id;
        let head = format!(in self.alloc; "set {id} joins ")?;
        self.put_about(head.as_str(), set.a)?;
        self.put_about(" and ", set.b)
    }

    /// Adds a point with its kind, and its mate if it has one: `2-10-1 is a transfer point, the mate of 2-10-2`.
    fn put_point(&mut self, code: PointCode) -> Result<(), AllocError> {
        let net = self.net;
        net.validity();
        let Some(point) = find_point(net.points(), code) else {
            return Ok(());
        };
        self.put_about("", code)?;
        self.put(match point.kind {
            Kind::Sep => " is an end point",
            Kind::Stp => " is a transfer point",
        })?;
        match point.mate {
            Some(mate) => self.put_about(", the mate of ", mate),
            None => Ok(()),
        }
    }

    /// Adds that a plan uses something: `the plan of 2-1-1 uses it`.
    fn put_plan(&mut self, dest: PointCode) -> Result<(), AllocError> {
        self.put_about("the plan of ", dest)?;
        self.put(" uses it")
    }

    /// Adds the first plan that uses a point.
    fn put_user_of_point(&mut self, code: PointCode) -> Result<(), AllocError> {
        let plans = self.net.plans();
        for position in 0..plans.len() {
            let plan = plans.at(position);
            if uses_point(code, plan) {
                return self.put_plan(plan.dest);
            }
        }
        Ok(())
    }

    /// Adds the first plan of which a row leads over a set.
    fn put_user_of_set(&mut self, set: &LinkSet) -> Result<(), AllocError> {
        let net = self.net;
        net.validity();
        let plans = net.plans();
        for position in 0..plans.len() {
            let plan = plans.at(position);
            if uses_set(net.points(), set, plan) {
                return self.put_plan(plan.dest);
            }
        }
        Ok(())
    }

    /// Adds what a point is used by: a set that ends at it, or a plan.
    fn put_use_of_point(&mut self, code: PointCode) -> Result<(), AllocError> {
        match set_at_point(self.net, code) {
            Some(set) => self.put_ends(set),
            None => self.put_user_of_point(code),
        }
    }

    /// Adds what stands against an event about a set.
    fn put_about_set(&mut self, id: u16, refusal: Refusal) -> Result<(), AllocError> {
        let Some(set) = set_of(self.net, id) else {
            return self.put_missing_set(id);
        };
        match refusal {
            Refusal::NoLink | Refusal::LinkThere | Refusal::LastLink => self.put_links(set),
            Refusal::SetThere | Refusal::Joined(_) => self.put_ends(set),
            Refusal::SetUsed => self.put_user_of_set(set),
            _ => Ok(()),
        }
    }

    /// Adds what stands against an event about points or a pair.
    fn put_about_points(&mut self, event: &Event, refusal: Refusal) -> Result<(), AllocError> {
        match (event, refusal) {
            (Event::AddPoint(code, _), Refusal::PointThere)
            | (Event::Unpair(code), Refusal::NotPaired) => self.put_point(*code),
            (Event::RemovePoint(code), Refusal::PointUsed) => self.put_use_of_point(*code),
            (Event::Pair(one, other), Refusal::Paired | Refusal::NotStp) => {
                self.put_point(*one)?;
                self.put("; ")?;
                self.put_point(*other)
            }
            _ => Ok(()),
        }
    }

    /// Adds what stands in the network against an event about points, a pair or a set.
    fn put_about_event(&mut self, event: &Event, refusal: Refusal) -> Result<(), AllocError> {
        match id_in(event) {
            Some(id) => self.put_about_set(id, refusal),
            None => self.put_about_points(event, refusal),
        }
    }

    /// Adds what stands in the network against an event that is refused there, if that can be told.
    pub fn put_standing(&mut self, event: &Event, refusal: Refusal) -> Result<(), AllocError> {
        match (refusal, event) {
            (Refusal::Joined(id), _) => self.put_about_set(id, refusal),
            (Refusal::BadRow(point, cause), _) => self.put_bad_row(point, cause),
            (Refusal::NoPoint, _) => self.put_missing_point(event),
            (Refusal::NoPlan, Event::DropPlan(dest)) => {
                self.put_missing_plan(*dest)?;
                Ok(())
            }
            _ => self.put_about_event(event, refusal),
        }
    }
}
